// What is at stake when sites break: how many others one site takes with it, and the fewest faulty sites that leave nobody intact.
#![tactic(auto)]
