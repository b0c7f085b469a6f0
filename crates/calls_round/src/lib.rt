// What is proved of calls as text, both ways; no code.
#![tactic(auto)]
