// What is proved of a table that is shown as text and made of that text again; no code.
#![tactic(auto)]
