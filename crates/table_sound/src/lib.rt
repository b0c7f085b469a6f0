// What is proved of a table that a text makes; no code.
#![tactic(auto)]
