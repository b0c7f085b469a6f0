// What is proved of an image of thresholds that a text makes; no code.
#![tactic(auto)]
