// The owner left out of blocking: what changed with it and what did not. Statements and proofs only, in specs/ and proofs/.
#![tactic(auto)]
