// What it says of two lists that they are the same calls: statements and proofs only, in specs/ and proofs/.
#![tactic(auto)]
