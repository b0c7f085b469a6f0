// What every crate stands on and the kit's library lacks: definitions and laws only, in specs/ and proofs/.
#![tactic(auto)]
