// What an owner, the inspector or the union may hold us to, in the words of the published paper: statements and proofs only, in specs/ and proofs/.
#![tactic(auto)]
