// The rules of a vote: the state, what each call makes of it, and what a sound state is; definitions and laws only, in specs/ and proofs/.
#![tactic(auto)]
