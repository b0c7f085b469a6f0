// A vote as a run knows it, and what is true of the run of any lawful vote: definitions and laws only, in specs/ and proofs/.
#![tactic(auto)]
