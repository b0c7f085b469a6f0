// A run as a call from C or Rust has it: what it says, and what its rooms hold then. Definitions and a law only, in specs/ and proofs/.
#![tactic(auto)]
