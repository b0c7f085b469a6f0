// The chain of n sites as a table, which reaches the bound of passes: what its check and its slices say. Laws only, in proofs/.
#![tactic(auto)]
