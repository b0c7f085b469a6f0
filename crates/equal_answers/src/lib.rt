// Two tables, of whichever form, of which one lists the smallest slices of the other: every public answer is the same. Statement and proof.
#![tactic(auto)]
