// The packed formats: statements over `fold_in`, with the marked numbers of 01, and their proofs; no code.
#![tactic(auto)]
