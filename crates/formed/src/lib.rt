// What an answered call gives is well formed, and bitcast there and back is the value: statements over `fold_in` and their proofs, no code.
#![tactic(auto)]
