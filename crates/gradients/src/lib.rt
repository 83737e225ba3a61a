// Brighter never packs darker, of calls: statements over what the packers give in both readings, and their proofs; no code.
#![tactic(auto)]
