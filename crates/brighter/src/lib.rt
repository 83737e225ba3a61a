// Brighter never packs darker, of lanes: statements over the codes of a lane in both readings, and their proofs; no code.
#![tactic(auto)]
