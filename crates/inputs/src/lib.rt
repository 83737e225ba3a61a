// Whatever way an input is cut into reads, what is printed is what is stated for all of it: statements over steps and their proofs, no code.
#![tactic(auto)]
