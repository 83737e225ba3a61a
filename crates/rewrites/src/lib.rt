// What a rewriter of calls may do to them (02, Q-4): statements over `fold_in` in specs/Rewrites and their proofs, no code.
#![tactic(auto)]
