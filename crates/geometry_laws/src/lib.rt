// What holds of polylines whose points lie in the range of an accepted plan. Theorems only: see proofs/.
#![tactic(auto)]
