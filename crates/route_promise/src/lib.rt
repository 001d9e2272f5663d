// Definitions and laws only: specs/ states demand 3, proofs/ proves it.
#![tactic(auto)]
