// What the nearest lane of an accepted plan promises. Theorems only: see specs/ and proofs/.
#![tactic(auto)]
