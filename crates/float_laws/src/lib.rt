// What the definitions of `float` mean: a theory, with no functions. specs/ says the properties, proofs/ has the theorems.
#![tactic(auto)]
