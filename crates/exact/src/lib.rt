// Exact values of floats: a theory, with no functions. specs/ has the definitions and laws, proofs/ the laws that rest on these.
#![tactic(auto)]
