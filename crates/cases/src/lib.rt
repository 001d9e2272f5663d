// Document 01's cases marked P, from the bytes of a plan file to the answer: one table and one theorem. specs/ has them.
#![tactic(auto)]
