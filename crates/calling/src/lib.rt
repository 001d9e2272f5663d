// What the public calls have in common. Laws only: specs/ has them.
#![tactic(auto)]
