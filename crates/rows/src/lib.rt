// How the rows of a plan's tables are read. Definitions only: specs/.
#![tactic(auto)]
