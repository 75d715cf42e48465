// The mathematics of the lookup: theorems, no functions.
#![tactic(auto)]
