// The parent list and its tree: definitions and theorems, no functions.
#![tactic(auto)]
