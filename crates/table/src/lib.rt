// The prepared table: definitions and theorems, no functions.
#![tactic(auto)]
