// The bands of a sheet: definitions and theorems, no functions.
#![tactic(auto)]
