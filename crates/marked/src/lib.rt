// The marked entries of the paper: one table of cases and one statement, no functions.
#![tactic(auto)]
