// Tables of the older limit, before 2026-08, and new tables at the older step 1: definitions and theorems, no functions.
#![tactic(auto)]
