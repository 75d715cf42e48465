// One tree under another office's numbering: definitions and theorems, no functions.
#![tactic(auto)]
