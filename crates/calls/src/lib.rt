// Demand 1 of every public call, and the first two sentences of demand 2, gathered: definitions and theorems only.
#![tactic(auto)]
