// Histories of calls and losses (00, demand 2): definitions and theorems only.
#![tactic(auto)]
