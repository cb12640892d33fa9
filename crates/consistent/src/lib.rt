// What "consistent" means, and what follows from it: definitions and theorems only.
#![tactic(auto)]
