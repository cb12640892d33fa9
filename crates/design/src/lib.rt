// Definitions and laws alone: what a design is.
#![tactic(auto)]
