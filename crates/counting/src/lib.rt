// Definitions and laws alone: searching and counting over the numbers below a bound.
#![tactic(auto)]
