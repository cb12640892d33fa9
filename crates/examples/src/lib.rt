// The numbered examples of document 01: one table of statements about the definitions that the contracts cite.
#![tactic(auto)]
