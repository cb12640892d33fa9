// What every promise settles: theorems only, over the promises of the public functions.
#![tactic(auto)]
