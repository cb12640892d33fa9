// Which losses the passes always undo: definitions and theorems only.
#![tactic(auto)]
