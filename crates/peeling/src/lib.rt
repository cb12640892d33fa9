// The passes of a rebuild over the cells of one tuple: definitions and theorems only.
#![tactic(auto)]
