// With one disk lost: what the passes do and which units its bytes come from: definitions and theorems only.
#![tactic(auto)]
