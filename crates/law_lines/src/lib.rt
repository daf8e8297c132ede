// What is written is read back, and lines worked out: laws only.
#![tactic(auto)]
