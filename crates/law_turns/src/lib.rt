// What pick and tick keep: laws only.
#![tactic(auto)]
