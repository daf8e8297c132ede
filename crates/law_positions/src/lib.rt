// Where a new job and a new channel stand: laws only.
#![tactic(auto)]
