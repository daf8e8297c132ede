// Each key only for its cause: laws only.
#![tactic(auto)]
