// What opening a channel keeps: laws only.
#![tactic(auto)]
