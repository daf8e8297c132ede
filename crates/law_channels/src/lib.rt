// What opening and closing a channel keep: laws only.
#![tactic(auto)]
