// The order of bytes over whole histories: laws only.
#![tactic(auto)]
