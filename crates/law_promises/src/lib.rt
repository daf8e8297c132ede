// The promises over all calls at once, and over whole histories: laws only.
#![tactic(auto)]
