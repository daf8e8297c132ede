// The pick's rule in words, and the law of turns for real pictures: laws only.
#![tactic(auto)]
