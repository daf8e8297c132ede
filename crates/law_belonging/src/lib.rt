// To whom a new job belongs, over whole histories: laws only.
#![tactic(auto)]
