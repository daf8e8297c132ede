// What placing a block leaves: laws only.
#![tactic(auto)]
