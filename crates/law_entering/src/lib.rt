// What a new entry of a table keeps: laws only.
#![tactic(auto)]
