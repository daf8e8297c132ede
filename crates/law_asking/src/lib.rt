// What $2 answers, and for whom: laws without functions.
#![tactic(auto)]
