// What the lines of a report are, that $2 meets the same jobs, and what each key is given for: laws without functions.
#![tactic(auto)]
