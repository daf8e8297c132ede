// What soundness says of owners, and of the trees that they make: laws only.
#![tactic(auto)]
