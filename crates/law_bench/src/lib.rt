// Document 01's desk bench: the marked cases as theorems, and names of every kind.
#![tactic(auto)]
