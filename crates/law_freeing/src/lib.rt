// What giving blocks back leaves, one block in the words of document 01: laws only.
#![tactic(auto)]
