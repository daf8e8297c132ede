// The blocks of an area as a row, in the words of document 01: laws only.
#![tactic(auto)]
