// The calls of jobs keep a sound picture sound, and tags rise: laws only.
#![tactic(auto)]
