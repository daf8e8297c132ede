// What a sound picture gives, and what makes a picture sound: laws only.
#![tactic(auto)]
