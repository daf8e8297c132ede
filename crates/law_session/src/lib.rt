// The whole case of the session, and a session whose input comes in pieces: laws only.
#![tactic(auto)]
