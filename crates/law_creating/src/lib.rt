// What creating a job keeps and refuses: laws only.
#![tactic(auto)]
