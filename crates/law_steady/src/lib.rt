// What stays sound while only the turns of jobs change: laws only.
#![tactic(auto)]
