// A fresh picture is sound: laws only.
#![tactic(auto)]
