// What stays sound where blocks of one area are placed or given back: laws only.
#![tactic(auto)]
