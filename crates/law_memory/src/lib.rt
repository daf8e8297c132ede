// What the calls on memory keep and refuse: laws only.
#![tactic(auto)]
