// What the calls on queues keep: laws only.
#![tactic(auto)]
