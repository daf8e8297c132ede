// Laws of ending a tree: what is taken, what stays, and that a sound picture stays sound.
#![tactic(auto)]
