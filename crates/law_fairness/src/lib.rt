// The law of turns is a theorem about numbers: specs/ states it, proofs/ proves it, and no code is here.
#![tactic(auto)]
