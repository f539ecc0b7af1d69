// The demands: what the desk promises, in specs/, and their proofs. There is nothing to run here.

#![tactic(auto)]
