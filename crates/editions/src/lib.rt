// The promises of an edition, in specs/, and their proofs. There is nothing to run here.

#![tactic(auto)]
