// Laws alone: the code word that is recovered is the only one, and what the finder finds. There is nothing to run here.
#![tactic(auto)]
