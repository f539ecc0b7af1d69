// Laws alone: what the columns of an accepted code keep. There is nothing to run here.
#![tactic(auto)]
