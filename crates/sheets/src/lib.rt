// Laws alone: what the figures of a sheet are. There is nothing to run here.
#![tactic(auto)]
