// Laws alone: what writing and reading do under sound columns. There is nothing to run here.
#![tactic(auto)]
