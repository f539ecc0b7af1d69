// Laws alone: passes over runs apart may come in any order, and what a later pass finds of a record that two runs share. There is nothing
// to run here.
#![tactic(auto)]
