// Laws alone: what the explanations of a word are, in which order they stand, how many, and their bytes. There is nothing to run here.
#![tactic(auto)]
