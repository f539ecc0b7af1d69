// Laws alone: what a pass does to an image and its journal. There is nothing to run here.
#![tactic(auto)]
