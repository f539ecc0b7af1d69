// Laws alone: what the byte-correcting code does to errors within one byte and within two.
#![tactic(auto)]
