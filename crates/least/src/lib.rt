// Laws alone: what the maker's order holds, that what is made is accepted, and that no code has fewer ones. There is nothing to run here.
#![tactic(auto)]
