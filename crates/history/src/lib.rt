// Laws alone: where a put-back ends, that it restores the first image after any passes, and that they can be passed again. There is nothing
// to run here.
#![tactic(auto)]
