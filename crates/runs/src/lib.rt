// No function: the laws of records, runs, images, journals and tallies stand in proofs/, for the crates above.
#![tactic(auto)]
