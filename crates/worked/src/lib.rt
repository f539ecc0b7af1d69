// Document 01's worked cases that are marked to be proved, 02's totals and 002's figures: tables in specs/, their claims in proofs/. There
// is nothing to run here.

#![tactic(auto)]
