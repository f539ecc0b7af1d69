// What the card check is for: two or more flips within one card of a card-proof code are flagged. No functions: laws in proofs/.
#![tactic(auto)]
