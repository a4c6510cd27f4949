// An image read back is its list: laws alone, in proofs/.
#![tactic(auto)]
