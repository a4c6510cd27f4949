// What the second edition of the image left as it was: a claim with its proof, no code.
#![tactic(auto)]
