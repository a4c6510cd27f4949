// The three demands have no code of their own: each is one claim in specs/, over the definitions that the contracts cite, and is proved in
// proofs/.
#![tactic(auto)]
