// What more coins cost has no code of its own: it is one claim in specs/, proved in proofs/, and the contracts of append and set cite it.
#![tactic(auto)]
