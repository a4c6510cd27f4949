// Over and back, between a book and an image, has no code of its own: it is one claim in specs/, over the definitions that the contracts of
// book_in and book_out cite, and is proved in proofs/.
#![tactic(auto)]
