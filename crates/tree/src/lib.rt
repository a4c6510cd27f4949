// The tree code: 2^h counts with a known sum as bits. Here are its definitions and laws, the reading of a node, and sums of counts of a
// list; the crates above, from `tree_write` to `tree_search`, have the recursions. In all of them h falls; but for `tree_word` and
// `tree_whole`, which have a word, a tree's bits are read and written by their address in the whole slice. A tree's place, height and sum
// go from function to function as numbers, with `Lies`; so do the digits of the sum (`t ≡ digits s`) and the tree's reserve (`r ≡ reserve h
// s`), which whoever is above works out once. They are no `struct Tree { bytes, at, height, sum, ghost lies }`, since that goes through
// memory at each step: a search by it takes 5 to 13 hundredths longer by value, and 9 to 12 where it is lent.
// Numbers of bits and indices go from u32 and u64 to usize and back by `as`, here and above: std has no `From` between these.
#![tactic(auto)]

pub mod node;
pub mod sums;
