// The live store: a log of counts in a slice of bytes. Here are its definitions and laws, its header and limits, and what is read from its
// bytes without changing them. Chains that change, a fresh store, the check, a page's code and counts, and the calls stand in crates above.
#![tactic(auto)]

pub mod cells;
pub mod header;
pub mod limits;
pub mod link;
pub mod sound;
pub mod spot;
pub mod total;
