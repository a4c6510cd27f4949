// A page of the live store between its cells and its counts, and the sums of pages.
#![tactic(auto)]

pub mod code;
pub mod entry;
pub mod sums;
