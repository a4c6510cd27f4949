// The counts of an image that the full check accepts, in their order.
#![tactic(auto)]

pub mod cursor;
