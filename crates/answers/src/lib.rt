// What the public calls answer, and the refusals by their numbers.
#![tactic(auto)]

pub mod image;
pub mod refusal;
pub mod store;
