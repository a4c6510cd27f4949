// An hour inserted into the list of a sound store, or struck from it.
#![tactic(auto)]

mod carry;
pub mod edit;
