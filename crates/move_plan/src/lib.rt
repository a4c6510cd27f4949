// An hour inserted or struck: every hour behind it moves by one place, so each page from there on takes a count in and loses one. Which
// counts these are, and how many cells each page is to have, is worked out before anything is written.
#![tactic(auto)]

pub mod cells;
pub mod leaving;
pub mod shift;
