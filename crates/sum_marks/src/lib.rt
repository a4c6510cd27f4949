// Marks of the sums of counts, by which the first of them with a given sum are found.
#![tactic(auto)]

pub mod marks;
pub mod prefix;
