// Cells moved between a page's chain and the free chain, and the page's code written along its chain.
#![tactic(auto)]

pub mod block;
mod fill;
mod links;
pub mod numbers;
pub mod rewrite;
