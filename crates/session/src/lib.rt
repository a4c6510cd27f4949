// The lines of the session program: what a line asks.
#![tactic(auto)]

mod line;
mod number;

pub use line::{Command, parse};
