// Bits and numbers of a slice of bytes: what they are, with their laws, and the numbers of up to eight bytes.
#![tactic(auto)]

pub mod numbers;
