// The calls of the C interface, as functions: each hands the lent bytes on and packs the answer into one word. What each does, its clause
// and include/hourlog.h say. They stand here for the proofs that rest on them, and again in hourlog_c_c, which exports them: a crate is a
// library or a static library, and not both.
#![tactic(auto)]

pub mod image_calls;
pub mod store_calls;
