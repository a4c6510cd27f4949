// The C interface: include/hourlog.h declares these functions. A crate is a library or a static library, and not both, so each hands what
// it is given to the function of the same name in hourlog_c, and promises the same.
#![tactic(auto)]

pub mod image_calls;
pub mod store_calls;
