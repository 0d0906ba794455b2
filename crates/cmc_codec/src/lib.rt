//! Kubernetes objects read from JSON, and what printing and reading make of each other.
//!
//! Objects are read over the cursor of `cmc_cursor`, so that a value that is none fails at its
//! first failing path.
#![tactic(auto)]

mod certificate_in;
mod given;
mod laws;
mod metadata_in;
mod object_in;
mod owners_in;
mod request_in;

pub use cmc_print::value_of;
pub use laws::{print_gives_back, printed_is_read};
pub use object_in::{Applied, applied_of, object_of};
