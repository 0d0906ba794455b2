//! The summary line of a run, read from the JSON that is printed of it.
//!
//! A value that is none fails at the first failing path of a walk in depth: an object's members in byte order of
//! their names, a missing member at its place, a list's items in order.
#![tactic(auto)]

mod laws;
mod summary;
mod waits;

pub use laws::{read_has_form, summary_is_read};
pub use summary::summary_of;
