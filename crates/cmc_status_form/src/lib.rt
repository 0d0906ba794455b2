//! Statuses, and objects with their status, read from the JSON that is printed of them.
//!
//! A value that is none fails at the first failing path of a walk in depth: an object's members in byte order of
//! their names, a missing member at its place, a list's items in order.
#![tactic(auto)]

mod conditions;
mod given;
mod laws;
mod request;
mod status;
mod whole;

pub use given::moment;
pub use laws::{read_has_form, whole_is_read};
pub use whole::whole_object_of;
