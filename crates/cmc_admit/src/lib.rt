//! Admission: the rules that refuse a create, an update or a status update (cert-manager.io/v1 API reference,
//! Kubernetes API conventions).
//!
//! No call takes memory.
#![tactic(auto)]

mod admitting;
mod certificates;
mod requests;
mod secrets;

pub use admitting::{Invalid, admit};
pub use requests::is_spec_kept;
