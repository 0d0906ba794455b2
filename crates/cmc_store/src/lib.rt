//! The versioned store: a plain store of objects that answers one call at a time, with optimistic
//! concurrency by resource versions (Kubernetes API conventions).
#![tactic(auto)]

mod calls;
mod catalogue;
mod changes;
mod claims;
mod generating;
mod names;
mod shelf;
mod store;

pub use calls::Replied;
pub use changes::{make, restatement, revision};
pub use generating::settled;
pub use names::generated_name;
pub use shelf::Shelf;
pub use store::Store;
