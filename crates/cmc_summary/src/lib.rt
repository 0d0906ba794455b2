//! The summary of a run: what stands at its end, and what each Certificate that is not Ready waits for. Plain data.
#![tactic(auto)]

mod summary;

pub use summary::{Summary, WaitName, Waiting, Waits};
