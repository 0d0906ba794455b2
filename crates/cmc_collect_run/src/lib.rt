//! Runs scripts of owner collection, and prints what they make.
//!
//! The first line is the scenario as it was read, then comes one line for each entry from the oldest on, and last what was
//! deleted and what exists. A line is compact JSON, with members in byte order.
#![tactic(auto)]

mod answering;
mod lines;
mod running;
mod text;

pub use answering::{NotCollected, collect};
pub use running::{Ran, run_script};
pub use text::collect_text;
