//! The history of a run: a list of entries that only grows.
#![tactic(auto)]

mod history;
mod standing;

pub use history::History;
