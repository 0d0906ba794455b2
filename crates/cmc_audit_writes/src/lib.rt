//! The tests of what an accepted call leaves and of a question, by what is kept of a printed history.
#![tactic(auto)]

mod issues;
mod kept;

pub use kept::{approves_well, is_write, leaves_revision, may_ask, raises_well};
