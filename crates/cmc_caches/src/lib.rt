//! The accepted writes, what the roles were told of them, and what a role sees of a key.
#![tactic(auto)]

mod affected;
mod board;
mod caches;
mod column;
mod gather;
mod left;
mod line;
mod lines;
mod listed;
mod shown;
mod touched;
mod viewing;
mod walk;

pub use caches::Caches;
