//! Tests of loads: what the roles have left to write is computed as a run goes on, and falls with each of their writes.
#![tactic(auto)]

mod left;
mod parts;

pub use left::left_to_write;

#[cfg(test)]
mod falling;
