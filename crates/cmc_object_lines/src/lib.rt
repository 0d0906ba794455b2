//! Objects written straight into one buffer.
#![tactic(auto)]

mod objects;
mod others;
mod rows;

pub use others::write_object;
pub use rows::{bytes_row, moment_row, some_bytes_row};
