//! The reading of printed histories: from the text that a run writes to what its lines say.
//!
//! What is read of a line is printed again and compared with it, so that nothing else stands in it.
#![tactic(auto)]

mod history;
mod lines;
mod nesting;
mod said;
mod scenarios;

pub use history::{BadHistory, read_history};
