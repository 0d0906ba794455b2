//! The text of a run.
//!
//! The first line is the scenario as it was read, then comes one line for each entry of the history
//! from the oldest on, and last the summary. A line is compact JSON, with members in byte order.
#![tactic(auto)]

mod calls;
mod entries;
mod lines;
mod orders;
mod summaries;
mod text;

pub use calls::write_call_by;
pub use lines::Lines;
pub use summaries::scenario_line;
pub use text::{history_text, summary_text};
