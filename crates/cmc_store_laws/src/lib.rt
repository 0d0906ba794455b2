//! Laws of what the store answers in histories.
#![tactic(auto)]

mod laws;

pub use laws::generated_names_are_free;
