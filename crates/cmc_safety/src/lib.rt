//! The promise of this project, proved of every run: what is issued, asked, raised and approved is good, and each role keeps to its rights.
#![tactic(auto)]

mod laws;

pub use laws::{
    no_call_is_invalid, runs_are_safe, undisturbed_issuing_completes, what_stands_is_in_order,
};
