//! The scripts of owner collection, read from JSON.
//!
//! A value that is none fails at the first failing path of a walk in depth: an object's members in byte order of
//! their names, a missing member at its place, a list's items in order.
#![tactic(auto)]

mod reading;
mod script;
mod step;
mod steps;

pub use reading::{BadCollection, read};
pub use script::{CollectScript, CollectStep, CollectSteps};
