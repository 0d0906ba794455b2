//! Scenarios, read from JSON and printed.
//!
//! A value that is no scenario fails at the first failing path of a walk in depth: an object's
//! members in byte order of their names, a missing member at its place, a list's items in order.
#![tactic(auto)]

mod applied;
mod certificate_steps;
mod generating;
mod members;
mod reading;
mod role_steps;
mod roles;
mod step;
mod steps;

pub use cmc_scenario_print::value_of_scenario;
pub use cmc_setup::{Roles, Scenario, Steps, is_setup};
pub use generating::generate;
pub use members::{LARGEST_SIZE, faults, now};
pub use reading::{BadScenario, read};
pub use roles::kind;
