//! Scenarios as JSON: the tree of a scenario, in which what is absent, empty or the default is left
//! out.
#![tactic(auto)]

mod approvers;
mod patterns;
mod policies;
mod rows;
mod scenarios;
mod steps;
mod unless;

pub use scenarios::value_of_scenario;
