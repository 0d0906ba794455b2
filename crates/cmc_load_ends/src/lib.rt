//! How long a plain run of a load gets, and that it comes to its end. Nothing here runs: each function is a law.
#![tactic(auto)]

mod loads;

pub use loads::{
    generated_loads_end, generated_scenario_is_a_load, load_length_is_linear, role_writes_are_few,
};
