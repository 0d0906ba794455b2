//! Laws of audits: what a run prints is audited yes. Nothing here runs: each function is a law.
#![tactic(auto)]

mod counted;
mod naming;
mod passing;
mod printing;
mod summing;
mod typed;

pub use counted::entries_are_counted;
pub use naming::entries_name_their_keys;
pub use passing::{each_run_is_audited_yes, each_world_is_audited_yes};
pub use printing::{
    each_load_is_read_again, each_value_that_is_read_is_read_again, what_is_printed_is_a_history,
    what_is_printed_is_audited_yes, what_is_printed_of_a_world_is_audited_yes,
};
pub use summing::summary_is_typed;
pub use typed::entries_are_typed;
