//! What printing a scenario, and its parts, and reading them make of each other.
#![tactic(auto)]

mod laws;
mod policies;
mod scenarios;

pub use laws::{
    printed_certificate_is_read, printed_key_is_read, printed_material_is_read,
    printed_reply_is_read, printed_rows_are_read,
};
pub use policies::{printed_approver_is_read, printed_policy_is_read};
pub use scenarios::{printed_scenario_is_read, printed_step_is_read, scenarios_leave_nothing_free};
