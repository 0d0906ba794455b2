//! What is known of every run that rests, and of one issuance. Nothing here runs: each function is a law.
#![tactic(auto)]

mod at_rest;
mod begins;
mod calm;
mod issuance;
mod lengths;
mod own;

pub use at_rest::{each_certificate_is_settled_at_rest, what_can_be_issued_is_ready_at_rest};
pub use begins::no_pass_begins_for_nothing;
pub use calm::{plain_begins_see_all, plain_passes_run_alone};
pub use issuance::{
    due_at_once, lead_is_below_the_lifetime, nothing_is_due_after_a_failure,
    nothing_is_due_after_an_issuance,
};
pub use lengths::length_is_bounded;
pub use own::{made_key_fits, own_request_is_wanted};
