//! What is known of a load: each write of a role is for one Certificate, and lowers what is left to write for it. Nothing here
//! runs: each function is a law.
#![tactic(auto)]

mod lowering;
mod writes;

pub use lowering::{
    current_writes_lower_the_measure, each_load_write_lowers_the_measure,
    load_writes_lower_the_measure, plain_writes_lower_the_measure,
};
pub use writes::each_write_is_for_one_certificate;
