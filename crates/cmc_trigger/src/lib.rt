//! The controller that decides when a Certificate must be issued: it sets the condition Issuing.
//!
//! Its checks stand in a row of stored closures.
#![tactic(auto)]

mod acts;
mod issuing;
mod laws;
mod reasons;

pub use acts::act;
pub use laws::is_sound;
