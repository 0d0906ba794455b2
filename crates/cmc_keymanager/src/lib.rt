//! The controller that keeps the private key of a Certificate's issuance in progress, in a Secret of its own.
#![tactic(auto)]

mod acts;
mod calls;
mod following;
mod laws;
mod questions;

pub use acts::act;
pub use following::{follow, then};
pub use laws::is_sound;
