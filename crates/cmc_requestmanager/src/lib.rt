//! The controller that keeps the CertificateRequest of a Certificate's issuance in progress.
#![tactic(auto)]

mod acts;
mod calls;
mod choices;
mod following;
mod laws;
mod questions;

pub use acts::{act, is_idle};
pub use following::{follow, then};
pub use laws::is_sound;
