//! The issuing controller of cert-manager: it ends the issuance of a Certificate, with the Secret and a new revision,
//! with a failure, or for a while with a temporary certificate.
#![tactic(auto)]

mod acts;
mod choices;
mod deciding;
mod laws;
mod plans;
mod secrets;
mod statuses;
mod writes;

pub use acts::{act, is_idle};
pub use laws::is_sound;
pub use writes::{secret_of, status_of};
