//! The controller that asks issuers for certificates, and marks requests that are denied. What an issuer's answer makes
//! of the status of a request is given apart, since users who answer in an issuer's place write the same.
#![tactic(auto)]

mod acts;
mod answering;
mod calls;
mod following;
mod laws;
mod questions;
mod replies;

pub use acts::act;
pub use answering::status_of;
pub use following::{follow, then};
pub use laws::is_sound;
