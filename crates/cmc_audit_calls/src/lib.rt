//! The call that a line of a printed history shows, and whether a line shows a reply.
#![tactic(auto)]

mod keys;
mod reading;
mod replies;

pub use reading::read_call;
pub use replies::shows;
