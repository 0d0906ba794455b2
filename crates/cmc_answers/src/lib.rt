//! What issuers and approvers answer: the certificates that the rows of a scenario stand for, and the judgement of
//! requests by refused names and approval policies.
#![tactic(auto)]

mod answered;
mod certificates;
mod denial;
mod judged;
mod judging;
mod laws;
mod signing;
mod stand_ins;
mod standing_in;
mod wanting;

pub use answered::{Answered, ScriptedSigner, Signer};
pub use denial::Denial;
pub use judged::{Judged, judge};
pub use laws::issued_is_read;
pub use signing::signing_of;
pub use standing_in::{temporary, temporary_is_read};
