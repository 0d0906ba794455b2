//! Approval policies: which certificate requests may be approved (a profile of the CertificateRequestPolicy of
//! cert-manager's approver-policy).
//!
//! Each list type is a small newtype that contracts see as a list.
#![tactic(auto)]

mod allowing;
mod deciding;
mod decision;
mod matching;
mod names;
mod optional;
mod pattern;
mod patterns;
mod policies;
mod policy;
mod wanted;

pub use allowing::allows;
pub use deciding::decide;
pub use decision::{Decision, Field};
pub use matching::matches;
pub use pattern::Pattern;
pub use patterns::Patterns;
pub use policies::Policies;
pub use policy::Policy;
pub use wanted::Wanted;
