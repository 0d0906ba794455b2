//! Two controllers: the one that says whether Certificates are ready, and the one that keeps as many requests of a
//! Certificate as its `revisionHistoryLimit` says.
#![tactic(auto)]

mod conditions;
mod laws;
mod readying;
mod reasons;
mod revising;

pub use laws::{is_readiness_sound, is_revision_sound};
pub use readying::act_readiness;
pub use reasons::{Judged, Times, judge};
pub use revising::act_revision;
