//! What roles see, do and may do, and which histories are runs: the definitions, with the types that they
//! compute.
#![tactic(auto)]

mod effect;
mod laws;
mod progress;

pub use effect::Effect;
pub use laws::{certificates_have_own_secrets, verdicts_stay, versions_meet_rules};
pub use progress::{Ending, LastPass, Obstacle, OpenPass, Origin, Past, Stage};
