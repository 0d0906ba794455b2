//! What Certificates that are not Ready wait for, and the summary of a world.
#![tactic(auto)]

mod laws;
mod summaries;
mod waits;

pub use laws::each_wait_is_named;
pub use summaries::summary;
pub use waits::all_that_exists;
