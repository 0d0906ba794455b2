//! The work queues of all roles, fed by what happens, and the law that no wake-up of a role that runs is lost.
#![tactic(auto)]

mod feeding;
mod laws;
mod parking;
mod queues;

pub use feeding::{parked_after, starting_queue};
pub use laws::no_wake_up_is_lost;
pub use parking::parked_until;
pub use queues::Queues;
