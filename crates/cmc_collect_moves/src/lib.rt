//! The moves of a collection and their answers, the calls that an examination makes, and what settling does with an orphan.
#![tactic(auto)]

mod calls;
mod choices;
mod moves;

pub use calls::{delete_of, get_of, owner_key};
pub use choices::examine;
pub use moves::{CollectLack, CollectMove, Collected};
