//! What an audit keeps of a printed history: the accepted writes with their indexes, how the roles stand, and the
//! passes that are open.
#![tactic(auto)]

mod denied;
mod indexes;
mod journal;
mod owned;
mod passes;
mod revisions;
mod row;
mod standings;
mod versions;
mod yeses;

pub use indexes::{is_approved, is_denied, is_stated};
pub use journal::{Journal, is_owned};
pub use passes::Passes;
pub use row::{Row, Version};
pub use standings::{Standing, Standings, at_kind, put_at_kind};
pub use yeses::Yeses;
