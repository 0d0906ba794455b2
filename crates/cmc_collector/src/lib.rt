//! Owner collection: an object all of whose owners are gone is deleted, by caches that lag.
//!
//! A collection makes one move at a time: a call of somebody else, a delivery to its caches, or one step of the
//! examination of an object. What can fail comes first, so that where memory runs out all is as it was.
#![tactic(auto)]

mod caches;
mod collection;
mod entries;
mod entry;
mod examination;
mod orphans;
mod rows;
mod settling;
mod watched;

pub use cmc_collect_moves::{CollectLack, CollectMove, Collected};
pub use collection::Collection;
pub use entries::CollectEntries;
pub use entry::{CollectEntry, Moment};
