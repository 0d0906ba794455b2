//! Informers: what a controller knows of one kind of objects, told by a watch over the accepted writes.
//!
//! A `Cache` keeps objects with indexes to them. What can fail comes first: rooms and copies are made
//! before anything changes, so that where memory runs out all is as it was.
#![tactic(auto)]

mod alike;
mod cache;
mod index;
mod informer;
mod keys;
mod latest;
mod mark_map;
mod marks;
mod owners;
mod rows;
mod slots;
mod targets;
mod uids;
mod watch;

pub use cache::Cache;
pub use informer::{Informer, Undelivered};
pub use keys::Keys;
pub use watch::Watch;
