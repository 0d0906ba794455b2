//! The world: the store, the history of what was done on it, and the controllers that work on it.
//!
//! Each call that changes it makes one move. Whatever the moves, the history stays legal, caused and
//! following its script, each accepted write of a controller keeps its rights, and the history is safe.
#![tactic(auto)]

mod advance;
mod begin;
mod carriers;
mod decision;
mod delivery;
mod due;
mod kernel;
mod notes;
mod readers;
mod script;
mod work_queue;

pub use cmc_moves::{Begun, Decided, Lack, Move, Prospect, Stepped, decide, decides_alone};
pub use kernel::{Kernel, every_list_of_moves, passes_keep_to_their_courses};
