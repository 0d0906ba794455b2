//! Runs by many threads: each takes passes of one world under a lock, and does the work that passes ask for outside of it.
#![tactic(auto)]

mod crew;
mod errands;
mod rounds;
mod run;
mod shared;
mod threads;

pub use cmc_world::{Driven, Gate, NoGate, Point, Work, drive_plain};
pub use run::drive;
