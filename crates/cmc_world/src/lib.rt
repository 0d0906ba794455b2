//! The world: the kernel and the work queues of its controllers, which each move feeds; the moves that are possible, found by
//! these queues; and runs by one hand, whose history is a function of its scenario.
//!
//! One call of [`World::step`] makes one move.
#![tactic(auto)]

mod all_moves;
mod begins;
mod deliveries;
mod due;
mod fed_begins;
mod fed_deliveries;
mod fed_passes;
mod fed_scripts;
mod gate;
mod kept;
mod laws;
mod looks;
mod next_move;
mod openings;
mod passes;
mod pending;
mod plain_move;
mod questions;
mod rest;
mod roles;
mod run;
mod scripts;
mod values;
mod work;
mod world;

pub use all_moves::make_all;
pub use cmc_kernel::{Begun, Decided, Kernel, Lack, Move, Stepped, decide, decides_alone};
pub use gate::{Gate, NoGate, Point, Work};
pub use laws::{plain_ends_agree, plain_histories_agree, plain_histories_have_no_free_question};
pub use openings::{Opened, Opening};
pub use questions::{point_of, question};
pub use run::{Driven, drain, drive_plain};
pub use values::value_for;
pub use world::World;
