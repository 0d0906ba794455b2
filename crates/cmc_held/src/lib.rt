//! What a world keeps beside its store and its history: the log of accepted writes, how the roles
//! stand, the passes that are open and where they come from, what each role remembers of each key, and how
//! many questions were asked.
#![tactic(auto)]

mod due;
mod log;
mod one_run;
mod origins;
mod passes;
mod questions;
mod role_memories;
mod role_states;

pub use due::{is_same, own_above, shown_positions};
pub use log::Log;
pub use one_run::same_seen;
pub use origins::Origins;
pub use passes::Passes;
pub use questions::Questions;
pub use role_memories::RoleMemories;
pub use role_states::{
    Flags, RoleState, RoleStates, at_kind, is_held, put_at_kind, told_of, with_held, with_told,
    with_written, written_of,
};
