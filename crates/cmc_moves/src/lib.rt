//! The moves of a world and what each is answered, what a pass does next, and decisions that are made elsewhere: all that
//! needs no world to be said or done. The records of laws of all roles stand together here.
#![tactic(auto)]

mod acts;
mod decision;
mod doing;
mod moves;
mod user_writes;

pub use acts::{Prospect, act_of, follow_of, is_idle_of, prospect_of};
pub use decision::{Begun, Decided, decide, decides_alone, is_undecided};
pub use doing::{
    Doing, Judged, answer_of, doing_of, ending_at, first_doing, hangs_on_act, let_go, outdated_of,
    value_entry_of,
};
pub use moves::{Lack, Move, Stepped, answer_begin, answer_delivery, answer_script, answer_value};
pub use user_writes::{answer, approve, deny, renew, request_for};
