//! The lines of entries in a printed history, read from their JSON.
//!
//! A reader looks up the members that it knows. Whether others stand beside them, and which number the
//! line has, is seen where what was read is printed again and compared with the line.
#![tactic(auto)]

mod calls;
mod entries;
mod laws;
mod members;
mod orders;
mod passes;
mod replies;

pub use entries::entry_of;
pub use laws::line_is_formed;
