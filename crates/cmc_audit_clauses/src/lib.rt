//! What may fail at an entry of a printed history, what a write of each role may change, and what a Secret that issuing
//! wrote holds.
#![tactic(auto)]

mod clause;
mod kept_parts;
mod rights;
mod written;

pub use clause::{Clause, Verdict};
pub use rights::may_change;
pub use written::{has_certificate, is_issued, is_keyed, is_standing_in, is_target, key_of};
