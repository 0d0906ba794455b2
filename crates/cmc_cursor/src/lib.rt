//! JSON read member by member: a cursor that answers the first failing path.
//!
//! Reading walks in depth: an object's members in byte order of their names, a list's items in
//! order. A reader asks for the members that it knows in that order, so that an unknown member, a
//! missing one and one that fails come out at their places.
#![tactic(auto)]

mod contents;
mod cursor;
mod dropping;
mod error;
mod floats;
mod paths;
mod values;
mod wording;

pub use contents::{bytes, pairs, parts};
pub use cursor::{Fields, at, at_place, check_end, fields, optional, required};
pub use dropping::{drop_rest, member, pass, seek};
pub use error::BadField;
pub use floats::check_floats;
pub use paths::{path_text, path_to, path_to_place};
pub use values::{count, flag, small_count, text, texts, word};
pub use wording::{decimal, name, name_of, printable, short_text};
