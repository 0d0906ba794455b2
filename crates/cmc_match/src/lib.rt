//! Whether a private key, a certification request and a Secret fit a Certificate: what the controllers compare.
//!
//! No call takes memory.
#![tactic(auto)]

mod facts;
mod marks;
mod matching;
mod names;
mod revisions;
mod sets;

pub use cmc_objects::{is_one_key, part_under, text_under};
pub use facts::{facts_for, facts_mean, facts_of, pair_in, public_in};
pub use marks::{asks_for_temporary, has_text, is_next_key, is_temporary};
pub use matching::{key_fits, key_fits_as_read, request_answers, request_has_key, request_matches};
pub use names::has_names;
pub use revisions::{OfRevision, current_request, is_of, next_request, requests_for, revision_of};
pub use sets::is_same_set;
