//! What controllers look at during the issuance of a Certificate: the private key that its status names, the requests
//! of its next revision, conditions that are True; and the metadata of what they make for it.
#![tactic(auto)]

mod conditions;
mod giving;
mod keys;
mod owning;
mod requests;

pub use conditions::{is_approved, is_denied, is_issuing};
pub use giving::value_in;
pub use keys::{has_fitting_key, is_named, key_in, named_key};
pub use owning::owned_meta;
pub use requests::{failed_before, is_next, is_refused, is_wanted, next_count, next_of};
