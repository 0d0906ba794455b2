//! The reading of what answers questions: the rows of material, and the approver with its policies.
//!
//! A value that is none of these fails at its first failing path.
#![tactic(auto)]

mod approvers;
mod keys;
mod materials;
mod optional;
mod policy;
mod rows;

pub use approvers::{approver, usual_approver};
pub use keys::{key, kind_of};
pub use materials::{certificate, material};
pub use optional::{bounded, bounded_or, count_option};
pub use rows::reply_row;
