//! The definitions that contracts cite: objects, replies, admission, histories, writes and versions, with the plain
//! data types that definitions compute, and a law. It has no code beside these types.
#![tactic(auto)]

mod laws;
mod write;

pub use laws::verdicts_stay;
pub use write::Write;
