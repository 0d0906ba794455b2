//! Whether a printed history is one that a right world prints, and which clause fails first where it is not; and the line
//! that says so.
#![tactic(auto)]

mod answering;
mod auditing;
mod counts;
mod text;

pub use answering::{NotAudited, audit_bytes};
pub use auditing::audit;
pub use text::{clause_word, verdict_text};
