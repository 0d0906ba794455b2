//! What an audit keeps of a printed history as a whole: it goes on with each entry, and says where an entry may stand.
#![tactic(auto)]

mod calling;
mod ledger;
mod opening;
mod placing;
mod starting;

pub use calling::{certificate_seen, request_seen};
pub use ledger::Ledger;
