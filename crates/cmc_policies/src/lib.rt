//! The policies that say why a certificate must be issued, as chains of checks, and the times of renewal and
//! back-off.
#![tactic(auto)]

mod chain;
mod check;
mod facts;
mod renewal;

pub use chain::{Chain, Empty, Link};
pub use check::Check;
pub use facts::{Facts, Frame, Reason};
pub use renewal::{Renew, backoff_until, renewal_time};
