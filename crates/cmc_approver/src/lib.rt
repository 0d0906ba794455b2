//! The controller that approves and denies CertificateRequests, by refused names and approval policies.
#![tactic(auto)]

mod acts;
mod calls;
mod following;
mod laws;
mod verdicts;

pub use acts::act;
pub use following::{follow, then};
pub use laws::is_sound;
