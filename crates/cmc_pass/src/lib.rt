//! What a pass of a controller is given: the objects that it sees, what it decides by beside them, and what comes
//! back for the work that it hands out; and what it can do.
#![tactic(auto)]

mod given;
mod pass;
mod value;

pub use given::Given;
pub use pass::{Act, Desk, IssuePlan, Requests, Secrets, TemporaryPlan, Views};
pub use value::Value;
