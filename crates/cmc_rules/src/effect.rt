//! What steps of a script have happen.
use cmc_objects::{Call, Role};

/// What a step brings about directly after it.
#[derive(Drop)]
pub enum Effect {
    /// A user makes the call.
    Call(Call),
    /// The moment rises to this one, in seconds since 1970-01-01T00:00:00Z.
    Tick { now: i64 },
    /// The role stops.
    Stop { role: Role },
    /// The role starts, told of the first `at` accepted writes.
    Start { role: Role, at: u64 },
}
