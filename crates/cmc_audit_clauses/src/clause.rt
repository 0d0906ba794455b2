//! What an audit says.

/// What may fail at an entry, in the order in which it is looked at.
#[derive(Clone, Copy)]
pub enum Clause {
    /// A role is told as watches tell, a pass begins where it may and goes on only while it is open, and ticks rise.
    Place,
    /// A reply is the store's.
    Reply,
    /// A Secret that issuing writes is a good issue.
    Issue,
    /// A question to an issuer is about the request that the pass saw, approved and never denied.
    Ask,
    /// A revision rises by one, after the pass's own Secret.
    Raise,
    /// A write of a pass changes what its role may change.
    Rights,
    /// An approval follows a yes on the version that it writes.
    Approval,
    /// The summary counts what exists.
    Counts,
}

/// What an audit says of a printed history.
#[derive(Clone, Copy)]
pub enum Verdict {
    /// Nothing fails at any of so many entries.
    Yes { entries: u64 },
    /// At the entry of this number, counted from 1, the clause is the first that fails. Behind the last entry it is the
    /// counts.
    No { entry: u64, clause: Clause },
}
