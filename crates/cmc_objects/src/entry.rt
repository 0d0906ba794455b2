ghost use Rattle.std.specs.Prelude.{◌≡◌, IfOk};

use crate::call::{Call, Reply};
use crate::object::Object;
use crate::orders::{Order, Signing};
use crate::role::Role;
use crate::rows::SignRow;
use cmc_meta::{Bytes, Key, Kind};
use std::alloc::AllocError;

/// Who made a call.
#[derive(Clone, Copy)]
pub enum Who {
    /// A user, by a step of the script.
    User,
    /// The controller pass of this number.
    Pass(u64),
}

/// How a pass ended.
#[derive(Clone, Copy)]
pub enum Cause {
    /// Its last call was answered Ok or Unchanged.
    Wrote,
    /// There was nothing to do.
    Nothing,
    /// The entry of this number, one of its own, stopped it.
    Stopper(u64),
}

/// How far a role has been told of each kind: so many accepted writes, and 0 of a kind of which it is
/// not told.
#[derive(Clone, Copy)]
pub struct Positions {
    pub certificates: u64,
    pub requests: u64,
    pub secrets: u64,
}

/// One event of a history.
pub enum Entry {
    /// The script's step of this number, counted from 1, is made.
    Script {
        step: u64,
    },
    /// One call on the store, with its reply.
    Call {
        who: Who,
        call: Call,
        reply: Reply,
    },
    /// The role is told of the accepted writes of the kind up to this version.
    Deliver {
        role: Role,
        kind: Kind,
        to: u64,
    },
    /// The role lists the objects of the kind as they stand after this version.
    List {
        role: Role,
        kind: Kind,
        to: u64,
    },
    /// The pass of this number begins on the key, at these positions and this moment.
    Begin {
        pass: u64,
        role: Role,
        key: Key,
        at: Positions,
        now: i64,
    },
    /// The pass hands out work.
    Ask {
        pass: u64,
        order: Order,
    },
    /// The pass is given a key file.
    Made {
        pass: u64,
        key: Bytes,
    },
    /// The pass is given a signature.
    Signed {
        pass: u64,
        signature: Bytes,
    },
    /// The pass is given an issuer's answer.
    Answered {
        pass: u64,
        answer: Signing,
    },
    /// The pass is given a judgement.
    Judged {
        pass: u64,
        yes: bool,
    },
    /// The pass ends.
    End {
        pass: u64,
        cause: Cause,
    },
    /// The role stops, and its open passes end with it.
    Stop {
        role: Role,
    },
    /// The role starts anew, told of the first `at` accepted writes of each of its kinds.
    Start {
        role: Role,
        at: u64,
    },
    /// The moment rises to this one, in seconds since 1970-01-01T00:00:00Z.
    Tick {
        now: i64,
    },
}

impl Drop for Entry {
    fn drop(self) {
        match self {
            Entry::Script { step: _step } => {}
            Entry::Call {
                who: _who,
                call: _call,
                reply: _reply,
            } => {}
            Entry::Deliver {
                role: _role,
                kind: _kind,
                to: _to,
            } => {}
            Entry::List {
                role: _role,
                kind: _kind,
                to: _to,
            } => {}
            Entry::Begin {
                pass: _pass,
                role: _role,
                key: _key,
                at: _at,
                now: _now,
            } => {}
            Entry::Ask {
                pass: _pass,
                order: _order,
            } => {}
            Entry::Made {
                pass: _pass,
                key: _key,
            } => {}
            Entry::Signed {
                pass: _pass,
                signature: _signature,
            } => {}
            Entry::Answered {
                pass: _pass,
                answer: _answer,
            } => {}
            Entry::Judged {
                pass: _pass,
                yes: _yes,
            } => {}
            Entry::End {
                pass: _pass,
                cause: _cause,
            } => {}
            Entry::Stop { role: _role } => {}
            Entry::Start {
                role: _role,
                at: _at,
            } => {}
            Entry::Tick { now: _now } => {}
        }
    }
}

/// One step of a script.
pub enum Step {
    /// Creates the object, or updates it where its key is taken. `version` is the resource version
    /// that the object names; where it names one, the step is always an update.
    Apply {
        object: Object,
        version: Option<u64>,
    },
    /// Deletes the object, where a version is named only if it has that version.
    Delete {
        key: Key,
        version: Option<u64>,
    },
    /// Approves the CertificateRequest of this revision of the Certificate.
    Approve {
        certificate: Key,
        revision: u64,
    },
    /// Denies the CertificateRequest of this revision of the Certificate.
    Deny {
        certificate: Key,
        revision: u64,
    },
    /// Answers the CertificateRequest of this revision of the Certificate, as an external issuer does.
    Answer {
        certificate: Key,
        revision: u64,
        row: SignRow,
    },
    /// Asks for a new issuance of the Certificate.
    Renew {
        certificate: Key,
    },
    /// Lets so many seconds pass.
    Tick {
        seconds: u64,
    },
    /// Stops a role.
    Stop {
        role: Role,
    },
    /// Starts a role that is told of all but the last `behind` accepted writes.
    Start {
        role: Role,
        behind: u64,
    },
    /// Keeps a role from being told of a kind.
    Hold {
        role: Role,
        kind: Kind,
    },
    /// Lets a role be told of a kind again.
    Release {
        role: Role,
        kind: Kind,
    },
    /// Waits until the role has made so many accepted writes of the kind, or all is at rest.
    Until {
        role: Role,
        kind: Kind,
        writes: u64,
    },
    /// Waits until all is at rest.
    Settle,
}

impl Drop for Step {
    fn drop(self) {
        match self {
            Step::Apply {
                object: _object,
                version: _version,
            } => {}
            Step::Delete {
                key: _key,
                version: _version,
            } => {}
            Step::Approve {
                certificate: _certificate,
                revision: _revision,
            } => {}
            Step::Deny {
                certificate: _certificate,
                revision: _revision,
            } => {}
            Step::Answer {
                certificate: _certificate,
                revision: _revision,
                row: _row,
            } => {}
            Step::Renew {
                certificate: _certificate,
            } => {}
            Step::Tick { seconds: _seconds } => {}
            Step::Stop { role: _role } => {}
            Step::Start {
                role: _role,
                behind: _behind,
            } => {}
            Step::Hold {
                role: _role,
                kind: _kind,
            } => {}
            Step::Release {
                role: _role,
                kind: _kind,
            } => {}
            Step::Until {
                role: _role,
                kind: _kind,
                writes: _writes,
            } => {}
            Step::Settle => {}
        }
    }
}

impl Step {
    /// An equal step.
    pub fn copy(&self) -> Result<Step, AllocError>
        ensures { IfOk result (λ s. s ≡ self.now) }
    {
        match self {
            Step::Apply { object, version } => Ok(Step::Apply {
                object: object.copy()?,
                version: *version,
            }),
            Step::Delete { key, version } => Ok(Step::Delete {
                key: key.copy()?,
                version: *version,
            }),
            Step::Approve {
                certificate,
                revision,
            } => Ok(Step::Approve {
                certificate: certificate.copy()?,
                revision: *revision,
            }),
            Step::Deny {
                certificate,
                revision,
            } => Ok(Step::Deny {
                certificate: certificate.copy()?,
                revision: *revision,
            }),
            Step::Answer {
                certificate,
                revision,
                row,
            } => Ok(Step::Answer {
                certificate: certificate.copy()?,
                revision: *revision,
                row: row.copy()?,
            }),
            Step::Renew { certificate } => Ok(Step::Renew {
                certificate: certificate.copy()?,
            }),
            Step::Tick { seconds } => Ok(Step::Tick { seconds: *seconds }),
            Step::Stop { role } => Ok(Step::Stop { role: *role }),
            Step::Start { role, behind } => Ok(Step::Start {
                role: *role,
                behind: *behind,
            }),
            Step::Hold { role, kind } => Ok(Step::Hold {
                role: *role,
                kind: *kind,
            }),
            Step::Release { role, kind } => Ok(Step::Release {
                role: *role,
                kind: *kind,
            }),
            Step::Until { role, kind, writes } => Ok(Step::Until {
                role: *role,
                kind: *kind,
                writes: *writes,
            }),
            Step::Settle => Ok(Step::Settle),
        }
    }
}
