//! The lines of a printed history.
use cmc_meta::{Bytes, Key, Kind, Name, Text};
use cmc_objects::{Cause, Object, Positions, Role, Signing, Who};

/// Which call a line is about.
#[derive(Clone, Copy)]
pub enum CallName {
    Create,
    /// A create whose name is generated.
    Generate,
    Update,
    UpdateStatus,
    Delete,
    Get,
}

/// What a line says of a reply.
pub enum PrintedReply {
    /// A create was accepted as this version of the object, which has this name.
    Created { name: Name, version: u64 },
    /// Another write was accepted as this version.
    Ok { version: u64 },
    /// The object, which has this version, was left as it was.
    Unchanged { version: u64 },
    /// The object that was read has this version.
    Found { version: u64 },
    /// The object has another version than the named one.
    Conflict { named: u64, have: u64 },
    /// No object exists under the key; so many writes were accepted before.
    NotFound { at: u64 },
    /// An object of this version stands under the key.
    AlreadyExists { have: u64 },
    /// The admission rule of this number refuses the object.
    Invalid { rule: u32 },
    /// The call of this number was made to fail.
    Unavailable { number: u64 },
}

impl Drop for PrintedReply {
    fn drop(self) {
        match self {
            PrintedReply::Created {
                name: _name,
                version: _version,
            } => {}
            PrintedReply::Ok { version: _version } => {}
            PrintedReply::Unchanged { version: _version } => {}
            PrintedReply::Found { version: _version } => {}
            PrintedReply::Conflict {
                named: _named,
                have: _have,
            } => {}
            PrintedReply::NotFound { at: _at } => {}
            PrintedReply::AlreadyExists { have: _have } => {}
            PrintedReply::Invalid { rule: _rule } => {}
            PrintedReply::Unavailable { number: _number } => {}
        }
    }
}

/// What a line says of a question.
pub enum PrintedOrder {
    /// For a private key: the question of this number among those for the Certificate's name.
    Key {
        certificate: Key,
        number: u64,
    },
    /// For the signature of this body by this key file, both in DER.
    Csr {
        key: Bytes,
        body: Bytes,
    },
    /// To an issuer about this version of the request.
    Sign {
        number: u64,
        request: Key,
        version: u64,
    },
    /// Whether this version of the request may be approved.
    Judge {
        request: Key,
        version: u64,
    },
}

impl Drop for PrintedOrder {
    fn drop(self) {
        match self {
            PrintedOrder::Key {
                certificate: _certificate,
                number: _number,
            } => {}
            PrintedOrder::Csr {
                key: _key,
                body: _body,
            } => {}
            PrintedOrder::Sign {
                number: _number,
                request: _request,
                version: _version,
            } => {}
            PrintedOrder::Judge {
                request: _request,
                version: _version,
            } => {}
        }
    }
}

/// What a line says, but for its number.
pub enum PrintedLine {
    /// The script's step of this number, counted from 1, is made.
    Script {
        step: u64,
    },
    /// One call on the store, with its reply.
    Call {
        call: CallName,
        /// `Kind/namespace/name`, or the prefix from which a name is generated.
        key: Text,
        /// What is written, with its status and without what the store owns.
        object: Option<Object>,
        version: Option<u64>,
        reply: PrintedReply,
        who: Who,
    },
    /// The role is told of the accepted writes of the kind up to this version.
    Deliver {
        role: Role,
        kind: Kind,
        to: u64,
    },
    /// The role lists the objects of the kind as they stand after this version.
    List {
        role: Role,
        kind: Kind,
        to: u64,
    },
    /// The pass of this number begins on the key, at these positions and this moment.
    Begin {
        pass: u64,
        role: Role,
        key: Key,
        at: Positions,
        now: i64,
    },
    /// The pass hands out work.
    Ask {
        pass: u64,
        order: PrintedOrder,
    },
    /// The pass is given a key file.
    Made {
        pass: u64,
        key: Bytes,
    },
    /// The pass is given a signature.
    Signed {
        pass: u64,
        signature: Bytes,
    },
    /// The pass is given an issuer's answer.
    Answered {
        pass: u64,
        answer: Signing,
    },
    /// The pass is given a judgement.
    Judged {
        pass: u64,
        yes: bool,
    },
    /// The pass ends.
    End {
        pass: u64,
        cause: Cause,
    },
    /// The role stops.
    Stop {
        role: Role,
    },
    /// The role starts anew, told of the first `at` accepted writes of each of its kinds.
    Start {
        role: Role,
        at: u64,
    },
    /// The moment rises to this one, in seconds since 1970-01-01T00:00:00Z.
    Tick {
        now: i64,
    },
}

impl Drop for PrintedLine {
    fn drop(self) {
        match self {
            PrintedLine::Script { step: _step } => {}
            PrintedLine::Call {
                call: _call,
                key: _key,
                object: _object,
                version: _version,
                reply: _reply,
                who: _who,
            } => {}
            PrintedLine::Deliver {
                role: _role,
                kind: _kind,
                to: _to,
            } => {}
            PrintedLine::List {
                role: _role,
                kind: _kind,
                to: _to,
            } => {}
            PrintedLine::Begin {
                pass: _pass,
                role: _role,
                key: _key,
                at: _at,
                now: _now,
            } => {}
            PrintedLine::Ask {
                pass: _pass,
                order: _order,
            } => {}
            PrintedLine::Made {
                pass: _pass,
                key: _key,
            } => {}
            PrintedLine::Signed {
                pass: _pass,
                signature: _signature,
            } => {}
            PrintedLine::Answered {
                pass: _pass,
                answer: _answer,
            } => {}
            PrintedLine::Judged {
                pass: _pass,
                yes: _yes,
            } => {}
            PrintedLine::End {
                pass: _pass,
                cause: _cause,
            } => {}
            PrintedLine::Stop { role: _role } => {}
            PrintedLine::Start {
                role: _role,
                at: _at,
            } => {}
            PrintedLine::Tick { now: _now } => {}
        }
    }
}
