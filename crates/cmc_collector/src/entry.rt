//! What a collection did.
use cmc_meta::{Key, Kind, OwnerRef};
use cmc_objects::{Call, Reply};

/// One event of a collection.
pub enum CollectEntry {
    /// A call of somebody else.
    User {
        call: Call,
        reply: Reply,
    },
    /// The cache of the kind is told of the accepted writes up to this version.
    Deliver {
        kind: Kind,
        to: u64,
    },
    /// The cache of the kind lists what this version left: its position was older than the window
    /// (Kubernetes API conventions, 410 Gone).
    List {
        kind: Kind,
        to: u64,
    },
    /// The examination of the key reads the key of an owner.
    Look {
        key: Key,
        owner: OwnerRef,
        reply: Reply,
    },
    /// The examination deletes the object at the version at which the cache had it.
    Delete {
        key: Key,
        version: u64,
        reply: Reply,
    },
}

impl Drop for CollectEntry {
    fn drop(self) {
        match self {
            CollectEntry::User {
                call: _call,
                reply: _reply,
            } => {}
            CollectEntry::Deliver {
                kind: _kind,
                to: _to,
            } => {}
            CollectEntry::List {
                kind: _kind,
                to: _to,
            } => {}
            CollectEntry::Look {
                key: _key,
                owner: _owner,
                reply: _reply,
            } => {}
            CollectEntry::Delete {
                key: _key,
                version: _version,
                reply: _reply,
            } => {}
        }
    }
}

/// An event with its moment.
pub struct Moment {
    /// In seconds since 1970-01-01T00:00:00Z.
    pub now: i64,
    pub entry: CollectEntry,
}

impl Drop for Moment {
    fn drop(self) {
        let Moment {
            now: _now,
            entry: _entry,
        } = self;
    }
}
