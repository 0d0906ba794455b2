//! What is kept of an open pass.
ghost use Rattle.std.specs.Prelude.{◌≡◌, IfOk};

use crate::yeses::Yeses;
use cmc_meta::Key;
use cmc_objects::{Positions, Role};
use std::alloc::AllocError;

/// A version of an object: its key, and the number of the accepted write.
pub struct Version {
    pub key: Key,
    pub number: u64,
}

impl Drop for Version {
    fn drop(self) {
        let Version {
            key: _key,
            number: _number,
        } = self;
    }
}

impl Version {
    /// An equal version. An error is one of memory.
    pub fn copy(&self) -> Result<Version, AllocError>
        ensures { IfOk result (λ v. v ≡ self.now) }
    {
        Ok(Version {
            key: self.key.copy()?,
            number: self.number,
        })
    }

    /// The number and the key.
    pub(crate) fn into_parts(self) -> (u64, Key)
        ensures number { result.0 ≡ self.number }
        ensures key { result.1 ≡ self.key }
    {
        let Version { key, number } = self;
        (number, key)
    }
}

/// What is kept of a pass between its Begin and its End.
pub struct Row {
    pub role: Role,
    pub key: Key,
    /// How many of the accepted writes count for each kind in what the pass saw.
    pub reach: Positions,
    /// The moment of the Begin, in seconds since 1970-01-01T00:00:00Z.
    pub since: i64,
    /// Whether a Get of the pass found the very Certificate that it saw.
    pub read: bool,
    /// Whether a Secret of the pass that is not marked as temporary was answered Ok or Unchanged.
    pub saved: bool,
    /// What the pass asked last, if that was whether to approve a version of a request.
    pub asked: Option<Version>,
    /// The versions that it was told to approve.
    pub yeses: Yeses,
}

impl Drop for Row {
    fn drop(self) {
        let Row {
            role: _role,
            key: _key,
            reach: _reach,
            since: _since,
            read: _read,
            saved: _saved,
            asked: _asked,
            yeses: _yeses,
        } = self;
    }
}
