//! How far passes have come, and what stays known of them.
use cmc_meta::{Key, Kind};
use cmc_objects::{Order, Positions, Role, Shared};
use cmc_pass::{Value, Views};

/// What kept a call of a pass from being served.
#[derive(Clone, Copy)]
pub enum Obstacle {
    /// The store failed the call.
    Failure,
    /// Another object stood under the key than the pass saw, or none: it, or its end, is the
    /// accepted write of this version.
    Newer { kind: Kind, version: u64 },
}

/// How far an open pass has come.
pub enum Stage {
    /// It has begun.
    Fresh,
    /// It has asked this question.
    Asked { order: Order },
    /// Its question was answered with this value.
    Given { order: Order, value: Value },
    /// It has read its Certificate, which still is as it saw it.
    Read,
    /// The Secret of its issuance was answered Ok or Unchanged.
    Saved,
    /// Its last call was answered Ok or Unchanged.
    Wrote,
    /// The call in the entry of this number was refused.
    Refused { entry: u64, obstacle: Obstacle },
    /// An admission rule refused its call. No pass comes to this.
    Barred,
}

impl Drop for Stage {
    fn drop(self) {
        match self {
            Stage::Fresh => {}
            Stage::Asked { order: _order } => {}
            Stage::Given {
                order: _order,
                value: _value,
            } => {}
            Stage::Read => {}
            Stage::Saved => {}
            Stage::Wrote => {}
            Stage::Refused {
                entry: _entry,
                obstacle: _obstacle,
            } => {}
            Stage::Barred => {}
        }
    }
}

/// A pass between its Begin and its End.
pub struct OpenPass {
    pub role: Role,
    pub key: Key,
    /// What its role saw of the key at the Begin.
    pub seen: Shared<Views>,
    /// The moment of the Begin, in seconds since 1970-01-01T00:00:00Z.
    pub since: i64,
    pub stage: Stage,
}

impl Drop for OpenPass {
    fn drop(self) {
        let OpenPass {
            role: _role,
            key: _key,
            seen: _seen,
            since: _since,
            stage: _stage,
        } = self;
    }
}

/// Which role began a pass, and how many times the role itself had begun by then.
#[derive(Clone, Copy)]
pub struct Origin {
    pub role: Role,
    pub incarnation: u64,
}

/// How a pass ended.
#[derive(Clone, Copy)]
pub enum Ending {
    /// It has not ended.
    Open,
    /// There was nothing to do.
    Nothing,
    /// Its last call was answered Ok or Unchanged.
    Wrote,
    /// A call of it was refused.
    Refused { obstacle: Obstacle },
}

/// The last pass of a role on a key.
pub struct LastPass {
    /// What the role saw of the key at the Begin.
    pub seen: Shared<Views>,
    /// The moment of the Begin, in seconds since 1970-01-01T00:00:00Z.
    pub since: i64,
    pub ending: Ending,
}

impl Drop for LastPass {
    fn drop(self) {
        let LastPass {
            seen: _seen,
            since: _since,
            ending: _ending,
        } = self;
    }
}

/// What a role remembers of a key since it started.
pub struct Past {
    /// The newest accepted write of its passes on the key, of each kind; 0 where there is none.
    pub own: Positions,
    pub last: Option<LastPass>,
}

impl Drop for Past {
    fn drop(self) {
        let Past {
            own: _own,
            last: _last,
        } = self;
    }
}
