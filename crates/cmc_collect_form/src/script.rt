//! What a script of owner collection is.
ghost use Rattle.std.specs.Prelude.{◌≡◌, ◌++◌, ◌∷◌, [], OnOk, OnErr, MatchOption, false, int_le, true};
ghost use Rattle.cmc_setup.specs.Setups.{last_moment};
ghost use Rattle.cmc_collect_form.specs.Steps.{moment_after, collect_step_seconds};

use cmc_meta::{Key, Kind, Numbers};
use cmc_objects::Object;
use std::alloc::{AllocError, Global};
use std::marker::Model;

/// One step.
pub enum CollectStep {
    /// Creates the object, or updates it where its key is taken; with a version it is an update that names it.
    Apply {
        object: Object,
        version: Option<u64>,
    },
    /// Deletes the object, where a version is named only at that version.
    Delete {
        key: Key,
        version: Option<u64>,
    },
    /// Lets so many seconds pass.
    Tick {
        seconds: u64,
    },
    /// Tells the cache of the kind of the accepted writes up to this version.
    Deliver {
        kind: Kind,
        to: u64,
    },
    /// Takes the examination of the key one step further, or begins one.
    Examine {
        key: Key,
    },
    /// Tells all caches and examines whatever is due, until nothing is left to do.
    Settle,
}

impl Drop for CollectStep {
    fn drop(self) {
        match self {
            CollectStep::Apply {
                object: _object,
                version: _version,
            } => {}
            CollectStep::Delete {
                key: _key,
                version: _version,
            } => {}
            CollectStep::Tick { seconds: _seconds } => {}
            CollectStep::Deliver {
                kind: _kind,
                to: _to,
            } => {}
            CollectStep::Examine { key: _key } => {}
            CollectStep::Settle => {}
        }
    }
}

// 9900-01-01T00:00:00Z
const LAST_MOMENT: i64 = 250_246_627_200;

impl CollectStep {
    /// How many seconds the step lets pass.
    fn seconds(&self) -> u64
        ensures { result ≡ collect_step_seconds self.now }
    {
        match self {
            CollectStep::Tick { seconds } => *seconds,
            _ => 0,
        }
    }

    /// The moment after the step that is made at `now`, both in seconds since 1970-01-01T00:00:00Z. `None` exactly where it
    /// lies past the last one of a run, 9900-01-01T00:00:00Z.
    pub fn after(&self, now: i64) -> Option<i64>
        ensures { MatchOption result (int_le (moment_after now self.now) last_moment ≡ false) (λ m. (int_le (moment_after now self.now) last_moment ≡ true) × (m ≡ moment_after now self.now)) }
    {
        let sum = now as i128 + self.seconds() as i128;
        if sum <= LAST_MOMENT as i128 {
            return Some(sum as i64);
        }
        None
    }
}

/// The steps of a script; contracts see the list of them.
pub struct CollectSteps {
    items: Vec<CollectStep>,
}

impl Drop for CollectSteps {
    fn drop(self) {
        let CollectSteps { items: _items } = self;
    }
}

impl Model for CollectSteps {
    ghost use Rattle.std.specs.Prelude.{List};
    ghost use Rattle.cmc_collect_form.specs.declared.script.CollectStep.{CollectStep};

    ghost Value = { List CollectStep };

    ghost view = { λ s. s.items.items };
}

impl CollectSteps {
    /// No steps. It takes no memory.
    pub fn new(alloc: Global) -> CollectSteps
        ensures { result ≡ [] }
    {
        CollectSteps {
            items: Vec::new(alloc),
        }
    }

    /// Adds a step at the end.
    pub fn push(&mut self, step: CollectStep) -> Result<(), AllocError>
        ensures ok { OnOk result (self.new ≡ self.old ++ step ∷ []) }
        ensures err { OnErr result (self.new ≡ self.old) }
    {
        self.items.push(step)?;
        Ok(())
    }

    /// The steps, as a slice.
    pub fn as_slice(&self) -> &[CollectStep]
        ensures { result.now ≡ self.now }
    {
        self.items.as_slice()
    }
}

/// A store, and what is done with it.
#[derive(Drop)]
pub struct CollectScript {
    /// The most entries, 1 to 250,000.
    pub events: u64,
    /// The numbers of the store calls that fail, ascending.
    pub faults: Numbers,
    /// The moment of the beginning, in seconds since 1970-01-01T00:00:00Z.
    pub now: i64,
    /// At most 10,000 steps.
    pub steps: CollectSteps,
    /// Over how many accepted writes a watch reaches back, 1 to 250,000.
    pub window: u64,
}
