//! The list of entries.
ghost use Rattle.std.specs.Prelude.{◌≡◌, ◌+◌, ◌<◌, ◌≤◌, ◌∷◌, [], OnOk, length, reverse};

use crate::entry::{CollectEntry, Moment};
use std::alloc::{AllocError, Global};
use std::marker::Model;

/// The entries of a collection with their moments, and room for more.
/// Contracts see the list of them, the newest first, and the number of entries for which there is room already.
pub struct CollectEntries {
    items: Vec<Moment>,
}

impl Drop for CollectEntries {
    fn drop(self) {
        let CollectEntries { items: _items } = self;
    }
}

impl Model for CollectEntries {
    ghost use Rattle.std.specs.Prelude.{◌-◌, reverse, vec_len, vec_capacity};
    ghost use Rattle.cmc_collector.specs.Entries.{Recorded};

    ghost Value = { Recorded };

    ghost view = { λ e. record { moments = reverse e.items.items; spare = vec_capacity e.items - vec_len e.items } };
}

impl CollectEntries {
    /// No entries. It takes no memory.
    pub(crate) fn new(alloc: Global) -> CollectEntries
        ensures { result.moments ≡ [] }
    {
        CollectEntries {
            items: Vec::new(alloc),
        }
    }

    /// Makes room for one more entry.
    pub(crate) fn reserve(&mut self) -> Result<(), AllocError>
        ensures room { OnOk result (0 < self.new.spare) }
        ensures same { self.new.moments ≡ self.old.moments }
    {
        self.items.reserve(1)
    }

    /// Adds an entry as the newest. It takes no memory.
    pub(crate) fn push(&mut self, now: i64, entry: CollectEntry)
        requires { 0 < self.old.spare }
        ensures { self.new.moments ≡ record { now = now; entry = entry } ∷ self.old.moments }
    {
        self.items.push(Moment { now, entry }).unwrap();
    }

    /// How many entries there are.
    pub fn len(&self) -> u64
        ensures { result ≡ length self.now.moments }
    {
        self.items.len() as u64
    }

    /// The entries with their moments, the oldest first.
    pub fn as_slice(&self) -> &[Moment]
        ensures { reverse result.now ≡ self.now.moments }
    {
        self.items.as_slice()
    }
}
