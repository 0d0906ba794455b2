ghost use Rattle.std.specs.Option.{option_copied};
ghost use Rattle.std.specs.Prelude.{◌≡◌, ◌+◌, ◌-◌, ◌<◌, ◌≤◌, ◌∷◌, [], IfOk, OnOk, OnErr, None, length, reverse, slice_get, if◌then◌else◌, nat_eq};
ghost use Rattle.cmc_model.specs.Histories.{Setting, accepted};
ghost use Rattle.cmc_model.specs.Objects.{object_at};
ghost use Rattle.cmc_model.specs.Writes.{objects_at};
ghost use Rattle.cmc_history.specs.Places.{entry_at};

use crate::standing::{Standing, count_written, replay};
use cmc_meta::Key;
use cmc_objects::{Entry, Object};
use std::alloc::{AllocError, Global};
use std::marker::Model;

/// The entries of a run, numbered from 1 from the oldest on, and room for more of them.
/// Contracts see the list of the entries, the newest first, and the number of entries for which there
/// is room already.
pub struct History {
    items: Vec<Entry>,
}

impl Drop for History {
    fn drop(self) {
        let History { items: _items } = self;
    }
}

impl Model for History {
    ghost use Rattle.std.specs.Prelude.{◌-◌, reverse, vec_len, vec_capacity};
    ghost use Rattle.cmc_history.specs.Told.{Told};

    ghost Value = { Told };

    ghost view = { λ h. record { entries = reverse h.items.items; spare = vec_capacity h.items - vec_len h.items } };
}

impl History {
    /// No entries. It takes no memory.
    pub fn new(alloc: Global) -> History
        ensures { result.entries ≡ [] }
    {
        History {
            items: Vec::new(alloc),
        }
    }

    /// Makes room for so many more entries, and changes nothing else; room that exists is kept.
    pub fn reserve(&mut self, more: u64) -> Result<(), AllocError>
        ensures room { OnOk result (more ≤ self.new.spare) }
        ensures kept { self.old.spare ≤ self.new.spare }
        ensures same { self.new.entries ≡ self.old.entries }
    {
        self.items.reserve(more as usize)
    }

    /// Adds an entry as the newest. It takes no memory.
    pub fn push(&mut self, entry: Entry)
        requires { 0 < self.old.spare }
        ensures entries { self.new.entries ≡ entry ∷ self.old.entries }
        ensures spare { self.old.spare ≤ self.new.spare + 1 }
    {
        self.items.push(entry).unwrap();
    }

    /// How many entries there are.
    pub fn len(&self) -> u64
        ensures { result ≡ length self.now.entries }
    {
        self.items.len() as u64
    }

    /// Whether there is no entry.
    pub fn is_empty(&self) -> bool
        ensures { result ≡ nat_eq (length self.now.entries) 0 }
    {
        self.items.is_empty()
    }

    /// The entry of this number; `None` exactly at 0 and past the newest.
    pub fn entry(&self, number: u64) -> Option<&Entry>
        ensures { option_copied result ≡ entry_at self.now.entries number }
    {
        if number == 0 {
            return None;
        }
        self.items.get((number - 1) as usize)
    }

    /// The entries, the oldest first.
    pub fn as_slice(&self) -> &[Entry]
        ensures { reverse result.now ≡ self.now.entries }
    {
        self.items.as_slice()
    }

    /// How many of the entries are accepted writes: the version of the newest of them. It takes no memory.
    pub fn accepted(&self) -> u64
        ensures { (s : Setting) → result ≡ accepted s self.now.entries }
    {
        count_written(self.as_slice())
    }

    /// The object under the key after the first `position` accepted writes; `None` where none is there.
    /// The run began at the moment `now`, in seconds since 1970-01-01T00:00:00Z: what a create stores depends on it.
    /// `Err` where there is no memory.
    pub fn at_version(
        &self,
        alloc: Global,
        now: i64,
        key: &Key,
        position: u64,
    ) -> Result<Option<Object>, AllocError>
        ensures { IfOk result (λ o. (s : Setting) → s.now ≡ now → o ≡ object_at (objects_at s self.now.entries position) key.now) }
    {
        let Standing {
            moment: _,
            accepted: _,
            object,
        } = replay(alloc, self.as_slice(), now, key, position)?;
        Ok(object)
    }
}
