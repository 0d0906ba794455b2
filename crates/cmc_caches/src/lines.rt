//! Lines by key.
ghost use Rattle.std.specs.Map.{lookup};
ghost use Rattle.std.specs.Option.{option_copied};
ghost use Rattle.std.specs.Prelude.{◌≡◌, ◌∷◌, [], None, OnOk, OnErr, if◌then◌else◌, reverse, true};
ghost use Rattle.cmc_meta.specs.declared.key.Key.{Key as KeyValue};
ghost use Rattle.cmc_meta.specs.Keys.{key_eq};
ghost use Rattle.cmc_caches.specs.Lines.{has_spare_for, numbers_in};

use crate::line::Line;
use cmc_meta::Key;
use cmc_seed::HashSeed;
use std::alloc::{AllocError, Global};
use std::collections::HashMap;
use std::marker::Model;

/// Under each key a line of numbers: of the writes that name it, or of those after which a Certificate no longer names
/// a Secret of this key.
pub(crate) struct Lines {
    map: HashMap<Key, Line, HashSeed>,
}

impl Drop for Lines {
    fn drop(self) {
        let Lines { map: _map } = self;
    }
}

impl Model for Lines {
    ghost use Rattle.cmc_caches.specs.Lines.{LineTable};

    ghost Value = { LineTable };

    ghost view = { λ l. l.map.entries };
}

impl Lines {
    /// No numbers, and keys are hashed by the seed. It takes no memory.
    #[tactic(auto, unfolding(crate::specs::Lines::numbers_in))]
    pub(crate) fn new(alloc: Global, seed: HashSeed) -> Lines
        ensures { (k : KeyValue) → numbers_in result k ≡ [] }
    {
        Lines {
            map: HashMap::with_hasher(alloc, seed),
        }
    }

    /// Makes a line for the key, with room for a number. There must be none yet, for it would be lost.
    #[tactic(auto, unfolding(crate::specs::Lines::numbers_in, crate::specs::Lines::has_spare_for))]
    fn row(&mut self, alloc: Global, key: &Key) -> Result<(), AllocError>
        requires { lookup (key_eq key.now) self.old ≡ None }
        ensures room { OnOk result (has_spare_for self.new key.now ≡ true) }
        ensures same { (k : KeyValue) → numbers_in self.new k ≡ numbers_in self.old k }
    {
        let mut line = Line::new(alloc);
        line.room()?;
        self.map.insert(key.copy()?, line)?;
        Ok(())
    }

    /// Makes room for a number under the key, and changes nothing else.
    #[tactic(auto, unfolding(crate::specs::Lines::numbers_in, crate::specs::Lines::has_spare_for))]
    pub(crate) fn room(&mut self, alloc: Global, key: &Key) -> Result<(), AllocError>
        ensures room { OnOk result (has_spare_for self.new key.now ≡ true) }
        ensures same { (k : KeyValue) → numbers_in self.new k ≡ numbers_in self.old k }
    {
        match self.map.get_mut(key) {
            Some(line) => line.room(),
            None => self.row(alloc, key),
        }
    }

    /// Puts the number before those under the key. It takes no memory.
    #[tactic(auto, unfolding(crate::specs::Lines::numbers_in, crate::specs::Lines::has_spare_for))]
    pub(crate) fn push(&mut self, key: &Key, number: u64)
        requires { has_spare_for self.old key.now ≡ true }
        ensures { (k : KeyValue) → numbers_in self.new k ≡ (if key_eq key.now k then number ∷ numbers_in self.old k else numbers_in self.old k) }
    {
        if let Some(line) = self.map.get_mut(key) {
            line.push(number);
        }
    }

    /// Puts the number before those under the key, and makes the room for it.
    pub(crate) fn add(&mut self, alloc: Global, key: &Key, number: u64) -> Result<(), AllocError>
        ensures ok { OnOk result ((k : KeyValue) → numbers_in self.new k ≡ (if key_eq key.now k then number ∷ numbers_in self.old k else numbers_in self.old k)) }
        ensures err { OnErr result ((k : KeyValue) → numbers_in self.new k ≡ numbers_in self.old k) }
    {
        self.room(alloc, key)?;
        self.push(key, number);
        Ok(())
    }

    /// The numbers under the key, the oldest first.
    #[tactic(auto, unfolding(crate::specs::Lines::numbers_in))]
    pub(crate) fn get(&self, key: &Key) -> &[u64]
        ensures { reverse result.now ≡ numbers_in self.now key.now }
    {
        match self.map.get(key) {
            Some(line) => line.as_slice(),
            None => &[],
        }
    }
}
