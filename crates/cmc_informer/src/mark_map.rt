//! Keys that count, and room for more, in a map.
ghost use Rattle.std.specs.Option.{option_copied};
ghost use Rattle.std.specs.Prelude.{◌≡◌, IfOk, OnOk, if◌then◌else◌, true, false};
ghost use Rattle.cmc_meta.specs.declared.key.Key.{Key as KeyValue};
ghost use Rattle.cmc_meta.specs.Keys.{key_eq};
ghost use Rattle.cmc_informer.specs.Indexes.{AreKeys, Finds, has_place, mark_in};

use crate::keys::Keys;
use cmc_meta::Key;
use std::alloc::{AllocError, Global};
use std::collections::BTreeMap;
use std::marker::Model;

#[derive(Drop)]
pub(crate) struct MarkMap {
    map: BTreeMap<Key, bool>,
}

impl Model for MarkMap {
    ghost use Rattle.cmc_informer.specs.Indexes.{Marked};

    ghost Value = { Marked };

    ghost view = { λ m. m.map.entries };
}

impl MarkMap {
    /// No key counts. It takes no memory.
    #[tactic(auto, unfolding(crate::specs::Indexes::mark_in))]
    pub(crate) fn new(alloc: Global) -> MarkMap
        ensures { (k : KeyValue) → mark_in result k ≡ false }
    {
        MarkMap {
            map: BTreeMap::new(alloc),
        }
    }

    /// Makes room for the key. An error is one of memory.
    #[tactic(auto, unfolding(crate::specs::Indexes::mark_in, crate::specs::Indexes::has_place))]
    pub(crate) fn room(&mut self, key: &Key) -> Result<(), AllocError>
        ensures room { OnOk result (has_place self.new key.now ≡ true) }
        ensures same { (k : KeyValue) → mark_in self.new k ≡ mark_in self.old k }
        ensures keeps { (k : KeyValue) → has_place self.old k ≡ true → has_place self.new k ≡ true }
    {
        if self.map.contains_key(key) {
            return Ok(());
        }
        let key = key.copy()?;
        self.map.insert(key, false)?;
        Ok(())
    }

    /// The key counts, or no longer counts, and its room is kept. It takes no memory.
    #[tactic(auto, unfolding(crate::specs::Indexes::mark_in, crate::specs::Indexes::has_place))]
    pub(crate) fn set(&mut self, key: &Key, on: bool)
        requires { on ≡ true → has_place self.old key.now ≡ true }
        ensures marks { (k : KeyValue) → mark_in self.new k ≡ (if key_eq key.now k then on else mark_in self.old k) }
        ensures keeps { (k : KeyValue) → has_place self.old k ≡ true → has_place self.new k ≡ true }
    {
        if let Some(place) = self.map.get_mut(key) {
            *place = on;
        }
    }

    /// The keys that count, in order. An error is one of memory.
    #[tactic(auto, unfolding(crate::specs::Indexes::mark_in))]
    pub(crate) fn keys(&self, alloc: Global) -> Result<Keys, AllocError>
        ensures { IfOk result (λ keys. AreKeys keys (λ k. mark_in self.now k)) }
    {
        let mut keys = Keys::with_capacity(alloc, self.map.len())?;
        for (key, on) in self.map.iter() {
            if *on {
                keys.push(key.copy()?)?;
            }
        }
        Ok(keys)
    }

    /// The first key that counts; `None` exactly where none does.
    #[tactic(auto, unfolding(crate::specs::Indexes::mark_in))]
    pub(crate) fn first(&self) -> Option<&Key>
        ensures { Finds (λ k. mark_in self.now k) (option_copied result) }
    {
        for (key, on) in self.map.iter() {
            if *on {
                return Some(key);
            }
        }
        None
    }
}
