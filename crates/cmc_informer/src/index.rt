//! An index from uids to keys.
ghost use Rattle.std.specs.Map.{lookup};
ghost use Rattle.std.specs.Option.{option_copied};
ghost use Rattle.std.specs.Prelude.{◌≡◌, ◌&&◌, ◌==◌, ℕ, None, nat_eq, IfOk, OnOk, if◌then◌else◌, true, false};
ghost use Rattle.cmc_meta.specs.declared.key.Key.{Key as KeyValue};
ghost use Rattle.cmc_meta.specs.Keys.{key_eq};
ghost use Rattle.cmc_informer.specs.Indexes.{AreKeys, Finds, KeepsRooms, has_room, is_key_under};

use crate::keys::Keys;
use crate::marks::Marks;
use cmc_meta::Key;
use cmc_seed::HashSeed;
use std::alloc::{AllocError, Global};
use std::collections::HashMap;
use std::marker::Model;

/// Keys under uids. A row is only ever looked for under its own uid, and nobody asks for an order of uids: so
/// they are hashed, and not sorted.
pub(crate) struct Index {
    map: HashMap<u64, Marks, HashSeed>,
}

impl Drop for Index {
    fn drop(self) {
        let Index { map: _map } = self;
    }
}

impl Model for Index {
    ghost use Rattle.cmc_informer.specs.Indexes.{Index};

    ghost Value = { Index };

    ghost view = { λ i. i.map.entries };
}

impl Index {
    /// No key exists, and uids are hashed by the seed. It takes no memory.
    #[tactic(auto, unfolding(crate::specs::Indexes::is_key_under))]
    pub(crate) fn new(alloc: Global, seed: HashSeed) -> Index
        ensures { (u : ℕ) → (k : KeyValue) → is_key_under result u k ≡ false }
    {
        Index {
            map: HashMap::with_hasher(alloc, seed),
        }
    }

    /// The keys that stand under the uid, in order. An error is one of memory.
    #[tactic(auto, unfolding(crate::specs::Indexes::is_key_under))]
    pub(crate) fn keys(&self, alloc: Global, uid: u64) -> Result<Keys, AllocError>
        ensures { IfOk result (λ keys. AreKeys keys (λ k. is_key_under self.now uid k)) }
    {
        match self.map.get(&uid) {
            Some(marks) => marks.keys(alloc),
            None => Ok(Keys::new(alloc)),
        }
    }

    /// Makes a row for the uid, with room for the key, and changes nothing else. The room is made before the row
    /// goes in, and there must be no row of the uid yet, for it would be lost. An error is one of memory.
    #[tactic(auto, unfolding(crate::specs::Indexes::is_key_under, crate::specs::Indexes::has_room))]
    fn row(&mut self, alloc: Global, uid: u64, key: &Key) -> Result<(), AllocError>
        requires { lookup (nat_eq uid) self.old ≡ None }
        ensures room { OnOk result (has_room self.new uid key.now ≡ true) }
        ensures same { (u : ℕ) → (k : KeyValue) → is_key_under self.new u k ≡ is_key_under self.old u k }
        ensures keeps { KeepsRooms self.old self.new }
    {
        let mut marks = Marks::new();
        marks.room(alloc, key)?;
        self.map.insert(uid, marks)?;
        Ok(())
    }

    /// Makes room for the key under the uid, and changes nothing else. An error is one of memory.
    #[tactic(auto, unfolding(crate::specs::Indexes::is_key_under, crate::specs::Indexes::has_room))]
    pub(crate) fn room(&mut self, alloc: Global, uid: u64, key: &Key) -> Result<(), AllocError>
        ensures room { OnOk result (has_room self.new uid key.now ≡ true) }
        ensures same { (u : ℕ) → (k : KeyValue) → is_key_under self.new u k ≡ is_key_under self.old u k }
        ensures keeps { KeepsRooms self.old self.new }
    {
        match self.map.get_mut(&uid) {
            Some(marks) => marks.room(alloc, key),
            None => self.row(alloc, uid, key),
        }
    }

    /// The key stands under the uid. It takes no memory.
    #[tactic(auto, unfolding(crate::specs::Indexes::is_key_under, crate::specs::Indexes::has_room))]
    pub(crate) fn put(&mut self, uid: u64, key: &Key)
        requires { has_room self.old uid key.now ≡ true }
        ensures stands { (u : ℕ) → (k : KeyValue) → is_key_under self.new u k ≡ (if u == uid && key_eq key.now k then true else is_key_under self.old u k) }
        ensures keeps { KeepsRooms self.old self.new }
    {
        if let Some(marks) = self.map.get_mut(&uid) {
            marks.put(key);
        }
    }

    /// The key no longer stands under the uid, and its room is kept. It takes no memory.
    #[tactic(auto, unfolding(crate::specs::Indexes::is_key_under, crate::specs::Indexes::has_room))]
    pub(crate) fn clear(&mut self, uid: u64, key: &Key)
        ensures stands { (u : ℕ) → (k : KeyValue) → is_key_under self.new u k ≡ (if u == uid && key_eq key.now k then false else is_key_under self.old u k) }
        ensures keeps { KeepsRooms self.old self.new }
    {
        if let Some(marks) = self.map.get_mut(&uid) {
            marks.clear(key);
        }
    }

    /// The first key that stands under the uid; `None` exactly where none does.
    #[tactic(auto, unfolding(crate::specs::Indexes::is_key_under))]
    pub(crate) fn first(&self, uid: u64) -> Option<&Key>
        ensures { Finds (λ k. is_key_under self.now uid k) (option_copied result) }
    {
        match self.map.get(&uid) {
            Some(marks) => marks.first(),
            None => None,
        }
    }
}
