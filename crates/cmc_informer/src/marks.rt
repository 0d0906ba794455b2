//! Keys that count, and room for more.
ghost use Rattle.std.specs.Option.{option_copied};
ghost use Rattle.std.specs.Prelude.{◌≡◌, IfOk, OnErr, OnOk, if◌then◌else◌, true, false};
ghost use Rattle.cmc_meta.specs.declared.key.Key.{Key as KeyValue};
ghost use Rattle.cmc_meta.specs.Keys.{key_eq};
ghost use Rattle.cmc_informer.specs.Indexes.{AreKeys, Finds, has_place, mark_in};
ghost use Rattle.cmc_informer.specs.Marks.{marked, marked_by};

use crate::keys::Keys;
use crate::mark_map::MarkMap;
use cmc_meta::Key;
use std::alloc::{AllocError, Global};
use std::marker::Model;

/// A key, and whether it counts.
#[derive(Drop)]
struct Mark {
    key: Key,
    on: bool,
}

/// The keys that there is room for.
enum Held {
    Nothing,
    One(Mark),
    More(MarkMap),
}

impl Drop for Held {
    fn drop(self) {
        match self {
            Held::Nothing => {}
            Held::One(_value) => {}
            Held::More(_value) => {}
        }
    }
}

/// Keys that count, and room for more. Most rows of an index are of one key, which takes no map: the least map
/// has room for eleven.
pub(crate) struct Marks {
    held: Held,
}

impl Drop for Marks {
    fn drop(self) {
        let Marks { held: _held } = self;
    }
}

impl Model for Marks {
    ghost use Rattle.cmc_informer.specs.Indexes.{Marked};
    ghost use Rattle.cmc_informer.specs.Marks.{marked};

    ghost Value = { Marked };

    ghost view = { λ m. marked m.held };
}

impl Mark {
    /// Lets the key count or not, where it is this one.
    fn set(&mut self, key: &Key, on: bool)
        ensures { self.new ≡ (if key_eq key.now self.old.key then record { key = self.old.key; on = on } else self.old) }
    {
        if self.key.same(key) {
            self.on = on;
        }
    }

    /// The key, if it counts. An error is one of memory.
    fn keys(&self, alloc: Global) -> Result<Keys, AllocError>
        ensures { IfOk result (λ keys. AreKeys keys (λ k. mark_in (marked_by self.now) k)) }
    {
        let mut keys = Keys::new(alloc);
        if self.on {
            keys.push(self.key.copy()?)?;
        }
        Ok(keys)
    }

    /// The key, if it counts.
    fn first(&self) -> Option<&Key>
        ensures { Finds (λ k. mark_in (marked_by self.now) k) (option_copied result) }
    {
        if self.on {
            return Some(&self.key);
        }
        None
    }
}

/// A map of the mark, with room for one key more. An error is one of memory.
fn map_of(alloc: Global, mark: &Mark, key: &Key) -> Result<MarkMap, AllocError>
    ensures room { IfOk result (λ map. has_place map key.now ≡ true) }
    ensures same { IfOk result (λ map. (k : KeyValue) → mark_in map k ≡ mark_in (marked_by mark.now) k) }
    ensures keeps { IfOk result (λ map. (k : KeyValue) → has_place (marked_by mark.now) k ≡ true → has_place map k ≡ true) }
{
    let mut map = MarkMap::new(alloc);
    map.room(&mark.key)?;
    map.room(key)?;
    map.set(&mark.key, mark.on);
    Ok(map)
}

impl Held {
    /// Makes room for the key. An error is one of memory.
    fn room(&mut self, alloc: Global, key: &Key) -> Result<(), AllocError>
        ensures room { OnOk result (has_place (marked self.new) key.now ≡ true) }
        ensures same { (k : KeyValue) → mark_in (marked self.new) k ≡ mark_in (marked self.old) k }
        ensures keeps { (k : KeyValue) → has_place (marked self.old) k ≡ true → has_place (marked self.new) k ≡ true }
    {
        match self {
            Held::Nothing => {
                let key = key.copy()?;
                *self = Held::One(Mark { key, on: false });
                Ok(())
            }
            Held::One(mark) => {
                if !mark.key.same(key) {
                    *self = Held::More(map_of(alloc, mark, key)?);
                }
                Ok(())
            }
            Held::More(map) => map.room(key),
        }
    }

    /// The key counts, or no longer counts, and its room is kept. It takes no memory.
    fn set(&mut self, key: &Key, on: bool)
        requires { on ≡ true → has_place (marked self.old) key.now ≡ true }
        ensures marks { (k : KeyValue) → mark_in (marked self.new) k ≡ (if key_eq key.now k then on else mark_in (marked self.old) k) }
        ensures keeps { (k : KeyValue) → has_place (marked self.old) k ≡ true → has_place (marked self.new) k ≡ true }
    {
        match self {
            Held::Nothing => {}
            Held::One(mark) => mark.set(key, on),
            Held::More(map) => map.set(key, on),
        }
    }
}

impl Marks {
    /// No key counts. It takes no memory.
    #[tactic(auto, unfolding(crate::specs::Indexes::mark_in))]
    pub(crate) fn new() -> Marks
        ensures { (k : KeyValue) → mark_in result k ≡ false }
    {
        Marks {
            held: Held::Nothing,
        }
    }

    /// Makes room for the key. An error is one of memory.
    pub(crate) fn room(&mut self, alloc: Global, key: &Key) -> Result<(), AllocError>
        ensures room { OnOk result (has_place self.new key.now ≡ true) }
        ensures same { (k : KeyValue) → mark_in self.new k ≡ mark_in self.old k }
        ensures keeps { (k : KeyValue) → has_place self.old k ≡ true → has_place self.new k ≡ true }
    {
        self.held.room(alloc, key)
    }

    /// The key counts. It takes no memory.
    pub(crate) fn put(&mut self, key: &Key)
        requires { has_place self.old key.now ≡ true }
        ensures marks { (k : KeyValue) → mark_in self.new k ≡ (if key_eq key.now k then true else mark_in self.old k) }
        ensures keeps { (k : KeyValue) → has_place self.old k ≡ true → has_place self.new k ≡ true }
    {
        self.held.set(key, true);
    }

    /// The key counts, and what it takes for that is made. An error is one of memory.
    pub(crate) fn add(&mut self, alloc: Global, key: &Key) -> Result<(), AllocError>
        ensures ok { OnOk result ((k : KeyValue) → mark_in self.new k ≡ (if key_eq key.now k then true else mark_in self.old k)) }
        ensures err { OnErr result ((k : KeyValue) → mark_in self.new k ≡ mark_in self.old k) }
    {
        self.room(alloc, key)?;
        self.put(key);
        Ok(())
    }

    /// The key no longer counts, and its room is kept. It takes no memory.
    pub(crate) fn clear(&mut self, key: &Key)
        ensures marks { (k : KeyValue) → mark_in self.new k ≡ (if key_eq key.now k then false else mark_in self.old k) }
        ensures keeps { (k : KeyValue) → has_place self.old k ≡ true → has_place self.new k ≡ true }
    {
        self.held.set(key, false);
    }

    /// The keys that count, in order. An error is one of memory.
    pub(crate) fn keys(&self, alloc: Global) -> Result<Keys, AllocError>
        ensures { IfOk result (λ keys. AreKeys keys (λ k. mark_in self.now k)) }
    {
        match &self.held {
            Held::Nothing => Ok(Keys::new(alloc)),
            Held::One(mark) => mark.keys(alloc),
            Held::More(map) => map.keys(alloc),
        }
    }

    /// The first key that counts; `None` exactly where none does.
    pub(crate) fn first(&self) -> Option<&Key>
        ensures { Finds (λ k. mark_in self.now k) (option_copied result) }
    {
        match &self.held {
            Held::Nothing => None,
            Held::One(mark) => mark.first(),
            Held::More(map) => map.first(),
        }
    }
}
