//! The keys that an index leads to at a position.
ghost use Rattle.std.specs.List.Sorted.{IsStrictlySortedBy};
ghost use Rattle.std.specs.Prelude.{◌≡◌, ◌||◌, [], IfOk, OnOk, reverse, true};
ghost use Rattle.cmc_meta.specs.declared.key.Key.{Key as KeyValue};
ghost use Rattle.cmc_meta.specs.Keys.{key_cmp, key_eq};
ghost use Rattle.cmc_caches.specs.Affected.{KeepsKeys, is_among};
ghost use Rattle.cmc_caches.specs.Board.{IsJoined};
ghost use Rattle.cmc_caches.specs.Left.{AreFalling, has_left};

use crate::walk::has_newer;
use cmc_held::Log;
use cmc_informer::Keys;
use cmc_meta::Key;
use std::alloc::{AllocError, Global};
use std::collections::BTreeSet;
use std::marker::Model;

/// Keys in their order, each once.
pub(crate) struct KeySet {
    set: BTreeSet<Key>,
}

impl Drop for KeySet {
    fn drop(self) {
        let KeySet { set: _set } = self;
    }
}

impl Model for KeySet {
    ghost use Rattle.std.specs.Prelude.{List};
    ghost use Rattle.cmc_meta.specs.declared.key.Key.{Key};

    ghost Value = { List Key };

    ghost view = { λ k. k.set.keys };
}

impl KeySet {
    /// No keys. It takes no memory.
    fn new(alloc: Global) -> KeySet
        ensures { result ≡ [] }
    {
        KeySet {
            set: BTreeSet::new(alloc),
        }
    }

    /// Adds the key.
    fn add(&mut self, key: &Key) -> Result<(), AllocError>
        ensures { OnOk result ((k : KeyValue) → is_among self.new k ≡ (key_eq key.now k || is_among self.old k)) }
    {
        self.set.insert(key.copy()?)?;
        Ok(())
    }

    /// Adds the keys.
    fn add_all(&mut self, keys: &[Key]) -> Result<(), AllocError>
        ensures added { OnOk result (KeepsKeys keys.now self.new) }
        ensures keeps { OnOk result (KeepsKeys self.old self.new) }
    {
        for key in keys {
            self.add(key)?;
        }
        Ok(())
    }

    /// Adds the keys of the writes of these numbers, the oldest first, that are above the position.
    fn add_since(&mut self, log: &Log, numbers: &[u64], position: u64) -> Result<(), AllocError>
        requires { AreFalling (reverse numbers.now) }
        ensures added { OnOk result ((k : KeyValue) → has_left position (reverse numbers.now) k log.now.writes ≡ true → is_among self.new k ≡ true) }
        ensures keeps { OnOk result (KeepsKeys self.old self.new) }
    {
        for newer in 0..numbers.len() {
            let number = numbers[numbers.len() - 1 - newer];
            if number <= position {
                return Ok(());
            }
            if let Some(write) = log.write(number) {
                self.add(&write.key)?;
            }
        }
        Ok(())
    }

    /// The keys as a list.
    fn to_keys(&self, alloc: Global) -> Result<Keys, AllocError>
        ensures list { IfOk result (λ keys. keys ≡ self.now) }
        ensures ordered { IsStrictlySortedBy key_cmp self.now }
    {
        let mut keys = Keys::new(alloc);
        for key in self.set.iter() {
            keys.push(key.copy()?)?;
        }
        Ok(keys)
    }
}

/// The keys in order, with those of the writes of these numbers, the oldest first, that are above the position. Mostly
/// there is no such number, and they are the keys as given.
pub(crate) fn joined(
    alloc: Global,
    now: Keys,
    log: &Log,
    numbers: &[u64],
    position: u64,
) -> Result<Keys, AllocError>
    requires falls { AreFalling (reverse numbers.now) }
    requires ordered { IsStrictlySortedBy key_cmp now }
    ensures { IfOk result (λ keys. IsJoined now (reverse numbers.now) position log.now.writes keys) }
{
    if !has_newer(numbers, position) {
        return Ok(now);
    }
    let mut all = KeySet::new(alloc);
    all.add_all(now.as_slice())?;
    all.add_since(log, numbers, position)?;
    all.to_keys(alloc)
}
