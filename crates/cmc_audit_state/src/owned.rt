//! The keys of requests by the uids of their owners.
ghost use Rattle.std.specs.List.Sorted.{IsStrictlySortedBy};
ghost use Rattle.std.specs.Option.{option_copied};
ghost use Rattle.std.specs.Prelude.{◌≡◌, ◌==◌, ◌&&◌, ◌||◌, ℕ, IfOk, OnOk, false, true};
ghost use Rattle.cmc_meta.specs.declared.key.Key.{Key as KeyValue};
ghost use Rattle.cmc_meta.specs.Keys.{key_cmp, key_eq};
ghost use Rattle.cmc_audit_state.specs.Journaled.{is_key_among, is_kept, has_owner_uid, keys_or_none, keys_under};

use cmc_meta::{Key, OwnerRef};
use cmc_seed::HashSeed;
use std::alloc::{AllocError, Global};
use std::collections::{BTreeSet, HashMap};
use std::marker::Model;

/// Keys in their order.
pub struct KeySet {
    set: BTreeSet<Key>,
}

impl Drop for KeySet {
    fn drop(self) {
        let KeySet { set: _set } = self;
    }
}

impl Model for KeySet {
    ghost use Rattle.std.specs.Prelude.{List};
    ghost use Rattle.cmc_meta.specs.declared.key.Key.{Key};

    ghost Value = { List Key };

    ghost view = { λ k. k.set.keys };
}

impl KeySet {
    /// This key alone. An error is one of memory.
    fn only(alloc: Global, key: Key) -> Result<KeySet, AllocError>
        ensures { IfOk result (λ s. (k : KeyValue) → is_key_among s k ≡ key_eq key k) }
    {
        let mut set = BTreeSet::new(alloc);
        set.insert(key)?;
        Ok(KeySet { set })
    }

    /// Adds the key. An error is one of memory, and leaves all as it was.
    fn add(&mut self, key: Key) -> Result<(), AllocError>
        ensures { OnOk result ((k : KeyValue) → is_key_among self.new k ≡ (key_eq key k || is_key_among self.old k)) }
    {
        self.set.insert(key)?;
        Ok(())
    }

    /// The keys in their order.
    pub fn keys(&self) -> &BTreeSet<Key>
        ensures list { result.now.keys ≡ self.now }
        ensures ordered { IsStrictlySortedBy key_cmp self.now }
    {
        let _count = self.set.len();
        &self.set
    }
}

/// Keys under uids; contracts see the list of the uids, in no order, with the keys of each.
pub struct Owned {
    map: HashMap<u64, KeySet, HashSeed>,
}

impl Drop for Owned {
    fn drop(self) {
        let Owned { map: _map } = self;
    }
}

impl Model for Owned {
    ghost use Rattle.std.specs.Prelude.{ℕ, List};
    ghost use Rattle.cmc_meta.specs.declared.key.Key.{Key};

    ghost Value = { List (ℕ × List Key) };

    ghost view = { λ o. o.map.entries };
}

impl Owned {
    /// No keys, and uids are hashed by the seed. It takes no memory.
    #[tactic(auto, unfolding(crate::specs::Journaled::keys_under))]
    pub fn new(alloc: Global, seed: HashSeed) -> Owned
        ensures { (uid : ℕ) → (k : KeyValue) → is_kept result uid k ≡ false }
    {
        Owned {
            map: HashMap::with_hasher(alloc, seed),
        }
    }

    /// The keys under the uid.
    #[tactic(auto, unfolding(crate::specs::Journaled::keys_under))]
    pub fn get(&self, uid: u64) -> Option<&KeySet>
        ensures { keys_or_none (option_copied result) ≡ keys_under self.now uid }
    {
        self.map.get(&uid)
    }

    /// Adds the key under the uid. An error is one of memory.
    #[tactic(auto, unfolding(crate::specs::Journaled::keys_under))]
    fn add(&mut self, alloc: Global, uid: u64, key: &Key) -> Result<(), AllocError>
        ensures { OnOk result ((u : ℕ) → (k : KeyValue) → is_kept self.new u k ≡ ((uid == u && key_eq key.now k) || is_kept self.old u k)) }
    {
        if let Some(keys) = self.map.get_mut(&uid) {
            return keys.add(key.copy()?);
        }
        let keys = KeySet::only(alloc, key.copy()?)?;
        self.map.insert(uid, keys)?;
        Ok(())
    }

    /// Adds the key under the uids of all these owners. An error is one of memory.
    pub fn add_each(
        &mut self,
        alloc: Global,
        owners: &[OwnerRef],
        key: &Key,
    ) -> Result<(), AllocError>
        ensures added { OnOk result ((u : ℕ) → has_owner_uid u owners.now ≡ true → is_kept self.new u key.now ≡ true) }
        ensures keeps { OnOk result ((u : ℕ) → (k : KeyValue) → is_kept self.old u k ≡ true → is_kept self.new u k ≡ true) }
    {
        add_under(alloc, self, owners, key)
    }
}

fn add_under(
    alloc: Global,
    owned: &mut Owned,
    owners: &[OwnerRef],
    key: &Key,
) -> Result<(), AllocError>
    ensures added { OnOk result ((u : ℕ) → has_owner_uid u owners.now ≡ true → is_kept owned.new u key.now ≡ true) }
    ensures keeps { OnOk result ((u : ℕ) → (k : KeyValue) → is_kept owned.old u k ≡ true → is_kept owned.new u k ≡ true) }
{
    for owner in owners {
        owned.add(alloc, owner.uid, key)?;
    }
    Ok(())
}
