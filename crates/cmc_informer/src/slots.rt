//! Objects under their keys, and room for more.
ghost use Rattle.std.specs.List.{filter};
ghost use Rattle.std.specs.Option.{option_copied};
ghost use Rattle.std.specs.Prelude.{◌≡◌, ℕ, None, IfOk, OnOk, if◌then◌else◌, true};
ghost use Rattle.cmc_meta.specs.declared.key.Key.{Key as KeyValue};
ghost use Rattle.cmc_meta.specs.Keys.{key_eq};
ghost use Rattle.cmc_informer.specs.Caches.{HasRoomsByUid, has_slot, has_uid, is_owned_by, is_targeting, slot_at};
ghost use Rattle.cmc_informer.specs.Indexed.{AreFoundAlike};
ghost use Rattle.cmc_informer.specs.Indexes.{KeepsRooms, is_key_under};

use crate::alike::are_alike;
use crate::index::Index;
use crate::keys::Keys;
use crate::owners::move_owners;
use crate::uids::move_uid;
use cmc_meta::{Key, Name};
use cmc_objects::Object;
use cmc_seed::HashSeed;
use std::alloc::{AllocError, Global};
use std::collections::HashMap;
use std::marker::Model;

/// A slot for each key that an object exists under, or stood under, or is to stand under. A slot that
/// is emptied stays, so that it can be filled again without memory. A slot is only ever looked for under
/// its own key, and nobody asks for an order of slots: so they are hashed, and not sorted.
#[derive(Drop)]
pub(crate) struct Slots {
    map: HashMap<Key, Option<Object>, HashSeed>,
}

impl Model for Slots {
    ghost use Rattle.cmc_informer.specs.Caches.{Slotted};

    ghost Value = { Slotted };

    ghost view = { λ s. s.map.entries };
}

impl Slots {
    ghost use Rattle.std.specs.Prelude.{[]};

    /// No slots, and keys are hashed by the seed. It takes no memory.
    pub(crate) fn new(alloc: Global, seed: HashSeed) -> Slots
        ensures { result ≡ [] }
    {
        Slots {
            map: HashMap::with_hasher(alloc, seed),
        }
    }

    /// What keys are hashed by.
    pub(crate) fn seed(&self) -> HashSeed {
        *self.map.hasher()
    }

    /// The object under the key; `None` exactly where none exists.
    #[tactic(auto, unfolding(crate::specs::Caches::slot_at))]
    pub(crate) fn get(&self, key: &Key) -> Option<&Object>
        ensures { option_copied result ≡ slot_at self.now key.now }
    {
        match self.map.get(key) {
            Some(Some(object)) => Some(object),
            _ => None,
        }
    }

    /// Makes a slot for the key where there is none, and changes nothing else; whether an object is there already
    /// that each index finds as it would find the new one. An error is one of memory.
    #[tactic(auto, unfolding(crate::specs::Caches::slot_at, crate::specs::Caches::has_slot))]
    pub(crate) fn room(&mut self, key: &Key, new: &Option<Object>) -> Result<bool, AllocError>
        ensures room { OnOk result (has_slot self.new key.now ≡ true) }
        ensures alike { IfOk result (λ alike. alike ≡ true → AreFoundAlike (slot_at self.new key.now) new.now) }
        ensures same { (k : KeyValue) → slot_at self.new k ≡ slot_at self.old k }
        ensures keeps { (k : KeyValue) → has_slot self.old k ≡ true → has_slot self.new k ≡ true }
    {
        if let Some(before) = self.map.get(key) {
            return Ok(are_alike(before, new));
        }
        let key = key.copy()?;
        self.map.insert(key, None)?;
        Ok(false)
    }

    /// Puts the object into the slot of the key, or empties it, and the indexes of uids go along. It takes no memory.
    #[tactic(auto, unfolding(crate::specs::Caches::slot_at, crate::specs::Caches::has_slot))]
    pub(crate) fn change(
        &mut self,
        owners: &mut Index,
        uids: &mut Index,
        key: &Key,
        object: Option<Object>,
    )
        requires slot { has_slot self.old key.now ≡ true }
        requires owners_room { HasRoomsByUid is_owned_by owners.old object key.now }
        requires uids_room { HasRoomsByUid has_uid uids.old object key.now }
        requires owned { (u : ℕ) → is_key_under owners.old u key.now ≡ is_owned_by u (slot_at self.old key.now) }
        requires had { (u : ℕ) → is_key_under uids.old u key.now ≡ has_uid u (slot_at self.old key.now) }
        ensures slots { (k : KeyValue) → slot_at self.new k ≡ (if key_eq key.now k then object else slot_at self.old k) }
        ensures keeps { (k : KeyValue) → has_slot self.old k ≡ true → has_slot self.new k ≡ true }
        ensures owners { (u : ℕ) → (k : KeyValue) → is_key_under owners.new u k ≡ (if key_eq key.now k then is_owned_by u object else is_key_under owners.old u k) }
        ensures uids { (u : ℕ) → (k : KeyValue) → is_key_under uids.new u k ≡ (if key_eq key.now k then has_uid u object else is_key_under uids.old u k) }
        ensures owners_keep { KeepsRooms owners.old owners.new }
        ensures uids_keep { KeepsRooms uids.old uids.new }
    {
        match self.map.get_mut(key) {
            Some(slot) => exchange(slot, owners, uids, key, object),
            None => drop(object),
        }
    }

    /// Of the keys, in their order, those of the Certificates of the namespace that name this Secret. An
    /// error is one of memory.
    pub(crate) fn targeting_among(
        &self,
        alloc: Global,
        keys: Keys,
        namespace: &Name,
        name: &Name,
    ) -> Result<Keys, AllocError>
        ensures { IfOk result (λ kept. kept ≡ filter (λ k. is_targeting namespace.now name.now (slot_at self.now k)) keys) }
    {
        let mut kept = Keys::new(alloc);
        for key in keys.into_items() {
            if targets(self.get(&key), namespace, name) {
                kept.push(key)?;
            }
        }
        Ok(kept)
    }
}

fn targets(object: Option<&Object>, namespace: &Name, name: &Name) -> bool
    ensures { result ≡ is_targeting namespace.now name.now (option_copied object.entry) }
{
    match object {
        Some(Object::Cert(c)) => c.meta.namespace == *namespace && c.spec.secret_name == *name,
        _ => false,
    }
}

/// The key comes to stand in the indexes where the new object is found, and no longer where the one before is. Most
/// objects that change are found as they were before, and then nothing is looked up.
fn reindex(
    owners: &mut Index,
    uids: &mut Index,
    before: &Option<Object>,
    new: &Option<Object>,
    key: &Key,
)
    requires owners_room { HasRoomsByUid is_owned_by owners.old new.now key.now }
    requires uids_room { HasRoomsByUid has_uid uids.old new.now key.now }
    requires owned { (u : ℕ) → is_key_under owners.old u key.now ≡ is_owned_by u before.now }
    requires had { (u : ℕ) → is_key_under uids.old u key.now ≡ has_uid u before.now }
    ensures owners { (u : ℕ) → (k : KeyValue) → is_key_under owners.new u k ≡ (if key_eq key.now k then is_owned_by u new.now else is_key_under owners.old u k) }
    ensures uids { (u : ℕ) → (k : KeyValue) → is_key_under uids.new u k ≡ (if key_eq key.now k then has_uid u new.now else is_key_under uids.old u k) }
    ensures owners_keep { KeepsRooms owners.old owners.new }
    ensures uids_keep { KeepsRooms uids.old uids.new }
{
    if are_alike(before, new) {
        return;
    }
    move_owners(owners, before, new, key);
    move_uid(uids, before, new, key);
}

/// Puts the object into the slot of the key, and the indexes go along.
fn exchange(
    slot: &mut Option<Object>,
    owners: &mut Index,
    uids: &mut Index,
    key: &Key,
    object: Option<Object>,
)
    requires owners_room { HasRoomsByUid is_owned_by owners.old object key.now }
    requires uids_room { HasRoomsByUid has_uid uids.old object key.now }
    requires owned { (u : ℕ) → is_key_under owners.old u key.now ≡ is_owned_by u slot.old }
    requires had { (u : ℕ) → is_key_under uids.old u key.now ≡ has_uid u slot.old }
    ensures slot { slot.new ≡ object }
    ensures owners { (u : ℕ) → (k : KeyValue) → is_key_under owners.new u k ≡ (if key_eq key.now k then is_owned_by u object else is_key_under owners.old u k) }
    ensures uids { (u : ℕ) → (k : KeyValue) → is_key_under uids.new u k ≡ (if key_eq key.now k then has_uid u object else is_key_under uids.old u k) }
    ensures owners_keep { KeepsRooms owners.old owners.new }
    ensures uids_keep { KeepsRooms uids.old uids.new }
{
    reindex(owners, uids, slot, &object, key);
    *slot = object;
}
