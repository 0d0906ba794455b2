//! The index of what each uid owns, where an object changes.
ghost use Rattle.std.specs.Prelude.{◌≡◌, ◌&&◌, ℕ, OnOk, if◌then◌else◌, true, false};
ghost use Rattle.cmc_meta.specs.declared.key.Key.{Key as KeyValue};
ghost use Rattle.cmc_meta.specs.Keys.{key_eq};
ghost use Rattle.cmc_informer.specs.Caches.{HasRoomsByUid, is_owned_by, names};
ghost use Rattle.cmc_informer.specs.Indexes.{KeepsRooms, has_room, is_key_under};

use crate::index::Index;
use cmc_meta::{Key, OwnerRef};
use cmc_objects::Object;
use std::alloc::{AllocError, Global};

fn room_under(
    alloc: Global,
    index: &mut Index,
    owners: &[OwnerRef],
    key: &Key,
) -> Result<(), AllocError>
    ensures room { OnOk result ((u : ℕ) → names u owners.now ≡ true → has_room index.new u key.now ≡ true) }
    ensures same { (u : ℕ) → (k : KeyValue) → is_key_under index.new u k ≡ is_key_under index.old u k }
    ensures keeps { KeepsRooms index.old index.new }
{
    for owner in owners {
        index.room(alloc, owner.uid, key)?;
    }
    Ok(())
}

fn put_under(index: &mut Index, owners: &[OwnerRef], key: &Key)
    requires { (u : ℕ) → names u owners.now ≡ true → has_room index.old u key.now ≡ true }
    ensures stands { (u : ℕ) → (k : KeyValue) → is_key_under index.new u k ≡ (if names u owners.now && key_eq key.now k then true else is_key_under index.old u k) }
    ensures keeps { KeepsRooms index.old index.new }
{
    for owner in owners {
        index.put(owner.uid, key);
    }
}

fn clear_under(index: &mut Index, owners: &[OwnerRef], key: &Key)
    ensures stands { (u : ℕ) → (k : KeyValue) → is_key_under index.new u k ≡ (if names u owners.now && key_eq key.now k then false else is_key_under index.old u k) }
    ensures keeps { KeepsRooms index.old index.new }
{
    for owner in owners {
        index.clear(owner.uid, key);
    }
}

/// Makes room for the key under each owner of the object. An error is one of memory.
pub(crate) fn room_for_owners(
    alloc: Global,
    index: &mut Index,
    object: &Option<Object>,
    key: &Key,
) -> Result<(), AllocError>
    ensures room { OnOk result (HasRoomsByUid is_owned_by index.new object.now key.now) }
    ensures same { (u : ℕ) → (k : KeyValue) → is_key_under index.new u k ≡ is_key_under index.old u k }
    ensures keeps { KeepsRooms index.old index.new }
{
    if let Some(object) = object {
        room_under(alloc, index, object.meta().owners.as_slice(), key)?;
    }
    Ok(())
}

fn enter(index: &mut Index, object: &Option<Object>, key: &Key)
    requires { HasRoomsByUid is_owned_by index.old object.now key.now }
    ensures stands { (u : ℕ) → (k : KeyValue) → is_key_under index.new u k ≡ (if is_owned_by u object.now && key_eq key.now k then true else is_key_under index.old u k) }
    ensures keeps { KeepsRooms index.old index.new }
{
    if let Some(object) = object {
        put_under(index, object.meta().owners.as_slice(), key);
    }
}

fn leave(index: &mut Index, object: &Option<Object>, key: &Key)
    ensures stands { (u : ℕ) → (k : KeyValue) → is_key_under index.new u k ≡ (if is_owned_by u object.now && key_eq key.now k then false else is_key_under index.old u k) }
    ensures keeps { KeepsRooms index.old index.new }
{
    if let Some(object) = object {
        clear_under(index, object.meta().owners.as_slice(), key);
    }
}

/// The key comes to stand under the owners of the new object, and no longer under those of the one before. It takes
/// no memory.
pub(crate) fn move_owners(
    index: &mut Index,
    before: &Option<Object>,
    new: &Option<Object>,
    key: &Key,
)
    requires rooms { HasRoomsByUid is_owned_by index.old new.now key.now }
    requires stood { (u : ℕ) → is_key_under index.old u key.now ≡ is_owned_by u before.now }
    ensures stands { (u : ℕ) → (k : KeyValue) → is_key_under index.new u k ≡ (if key_eq key.now k then is_owned_by u new.now else is_key_under index.old u k) }
    ensures keeps { KeepsRooms index.old index.new }
{
    leave(index, before, key);
    enter(index, new, key);
}
