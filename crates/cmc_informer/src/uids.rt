//! The index of which object has each uid, where an object changes.
ghost use Rattle.std.specs.Prelude.{◌≡◌, ◌&&◌, ℕ, OnOk, if◌then◌else◌, true, false};
ghost use Rattle.cmc_meta.specs.declared.key.Key.{Key as KeyValue};
ghost use Rattle.cmc_meta.specs.Keys.{key_eq};
ghost use Rattle.cmc_informer.specs.Caches.{HasRoomsByUid, has_uid};
ghost use Rattle.cmc_informer.specs.Indexes.{KeepsRooms, is_key_under};

use crate::index::Index;
use cmc_meta::Key;
use cmc_objects::Object;
use std::alloc::{AllocError, Global};

/// Makes room for the key under the uid of the object. An error is one of memory.
pub(crate) fn room_for_uid(
    alloc: Global,
    index: &mut Index,
    object: &Option<Object>,
    key: &Key,
) -> Result<(), AllocError>
    ensures room { OnOk result (HasRoomsByUid has_uid index.new object.now key.now) }
    ensures same { (u : ℕ) → (k : KeyValue) → is_key_under index.new u k ≡ is_key_under index.old u k }
    ensures keeps { KeepsRooms index.old index.new }
{
    if let Some(object) = object {
        index.room(alloc, object.meta().uid, key)?;
    }
    Ok(())
}

fn enter(index: &mut Index, object: &Option<Object>, key: &Key)
    requires { HasRoomsByUid has_uid index.old object.now key.now }
    ensures stands { (u : ℕ) → (k : KeyValue) → is_key_under index.new u k ≡ (if has_uid u object.now && key_eq key.now k then true else is_key_under index.old u k) }
    ensures keeps { KeepsRooms index.old index.new }
{
    if let Some(object) = object {
        index.put(object.meta().uid, key);
    }
}

fn leave(index: &mut Index, object: &Option<Object>, key: &Key)
    ensures stands { (u : ℕ) → (k : KeyValue) → is_key_under index.new u k ≡ (if has_uid u object.now && key_eq key.now k then false else is_key_under index.old u k) }
    ensures keeps { KeepsRooms index.old index.new }
{
    if let Some(object) = object {
        index.clear(object.meta().uid, key);
    }
}

/// The key comes to stand under the uid of the new object, and no longer under that of the one before. It takes no
/// memory.
pub(crate) fn move_uid(index: &mut Index, before: &Option<Object>, new: &Option<Object>, key: &Key)
    requires rooms { HasRoomsByUid has_uid index.old new.now key.now }
    requires stood { (u : ℕ) → is_key_under index.old u key.now ≡ has_uid u before.now }
    ensures stands { (u : ℕ) → (k : KeyValue) → is_key_under index.new u k ≡ (if key_eq key.now k then has_uid u new.now else is_key_under index.old u k) }
    ensures keeps { KeepsRooms index.old index.new }
{
    leave(index, before, key);
    enter(index, new, key);
}
