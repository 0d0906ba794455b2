//! Objects with the indexes that lead to them, and how both change together.
ghost use Rattle.std.specs.Prelude.{◌≡◌, ◌≤◌, ◌++◌, ◌∷◌, [], IfOk, OnOk, length, reverse};
ghost use Rattle.cmc_model.specs.Replies.{put_at};
ghost use Rattle.cmc_model.specs.Objects.{no_objects};
ghost use Rattle.cmc_model.specs.Writes as spec;
ghost use Rattle.cmc_model.specs.Writes.{is_known};
ghost use Rattle.cmc_meta.specs.declared.key.Key.{Key as KeyValue};
ghost use Rattle.cmc_informer.specs.Caches.{objects_in, after_writes};
ghost use Rattle.cmc_informer.specs.Indexed.{HasRoom, HasRoomFor, IsIndexed, KeepsRoom};
ghost use Rattle.cmc_informer.specs.Superseded.{has_seen, with_older, writes_of};

use crate::index::Index;
use crate::latest::{Change, SeenKeys};
use crate::owners::room_for_owners;
use crate::slots::Slots;
use crate::targets::{Targets, room_for_target};
use crate::uids::room_for_uid;
use cmc_meta::{Key, Kind};
use cmc_model::Write;
use cmc_objects::Object;
use cmc_seed::HashSeed;
use std::alloc::{AllocError, Global};

/// The slots of objects, under each uid the keys of what it owns and the key of the object that has it, and
/// under each Secret the keys of the Certificates that may name it.
#[derive(Drop)]
pub(crate) struct Rows {
    pub(crate) slots: Slots,
    pub(crate) owners: Index,
    pub(crate) uids: Index,
    pub(crate) targets: Targets,
}

/// No objects, and all is hashed by the seed. It takes no memory.
#[tactic(auto, unfolding(crate::specs::Caches::slot_at, crate::specs::Caches::objects_in))]
pub(crate) fn no_rows(alloc: Global, seed: HashSeed) -> Rows
    ensures objects { objects_in result.slots ≡ no_objects }
    ensures indexed { IsIndexed result }
{
    Rows {
        slots: Slots::new(alloc, seed),
        owners: Index::new(alloc, seed),
        uids: Index::new(alloc, seed),
        targets: Targets::new(alloc, seed),
    }
}

/// Makes room for the object under the key, or for taking one away, and changes nothing else. Where it is
/// found as the one that is there, there is room. An error is one of memory.
pub(crate) fn make_room(
    alloc: Global,
    rows: &mut Rows,
    key: &Key,
    object: &Option<Object>,
) -> Result<(), AllocError>
    requires { IsIndexed rows.old }
    ensures room { OnOk result (HasRoom rows.new key.now object.now) }
    ensures same { objects_in rows.new.slots ≡ objects_in rows.old.slots }
    ensures indexed { IsIndexed rows.new }
    ensures keeps { KeepsRoom rows.old rows.new }
{
    if rows.slots.room(key, object)? {
        return Ok(());
    }
    room_for_owners(alloc, &mut rows.owners, object, key)?;
    room_for_uid(alloc, &mut rows.uids, object, key)?;
    room_for_target(alloc, &mut rows.targets, object, key)?;
    Ok(())
}

/// Puts the object under the key, or takes away the one that is there, and the indexes go along. It takes
/// no memory.
pub(crate) fn change(rows: &mut Rows, key: &Key, object: Option<Object>)
    requires room { HasRoom rows.old key.now object }
    requires indexed { IsIndexed rows.old }
    ensures objects { objects_in rows.new.slots ≡ put_at (objects_in rows.old.slots) key.now object }
    ensures indexed { IsIndexed rows.new }
    ensures keeps { KeepsRoom rows.old rows.new }
{
    rows.slots
        .change(&mut rows.owners, &mut rows.uids, key, object);
}

pub(crate) fn copy_object(object: &Option<Object>) -> Result<Option<Object>, AllocError>
    ensures { IfOk result (λ o. o ≡ object.now) }
{
    match object {
        Some(object) => Ok(Some(object.copy()?)),
        None => Ok(None),
    }
}

/// Makes room for the write, and adds it to the changes.
fn prepare_new<'a>(
    alloc: Global,
    rows: &mut Rows,
    changes: &mut Vec<Change<'a>>,
    write: &'a Write,
) -> Result<(), AllocError>
    requires room { HasRoomFor rows.old (writes_of changes.old.items) }
    requires indexed { IsIndexed rows.old }
    ensures changes { OnOk result (writes_of changes.new.items ≡ writes_of changes.old.items ++ write.now ∷ []) }
    ensures room { OnOk result (HasRoomFor rows.new (writes_of changes.new.items)) }
    ensures same { objects_in rows.new.slots ≡ objects_in rows.old.slots }
    ensures indexed { IsIndexed rows.new }
{
    make_room(alloc, rows, &write.key, &write.object)?;
    let object = copy_object(&write.object)?;
    let key = &write.key;
    changes.push(Change { key, object })?;
    Ok(())
}

/// Makes room for the write and adds it to the changes, where it is one of the kind, and no later one is under its key.
fn prepare_one<'a>(
    alloc: Global,
    rows: &mut Rows,
    seen: &mut SeenKeys<'a>,
    changes: &mut Vec<Change<'a>>,
    write: &'a Write,
    kind: Kind,
) -> Result<(), AllocError>
    requires room { HasRoomFor rows.old (writes_of changes.old.items) }
    requires indexed { IsIndexed rows.old }
    requires seen { (k : KeyValue) → has_seen seen.old k ≡ is_known k (writes_of changes.old.items) }
    ensures changes { OnOk result (writes_of changes.new.items ≡ with_older kind write.now (writes_of changes.old.items)) }
    ensures room { OnOk result (HasRoomFor rows.new (writes_of changes.new.items)) }
    ensures same { objects_in rows.new.slots ≡ objects_in rows.old.slots }
    ensures indexed { IsIndexed rows.new }
    ensures seen { OnOk result ((k : KeyValue) → has_seen seen.new k ≡ is_known k (writes_of changes.new.items)) }
{
    if write.key.kind == kind && seen.add(&write.key)? {
        prepare_new(alloc, rows, changes, write)?;
    }
    Ok(())
}

/// Makes room for the writes of the kind above the one version and up to the other, and answers what they leave
/// to be done: of each key the last of them alone. An error is one of memory.
pub(crate) fn prepare<'a>(
    alloc: Global,
    rows: &mut Rows,
    writes: &'a [Write],
    kind: Kind,
    from: u64,
    to: u64,
) -> Result<Vec<Change<'a>>, AllocError>
    requires above { from ≤ to }
    requires within { to ≤ length writes.now }
    requires indexed { IsIndexed rows.old }
    ensures changes { IfOk result (λ cs. after_writes (spec.contents (spec.of_kind kind (spec.oldest from (reverse writes.now)))) (writes_of cs.items) ≡ spec.contents (spec.of_kind kind (spec.oldest to (reverse writes.now)))) }
    ensures room { IfOk result (λ cs. HasRoomFor rows.new (writes_of cs.items)) }
    ensures same { objects_in rows.new.slots ≡ objects_in rows.old.slots }
    ensures indexed { IsIndexed rows.new }
{
    let count = (to - from) as usize;
    let mut changes = Vec::with_capacity(alloc, count)?;
    let mut seen = SeenKeys::new(alloc, rows.slots.seed());
    for place in (from..to).rev() {
        let write = &writes[place as usize];
        prepare_one(alloc, rows, &mut seen, &mut changes, write, kind)?;
    }
    Ok(changes)
}

/// Makes the changes. It takes no memory.
pub(crate) fn make(rows: &mut Rows, changes: Vec<Change<'_>>)
    requires room { HasRoomFor rows.old (writes_of changes.items) }
    requires indexed { IsIndexed rows.old }
    ensures objects { objects_in rows.new.slots ≡ after_writes (objects_in rows.old.slots) (writes_of changes.entry.items) }
    ensures indexed { IsIndexed rows.new }
{
    for it in changes {
        let Change { key, object } = it;
        change(rows, key, object);
    }
}
