// What exists under one key as the entries of a run are read in order of time.
ghost use Rattle.std.specs.Prelude.{◌≡◌, reverse, IfOk, count_by};
ghost use Rattle.cmc_meta.specs.Keys.{key_eq};
ghost use Rattle.cmc_objects.specs.Objects.{key_of};
ghost use Rattle.cmc_model.specs.Histories.{moment_with};
ghost use Rattle.cmc_model.specs.Replies.{is_accepted, key_of_call, from_old};
ghost use Rattle.cmc_model.specs.Stored.{revised, restated};
ghost use Rattle.cmc_history.specs.Replays.{is_written, written_call, written_over, count_after, object_after, standing_after, replayed};
ghost use Rattle.cmc_model.specs.Replies.{stored_over};

use cmc_meta::Key;
use cmc_objects::{Call, Entry, Object, Reply};
use cmc_store::{make, restatement, revision, settled};
use std::alloc::{AllocError, Global};

/// What the entries that were read come to for one key.
#[derive(Drop)]
pub struct Standing {
    /// The moment of the last tick, or of the beginning.
    pub moment: i64,
    /// How many of the first accepted writes were read.
    pub accepted: u64,
    /// The object that they leave under the key.
    pub object: Option<Object>,
}

/// Whether the entry is an accepted write.
fn is_written(entry: &Entry) -> bool
    ensures { result ≡ is_written entry.now }
{
    match entry {
        Entry::Call { reply, .. } => reply.is_accepted(),
        _ => false,
    }
}

/// How many of the entries are accepted writes.
pub fn count_written(entries: &[Entry]) -> u64
    ensures { result ≡ count_by (λ e. is_written e) entries.now }
{
    entries.iter().filter(|entry| is_written(entry)).count() as u64
}

/// The call of an accepted write, under the name that its reply has. `Err` where there is no memory.
fn call_of_write(alloc: Global, entry: &Entry) -> Result<Option<Call>, AllocError>
    ensures { IfOk result (λ c. c ≡ written_call entry.now) }
{
    match entry {
        Entry::Call { call, reply, .. } if reply.is_accepted() => Ok(Some(settled(
            alloc, call, reply,
        )?)),
        _ => Ok(None),
    }
}

fn moment_after(entry: &Entry, before: i64) -> i64
    ensures { result ≡ moment_with before entry.now }
{
    match entry {
        Entry::Tick { now } => *now,
        _ => before,
    }
}

fn is_under(key: &Key, object: &Object) -> bool
    ensures { result ≡ key_eq key.now (key_of object.now) }
{
    let meta = object.meta();
    key.kind == object.kind() && key.namespace == meta.namespace && key.name == meta.name
}

fn is_spoken_of(key: &Key, call: &Call) -> bool
    ensures { result ≡ key_eq key.now (key_of_call call.now) }
{
    match call {
        Call::Create {
            object,
            generate: _,
        } => is_under(key, object),
        Call::Update { object, version: _ } => is_under(key, object),
        Call::UpdateStatus { object, version: _ } => is_under(key, object),
        Call::Delete {
            key: named,
            version: _,
        } => *key == *named,
        Call::Get { key: named } => *key == *named,
    }
}

fn revise(
    alloc: Global,
    old: Option<Object>,
    object: &Object,
    version: u64,
) -> Result<Option<Object>, AllocError>
    ensures { IfOk result (λ o. o ≡ from_old (λ x. revised version x object.now) old) }
{
    match old {
        Some(old) => Ok(Some(revision(alloc, &old, object, version)?)),
        None => Ok(None),
    }
}

fn restate(
    alloc: Global,
    old: Option<Object>,
    object: &Object,
    version: u64,
) -> Result<Option<Object>, AllocError>
    ensures { IfOk result (λ o. o ≡ from_old (λ x. restated version x object.now) old) }
{
    match old {
        Some(old) => Ok(Some(restatement(alloc, &old, object, version)?)),
        None => Ok(None),
    }
}

fn store(
    alloc: Global,
    now: i64,
    version: u64,
    old: Option<Object>,
    call: &Call,
) -> Result<Option<Object>, AllocError>
    ensures { IfOk result (λ o. o ≡ stored_over version now old call.now) }
{
    match call {
        Call::Create {
            object,
            generate: _,
        } => Ok(Some(make(alloc, object, version, now)?)),
        Call::Update { object, version: _ } => revise(alloc, old, object, version),
        Call::UpdateStatus { object, version: _ } => restate(alloc, old, object, version),
        Call::Delete { key: _, version: _ } => Ok(None),
        Call::Get { key: _ } => Ok(old),
    }
}

fn write(
    alloc: Global,
    now: i64,
    version: u64,
    key: &Key,
    old: Option<Object>,
    call: &Call,
) -> Result<Option<Object>, AllocError>
    ensures { IfOk result (λ o. o ≡ written_over key.now version now old call.now) }
{
    if is_spoken_of(key, call) {
        store(alloc, now, version, old, call)
    } else {
        Ok(old)
    }
}

/// How many of the first accepted writes were read where this call is one, and only the first `position` count.
fn count_after(position: u64, accepted: u64, call: &Option<Call>) -> u64
    ensures { result ≡ count_after position accepted call.now }
{
    match call {
        Some(_) if accepted < position => accepted + 1,
        _ => accepted,
    }
}

/// The object under the key where this call is an accepted write, and only the first `position` count. `Err` where there
/// is no memory.
fn object_after(
    alloc: Global,
    position: u64,
    key: &Key,
    standing: Standing,
    call: &Option<Call>,
) -> Result<Option<Object>, AllocError>
    ensures { IfOk result (λ o. o ≡ object_after position key.now standing call.now) }
{
    let Standing {
        moment,
        accepted,
        object,
    } = standing;
    match call {
        Some(call) if accepted < position => {
            write(alloc, moment, accepted + 1, key, object, call)
        }
        _ => Ok(object),
    }
}

/// The standing after one entry more, where only the first `position` accepted writes count.
/// `Err` where there is no memory.
fn read(
    alloc: Global,
    standing: Standing,
    entry: &Entry,
    key: &Key,
    position: u64,
) -> Result<Standing, AllocError>
    ensures { IfOk result (λ s. s ≡ standing_after position key.now standing entry.now) }
{
    let call = call_of_write(alloc, entry)?;
    let moment = moment_after(entry, standing.moment);
    let accepted = count_after(position, standing.accepted, &call);
    let object = object_after(alloc, position, key, standing, &call)?;
    Ok(Standing {
        moment,
        accepted,
        object,
    })
}

/// What the entries, the oldest first, come to for the key, where the run began at the moment `now` and
/// only the first `position` accepted writes count. `Err` where there is no memory.
pub fn replay(
    alloc: Global,
    entries: &[Entry],
    now: i64,
    key: &Key,
    position: u64,
) -> Result<Standing, AllocError>
    ensures { IfOk result (λ s. s ≡ replayed now position key.now (reverse entries.now)) }
{
    let mut standing = Standing {
        moment: now,
        accepted: 0,
        object: None,
    };
    for entry in entries {
        standing = read(alloc, standing, entry, key, position)?;
    }
    Ok(standing)
}
