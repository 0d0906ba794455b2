//! What no clause says: that a history takes entries and answers objects at versions, with ample memory.
ghost use Rattle.std.specs.Prelude.{◌<◌};

use crate::checks::{counts, passes};
use crate::store::{call_of, made};
use cmc_history::History;
use cmc_meta::{Key, Kind, Numbers};
use cmc_objects::{Call, Entry, Object, Reply, Who};
use cmc_store::Store;
use cmc_tests::values::key;
use std::alloc::Global;
use std::process::Abort;
use std::test::Fail;

/// Notes a call, for which there is room.
fn push(history: &mut History, call: Call, reply: Reply)
    requires { 0 < history.old.spare }
{
    history.push(Entry::Call {
        who: Who::User,
        call,
        reply,
    });
}

/// Makes a call, and notes it.
fn note_call(
    history: &mut History,
    store: &mut Store,
    alloc: Global,
    call: Call,
) -> Result<(), Fail>
    requires { 0 < history.old.spare }
{
    let reply = made(store, alloc, &call)?;
    push(history, call, reply);
    Ok(())
}

/// Makes the call of this word, which names the version where it names one, and notes it.
// Room is made first, so that nothing is held where there is none.
fn note(
    history: &mut History,
    store: &mut Store,
    alloc: Global,
    word: &str,
    version: u64,
) -> Result<(), Fail> {
    history.reserve(1)?;
    note_call(history, store, alloc, call_of(alloc, word, version)?)
}

/// The version of the object, 0 where there is none.
fn version_of(object: Option<&Object>) -> u64 {
    match object {
        Some(Object::Cert(certificate)) => certificate.meta.version,
        Some(_) => 1_000,
        None => 0,
    }
}

/// The version of the Certificate under the key after so many accepted writes, or 0 where none exists.
fn version_at(history: &History, alloc: Global, key: &Key, position: u64) -> Result<u64, Fail> {
    let object = history.at_version(alloc, 0, key, position)?;
    Ok(version_of(object.as_ref()))
}

/// A create, the same again, which is refused, an update and a delete, and the versions that they name.
static CALLS: [(&str, u64); 4] = [
    ("create", 0),
    ("create", 0),
    ("status", 1),
    ("delete any", 0),
];

fn note_all(history: &mut History, store: &mut Store, alloc: Global) -> Result<(), Fail> {
    for (word, version) in &CALLS {
        note(history, store, alloc, word, *version)?;
    }
    Ok(())
}

fn note_in_store(history: &mut History, alloc: Global) -> Result<(), Fail> {
    let mut store = Store::new(alloc, Numbers::new(alloc));
    note_all(history, &mut store, alloc)
}

fn noted(alloc: Global) -> Result<History, Fail> {
    let mut history = History::new(alloc);
    note_in_store(&mut history, alloc)?;
    Ok(history)
}

/// How many accepted writes there were, and the version that stands then.
static VERSIONS: [(u64, u64); 5] = [(0, 0), (1, 1), (2, 2), (3, 0), (4, 0)];

/// The version of the object of this kind that is named `web`, after so many accepted writes.
fn web_at(history: &History, alloc: Global, kind: Kind, position: u64) -> Result<u64, Fail> {
    let web = key(alloc, kind, "web")?;
    version_at(history, alloc, &web, position)
}

fn has_versions(rt: &impl Abort, alloc: Global, history: &History) -> Result<(), Fail> {
    for (position, want) in &VERSIONS {
        let version = web_at(history, alloc, Kind::Certificate, *position)?;
        counts(rt, "version", version, *want);
    }
    let other = web_at(history, alloc, Kind::Secret, 2)?;
    counts(rt, "other", other, 0);
    Ok(())
}

#[test]
fn looks_at_each_version(rt: HostRuntime) -> Result<(), Fail> {
    let alloc = rt.alloc();
    let history = noted(alloc)?;
    // the second create was refused
    counts(&rt, "entries", history.len(), 4);
    counts(&rt, "accepted", history.accepted(), 3);
    has_versions(&rt, alloc, &history)
}

fn is_first_step(entry: Option<&Entry>) -> bool {
    matches!(entry, Some(Entry::Script { step: 1 }))
}

fn has_one_step(rt: &impl Abort, history: &History) {
    counts(rt, "length", history.len(), 1);
    counts(rt, "accepted", history.accepted(), 0);
    passes(rt, "from 1", history.entry(0).is_none());
    passes(rt, "the first", is_first_step(history.entry(1)));
}

#[test]
fn keeps_entries(rt: HostRuntime) -> Result<(), Fail> {
    let mut history = History::new(rt.alloc());
    history.reserve(1)?;
    history.push(Entry::Script { step: 1 });
    has_one_step(&rt, &history);
    Ok(())
}
