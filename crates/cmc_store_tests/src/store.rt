//! What no clause says: that each reply comes, with ample memory.
use crate::checks::{counts, passes, tells};
use cmc_meta::{Kind, Numbers};
use cmc_objects::{Call, Object, Reply};
use cmc_store::Store;
use cmc_tests::values::key;
use cmc_tests::whole::admitted_certificate;
use std::alloc::{AllocError, Global};
use std::process::Abort;
use std::test::Fail;

/// Makes a call on a store that has room for more.
pub(crate) fn made(store: &mut Store, alloc: Global, call: &Call) -> Result<Reply, Fail> {
    if store.calls() >= 1_000 {
        return Err(Fail::from("too many calls"));
    }
    Ok(store.call(alloc, 0, call)?.reply)
}

/// A reply as a word, and its number, or 0.
pub(crate) type Replied = (&'static str, u64);

fn replied(reply: &Reply) -> Replied {
    match reply {
        Reply::Ok { version, .. } => ("ok", *version),
        Reply::Unchanged { version } => ("unchanged", *version),
        Reply::Found { .. } => ("found", 0),
        Reply::Conflict { named: 1, have } => ("conflict with 1", *have),
        Reply::Conflict { have, .. } => ("another conflict", *have),
        Reply::NotFound { at } => ("not found", *at),
        Reply::AlreadyExists { have } => ("already exists", *have),
        Reply::Invalid { rule } => ("invalid", u64::from(*rule)),
        Reply::Unavailable { number } => ("unavailable", *number),
    }
}

/// What the store replies to the call.
fn replied_to(store: &mut Store, alloc: Global, call: &Call) -> Result<Replied, Fail> {
    let reply = made(store, alloc, call)?;
    Ok(replied(&reply))
}

/// What the store replies to the call, which is dropped after it.
fn replied_once(store: &mut Store, alloc: Global, call: Call) -> Result<Replied, Fail> {
    replied_to(store, alloc, &call)
}

/// The store replies to the call as is wanted.
// The call comes as it is made, with what may fail, so that no test holds one of its many shapes.
pub(crate) fn replies(
    rt: &impl Abort,
    alloc: Global,
    store: &mut Store,
    call: Result<Call, Fail>,
    want: &Replied,
) -> Result<(), Fail> {
    let (word, number) = replied_once(store, alloc, call?)?;
    tells(rt, want.0, word, want.0);
    counts(rt, want.0, number, want.1);
    Ok(())
}

fn create(alloc: Global) -> Result<Call, Fail> {
    Ok(Call::Create {
        object: Object::of_certificate(alloc, admitted_certificate(alloc)?)?,
        generate: false,
    })
}

fn status(alloc: Global, version: u64) -> Result<Call, Fail> {
    Ok(Call::UpdateStatus {
        object: Object::of_certificate(alloc, admitted_certificate(alloc)?)?,
        version,
    })
}

fn get(alloc: Global) -> Result<Call, Fail> {
    Ok(Call::Get {
        key: key(alloc, Kind::Certificate, "web")?,
    })
}

/// A delete of the Certificate of this name.
pub(crate) fn delete(alloc: Global, word: &str, version: Option<u64>) -> Result<Call, Fail> {
    Ok(Call::Delete {
        key: key(alloc, Kind::Certificate, word)?,
        version,
    })
}

/// The call of this word, which names the version where it names one.
pub(crate) fn call_of(alloc: Global, word: &str, version: u64) -> Result<Call, Fail> {
    match word {
        "create" => create(alloc),
        "status" => status(alloc, version),
        "get" => get(alloc),
        "delete any" => delete(alloc, "web", None),
        _ => delete(alloc, "web", Some(version)),
    }
}

/// Calls one after the other, the versions that they name, and the replies. The seventh is made to fail.
static CALLS: [(&str, u64, Replied); 9] = [
    ("create", 0, ("ok", 1)),
    ("create", 0, ("already exists", 1)),
    ("status", 1, ("ok", 2)),
    ("status", 1, ("conflict with 1", 2)),
    ("status", 2, ("unchanged", 2)),
    ("get", 0, ("found", 0)),
    ("get", 0, ("unavailable", 7)),
    ("delete", 2, ("ok", 3)),
    ("get", 0, ("not found", 3)),
];

fn seventh(alloc: Global) -> Result<Numbers, AllocError> {
    let mut faults = Numbers::new(alloc);
    faults.push(7)?;
    Ok(faults)
}

fn stands(alloc: Global, store: &Store) -> Result<bool, Fail> {
    let web = key(alloc, Kind::Certificate, "web")?;
    Ok(store.peek(&web).is_some())
}

// The store comes by reference, so that no `?` lets it go.
fn replies_to_each(rt: &impl Abort, alloc: Global, store: &mut Store) -> Result<(), Fail> {
    for (word, version, want) in &CALLS {
        let call = call_of(alloc, word, *version);
        replies(rt, alloc, store, call, want)?;
    }
    passes(rt, "gone", !stands(alloc, store)?);
    counts(rt, "accepted", store.accepted(), 3);
    counts(rt, "calls", store.calls(), 9);
    Ok(())
}

#[test]
fn answers_each_call(rt: HostRuntime) -> Result<(), Fail> {
    let alloc = rt.alloc();
    let mut store = Store::new(alloc, seventh(alloc)?);
    replies_to_each(&rt, alloc, &mut store)
}
