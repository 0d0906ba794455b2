//! What no clause says: that an informer is told, is listed anew, and finds objects by each index, with ample
//! memory.
use crate::checks::{passes, tells_at, tells_text};
use crate::fixtures::certificate;
use cmc_informer::{Cache, Informer, Keys, Undelivered, Watch};
use cmc_meta::{Key, Kind, OwnerRef, Owners};
use cmc_objects::{Object, Parts, Secret};
use cmc_tests::values::{key, name, new_meta, text};
use std::alloc::Global;
use std::process::Abort;
use std::test::Fail;

fn owner(alloc: Global, uid: u64) -> Result<OwnerRef, Fail> {
    Ok(OwnerRef {
        kind: Kind::Certificate,
        name: name(alloc, "web")?,
        uid,
        controller: false,
    })
}

fn owners(alloc: Global, uids: &[u64]) -> Result<Owners, Fail> {
    let mut owners = Owners::new(alloc);
    for uid in uids {
        owners.push(owner(alloc, *uid)?)?;
    }
    Ok(owners)
}

fn secret(alloc: Global, uids: &[u64]) -> Result<Secret, Fail> {
    let mut meta = new_meta(alloc, "web-tls")?;
    meta.uid = 3;
    meta.owners = owners(alloc, uids)?;
    Ok(Secret {
        meta,
        kind_text: text(alloc, "Opaque")?,
        parts: Parts::new(alloc),
    })
}

/// The Secret `web-tls` of uid 3 with these owners.
fn owned(alloc: Global, uids: &[u64]) -> Result<Option<Object>, Fail> {
    Ok(Some(Object::of_secret(alloc, secret(alloc, uids)?)?))
}

/// A Certificate of the uid that names this Secret.
fn targeting(alloc: Global, uid: u64, word: &str) -> Result<Option<Object>, Fail> {
    let mut certificate = certificate(alloc, "web", word, "example.com")?;
    certificate.meta.uid = uid;
    Ok(Some(Object::of_certificate(alloc, certificate)?))
}

fn accept(watch: &mut Watch, key: Key, object: Option<Object>) -> Result<(), Fail> {
    watch.reserve(1)?;
    let accepted = watch.accepted();
    if accepted >= 1_000 {
        return Err(Fail::from("too many writes"));
    }
    watch.push(accepted + 1, key, object);
    Ok(())
}

fn accept_certificate(
    alloc: Global,
    watch: &mut Watch,
    uid: u64,
    word: &str,
    secret: &str,
) -> Result<(), Fail> {
    let key = key(alloc, Kind::Certificate, word)?;
    accept(watch, key, targeting(alloc, uid, secret)?)
}

fn accept_secret(alloc: Global, watch: &mut Watch, uids: &[u64]) -> Result<(), Fail> {
    let key = key(alloc, Kind::Secret, "web-tls")?;
    accept(watch, key, owned(alloc, uids)?)
}

fn accept_delete(alloc: Global, watch: &mut Watch) -> Result<(), Fail> {
    accept(watch, key(alloc, Kind::Secret, "web-tls")?, None)
}

fn accept_five(alloc: Global, watch: &mut Watch) -> Result<(), Fail> {
    accept_certificate(alloc, watch, 1, "web", "web-tls")?;
    accept_certificate(alloc, watch, 2, "api", "api-tls")?;
    accept_secret(alloc, watch, &[1, 2])?;
    accept_secret(alloc, watch, &[2])?;
    accept_delete(alloc, watch)
}

/// Two Certificates, then a Secret of both, of the second alone, and deleted.
fn five_writes(alloc: Global, window: u64) -> Result<Watch, Fail> {
    let mut watch = Watch::new(alloc, window);
    accept_five(alloc, &mut watch)?;
    Ok(watch)
}

fn listed(alloc: Global, watch: &Watch, kind: Kind, at: u64) -> Result<Cache, Fail> {
    if at > watch.accepted() {
        return Err(Fail::from("no such write"));
    }
    Ok(watch.list(alloc, kind, at)?)
}

/// An informer that was listed at the one position and told up to the other, with what that was answered.
fn told(
    alloc: Global,
    watch: &Watch,
    kind: Kind,
    from: u64,
    to: u64,
) -> Result<(Informer, Result<(), Undelivered>), Fail> {
    if from >= to || to > watch.accepted() {
        return Err(Fail::from("no such delivery"));
    }
    let mut informer = Informer::new(alloc, kind);
    informer.relist(from, watch.list(alloc, kind, from)?);
    let answer = informer.deliver(alloc, watch, to);
    Ok((informer, answer))
}

/// That informer alone, whatever it was answered.
fn informer_told(
    alloc: Global,
    watch: &Watch,
    kind: Kind,
    from: u64,
    to: u64,
) -> Result<Informer, Fail> {
    let (informer, _) = told(alloc, watch, kind, from, to)?;
    Ok(informer)
}

/// The names of the keys, with a blank after each.
fn names(alloc: Global, keys: &Keys) -> Result<String, Fail> {
    let mut names = String::new(alloc);
    for key in keys.as_slice() {
        names.push_str(key.name.as_str())?;
        names.push(' ')?;
    }
    Ok(names)
}

fn owned_told(alloc: Global, informer: &Informer, uid: u64) -> Result<String, Fail> {
    let keys = informer.owned_by(alloc, uid)?;
    names(alloc, &keys.copy()?)
}

/// The names of the Secrets that the owner of this uid has, where an informer was listed at the one position and told up
/// to the other; nothing where it is elsewhere.
fn owned_after(alloc: Global, watch: &Watch, from: u64, to: u64, uid: u64) -> Result<String, Fail> {
    let informer = informer_told(alloc, watch, Kind::Secret, from, to)?;
    if informer.position() != to {
        return Err(Fail::from("another position"));
    }
    owned_told(alloc, &informer, uid)
}

/// Where an informer is listed, up to where it is told, the uid of an owner, and the names of what that owns.
static OWNED: [(u64, u64, u64, &str); 6] = [
    (2, 3, 1, "web-tls "),
    (2, 3, 2, "web-tls "),
    (0, 4, 1, ""),
    (3, 4, 1, ""),
    (3, 4, 2, "web-tls "),
    (3, 5, 2, ""),
];

#[test]
fn finds_what_is_owned(rt: HostRuntime) -> Result<(), Fail> {
    let watch = five_writes(rt.alloc(), 9)?;
    for (number, (from, to, uid, want)) in OWNED.iter().enumerate() {
        let told = owned_after(rt.alloc(), &watch, *from, *to, *uid);
        tells_at(&rt, number, told, want)?;
    }
    Ok(())
}

/// An informer that was told up to the fourth write, and is then listed at the third.
fn listed_anew(alloc: Global, watch: &Watch) -> Result<Informer, Fail> {
    let mut informer = informer_told(alloc, watch, Kind::Secret, 3, 4)?;
    informer.relist(3, listed(alloc, watch, Kind::Secret, 3)?);
    Ok(informer)
}

/// The same of the five writes, which are dropped after it.
fn five_listed_anew(alloc: Global) -> Result<Informer, Fail> {
    let watch = five_writes(alloc, 9)?;
    listed_anew(alloc, &watch)
}

/// Of the informer that was listed anew, both own the Secret of uid 3.
fn finds_owned(rt: &impl Abort, alloc: Global, informer: &Informer) -> Result<(), Fail> {
    tells_text(rt, "first", owned_told(alloc, informer, 1), "web-tls ")?;
    tells_text(rt, "second", owned_told(alloc, informer, 2), "web-tls ")?;
    passes(rt, "by its uid", informer.by_uid(3).is_some());
    passes(rt, "by another uid", informer.by_uid(1).is_none());
    Ok(())
}

#[test]
fn finds_what_is_owned_after_a_list(rt: HostRuntime) -> Result<(), Fail> {
    let informer = five_listed_anew(rt.alloc())?;
    finds_owned(&rt, rt.alloc(), &informer)
}

/// The names of the Certificates that name this Secret.
fn naming(alloc: Global, informer: &Informer, namespace: &str, word: &str) -> Result<String, Fail> {
    let namespace = name(alloc, namespace)?;
    let keys = informer.by_secret(alloc, &namespace, &name(alloc, word)?)?;
    names(alloc, &keys)
}

fn holds(alloc: Global, informer: &Informer, word: &str) -> Result<bool, Fail> {
    let key = key(alloc, Kind::Certificate, word)?;
    Ok(informer.get(&key).is_some())
}

/// The namespace and the name of a Secret, and the Certificates that name it.
static NAMING: [(&str, &str, &str); 4] = [
    ("default", "web-tls", "web "),
    ("default", "api-tls", "api "),
    ("default", "tls", ""),
    ("other", "web-tls", ""),
];

/// An informer of Certificates that was told of the five writes, which are dropped after it.
fn certificates_told(alloc: Global) -> Result<Informer, Fail> {
    let watch = five_writes(alloc, 9)?;
    informer_told(alloc, &watch, Kind::Certificate, 0, 5)
}

/// Each row is found so, and one Certificate by its key.
fn finds_named(rt: &impl Abort, alloc: Global, informer: &Informer) -> Result<(), Fail> {
    for (namespace, word, want) in &NAMING {
        let told = naming(alloc, informer, namespace, word);
        tells_text(rt, word, told, want)?;
    }
    passes(rt, "by its key", holds(alloc, informer, "api")?);
    Ok(())
}

#[test]
fn finds_certificates_by_their_secret(rt: HostRuntime) -> Result<(), Fail> {
    let informer = certificates_told(rt.alloc())?;
    finds_named(&rt, rt.alloc(), &informer)
}

/// Where the delivery is refused, the start of what the watch still has.
fn refused_at(answer: Result<(), Undelivered>) -> Result<Option<u64>, Fail> {
    match answer {
        Ok(()) => Ok(None),
        Err(Undelivered::Gone { start }) => Ok(Some(start)),
        Err(_) => Err(Fail::from("another answer")),
    }
}

/// The position of the informer, and where the delivery is refused the start of what the watch still has.
fn delivered(alloc: Global, watch: &Watch, from: u64) -> Result<(u64, Option<u64>), Fail> {
    let (informer, answer) = told(alloc, watch, Kind::Secret, from, 5)?;
    Ok((informer.position(), refused_at(answer)?))
}

fn changed(alloc: Global, watch: &Watch, from: u64, to: u64) -> Result<String, Fail> {
    names(alloc, &watch.changed(alloc, Kind::Certificate, from, to)?)
}

/// From where, up to where, and the Certificates that changed.
static CHANGED: [(u64, u64, &str); 4] = [
    (0, 5, "api web "),
    (1, 5, "api "),
    (2, 5, ""),
    (0, 1, "web "),
];

#[test]
fn delivers_within_the_window(rt: HostRuntime) -> Result<(), Fail> {
    let alloc = rt.alloc();
    let watch = five_writes(alloc, 2)?;
    passes(&rt, "start", watch.start() == 3);
    let late = delivered(alloc, &watch, 2)?;
    passes(&rt, "too late", late.0 == 2 && late.1 == Some(3));
    let in_time = delivered(alloc, &watch, 3)?;
    passes(&rt, "in time", in_time.0 == 5 && in_time.1.is_none());
    for (number, (from, to, want)) in CHANGED.iter().enumerate() {
        let told = changed(alloc, &watch, *from, *to);
        tells_at(&rt, number, told, want)?;
    }
    Ok(())
}
