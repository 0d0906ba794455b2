// What a create, an update and a status update make of objects.
ghost use Rattle.std.specs.Prelude.{◌≡◌, ◌↔◌, IfOk, IsTrue};
ghost use Rattle.cmc_model.specs.Stored.{new_meta, created, merged_meta, updated, with_status, generation_after, revised, restated};
ghost use Rattle.cmc_store.specs.Changes.{IsRevision, IsRestatement};

use cmc_admit::is_spec_kept;
use cmc_meta::ObjectMeta;
use cmc_objects::{
    CertStatus, Certificate, CertificateRequest, Object, RequestStatus, Secret, Shared,
};
use std::alloc::{AllocError, Global};

fn fresh_meta(
    meta: &ObjectMeta,
    version: u64,
    now: i64,
    generation: u64,
) -> Result<ObjectMeta, AllocError>
    ensures { IfOk result (λ m. m ≡ new_meta version now generation meta.now) }
{
    Ok(ObjectMeta {
        namespace: meta.namespace.copy()?,
        name: meta.name.copy()?,
        uid: version,
        version,
        generation,
        created: now,
        labels: meta.labels.copy()?,
        annotations: meta.annotations.copy()?,
        owners: meta.owners.copy()?,
    })
}

/// What a create of the object stores as this version at the moment `now`: its uid is the version, its
/// status is empty. `Err` where there is no memory.
#[tactic(auto, unfolding(cmc_model::specs::Stored::created))]
pub fn make(alloc: Global, object: &Object, version: u64, now: i64) -> Result<Object, AllocError>
    ensures { IfOk result (λ o. o ≡ created version now object.now) }
{
    match object {
        Object::Cert(c) => Object::of_certificate(
            alloc,
            Certificate {
                meta: fresh_meta(&c.meta, version, now, 1)?,
                spec: c.spec.copy()?,
                status: Shared::new(alloc, CertStatus::new(alloc))?,
            },
        ),
        Object::Request(r) => Object::of_request(
            alloc,
            CertificateRequest {
                meta: fresh_meta(&r.meta, version, now, 1)?,
                spec: r.spec.copy()?,
                status: Shared::new(alloc, RequestStatus::new(alloc))?,
            },
        ),
        Object::Secret(s) => Object::of_secret(
            alloc,
            Secret {
                meta: fresh_meta(&s.meta, version, now, 0)?,
                kind_text: s.kind_text.copy()?,
                parts: s.parts.copy()?.keep_key(alloc)?.keep_pairing(),
            },
        ),
    }
}

fn merge_meta(old: &ObjectMeta, new: &ObjectMeta) -> Result<ObjectMeta, AllocError>
    ensures { IfOk result (λ m. m ≡ merged_meta old.now new.now) }
{
    Ok(ObjectMeta {
        namespace: old.namespace.copy()?,
        name: old.name.copy()?,
        uid: old.uid,
        version: old.version,
        generation: old.generation,
        created: old.created,
        labels: new.labels.copy()?,
        annotations: new.annotations.copy()?,
        owners: new.owners.copy()?,
    })
}

/// The object after an update, under its old version.
#[tactic(auto, unfolding(cmc_model::specs::Stored::updated))]
fn merge(alloc: Global, old: &Object, new: &Object) -> Result<Object, AllocError>
    ensures { IfOk result (λ o. o ≡ updated old.now new.now) }
{
    match (old, new) {
        (Object::Cert(a), Object::Cert(b)) => Object::of_certificate(
            alloc,
            Certificate {
                meta: merge_meta(&a.meta, &b.meta)?,
                spec: b.spec.copy()?,
                status: a.status.copy()?,
            },
        ),
        (Object::Request(a), Object::Request(b)) => Object::of_request(
            alloc,
            CertificateRequest {
                meta: merge_meta(&a.meta, &b.meta)?,
                spec: b.spec.copy()?,
                status: a.status.copy()?,
            },
        ),
        (Object::Secret(a), Object::Secret(b)) => Object::of_secret(
            alloc,
            Secret {
                meta: merge_meta(&a.meta, &b.meta)?,
                kind_text: a.kind_text.copy()?,
                parts: b.parts.copy()?.keep_key(alloc)?.keep_pairing(),
            },
        ),
        _ => old.copy(),
    }
}

/// The same metadata under this version.
fn under_version(meta: &ObjectMeta, version: u64) -> Result<ObjectMeta, AllocError>
    ensures { IfOk result (λ m. m ≡ record meta.now { version = version }) }
{
    let mut copy = meta.copy()?;
    copy.version = version;
    Ok(copy)
}

/// Whether a status update with the new object leaves the old one as it is.
#[tactic(auto, unfolding(cmc_model::specs::Stored::with_status))]
fn keeps_status(old: &Object, new: &Object) -> bool
    ensures { IsTrue result ↔ (with_status old.now new.now ≡ old.now) }
{
    match (old, new) {
        (Object::Cert(a), Object::Cert(b)) => a.status.same(&b.status),
        (Object::Request(a), Object::Request(b)) => a.status.same(&b.status),
        _ => true,
    }
}

#[tactic(auto, unfolding(cmc_model::specs::Stored::generation_after))]
fn next_generation(old: &Object, new: &Object) -> u64
    ensures { result ≡ generation_after old.now new.now }
{
    let generation = old.meta().generation;
    if is_spec_kept(old, new) {
        generation
    } else {
        generation.saturating_add(1)
    }
}

/// What an update of the object stores as this version; none where it would leave it as it is.
pub fn revise(
    alloc: Global,
    old: &Object,
    object: &Object,
    version: u64,
) -> Result<Option<Object>, AllocError>
    ensures { IfOk result (λ o. IsRevision version old.now object.now o) }
{
    let new = merge(alloc, old, object)?;
    if new.same(old) {
        Ok(None)
    } else {
        let generation = next_generation(old, &new);
        Ok(Some(new.numbered(alloc, version, generation)?))
    }
}

/// What a status update of the object stores as this version; none where it would leave it as it is.
pub fn restate(
    alloc: Global,
    old: &Object,
    object: &Object,
    version: u64,
) -> Result<Option<Object>, AllocError>
    ensures { IfOk result (λ o. IsRestatement version old.now object.now o) }
{
    if keeps_status(old, object) {
        return Ok(None);
    }
    Ok(Some(restatement(alloc, old, object, version)?))
}

/// What an accepted update of the object that exists stores as this version, whether it changes the object or not.
/// `Err` where there is no memory.
pub fn revision(
    alloc: Global,
    old: &Object,
    object: &Object,
    version: u64,
) -> Result<Object, AllocError>
    ensures { IfOk result (λ o. o ≡ revised version old.now object.now) }
{
    let new = merge(alloc, old, object)?;
    let generation = next_generation(old, &new);
    new.numbered(alloc, version, generation)
}

/// What an accepted status update of the object that exists stores as this version, whether it changes the object
/// or not. `Err` where there is no memory.
#[tactic(auto, unfolding(cmc_model::specs::Stored::with_status, cmc_objects::specs::Objects::numbered))]
pub fn restatement(
    alloc: Global,
    old: &Object,
    object: &Object,
    version: u64,
) -> Result<Object, AllocError>
    ensures { IfOk result (λ o. o ≡ restated version old.now object.now) }
{
    match (old, object) {
        (Object::Cert(a), Object::Cert(b)) => Object::of_certificate(
            alloc,
            Certificate {
                meta: under_version(&a.meta, version)?,
                spec: a.spec.copy()?,
                status: b.status.copy()?,
            },
        ),
        (Object::Request(r), Object::Request(q)) => Object::of_request(
            alloc,
            CertificateRequest {
                meta: under_version(&r.meta, version)?,
                spec: r.spec.copy()?,
                status: q.status.copy()?,
            },
        ),
        _ => {
            let generation = old.meta().generation;
            old.copy()?.numbered(alloc, version, generation)
        }
    }
}
