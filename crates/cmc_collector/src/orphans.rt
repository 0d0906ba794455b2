//! Which keys are due by the caches.
ghost use Rattle.std.specs.Option.{option_copied};
ghost use Rattle.std.specs.Prelude.{◌≡◌, IfOk, None, Some, is_some, true};
ghost use Rattle.cmc_informer.specs.Caches.{has_uid};
ghost use Rattle.cmc_meta.specs.declared.key.Key.{Key as KeyValue};
ghost use Rattle.cmc_collector.specs.Caches.{informer_object};
ghost use Rattle.cmc_collector.specs.CachePositions as spec;
ghost use Rattle.cmc_collector.specs.Examinations.{current_of};
ghost use Rattle.cmc_collector.specs.Replays as playing;
ghost use Rattle.cmc_collector.specs.Rows.{has_examine_row, examination_under};
ghost use Rattle.cmc_collector.specs.Settles.{FindsLeast};

use crate::caches::Caches;
use crate::examination::Examination;
use crate::rows::Row;
use cmc_collect_moves::owner_key;
use cmc_meta::{Key, Name, OwnerRef};
use cmc_objects::Object;
use std::alloc::AllocError;
use std::collections::BTreeMap;

/// Whether there is an object that has owners.
pub(crate) fn is_owned(object: Option<&Object>) -> bool
    ensures { result ≡ spec.has_any_owner (option_copied object.entry) }
{
    match object {
        Some(object) => !object.meta().owners.as_slice().is_empty(),
        None => false,
    }
}

fn has_uid(object: Option<&Object>, uid: u64) -> bool
    ensures { result ≡ has_uid uid (option_copied object.entry) }
{
    match object {
        Some(object) => uid == object.meta().uid,
        None => false,
    }
}

/// Whether the owner's uid is one of the `given` ones and no cache holds it under the owner's key.
fn is_gone(
    caches: &Caches,
    given: u64,
    namespace: &Name,
    owner: &OwnerRef,
) -> Result<bool, AllocError>
    ensures { IfOk result (λ gone. gone ≡ spec.is_gone given owner.now.uid (informer_object caches.now (playing.owner_key namespace.now owner.now))) }
{
    let key = owner_key(namespace, owner)?;
    Ok(owner.uid <= given && !has_uid(caches.get(&key), owner.uid))
}

fn are_gone(
    caches: &Caches,
    given: u64,
    namespace: &Name,
    owners: &[OwnerRef],
) -> Result<bool, AllocError>
    ensures { IfOk result (λ gone. gone ≡ spec.are_gone (informer_object caches.now) given namespace.now owners.now) }
{
    for owner in owners {
        if !is_gone(caches, given, namespace, owner)? {
            return Ok(false);
        }
    }
    Ok(true)
}

/// Whether the object has owners, all of which are gone by the caches.
fn is_orphan(
    caches: &Caches,
    given: u64,
    namespace: &Name,
    object: Option<&Object>,
) -> Result<bool, AllocError>
    ensures { IfOk result (λ orphan. orphan ≡ spec.is_orphan_in (informer_object caches.now) given namespace.now (option_copied object.entry)) }
{
    match object {
        Some(object) => {
            let owners = object.meta().owners.as_slice();
            if owners.is_empty() {
                return Ok(false);
            }
            are_gone(caches, given, namespace, owners)
        }
        None => Ok(false),
    }
}

/// Whether an examination of the key goes on, or can begin.
pub(crate) fn is_due(
    caches: &Caches,
    given: u64,
    key: &Key,
    row: Option<&Examination>,
) -> Result<bool, AllocError>
    ensures { IfOk result (λ due. due ≡ is_some (current_of (option_copied row.entry) (spec.is_orphan_in (informer_object caches.now) given key.now.namespace (informer_object caches.now key.now)) (informer_object caches.now key.now))) }
{
    if row.is_some() {
        return Ok(true);
    }
    is_orphan(caches, given, &key.namespace, caches.get(key))
}

/// The examination of the key that goes on, or the one that begins.
pub(crate) fn current(
    caches: &Caches,
    given: u64,
    key: &Key,
    row: Option<&Examination>,
) -> Result<Option<Examination>, AllocError>
    ensures { IfOk result (λ x. x ≡ current_of (option_copied row.entry) (spec.is_orphan_in (informer_object caches.now) given key.now.namespace (informer_object caches.now key.now)) (informer_object caches.now key.now)) }
{
    if let Some(examination) = row {
        return Ok(Some(examination.copy()?));
    }
    let held = caches.get(key);
    if !is_orphan(caches, given, &key.namespace, held)? {
        return Ok(None);
    }
    begun(held)
}

fn begun(object: Option<&Object>) -> Result<Option<Examination>, AllocError>
    ensures { IfOk result (λ x. x ≡ current_of None true (option_copied object.entry)) }
{
    match object {
        Some(object) => Ok(Some(Examination {
            object: object.copy()?,
            next: 0,
        })),
        None => Ok(None),
    }
}

/// The least key that is due. Each key under which a cache holds an object with owners has a row.
pub(crate) fn first_due<'a>(
    rows: &'a BTreeMap<Key, Row>,
    caches: &Caches,
    given: u64,
) -> Result<Option<&'a Key>, AllocError>
    requires { (k : KeyValue) → spec.has_any_owner (informer_object caches.now k) ≡ true → has_examine_row rows.now.entries k ≡ true }
    ensures { IfOk result (λ key. FindsLeast (λ k. is_some (current_of (examination_under rows.now.entries k) (spec.is_orphan_in (informer_object caches.now) given k.namespace (informer_object caches.now k)) (informer_object caches.now k))) (option_copied key)) }
{
    for (key, row) in rows.iter() {
        if is_due(caches, given, key, row.examination.as_ref())? {
            return Ok(Some(key));
        }
    }
    Ok(None)
}
