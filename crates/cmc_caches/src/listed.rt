//! The Certificates that something belongs to, by the cache of Certificates.
ghost use Rattle.std.specs.Option.{option_copied};
ghost use Rattle.std.specs.Prelude.{◌≡◌, OnOk, true};
ghost use Rattle.cmc_meta.specs.declared.key.Key.{Key as KeyValue};
ghost use Rattle.cmc_model.specs.Objects.{object_at};
ghost use Rattle.cmc_informer.specs.Caches.{has_uid, is_targeting};
ghost use Rattle.cmc_caches.specs.Affected.{AddsExisting, AreListedBySecret, AreListedByUid, KeepsKeys, is_among};
ghost use Rattle.cmc_caches.specs.Board.{AreBornWhereNumbered, shown_by};

use crate::shown::Shown;
use cmc_meta::Key;
use cmc_objects::Object;
use std::alloc::{AllocError, Global};

fn add_with_uid(certificates: &Shown<'_>, keys: &mut Vec<Key>, uid: u64) -> Result<(), AllocError>
    requires { AreBornWhereNumbered certificates.now.writes }
    ensures listed { OnOk result ((k : KeyValue) → has_uid uid (object_at (shown_by certificates.now) k) ≡ true → is_among keys.new.items k ≡ true) }
    ensures keeps { OnOk result (KeepsKeys keys.old.items keys.new.items) }
    ensures adds { OnOk result (AddsExisting (shown_by certificates.now) keys.old.items keys.new.items) }
{
    if let Some(key) = certificates.by_uid(uid) {
        keys.push(key.copy()?)?;
    }
    Ok(())
}

/// Adds the keys of the Certificates that have one of the uids. An error is one of memory.
pub(crate) fn add_with_uids(
    certificates: &Shown<'_>,
    keys: &mut Vec<Key>,
    uids: &[u64],
) -> Result<(), AllocError>
    requires { AreBornWhereNumbered certificates.now.writes }
    ensures listed { OnOk result (AreListedByUid (shown_by certificates.now) uids.now keys.new.items) }
    ensures keeps { OnOk result (KeepsKeys keys.old.items keys.new.items) }
    ensures adds { OnOk result (AddsExisting (shown_by certificates.now) keys.old.items keys.new.items) }
{
    for uid in uids {
        add_with_uid(certificates, keys, *uid)?;
    }
    Ok(())
}

fn targets(object: Option<&Object>, secret: &Key) -> bool
    ensures { result ≡ is_targeting secret.now.namespace secret.now.name (option_copied object.entry) }
{
    match object {
        Some(Object::Cert(c)) => {
            c.meta.namespace == secret.namespace && c.spec.secret_name == secret.name
        }
        _ => false,
    }
}

/// Adds the key, where it is that of a Certificate that names the Secret.
fn add_targeting(
    certificates: &Shown<'_>,
    keys: &mut Vec<Key>,
    key: &Key,
    secret: &Key,
) -> Result<(), AllocError>
    ensures listed { OnOk result (is_targeting secret.now.namespace secret.now.name (object_at (shown_by certificates.now) key.now) ≡ true → is_among keys.new.items key.now ≡ true) }
    ensures keeps { OnOk result (KeepsKeys keys.old.items keys.new.items) }
    ensures adds { OnOk result (AddsExisting (shown_by certificates.now) keys.old.items keys.new.items) }
{
    if targets(certificates.get(key), secret) {
        keys.push(key.copy()?)?;
    }
    Ok(())
}

/// Adds those of the keys that are of Certificates that name the Secret.
fn add_targeting_all(
    certificates: &Shown<'_>,
    keys: &mut Vec<Key>,
    more: &[Key],
    secret: &Key,
) -> Result<(), AllocError>
    ensures listed { OnOk result ((k : KeyValue) → is_among more.now k ≡ true → is_targeting secret.now.namespace secret.now.name (object_at (shown_by certificates.now) k) ≡ true → is_among keys.new.items k ≡ true) }
    ensures keeps { OnOk result (KeepsKeys keys.old.items keys.new.items) }
    ensures adds { OnOk result (AddsExisting (shown_by certificates.now) keys.old.items keys.new.items) }
{
    for key in more {
        add_targeting(certificates, keys, key, secret)?;
    }
    Ok(())
}

fn add_naming(
    alloc: Global,
    certificates: &Shown<'_>,
    keys: &mut Vec<Key>,
    secret: &Key,
) -> Result<(), AllocError>
    ensures listed { OnOk result ((k : KeyValue) → is_targeting secret.now.namespace secret.now.name (object_at (shown_by certificates.now) k) ≡ true → is_among keys.new.items k ≡ true) }
    ensures keeps { OnOk result (KeepsKeys keys.old.items keys.new.items) }
    ensures adds { OnOk result (AddsExisting (shown_by certificates.now) keys.old.items keys.new.items) }
{
    let more = certificates.by_secret(alloc, &secret.namespace, &secret.name)?;
    add_targeting_all(certificates, keys, more.as_slice(), secret)?;
    Ok(())
}

/// Adds the keys of the Certificates that name one of the Secrets for their key and certificate. An error
/// is one of memory.
pub(crate) fn add_naming_all(
    alloc: Global,
    certificates: &Shown<'_>,
    keys: &mut Vec<Key>,
    secrets: &[Key],
) -> Result<(), AllocError>
    ensures listed { OnOk result (AreListedBySecret (shown_by certificates.now) secrets.now keys.new.items) }
    ensures keeps { OnOk result (KeepsKeys keys.old.items keys.new.items) }
    ensures adds { OnOk result (AddsExisting (shown_by certificates.now) keys.old.items keys.new.items) }
{
    for secret in secrets {
        add_naming(alloc, certificates, keys, secret)?;
    }
    Ok(())
}
