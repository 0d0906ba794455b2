//! What the accepted write of a role may change.
ghost use Rattle.std.specs.Option.{option_copied};
ghost use Rattle.std.specs.Prelude.{◌≡◌, ◌↔◌, IfOk, IsTrue, None, Some};
ghost use Rattle.cmc_rules.specs.Rights.{ChangesAnswer, ChangesIssuance, ChangesIssuing, ChangesNextKey, ChangesReadiness, ChangesVerdict, Changes, IsLabelled, IsRequestObject, KeepsMeta, Makes, MayChange, OfCertificates, OfRequests, DeletesWhere};

use crate::kept_parts::{
    changes_answer, changes_issuance, changes_issuing, changes_next_key, changes_readiness,
    changes_verdict, keeps_meta,
};
use cmc_match::is_next_key;
use cmc_objects::{Certificate, CertificateRequest, Object, Role};
use std::alloc::{AllocError, Global};

fn keeps_certificate(old: &Certificate, new: &Certificate) -> bool
    ensures { IsTrue result ↔ (KeepsMeta old.now.meta new.now.meta × (new.now.spec ≡ old.now.spec)) }
{
    keeps_meta(&old.meta, &new.meta) && new.spec.same(&old.spec)
}

fn keeps_request(old: &CertificateRequest, new: &CertificateRequest) -> bool
    ensures { IsTrue result ↔ (KeepsMeta old.now.meta new.now.meta × (new.now.spec ≡ old.now.spec)) }
{
    keeps_meta(&old.meta, &new.meta) && new.spec.same(&old.spec)
}

fn triggers(alloc: Global, old: &Object, new: &Object) -> Result<bool, AllocError>
    ensures { IfOk result (λ may. IsTrue may ↔ OfCertificates ChangesIssuing old.now new.now) }
{
    match (old, new) {
        (Object::Cert(old), Object::Cert(new)) => {
            if !keeps_certificate(old, new) {
                return Ok(false);
            }
            changes_issuing(alloc, &old.status, &new.status)
        }
        _ => Ok(false),
    }
}

fn names_key(old: &Object, new: &Object) -> bool
    ensures { IsTrue result ↔ OfCertificates ChangesNextKey old.now new.now }
{
    match (old, new) {
        (Object::Cert(old), Object::Cert(new)) => {
            keeps_certificate(old, new) && changes_next_key(&old.status, &new.status)
        }
        _ => false,
    }
}

fn ends_issuance(alloc: Global, old: &Object, new: &Object) -> Result<bool, AllocError>
    ensures { IfOk result (λ may. IsTrue may ↔ OfCertificates ChangesIssuance old.now new.now) }
{
    match (old, new) {
        (Object::Cert(old), Object::Cert(new)) => {
            if !keeps_certificate(old, new) {
                return Ok(false);
            }
            changes_issuance(alloc, &old.status, &new.status)
        }
        _ => Ok(false),
    }
}

fn tells_readiness(alloc: Global, old: &Object, new: &Object) -> Result<bool, AllocError>
    ensures { IfOk result (λ may. IsTrue may ↔ OfCertificates ChangesReadiness old.now new.now) }
{
    match (old, new) {
        (Object::Cert(old), Object::Cert(new)) => {
            if !keeps_certificate(old, new) {
                return Ok(false);
            }
            changes_readiness(alloc, &old.status, &new.status)
        }
        _ => Ok(false),
    }
}

fn gives_verdict(alloc: Global, old: &Object, new: &Object) -> Result<bool, AllocError>
    ensures { IfOk result (λ may. IsTrue may ↔ OfRequests ChangesVerdict old.now new.now) }
{
    match (old, new) {
        (Object::Request(old), Object::Request(new)) => {
            if !keeps_request(old, new) {
                return Ok(false);
            }
            changes_verdict(alloc, &old.status, &new.status)
        }
        _ => Ok(false),
    }
}

fn gives_answer(alloc: Global, old: &Object, new: &Object) -> Result<bool, AllocError>
    ensures { IfOk result (λ may. IsTrue may ↔ OfRequests ChangesAnswer old.now new.now) }
{
    match (old, new) {
        (Object::Request(old), Object::Request(new)) => {
            if !keeps_request(old, new) {
                return Ok(false);
            }
            changes_answer(alloc, &old.status, &new.status)
        }
        _ => Ok(false),
    }
}

fn is_request(object: &Object) -> bool
    ensures { IsTrue result ↔ IsRequestObject object.now }
{
    matches!(object, Object::Request(_))
}

fn is_labelled(label: bool, object: &Object) -> bool
    ensures { IsTrue result ↔ IsLabelled label object.now }
{
    match object {
        Object::Secret(secret) => is_next_key(secret) == label,
        _ => false,
    }
}

/// What the role may make of what exists under a key, where both stand.
fn may_replace(alloc: Global, role: Role, old: &Object, new: &Object) -> Result<bool, AllocError>
    ensures { IfOk result (λ may. IsTrue may ↔ MayChange role (Some old.now) (Some new.now)) }
{
    match role {
        Role::Trigger => triggers(alloc, old, new),
        Role::KeyManager => Ok(names_key(old, new)),
        Role::Approver => gives_verdict(alloc, old, new),
        Role::Issuer => gives_answer(alloc, old, new),
        Role::Issuing => {
            if is_labelled(false, old) && is_labelled(false, new) {
                return Ok(true);
            }
            ends_issuance(alloc, old, new)
        }
        Role::Readiness => tells_readiness(alloc, old, new),
        Role::RequestManager => Ok(false),
        Role::Revision => Ok(false),
    }
}

/// Whether the role may make the object where none exists.
fn may_make(role: Role, new: &Object) -> bool
    ensures { IsTrue result ↔ MayChange role None (Some new.now) }
{
    match role {
        Role::KeyManager => is_labelled(true, new),
        Role::RequestManager => is_request(new),
        Role::Issuing => is_labelled(false, new),
        _ => false,
    }
}

/// Whether the role may take the object away.
fn may_take(role: Role, old: &Object) -> bool
    ensures { IsTrue result ↔ MayChange role (Some old.now) None }
{
    match role {
        Role::KeyManager => is_labelled(true, old),
        Role::RequestManager => is_request(old),
        Role::Revision => is_request(old),
        _ => false,
    }
}

/// Whether a pass of the role may make this of what stood under a key. An error is one of memory.
pub fn may_change(
    alloc: Global,
    role: Role,
    old: Option<&Object>,
    new: Option<&Object>,
) -> Result<bool, AllocError>
    ensures { IfOk result (λ may. IsTrue may ↔ MayChange role (option_copied old.entry) (option_copied new.entry)) }
{
    match (old, new) {
        (Some(old), Some(new)) => may_replace(alloc, role, old, new),
        (None, Some(new)) => Ok(may_make(role, new)),
        (Some(old), None) => Ok(may_take(role, old)),
        (None, None) => Ok(false),
    }
}
