//! What a role sees of a key.
ghost use Rattle.std.specs.List.{list_any};
ghost use Rattle.std.specs.Prelude.{◌≡◌, ◌==◌, ◌&&◌, ◌++◌, Some, None, [], IfOk, OnOk, OnErr, option_to_list, option_and_then, filter_map, if◌then◌else◌};
ghost use Rattle.cmc_model.specs.Objects.{Objects, object_at};
ghost use Rattle.cmc_objects.specs.Informers as tables;
ghost use Rattle.cmc_rules.specs.Views as seen;
ghost use Rattle.cmc_caches.specs.Board.{shown_by};

use crate::shown::Shown;
use cmc_meta::{Key, Kind, ObjectMeta, OwnerRef};
use cmc_objects::{
    Certificate, CertificateRequest, Object, Role, Secret, Shared, looks_at_next,
    looks_at_requests, looks_at_secret, text_under, works_on_requests,
};
use cmc_pass::{Requests, Secrets, Views};
use std::alloc::{AllocError, Global};

fn certificate_in(object: &Object) -> Result<Option<Shared<Certificate>>, AllocError>
    ensures { IfOk result (λ c. c ≡ seen.certificate_in object.now) }
{
    match object {
        Object::Cert(certificate) => Ok(Some(certificate.copy()?)),
        Object::Request(_) => Ok(None),
        Object::Secret(_) => Ok(None),
    }
}

fn request_in(object: &Object) -> Result<Option<Shared<CertificateRequest>>, AllocError>
    ensures { IfOk result (λ r. r ≡ seen.request_in object.now) }
{
    match object {
        Object::Cert(_) => Ok(None),
        Object::Request(request) => Ok(Some(request.copy()?)),
        Object::Secret(_) => Ok(None),
    }
}

fn secret_in(object: &Object) -> Result<Option<Shared<Secret>>, AllocError>
    ensures { IfOk result (λ s. s ≡ seen.secret_in object.now) }
{
    match object {
        Object::Cert(_) => Ok(None),
        Object::Request(_) => Ok(None),
        Object::Secret(secret) => Ok(Some(secret.copy()?)),
    }
}

fn certificate_at(objects: &Shown<'_>, key: &Key) -> Result<Option<Shared<Certificate>>, AllocError>
    ensures { IfOk result (λ c. c ≡ seen.certificate_at (shown_by objects.now) key.now) }
{
    match objects.get(key) {
        Some(object) => certificate_in(object),
        None => Ok(None),
    }
}

fn request_at(
    objects: &Shown<'_>,
    key: &Key,
) -> Result<Option<Shared<CertificateRequest>>, AllocError>
    ensures { IfOk result (λ r. r ≡ seen.request_at (shown_by objects.now) key.now) }
{
    match objects.get(key) {
        Some(object) => request_in(object),
        None => Ok(None),
    }
}

/// The key of the Secret that the Certificate names.
pub(crate) fn target_key(certificate: &Certificate) -> Result<Key, AllocError>
    ensures { IfOk result (λ k. k ≡ record { kind = Kind.Secret; namespace = certificate.now.meta.namespace; name = certificate.now.spec.secret_name }) }
{
    Ok(Key {
        kind: Kind::Secret,
        namespace: certificate.meta.namespace.copy()?,
        name: certificate.spec.secret_name.copy()?,
    })
}

fn target_at(
    objects: &Shown<'_>,
    certificate: &Certificate,
) -> Result<Option<Shared<Secret>>, AllocError>
    ensures { IfOk result (λ s. s ≡ seen.target_at (shown_by objects.now) certificate.now) }
{
    let key = target_key(certificate)?;
    match objects.get(&key) {
        Some(object) => secret_in(object),
        None => Ok(None),
    }
}

fn has_owner(owners: &[OwnerRef], uid: u64) -> bool
    ensures { result ≡ list_any (λ owner. owner.uid == uid) owners.now }
{
    owners.iter().any(|owner| owner.uid == uid)
}

fn is_owned(certificate: &Certificate, meta: &ObjectMeta) -> bool
    ensures { result ≡ seen.is_owned certificate.now meta.now }
{
    meta.namespace == certificate.meta.namespace
        && has_owner(meta.owners.as_slice(), certificate.meta.uid)
}

fn has_next_label(meta: &ObjectMeta) -> bool
    ensures { result ≡ seen.has_next_label meta.now }
{
    match text_under(&meta.labels, "cert-manager.io/next-private-key") {
        Some(text) => text.as_str() == "true",
        None => false,
    }
}

fn next_secret(
    certificate: &Certificate,
    secret: &Shared<Secret>,
) -> Result<Option<Shared<Secret>>, AllocError>
    ensures { IfOk result (λ s. s ≡ (if seen.has_next_label secret.now.meta && seen.is_owned certificate.now secret.now.meta then Some secret.now else None)) }
{
    if has_next_label(&secret.meta) && is_owned(certificate, &secret.meta) {
        return Ok(Some(secret.copy()?));
    }
    Ok(None)
}

fn next_in(certificate: &Certificate, object: &Object) -> Result<Option<Shared<Secret>>, AllocError>
    ensures { IfOk result (λ s. s ≡ seen.next_in certificate.now object.now) }
{
    match object {
        Object::Cert(_) => Ok(None),
        Object::Request(_) => Ok(None),
        Object::Secret(secret) => next_secret(certificate, secret),
    }
}

fn owned_request(
    certificate: &Certificate,
    request: &Shared<CertificateRequest>,
) -> Result<Option<Shared<CertificateRequest>>, AllocError>
    ensures { IfOk result (λ r. r ≡ (if seen.is_owned certificate.now request.now.meta then Some request.now else None)) }
{
    if is_owned(certificate, &request.meta) {
        return Ok(Some(request.copy()?));
    }
    Ok(None)
}

fn owned_in(
    certificate: &Certificate,
    object: &Object,
) -> Result<Option<Shared<CertificateRequest>>, AllocError>
    ensures { IfOk result (λ r. r ≡ seen.owned_in certificate.now object.now) }
{
    match object {
        Object::Cert(_) => Ok(None),
        Object::Request(request) => owned_request(certificate, request),
        Object::Secret(_) => Ok(None),
    }
}

fn push_secret(secrets: &mut Secrets, secret: Option<Shared<Secret>>) -> Result<(), AllocError>
    ensures ok { OnOk result (secrets.new ≡ secrets.old ++ option_to_list secret) }
    ensures err { OnErr result (secrets.new ≡ secrets.old) }
{
    match secret {
        Some(secret) => secrets.push(secret),
        None => Ok(()),
    }
}

fn push_request(
    requests: &mut Requests,
    request: Option<Shared<CertificateRequest>>,
) -> Result<(), AllocError>
    ensures ok { OnOk result (requests.new ≡ requests.old ++ option_to_list request) }
    ensures err { OnErr result (requests.new ≡ requests.old) }
{
    match request {
        Some(request) => requests.push(request),
        None => Ok(()),
    }
}

/// The Secret under the key, where it has a next private key of the Certificate.
fn next_at(
    certificate: &Certificate,
    objects: &Shown<'_>,
    key: &Key,
) -> Result<Option<Shared<Secret>>, AllocError>
    ensures { IfOk result (λ s. s ≡ option_and_then (seen.next_in certificate.now) (object_at (shown_by objects.now) key.now)) }
{
    match objects.get(key) {
        Some(object) => next_in(certificate, object),
        None => Ok(None),
    }
}

/// The CertificateRequest under the key, where the Certificate owns it.
fn owned_at(
    certificate: &Certificate,
    objects: &Shown<'_>,
    key: &Key,
) -> Result<Option<Shared<CertificateRequest>>, AllocError>
    ensures { IfOk result (λ r. r ≡ option_and_then (seen.owned_in certificate.now) (object_at (shown_by objects.now) key.now)) }
{
    match objects.get(key) {
        Some(object) => owned_in(certificate, object),
        None => Ok(None),
    }
}

fn next_under(
    alloc: Global,
    certificate: &Certificate,
    objects: &Shown<'_>,
    keys: &[Key],
) -> Result<Secrets, AllocError>
    ensures { IfOk result (λ s. s ≡ filter_map (λ k. option_and_then (seen.next_in certificate.now) (object_at (shown_by objects.now) k)) keys.now) }
{
    let mut next = Secrets::new(alloc);
    for key in keys {
        push_secret(&mut next, next_at(certificate, objects, key)?)?;
    }
    Ok(next)
}

fn owned_under(
    alloc: Global,
    certificate: &Certificate,
    objects: &Shown<'_>,
    keys: &[Key],
) -> Result<Requests, AllocError>
    ensures { IfOk result (λ r. r ≡ filter_map (λ k. option_and_then (seen.owned_in certificate.now) (object_at (shown_by objects.now) k)) keys.now) }
{
    let mut owned = Requests::with_capacity(alloc, keys.len())?;
    for key in keys {
        push_request(&mut owned, owned_at(certificate, objects, key)?)?;
    }
    Ok(owned)
}

/// The Secrets with a next private key of the Certificate: of what names its uid as an owner, those.
fn next_of(
    alloc: Global,
    objects: &Shown<'_>,
    certificate: &Certificate,
) -> Result<Secrets, AllocError>
    ensures { IfOk result (λ s. s ≡ seen.next_of (shown_by objects.now) certificate.now) }
{
    let keys = objects.owned_by(alloc, certificate.meta.uid)?;
    next_under(alloc, certificate, objects, keys.as_slice())
}

/// The CertificateRequests that the Certificate owns: of what names its uid as an owner, those.
fn requests_of(
    alloc: Global,
    objects: &Shown<'_>,
    certificate: &Certificate,
) -> Result<Requests, AllocError>
    ensures { IfOk result (λ r. r ≡ seen.requests_of (shown_by objects.now) certificate.now) }
{
    let keys = objects.owned_by(alloc, certificate.meta.uid)?;
    owned_under(alloc, certificate, objects, keys.as_slice())
}

fn secret_seen(
    role: Role,
    secrets: &Shown<'_>,
    certificate: &Option<Shared<Certificate>>,
) -> Result<Option<Shared<Secret>>, AllocError>
    ensures { IfOk result (λ s. s ≡ (if tables.looks_at_secret role then option_and_then (seen.target_at (shown_by secrets.now)) certificate.now else None)) }
{
    if !looks_at_secret(role) {
        return Ok(None);
    }
    match certificate {
        Some(certificate) => target_at(secrets, certificate),
        None => Ok(None),
    }
}

fn next_seen(
    alloc: Global,
    role: Role,
    secrets: &Shown<'_>,
    certificate: &Option<Shared<Certificate>>,
) -> Result<Secrets, AllocError>
    ensures { IfOk result (λ s. s ≡ (if tables.looks_at_next role then seen.of_certificate (seen.next_of (shown_by secrets.now)) certificate.now else [])) }
{
    if !looks_at_next(role) {
        return Ok(Secrets::new(alloc));
    }
    match certificate {
        Some(certificate) => next_of(alloc, secrets, certificate),
        None => Ok(Secrets::new(alloc)),
    }
}

fn requests_seen(
    alloc: Global,
    role: Role,
    requests: &Shown<'_>,
    certificate: &Option<Shared<Certificate>>,
) -> Result<Requests, AllocError>
    ensures { IfOk result (λ r. r ≡ (if tables.looks_at_requests role then seen.of_certificate (seen.requests_of (shown_by requests.now)) certificate.now else [])) }
{
    if !looks_at_requests(role) {
        return Ok(Requests::new(alloc));
    }
    match certificate {
        Some(certificate) => requests_of(alloc, requests, certificate),
        None => Ok(Requests::new(alloc)),
    }
}

fn certificate_seen(
    role: Role,
    certificates: &Shown<'_>,
    key: &Key,
) -> Result<Option<Shared<Certificate>>, AllocError>
    ensures { IfOk result (λ c. c ≡ (if tables.works_on_requests role then None else seen.certificate_at (shown_by certificates.now) key.now)) }
{
    if works_on_requests(role) {
        return Ok(None);
    }
    certificate_at(certificates, key)
}

fn request_seen(
    role: Role,
    requests: &Shown<'_>,
    key: &Key,
) -> Result<Option<Shared<CertificateRequest>>, AllocError>
    ensures { IfOk result (λ r. r ≡ (if tables.works_on_requests role then seen.request_at (shown_by requests.now) key.now else None)) }
{
    if works_on_requests(role) {
        return request_at(requests, key);
    }
    Ok(None)
}

#[tactic(auto, unfolding(cmc_rules::specs::Views::views_of))]
fn views_of(
    alloc: Global,
    role: Role,
    requests: &Shown<'_>,
    secrets: &Shown<'_>,
    certificate: Option<Shared<Certificate>>,
    request: Option<Shared<CertificateRequest>>,
) -> Result<Views, AllocError>
    ensures { IfOk result (λ v. (any : Objects) → v ≡ seen.views_of role (record { certificates = any; requests = (shown_by requests.now); secrets = (shown_by secrets.now) }) certificate request) }
{
    let secret = secret_seen(role, secrets, &certificate)?;
    let next = next_seen(alloc, role, secrets, &certificate)?;
    let requests = requests_seen(alloc, role, requests, &certificate)?;
    Ok(Views {
        certificate,
        secret,
        next,
        requests,
        request,
    })
}

/// What a role sees of the key among these objects of each kind.
#[tactic(auto, unfolding(cmc_rules::specs::Views::views_in))]
pub(crate) fn views_on(
    alloc: Global,
    role: Role,
    certificates: &Shown<'_>,
    requests: &Shown<'_>,
    secrets: &Shown<'_>,
    key: &Key,
) -> Result<Views, AllocError>
    ensures { IfOk result (λ v. v ≡ seen.views_in role (record { certificates = (shown_by certificates.now); requests = (shown_by requests.now); secrets = (shown_by secrets.now) }) key.now) }
{
    let certificate = certificate_seen(role, certificates, key)?;
    let request = request_seen(role, requests, key)?;
    views_of(alloc, role, requests, secrets, certificate, request)
}
