//! The keys of which a role may see something new as it is told of more.
ghost use Rattle.std.specs.Prelude.{◌≡◌, ◌≤◌, IfOk, OnOk, length, reverse};
ghost use Rattle.cmc_meta.specs.declared.key.Kind.TheVariants as kinds;
ghost use Rattle.cmc_model.specs.Objects.{Objects};
ghost use Rattle.cmc_objects.specs.Informers.{kind_of_work};
ghost use Rattle.cmc_caches.specs.Told.{cache_of, with_cached};
ghost use Rattle.cmc_caches.specs.Affected.{AreNamed, KeepsKeys, SeesSame, SeesSameNext, SeesSameRequests, SeesSameTarget, ExistUnderNamed, left_by};
ghost use Rattle.cmc_caches.specs.Board.{AreBornWhereNumbered, shown_by};

use crate::listed::{add_naming_all, add_with_uids};
use crate::shown::Shown;
use crate::touched::{touched_owners, written_keys};
use cmc_meta::{Key, Kind};
use cmc_model::Write;
use cmc_objects::{Role, looks_at_next, looks_at_requests, looks_at_secret, works_on_requests};
use std::alloc::{AllocError, Global};

/// By writes of Certificates: of a role that works on them, each key that one of them names.
fn by_certificates(
    alloc: Global,
    role: Role,
    writes: &[Write],
    from: u64,
    to: u64,
) -> Result<Vec<Key>, AllocError>
    requires above { from ≤ to }
    requires within { to ≤ length writes.now }
    ensures work { IfOk result (λ keys. AreNamed (kind_of_work role) (reverse writes.now) keys.items) }
    ensures sees { IfOk result (λ keys. (requests secrets : Objects) → SeesSame role keys.items (record { certificates = left_by writes.now kinds.Certificate from; requests = requests; secrets = secrets }) (record { certificates = left_by writes.now kinds.Certificate to; requests = requests; secrets = secrets })) }
{
    if works_on_requests(role) {
        return Ok(Vec::new(alloc));
    }
    written_keys(alloc, writes, Kind::Certificate, from, to)
}

/// By writes of CertificateRequests, of a role that looks at those that a Certificate owns: the
/// Certificates that owned or come to own one that they change.
fn by_owned_requests(
    alloc: Global,
    role: Role,
    certificates: &Shown<'_>,
    requests: &Shown<'_>,
    writes: &[Write],
    from: u64,
    to: u64,
) -> Result<Vec<Key>, AllocError>
    requires above { from ≤ to }
    requires within { to ≤ length writes.now }
    requires holds { (shown_by requests.now) ≡ left_by writes.now kinds.CertificateRequest from }
    requires named { ExistUnderNamed kinds.Certificate (reverse writes.now) (shown_by certificates.now) }
    requires born { AreBornWhereNumbered certificates.now.writes }
    ensures work { IfOk result (λ keys. AreNamed (kind_of_work role) (reverse writes.now) keys.items) }
    ensures sees { IfOk result (λ keys. SeesSameRequests role (shown_by certificates.now) keys.items (left_by writes.now kinds.CertificateRequest from) (left_by writes.now kinds.CertificateRequest to)) }
{
    let mut keys = Vec::new(alloc);
    if !looks_at_requests(role) {
        return Ok(keys);
    }
    let owners = touched_owners(alloc, requests, writes, Kind::CertificateRequest, from, to)?;
    add_with_uids(certificates, &mut keys, owners.as_slice())?;
    Ok(keys)
}

/// By writes of CertificateRequests: of a role that works on them, each key that one of them names.
fn by_requests(
    alloc: Global,
    role: Role,
    certificates: &Shown<'_>,
    requests: &Shown<'_>,
    writes: &[Write],
    from: u64,
    to: u64,
) -> Result<Vec<Key>, AllocError>
    requires above { from ≤ to }
    requires within { to ≤ length writes.now }
    requires holds { (shown_by requests.now) ≡ left_by writes.now kinds.CertificateRequest from }
    requires named { ExistUnderNamed kinds.Certificate (reverse writes.now) (shown_by certificates.now) }
    requires born { AreBornWhereNumbered certificates.now.writes }
    ensures work { IfOk result (λ keys. AreNamed (kind_of_work role) (reverse writes.now) keys.items) }
    ensures sees { IfOk result (λ keys. (secrets : Objects) → SeesSame role keys.items (record { certificates = (shown_by certificates.now); requests = left_by writes.now kinds.CertificateRequest from; secrets = secrets }) (record { certificates = (shown_by certificates.now); requests = left_by writes.now kinds.CertificateRequest to; secrets = secrets })) }
{
    if works_on_requests(role) {
        return written_keys(alloc, writes, Kind::CertificateRequest, from, to);
    }
    by_owned_requests(alloc, role, certificates, requests, writes, from, to)
}

/// By writes of Secrets, of a role that looks at those with a next private key: the Certificates that owned
/// or come to own one that they change.
fn by_next_keys(
    alloc: Global,
    role: Role,
    certificates: &Shown<'_>,
    secrets: &Shown<'_>,
    writes: &[Write],
    from: u64,
    to: u64,
) -> Result<Vec<Key>, AllocError>
    requires above { from ≤ to }
    requires within { to ≤ length writes.now }
    requires holds { (shown_by secrets.now) ≡ left_by writes.now kinds.Secret from }
    requires named { ExistUnderNamed kinds.Certificate (reverse writes.now) (shown_by certificates.now) }
    requires born { AreBornWhereNumbered certificates.now.writes }
    ensures work { IfOk result (λ keys. AreNamed (kind_of_work role) (reverse writes.now) keys.items) }
    ensures sees { IfOk result (λ keys. SeesSameNext role (shown_by certificates.now) keys.items (left_by writes.now kinds.Secret from) (left_by writes.now kinds.Secret to)) }
{
    let mut keys = Vec::new(alloc);
    if !looks_at_next(role) {
        return Ok(keys);
    }
    let owners = touched_owners(alloc, secrets, writes, Kind::Secret, from, to)?;
    add_with_uids(certificates, &mut keys, owners.as_slice())?;
    Ok(keys)
}

/// By writes of Secrets, of a role that looks at the Secret that a Certificate names: adds the Certificates
/// that name one of them.
fn add_by_targets(
    alloc: Global,
    role: Role,
    certificates: &Shown<'_>,
    keys: &mut Vec<Key>,
    writes: &[Write],
    from: u64,
    to: u64,
) -> Result<(), AllocError>
    requires above { from ≤ to }
    requires within { to ≤ length writes.now }
    requires named { ExistUnderNamed kinds.Certificate (reverse writes.now) (shown_by certificates.now) }
    ensures work { OnOk result (AreNamed (kind_of_work role) (reverse writes.now) keys.old.items → AreNamed (kind_of_work role) (reverse writes.now) keys.new.items) }
    ensures sees { OnOk result (SeesSameTarget role (shown_by certificates.now) keys.new.items (left_by writes.now kinds.Secret from) (left_by writes.now kinds.Secret to)) }
    ensures keeps { OnOk result (KeepsKeys keys.old.items keys.new.items) }
{
    if !looks_at_secret(role) {
        return Ok(());
    }
    let written = written_keys(alloc, writes, Kind::Secret, from, to)?;
    add_naming_all(alloc, certificates, keys, &written)?;
    Ok(())
}

fn by_secrets(
    alloc: Global,
    role: Role,
    certificates: &Shown<'_>,
    secrets: &Shown<'_>,
    writes: &[Write],
    from: u64,
    to: u64,
) -> Result<Vec<Key>, AllocError>
    requires above { from ≤ to }
    requires within { to ≤ length writes.now }
    requires holds { (shown_by secrets.now) ≡ left_by writes.now kinds.Secret from }
    requires named { ExistUnderNamed kinds.Certificate (reverse writes.now) (shown_by certificates.now) }
    requires born { AreBornWhereNumbered certificates.now.writes }
    ensures work { IfOk result (λ keys. AreNamed (kind_of_work role) (reverse writes.now) keys.items) }
    ensures sees { IfOk result (λ keys. (requests : Objects) → SeesSame role keys.items (record { certificates = (shown_by certificates.now); requests = requests; secrets = left_by writes.now kinds.Secret from }) (record { certificates = (shown_by certificates.now); requests = requests; secrets = left_by writes.now kinds.Secret to })) }
{
    let mut keys = by_next_keys(alloc, role, certificates, secrets, writes, from, to)?;
    add_by_targets(alloc, role, certificates, &mut keys, writes, from, to)?;
    Ok(keys)
}

/// Keys of the role's work such that it sees the same of each other key once it is told of the writes of the
/// kind above the one version and up to the other. An error is one of memory.
pub(crate) fn affected_on(
    alloc: Global,
    role: Role,
    certificates: &Shown<'_>,
    requests: &Shown<'_>,
    secrets: &Shown<'_>,
    writes: &[Write],
    kind: Kind,
    from: u64,
    to: u64,
) -> Result<Vec<Key>, AllocError>
    requires above { from ≤ to }
    requires within { to ≤ length writes.now }
    requires holds { cache_of kind (record { certificates = (shown_by certificates.now); requests = (shown_by requests.now); secrets = (shown_by secrets.now) }) ≡ left_by writes.now kind from }
    requires named { ExistUnderNamed kinds.Certificate (reverse writes.now) (shown_by certificates.now) }
    requires born { AreBornWhereNumbered certificates.now.writes }
    ensures work { IfOk result (λ keys. AreNamed (kind_of_work role) (reverse writes.now) keys.items) }
    ensures sees { IfOk result (λ keys. SeesSame role keys.items (record { certificates = (shown_by certificates.now); requests = (shown_by requests.now); secrets = (shown_by secrets.now) }) (with_cached kind (left_by writes.now kind to) (record { certificates = (shown_by certificates.now); requests = (shown_by requests.now); secrets = (shown_by secrets.now) }))) }
{
    match kind {
        Kind::Certificate => by_certificates(alloc, role, writes, from, to),
        Kind::CertificateRequest => {
            by_requests(alloc, role, certificates, requests, writes, from, to)
        }
        Kind::Secret => by_secrets(alloc, role, certificates, secrets, writes, from, to),
    }
}
