//! Whether a Secret that issuing wrote is a good issue.
ghost use Rattle.std.specs.Option.{option_copied};
ghost use Rattle.std.specs.Prelude.{◌≡◌, ◌↔◌, IfOk, IsTrue, true};
ghost use Rattle.cmc_meta.specs.declared.key.Kind.TheVariants as kinds;
ghost use Rattle.cmc_objects.specs.Requests.{is_run_time};
ghost use Rattle.cmc_rules.specs.Views as seen;
ghost use Rattle.cmc_audit_state.specs.Journaled.{cached};
ghost use Rattle.cmc_audit_writes.specs.IssueClauses as words;
ghost use Rattle.cmc_audit_writes.specs.IssueClauses.{IsIssueBy, IsIssueFor, IsIssueOf, IsIssueWith, IsIssuers, IsKeptIssue, IsSignedWrite};

use cmc_audit_clauses::{has_certificate, is_issued, is_keyed, is_standing_in, is_target, key_of};
use cmc_audit_ledger::certificate_seen;
use cmc_audit_state::{Journal, Row, is_approved, is_owned};
use cmc_match::{is_next_key, is_temporary, next_request, request_matches};
use cmc_meta::{Bytes, Key, Kind, Name};
use cmc_objects::{Certificate, CertificateRequest, Object, Secret, Shared};
use std::alloc::{AllocError, Global};

/// Whether the Secret has the certificate of an issuer, who was asked of a request that is approved and never denied.
fn is_issuers(journal: &Journal, request: &CertificateRequest, written: &Secret) -> bool
    ensures { IsTrue result ↔ IsIssuers journal.now request.now written.now }
{
    is_approved(request)
        && !journal.is_denied(request.meta.uid)
        && is_issued(request)
        && has_certificate(written, &request.status.certificate)
}

fn is_signed(
    alloc: Global,
    journal: &Journal,
    certificate: &Certificate,
    request: &CertificateRequest,
    file: &Bytes,
    since: i64,
    written: &Secret,
) -> Result<bool, AllocError>
    requires { is_run_time since ≡ true }
    ensures { IfOk result (λ is. IsTrue is ↔ IsSignedWrite journal.now certificate.now request.now file.now since written.now) }
{
    if is_temporary(written) {
        return is_standing_in(alloc, certificate, request, file, since, written);
    }
    Ok(is_issuers(journal, request, written))
}

fn is_issue_with(
    alloc: Global,
    journal: &Journal,
    certificate: &Certificate,
    request: &CertificateRequest,
    file: &Bytes,
    since: i64,
    written: &Secret,
) -> Result<bool, AllocError>
    requires { is_run_time since ≡ true }
    ensures { IfOk result (λ is. IsTrue is ↔ IsIssueWith journal.now certificate.now request.now file.now since written.now) }
{
    if !is_keyed(certificate, request, file, written) {
        return Ok(false);
    }
    is_signed(alloc, journal, certificate, request, file, since, written)
}

fn is_issue_by(
    alloc: Global,
    journal: &Journal,
    certificate: &Certificate,
    request: &CertificateRequest,
    since: i64,
    written: &Secret,
    key: &Secret,
) -> Result<bool, AllocError>
    requires { is_run_time since ≡ true }
    ensures { IfOk result (λ is. IsTrue is ↔ IsIssueBy journal.now certificate.now request.now since written.now key.now) }
{
    match key_of(key) {
        Some(file) => is_issue_with(alloc, journal, certificate, request, file, since, written),
        None => Ok(false),
    }
}

fn secret_key(certificate: &Certificate, name: &Name) -> Result<Key, AllocError>
    ensures { IfOk result (λ k. k ≡ record { kind = kinds.Secret; namespace = certificate.now.meta.namespace; name = name.now }) }
{
    Ok(Key {
        kind: Kind::Secret,
        namespace: certificate.meta.namespace.copy()?,
        name: name.copy()?,
    })
}

fn next_in<'a>(certificate: &Certificate, object: &'a Object) -> Option<&'a Shared<Secret>>
    ensures { option_copied result ≡ seen.next_in certificate.now object.now }
{
    match object {
        Object::Secret(secret) => {
            if is_next_key(secret) && is_owned(certificate, &secret.meta) {
                return Some(secret);
            }
            None
        }
        _ => None,
    }
}

/// The Secret with the key that the status of the Certificate names, as it stood after the first `up_to` writes. An
/// error is one of memory.
fn next_key<'a>(
    journal: &'a Journal,
    certificate: &Certificate,
    up_to: u64,
) -> Result<Option<&'a Shared<Secret>>, AllocError>
    ensures { IfOk result (λ key. option_copied key ≡ words.next_key_at (cached kinds.Secret journal.now up_to) certificate.now) }
{
    let Some(name) = &certificate.status.next_key else {
        return Ok(None);
    };
    let key = secret_key(certificate, name)?;
    match journal.cached(Kind::Secret, &key, up_to) {
        Some(object) => Ok(next_in(certificate, object)),
        None => Ok(None),
    }
}

fn is_issue_for(
    alloc: Global,
    journal: &Journal,
    row: &Row,
    certificate: &Certificate,
    request: &CertificateRequest,
    written: &Secret,
) -> Result<bool, AllocError>
    requires { is_run_time row.now.since ≡ true }
    ensures { IfOk result (λ is. IsTrue is ↔ IsIssueFor journal.now row.now certificate.now written.now request.now) }
{
    if !request_matches(&certificate.spec, request) || !is_target(certificate, written) {
        return Ok(false);
    }
    match next_key(journal, certificate, row.reach.secrets)? {
        Some(key) => is_issue_by(
            alloc,
            journal,
            certificate,
            request,
            row.since,
            written,
            key,
        ),
        None => Ok(false),
    }
}

fn is_issue_of(
    alloc: Global,
    journal: &Journal,
    row: &Row,
    certificate: &Certificate,
    written: &Secret,
) -> Result<bool, AllocError>
    requires { is_run_time row.now.since ≡ true }
    ensures { IfOk result (λ is. IsTrue is ↔ IsIssueOf journal.now row.now written.now certificate.now) }
{
    let requests = journal.requests(alloc, certificate, row.reach.requests)?;
    match next_request(
        Some(journal.revision(certificate.meta.uid)),
        requests.as_slice(),
    ) {
        Some(request) => is_issue_for(alloc, journal, row, certificate, request, written),
        None => Ok(false),
    }
}

/// Whether the Secret, which the pass wrote, is a good issue by what is kept: by the accepted writes before it, and by the
/// pass. An error is one of memory.
pub(crate) fn is_issue(
    alloc: Global,
    journal: &Journal,
    row: &Row,
    written: &Secret,
) -> Result<bool, AllocError>
    requires { is_run_time row.now.since ≡ true }
    ensures { IfOk result (λ is. IsTrue is ↔ IsKeptIssue journal.now row.now written.now) }
{
    if !row.read {
        return Ok(false);
    }
    match certificate_seen(journal, row) {
        Some(certificate) => is_issue_of(alloc, journal, row, certificate, written),
        None => Ok(false),
    }
}
