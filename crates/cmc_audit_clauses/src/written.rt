//! What a Secret that issuing wrote holds, beside its Certificate and its request.
ghost use Rattle.std.specs.Option.{option_copied};
ghost use Rattle.std.specs.Prelude.{◌≡◌, ◌↔◌, ℕ, List, IfOk, IsTrue, None, Some, codes, true};
ghost use Rattle.cmc_der.specs.Keys.{CertificateFields};
ghost use Rattle.cmc_objects.specs.Requests.{is_run_time};
ghost use Rattle.cmc_meta.specs.PairLists.{text_by_key};
ghost use Rattle.cmc_answers.specs.Temporary as spec;
ghost use Rattle.cmc_match.specs.Facts.{HasRequestedKey, IsPair, certificate_file_in, key_in};
ghost use Rattle.cmc_rules.specs.Safety.{IsIssued};
ghost use Rattle.cmc_audit_clauses.specs.Written.{Exists, HasTargetName, IsKeyed, IsTemporaryWrite, SaysIssued};

use cmc_answers::temporary;
use cmc_audit_state::is_denied;
use cmc_match::{asks_for_temporary, is_next_key, key_fits, pair_in, request_has_key};
use cmc_meta::{Bytes, Condition, ConditionKind, Tri};
use cmc_objects::{Certificate, CertificateRequest, KeySpec, Secret, part_under};
use std::alloc::{AllocError, Global};

/// The private key file of the Secret, in DER; `None` exactly where it has none.
pub fn key_of<'a>(secret: &'a Secret) -> Option<&'a Bytes>
    ensures { option_copied result ≡ key_in secret.now }
{
    part_under(&secret.parts, "tls.key")
}

fn certificate_of<'a>(secret: &'a Secret) -> Option<&'a Bytes>
    ensures { option_copied result ≡ certificate_file_in secret.now }
{
    part_under(&secret.parts, "tls.crt")
}

/// Whether the Secret has this certificate.
pub fn has_certificate(secret: &Secret, certificate: &Bytes) -> bool
    ensures { IsTrue result ↔ (certificate_file_in secret.now ≡ Some certificate.now) }
{
    match certificate_of(secret) {
        Some(found) => found.same(certificate),
        None => false,
    }
}

fn has_key(secret: &Secret, file: &Bytes) -> bool
    ensures { IsTrue result ↔ (key_in secret.now ≡ Some file.now) }
{
    match key_of(secret) {
        Some(found) => found.same(file),
        None => false,
    }
}

fn has_no_ca(secret: &Secret) -> bool
    ensures { IsTrue result ↔ (text_by_key secret.now.parts (codes "ca.crt") ≡ None) }
{
    part_under(&secret.parts, "ca.crt").is_none()
}

fn says_issued(condition: &Condition) -> bool
    ensures { IsTrue result ↔ SaysIssued condition.now }
{
    condition.kind.same(ConditionKind::Ready)
        && condition.status.same(Tri::True)
        && condition.reason.as_str() == "Issued"
}

/// Whether the issuer has issued: Ready is True with this reason.
pub fn is_issued(request: &CertificateRequest) -> bool
    ensures { IsTrue result ↔ IsIssued request.now }
{
    match request.status.conditions.get(ConditionKind::Ready) {
        Some(ready) => says_issued(ready),
        None => false,
    }
}

fn has_stand_in(
    alloc: Global,
    request: &CertificateRequest,
    file: &Bytes,
    since: i64,
    written: &Secret,
) -> Result<bool, AllocError>
    requires { is_run_time since ≡ true }
    ensures { IfOk result (λ has. IsTrue has ↔ Exists (spec.temporary request.now.spec.request file.now since) (λ made. certificate_file_in written.now ≡ Some made)) }
{
    match temporary(
        alloc,
        request.spec.request.as_slice(),
        file.as_slice(),
        since,
    )? {
        Some(made) => Ok(has_certificate(written, &made)),
        None => Ok(false),
    }
}

/// Whether the Secret has the certificate that stands in for the one that is asked for. An error is one of memory.
pub fn is_standing_in(
    alloc: Global,
    certificate: &Certificate,
    request: &CertificateRequest,
    file: &Bytes,
    since: i64,
    written: &Secret,
) -> Result<bool, AllocError>
    requires { is_run_time since ≡ true }
    ensures { IfOk result (λ is. IsTrue is ↔ IsTemporaryWrite certificate.now request.now file.now since written.now) }
{
    if !asks_for_temporary(certificate) || is_denied(request) || !has_no_ca(written) {
        return Ok(false);
    }
    has_stand_in(alloc, request, file, since, written)
}

fn is_paired(written: &Secret) -> bool
    ensures { IsTrue result ↔ ((fields : CertificateFields) × IsPair written.now fields) }
{
    pair_in(written).is_some()
}

/// Whether the Secret has a key of the kind that is asked for, and the request is for it.
fn has_requested_key(spec: &KeySpec, written: &Secret, request: &CertificateRequest) -> bool
    ensures { IsTrue result ↔ HasRequestedKey spec.now written.now request.now }
{
    match key_of(written) {
        Some(file) => {
            key_fits(spec, file.as_slice()) && request_has_key(request, file.as_slice())
        }
        None => false,
    }
}

/// Whether the Secret has this private key file and a certificate of the same public key; the key is as the Certificate asks
/// for it, and the request is for it.
pub fn is_keyed(
    certificate: &Certificate,
    request: &CertificateRequest,
    file: &Bytes,
    written: &Secret,
) -> bool
    ensures { IsTrue result ↔ IsKeyed certificate.now request.now file.now written.now }
{
    if !has_key(written, file) {
        return false;
    }
    if !is_paired(written) {
        return false;
    }
    has_requested_key(&certificate.spec.key, written, request)
}

/// Whether the Secret is the one that the Certificate names, and none with a next private key.
pub fn is_target(certificate: &Certificate, written: &Secret) -> bool
    ensures { IsTrue result ↔ HasTargetName certificate.now written.now }
{
    written.meta.namespace.same(&certificate.meta.namespace)
        && written.meta.name.same(&certificate.spec.secret_name)
        && !is_next_key(written)
}
