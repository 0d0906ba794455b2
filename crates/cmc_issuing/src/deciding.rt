//! What the controller looks at: the answer of the issuer, and the Secret that exists.
ghost use Rattle.std.specs.Option.{option_copied};
ghost use Rattle.std.specs.Prelude.{◌≡◌, option_map};
ghost use Rattle.cmc_der.specs.Keys.{key_shown};
ghost use Rattle.cmc_x509.specs.ReadKeys.{key_file_at};
ghost use Rattle.cmc_match.specs.Facts as facts;
ghost use Rattle.cmc_rules.specs.Issuance as table;

use cmc_match::{is_next_key, is_one_key, is_temporary, pair_in};
use cmc_meta::{Condition, ConditionKind, Tri};
use cmc_next::{failed_before, is_approved, is_denied};
use cmc_objects::{Certificate, CertificateRequest, Secret, Shared};
use cmc_x509::{Spki, read_cert};

fn says_issued(ready: Option<&Condition>) -> bool
    ensures { result ≡ table.says_issued (option_copied ready.entry) }
{
    match ready {
        None => false,
        Some(ready) => ready.status.same(Tri::True) && ready.reason.as_str() == "Issued",
    }
}

/// Whether the issuer has issued, and the request is approved and not denied.
pub fn is_granted(request: &CertificateRequest) -> bool
    ensures { result ≡ table.is_granted request.now }
{
    says_issued(request.status.conditions.get(ConditionKind::Ready))
        && is_approved(request)
        && !is_denied(request)
}

/// Whether the request has failed, and not before the issuance in progress began.
pub fn fails_now(certificate: &Certificate, request: &CertificateRequest) -> bool
    ensures { result ≡ table.fails_now certificate.now request.now request.now.status.failure }
{
    match request.status.failure {
        None => false,
        Some(_) => !failed_before(certificate, request),
    }
}

fn says_failed(ready: Option<&Condition>) -> bool
    ensures { result ≡ table.says_failed (option_copied ready.entry) }
{
    match ready {
        None => false,
        Some(ready) => ready.reason.as_str() == "Failed",
    }
}

/// The reason of a refused request: its issuer failed, or it was denied.
pub fn refusal(request: &CertificateRequest) -> &'static str
    ensures { result.now ≡ table.refusal request.now }
{
    if says_failed(request.status.conditions.get(ConditionKind::Ready)) {
        "Failed"
    } else {
        "Denied"
    }
}

/// Says whether the certificate is readable, and its public key is that of `file`. `public` was read of `file`.
pub fn is_certified(file: &[u8], public: &Option<Spki<'_>>, certificate: &[u8]) -> bool
    requires { option_map key_shown public.now ≡ key_file_at file.now }
    ensures { result ≡ table.is_certified file.now certificate.now }
{
    let _file = file;
    match (public, read_cert(certificate)) {
        (Some(key), Ok(fields)) => is_one_key(key, &fields.key),
        _ => false,
    }
}

/// Whether the Secret under the name of the Certificate's is one that holds a next key.
pub fn is_kept_for_keys(target: &Option<Shared<Secret>>) -> bool
    ensures { result ≡ table.is_kept_for_keys target.now }
{
    match target {
        None => false,
        Some(secret) => is_next_key(secret),
    }
}

fn is_of_file(public: &Option<Spki<'_>>, key: &Spki<'_>) -> bool
    ensures { result ≡ table.is_of_file (option_map key_shown public.now) (key_shown key.now) }
{
    match public {
        Some(own) => is_one_key(own, key),
        None => false,
    }
}

fn lacks_pair(file: &[u8], public: &Option<Spki<'_>>, secret: &Secret) -> bool
    requires { option_map key_shown public.now ≡ key_file_at file.now }
    ensures { result ≡ table.lacks_pair file.now secret.now (facts.pair_in secret.now) }
{
    let _file = file;
    match pair_in(secret) {
        None => true,
        Some(fields) => is_temporary(secret) && !is_of_file(public, &fields.key),
    }
}

/// Says whether the Secret has no key and certificate that are a pair, or a temporary certificate for another key than
/// that of `file`. `public` was read of `file`.
pub fn lacks_certificate(
    file: &[u8],
    public: &Option<Spki<'_>>,
    target: &Option<Shared<Secret>>,
) -> bool
    requires { option_map key_shown public.now ≡ key_file_at file.now }
    ensures { result ≡ table.lacks_certificate file.now target.now }
{
    match target {
        None => true,
        Some(secret) => lacks_pair(file, public, secret),
    }
}
