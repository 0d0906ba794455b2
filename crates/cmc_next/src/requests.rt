//! The requests of an issuance in progress.
ghost use Rattle.std.specs.Option.{option_copied};
ghost use Rattle.std.specs.Prelude.{◌≡◌, Some, find, length, nat_lt, option_map};
ghost use Rattle.cmc_der.specs.Keys.{key_shown};
ghost use Rattle.cmc_x509.specs.ReadKeys.{key_file_at};
ghost use Rattle.cmc_rules.specs.NextRequests as words;

use cmc_match::{OfRevision, is_of, request_answers, requests_for};
use cmc_meta::{Condition, ConditionKind, Tri};
use cmc_objects::{Certificate, CertificateRequest, Shared};
use cmc_x509::Spki;

/// Whether the request is for the next revision of the Certificate: the one after the revision that its status has,
/// which is 0 where it has none.
pub fn is_next(certificate: &Certificate, request: &CertificateRequest) -> bool
    requires { words.HasNextRevision (Some certificate.now) }
    ensures { result ≡ words.is_next certificate.now request.now }
{
    is_of(request, certificate.status.revision.unwrap_or(0) + 1)
}

/// How many of the requests are for the next revision of the Certificate.
pub fn next_count(certificate: &Certificate, requests: &[Shared<CertificateRequest>]) -> usize
    requires { words.HasNextRevision (Some certificate.now) }
    ensures { result ≡ length (words.next_requests certificate.now requests.now) }
{
    requests
        .iter()
        .filter(|request| is_next(certificate, request))
        .count()
}

/// The requests among these that are for the next revision of the Certificate, found in one walk.
pub fn next_of<'a>(
    certificate: &Certificate,
    requests: &'a [Shared<CertificateRequest>],
) -> OfRevision<'a>
    requires { words.HasNextRevision (Some certificate.now) }
    ensures first { option_copied result.first ≡ find (words.is_next certificate.now) requests.now }
    ensures more { result.has_more ≡ nat_lt 1 (length (words.next_requests certificate.now requests.now)) }
{
    requests_for(requests, certificate.status.revision.unwrap_or(0) + 1)
}

/// Says whether the request asks for what the Certificate asks for, with the key of `file`. `public` was read of `file`.
pub fn is_wanted(
    certificate: &Certificate,
    file: &[u8],
    public: &Option<Spki<'_>>,
    request: &CertificateRequest,
) -> bool
    requires { option_map key_shown public.now ≡ key_file_at file.now }
    ensures { result ≡ words.is_wanted certificate.now file.now request.now }
{
    request_answers(&certificate.spec, request, file, public)
}

fn says_refused(ready: Option<&Condition>) -> bool
    ensures { result ≡ words.says_refused (option_copied ready.entry) }
{
    match ready {
        None => false,
        Some(ready) => {
            let reason = ready.reason.as_str();
            ready.status.same(Tri::False) && (reason == "Failed" || reason == "Denied")
        }
    }
}

/// Whether the request came to nothing: its condition Ready is False with the reason Failed or Denied.
pub fn is_refused(request: &CertificateRequest) -> bool
    ensures { result ≡ words.is_refused request.now }
{
    says_refused(request.status.conditions.get(ConditionKind::Ready))
}

fn is_before(failure: Option<i64>, issuing: Option<&Condition>) -> bool
    ensures { result ≡ words.is_before failure (option_copied issuing.entry) }
{
    match (failure, issuing) {
        (Some(failure), Some(issuing)) => failure < issuing.since,
        _ => false,
    }
}

/// Whether the request failed before the condition Issuing of the Certificate had its last transition; not where it
/// has no moment of failure, or there is no such condition.
pub fn failed_before(certificate: &Certificate, request: &CertificateRequest) -> bool
    ensures { result ≡ words.failed_before certificate.now request.now }
{
    let issuing = certificate.status.conditions.get(ConditionKind::Issuing);
    is_before(request.status.failure, issuing)
}
