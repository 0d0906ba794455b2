//! The revision of a Certificate that a CertificateRequest is for.
ghost use Rattle.std.specs.List.{list_any};
ghost use Rattle.std.specs.Option.{option_copied};
ghost use Rattle.std.specs.Prelude.{◌≡◌, ◌<◌, ◌^◌, ℕ, IfSome, Some, decimal, filter, find, length, nat_lt};
ghost use Rattle.cmc_match.specs.Revisions as words;

use cmc_meta::{Text, number_in};
use cmc_objects::{CertificateRequest, Shared, text_under};
use itoa::Buffer;

fn number_of(text: Option<&Text>) -> Option<u64>
    ensures { result ≡ words.number_of (option_copied text.entry) }
{
    match text {
        None => None,
        Some(text) => number_in(text.as_str()),
    }
}

#[tactic(auto, unfolding(crate::specs::Revisions::revision_of))]
fn revision(request: &CertificateRequest) -> Option<u64>
    ensures { result ≡ words.revision_of request.now }
{
    number_of(text_under(
        &request.meta.annotations,
        "cert-manager.io/certificate-revision",
    ))
}

/// The revision of the Certificate that the request is for: the number that its annotation
/// `cert-manager.io/certificate-revision` writes in decimal, without sign or leading zero, below 2^64. `None` where
/// there is no annotation, or it writes no such number.
pub fn revision_of(request: &CertificateRequest) -> Option<u64>
    ensures value { result ≡ words.revision_of request.now }
    ensures read { (number : ℕ) → number < 2 ^ 64 →
        words.revision_text request.now ≡ Some (decimal number) → result ≡ Some number }
    ensures written { IfSome result (λ number. words.revision_text request.now ≡ Some (decimal number)) }
{
    revision(request)
}

/// Whether the request is for this revision of its Certificate.
pub fn is_of(request: &CertificateRequest, revision: u64) -> bool
    ensures { result ≡ words.is_of_revision revision request.now }
{
    match revision_of(request) {
        None => false,
        Some(number) => number == revision,
    }
}

/// Whether the annotation of the request writes a revision in these digits.
fn is_written(request: &CertificateRequest, digits: &str) -> bool
    ensures { result ≡ words.is_text_of digits.now (words.revision_text request.now) }
{
    match text_under(
        &request.meta.annotations,
        "cert-manager.io/certificate-revision",
    ) {
        None => false,
        Some(text) => text.as_str() == digits,
    }
}

fn is_any_written(requests: &[Shared<CertificateRequest>], digits: &str) -> bool
    ensures { result ≡ list_any (λ request. words.is_text_of digits.now (words.revision_text request)) requests.now }
{
    requests.iter().any(|request| is_written(request, digits))
}

/// The requests of a Certificate that are for one revision.
pub struct OfRevision<'a> {
    /// The first of them.
    pub first: Option<&'a Shared<CertificateRequest>>,
    /// Whether there are more.
    pub has_more: bool,
}

fn written<'a>(requests: &'a [Shared<CertificateRequest>], digits: &str) -> OfRevision<'a>
    ensures first { option_copied result.first ≡ find (λ request. words.is_text_of digits.now (words.revision_text request)) requests.now }
    ensures more { result.has_more ≡ nat_lt 1 (length (filter (λ request. words.is_text_of digits.now (words.revision_text request)) requests.now)) }
{
    let mut rest = requests;
    while let Some((request, others)) = rest.split_first() {
        if is_written(request, digits) {
            return OfRevision {
                first: Some(request),
                has_more: is_any_written(others, digits),
            };
        }
        rest = others;
    }
    OfRevision {
        first: None,
        has_more: false,
    }
}

/// The requests among these that are for the revision, found in one walk. An annotation is compared with the digits of the
/// revision, and no number is read.
pub fn requests_for(requests: &[Shared<CertificateRequest>], revision: u64) -> OfRevision<'_>
    ensures first { option_copied result.first ≡ find (λ request. words.is_of_revision revision request) requests.now }
    ensures more { result.has_more ≡ nat_lt 1 (length (filter (λ request. words.is_of_revision revision request) requests.now)) }
{
    let mut buffer = Buffer::new();
    written(requests, buffer.format(revision))
}

fn only_of(
    requests: &[Shared<CertificateRequest>],
    revision: u64,
) -> Option<&Shared<CertificateRequest>>
    ensures { option_copied result ≡ words.only_of revision requests.now }
{
    let OfRevision { first, has_more } = requests_for(requests, revision);
    if has_more { None } else { first }
}

/// The current request among those of a Certificate: the one of the revision that stands, which is 0 where the
/// status has none; `None` unless exactly one is of it.
pub fn current_request(
    revision: Option<u64>,
    requests: &[Shared<CertificateRequest>],
) -> Option<&Shared<CertificateRequest>>
    ensures { option_copied result ≡ words.current_request revision requests.now }
{
    only_of(requests, revision.unwrap_or(0))
}

/// The next request among those of a Certificate: the one of the revision after the one that exists; `None`
/// unless exactly one is of it.
pub fn next_request(
    revision: Option<u64>,
    requests: &[Shared<CertificateRequest>],
) -> Option<&Shared<CertificateRequest>>
    ensures { option_copied result ≡ words.next_request revision requests.now }
{
    // No annotation writes a number above the greatest u64.
    let current = revision.unwrap_or(0);
    if current == u64::MAX {
        return None;
    }
    only_of(requests, current + 1)
}
