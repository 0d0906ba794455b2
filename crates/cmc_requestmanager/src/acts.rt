//! The act, by the first line of the table that fits.
ghost use Rattle.std.specs.List.{last_or};
ghost use Rattle.std.specs.Option.{option_copied};
ghost use Rattle.std.specs.Prelude.{◌≡◌, ◌↔◌, None, Some, IfOk, IsTrue, option_map, if◌then◌else◌};
ghost use Rattle.cmc_der.specs.Keys.{key_shown};
ghost use Rattle.cmc_x509.specs.ReadKeys.{key_file_at};
ghost use Rattle.cmc_objects.specs.KeyPairs.{key_read};
ghost use Rattle.cmc_pass.specs.declared.pass.Act.TheVariants.{Nothing};
ghost use Rattle.cmc_requestmanager.specs.Choices.{request_act_of};
ghost use Rattle.cmc_rules.specs.NextRequests as next_words;
ghost use Rattle.cmc_rules.specs.RequestManager as table;
ghost use Rattle.cmc_rules.specs.RevisionManager as revising;

use crate::choices::{Choice, build, is_nothing};
use cmc_match::{OfRevision, key_fits_as_read, public_in};
use cmc_meta::Bytes;
use cmc_next::{
    failed_before, is_issuing, is_next, is_refused, is_wanted, key_in, named_key, next_count,
    next_of,
};
use cmc_objects::{Certificate, CertificateRequest, Secret, Shared};
use cmc_pass::{Act, Desk, Views};
use cmc_x509::Spki;
use std::alloc::{AllocError, Global};

fn is_stale(
    certificate: &Certificate,
    file: &[u8],
    public: &Option<Spki<'_>>,
    request: &CertificateRequest,
) -> bool
    requires { option_map key_shown public.now ≡ key_file_at file.now }
    ensures { result ≡ table.is_stale certificate.now file.now request.now }
{
    !is_wanted(certificate, file, public, request)
        || (is_refused(request) && failed_before(certificate, request))
}

fn stale_request<'a>(
    certificate: &Certificate,
    file: &[u8],
    public: &Option<Spki<'_>>,
    requests: &'a [Shared<CertificateRequest>],
) -> Option<&'a Shared<CertificateRequest>>
    requires revision { next_words.HasNextRevision (Some certificate.now) }
    requires public { option_map key_shown public.now ≡ key_file_at file.now }
    ensures { option_copied result ≡ table.stale_request certificate.now file.now requests.now }
{
    requests.iter().find(|request| is_next(certificate, request)
        && is_stale(certificate, file, public, request))
}

fn last_with<'a>(
    certificate: &Certificate,
    last: Option<&'a Shared<CertificateRequest>>,
    request: &'a Shared<CertificateRequest>,
) -> Option<&'a Shared<CertificateRequest>>
    requires { next_words.HasNextRevision (Some certificate.now) }
    ensures { option_copied result ≡ (if next_words.is_next certificate.now request.now then Some request.now else option_copied last.entry) }
{
    if is_next(certificate, request) {
        Some(request)
    } else {
        last
    }
}

fn last_next<'a>(
    certificate: &Certificate,
    requests: &'a [Shared<CertificateRequest>],
) -> Option<&'a Shared<CertificateRequest>>
    requires { next_words.HasNextRevision (Some certificate.now) }
    ensures { option_copied result ≡ last_or None (next_words.next_requests certificate.now requests.now) }
{
    let mut last: Option<&Shared<CertificateRequest>> = None;
    for request in requests {
        last = last_with(certificate, last, request);
    }
    last
}

fn delete_of<'a>(request: Option<&'a Shared<CertificateRequest>>) -> Choice<'a>
    ensures { request_act_of result ≡ revising.delete_of (option_copied request.entry) }
{
    match request {
        None => Choice::Nothing,
        Some(request) => Choice::Delete { request },
    }
}

fn ask_with<'a>(
    certificate: &'a Certificate,
    file: &'a Bytes,
    public: &Option<Spki<'a>>,
) -> Choice<'a>
    ensures { request_act_of result ≡ table.ask_with certificate.now file.now (option_map key_shown public.now) }
{
    match public {
        None => Choice::Nothing,
        Some(key) => Choice::Ask {
            certificate,
            file,
            key: *key,
        },
    }
}

fn by_count<'a>(
    certificate: &'a Certificate,
    file: &'a Bytes,
    public: &Option<Spki<'a>>,
    requests: &'a [Shared<CertificateRequest>],
) -> Choice<'a>
    requires revision { next_words.HasNextRevision (Some certificate.now) }
    requires public { option_map key_shown public.now ≡ key_file_at file.now }
    ensures { request_act_of result ≡ table.by_count certificate.now file.now (next_words.next_requests certificate.now requests.now) }
{
    let count = next_count(certificate, requests);
    if count == 0 {
        ask_with(certificate, file, public)
    } else if count == 1 {
        Choice::Nothing
    } else {
        delete_of(last_next(certificate, requests))
    }
}

fn by_stale<'a>(
    certificate: &'a Certificate,
    file: &'a Bytes,
    public: &Option<Spki<'a>>,
    requests: &'a [Shared<CertificateRequest>],
) -> Choice<'a>
    requires revision { next_words.HasNextRevision (Some certificate.now) }
    requires public { option_map key_shown public.now ≡ key_file_at file.now }
    ensures { request_act_of result ≡ table.by_stale certificate.now file.now requests.now (table.stale_request certificate.now file.now requests.now) }
{
    match stale_request(certificate, file.as_slice(), public, requests) {
        None => by_count(certificate, file, public, requests),
        Some(request) => Choice::Delete { request },
    }
}

/// What is chosen where this request alone is for the next revision.
fn by_only<'a>(
    certificate: &'a Certificate,
    file: &'a Bytes,
    public: &Option<Spki<'a>>,
    request: &'a CertificateRequest,
) -> Choice<'a>
    requires { option_map key_shown public.now ≡ key_file_at file.now }
    ensures { request_act_of result ≡ (if table.is_stale certificate.now file.now request.now then revising.delete_call request.now else Nothing) }
{
    if is_stale(certificate, file.as_slice(), public, request) {
        Choice::Delete { request }
    } else {
        Choice::Nothing
    }
}

/// What is chosen for a key that fits. Mostly one request at most is for the next revision.
fn by_next<'a>(
    certificate: &'a Certificate,
    file: &'a Bytes,
    public: &Option<Spki<'a>>,
    requests: &'a [Shared<CertificateRequest>],
) -> Choice<'a>
    requires revision { next_words.HasNextRevision (Some certificate.now) }
    requires public { option_map key_shown public.now ≡ key_file_at file.now }
    ensures { request_act_of result ≡ table.by_stale certificate.now file.now requests.now (table.stale_request certificate.now file.now requests.now) }
{
    let OfRevision { first, has_more } = next_of(certificate, requests);
    match first {
        None => ask_with(certificate, file, public),
        Some(request) if !has_more => by_only(certificate, file, public, request),
        Some(_) => by_stale(certificate, file, public, requests),
    }
}

fn with_file<'a>(
    certificate: &'a Certificate,
    requests: &'a [Shared<CertificateRequest>],
    file: Option<&'a Bytes>,
    public: &Option<Spki<'a>>,
) -> Choice<'a>
    requires revision { next_words.HasNextRevision (Some certificate.now) }
    requires public { option_map key_shown public.now ≡ key_read (option_copied file) }
    ensures { request_act_of result ≡ table.with_request_file certificate.now requests.now (option_copied file.entry) }
{
    match file {
        Some(file) if key_fits_as_read(&certificate.spec.key, file.as_slice(), public) => {
            by_next(certificate, file, public, requests)
        }
        _ => Choice::Nothing,
    }
}

fn with_key<'a>(
    certificate: &'a Certificate,
    requests: &'a [Shared<CertificateRequest>],
    secret: Option<&'a Shared<Secret>>,
) -> Choice<'a>
    requires { next_words.HasNextRevision (Some certificate.now) }
    ensures { request_act_of result ≡ table.with_key certificate.now requests.now (option_copied secret.entry) }
{
    match secret {
        None => Choice::Nothing,
        Some(secret) => with_file(certificate, requests, key_in(secret), &public_in(secret)),
    }
}

fn request_for<'a>(
    certificate: &'a Certificate,
    next: &'a [Shared<Secret>],
    requests: &'a [Shared<CertificateRequest>],
) -> Choice<'a>
    requires { next_words.HasNextRevision (Some certificate.now) }
    ensures { request_act_of result ≡ table.request_act_for certificate.now next.now requests.now }
{
    if !is_issuing(certificate) {
        return Choice::Nothing;
    }
    let secret = named_key(&certificate.status.next_key, next);
    with_key(certificate, requests, secret)
}

/// What the controller chooses to do on these views.
#[tactic(auto, unfolding(cmc_rules::specs::RequestManager::request_manager))]
fn choose<'a>(views: &'a Views) -> Choice<'a>
    requires { next_words.HasNextRevision views.now.certificate }
    ensures { request_act_of result ≡ table.request_manager views.now }
{
    match &views.certificate {
        None => Choice::Nothing,
        Some(certificate) => request_for(
            certificate,
            views.next.as_slice(),
            views.requests.as_slice(),
        ),
    }
}

/// What the controller does on these views; it looks at neither the moment `now` nor the desk.
///
/// It does nothing where there is no Certificate, its condition Issuing is not True, or no Secret with a next key has
/// the name that the status gives and a key that fits the specification.
///
/// Else it looks at the requests of the next revision. It deletes the first one that does not ask for what the
/// specification asks for with that key, or that is Ready False with the reason Failed or Denied and failed before the
/// last transition of Issuing. If there is none such and several stand, it deletes the last; one stays; where none
/// stands it asks for the signature of a certification request with the names of the specification and that key.
///
/// Deletions name the version that is seen.
///
/// The revision that stands is below 2^63: the next one is a number that can be written (`HasNextRevision`).
pub fn act(alloc: Global, views: &Views, now: i64, desk: &Desk) -> Result<Act, AllocError>
    requires { next_words.HasNextRevision views.now.certificate }
    ensures { IfOk result (λ a. a ≡ table.request_manager views.now) }
{
    let (_now, _desk) = (now, desk);
    build(alloc, choose(views))
}

/// Whether the controller has nothing to do on these views: whether its act is none. It takes no memory, since it builds
/// nothing of the act.
///
/// The revision that stands is below 2^63.
pub fn is_idle(views: &Views) -> bool
    requires { next_words.HasNextRevision views.now.certificate }
    ensures { IsTrue result ↔ (table.request_manager views.now ≡ Nothing) }
{
    is_nothing(choose(views))
}
