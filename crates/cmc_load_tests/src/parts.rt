//! The parts of what the roles have left to write for a Certificate, that no controller's act is needed for.
ghost use Rattle.std.specs.List.{list_any};
ghost use Rattle.std.specs.Option.{option_copied};
ghost use Rattle.std.specs.Prelude.{◌≡◌, Some, not, option_map};
ghost use Rattle.cmc_der.specs.Keys.{key_shown};
ghost use Rattle.cmc_x509.specs.ReadKeys.{key_file_at};
ghost use Rattle.cmc_rules.specs.NextKeys.{named_key};
ghost use Rattle.cmc_rules.specs.NextRequests.{HasNextRevision};
ghost use Rattle.cmc_rules.specs.RequestManager as table;
ghost use Rattle.cmc_load_laws.specs.Measure as words;

use cmc_match::{key_fits_as_read, public_in};
use cmc_meta::Pairs;
use cmc_next::{
    failed_before, has_fitting_key, is_named, is_next, is_refused, is_wanted, key_in, named_key,
};
use cmc_objects::{Call, Certificate, CertificateRequest, Object, Parts, Secret, Shared};
use cmc_pass::{Act, Views};
use cmc_x509::Spki;

/// The weight where it counts, and else 0.
pub(crate) fn weight(weight: u128, counts: bool) -> u128
    ensures { result ≡ words.weight weight counts }
{
    if counts { weight } else { 0 }
}

/// 3 where no next key fits first of all, 1 where the status does not name it, and else 0.
pub(crate) fn key_part(certificate: &Certificate, next: &[Shared<Secret>]) -> u128
    ensures { result ≡ words.key_part certificate.now next.now }
{
    match next.first() {
        None => 3,
        Some(key) => {
            if has_fitting_key(&certificate.spec.key, key) {
                weight(1, !is_named(&certificate.status.next_key, key))
            } else {
                3
            }
        }
    }
}

fn is_stale(
    certificate: &Certificate,
    file: &[u8],
    public: &Option<Spki<'_>>,
    request: &CertificateRequest,
) -> bool
    requires { option_map key_shown public.now ≡ key_file_at file.now }
    ensures { result ≡ table.is_stale certificate.now file.now request.now }
{
    !is_wanted(certificate, file, public, request)
        || (is_refused(request) && failed_before(certificate, request))
}

/// Whether the request is of the next revision and may stay.
fn is_fresh_request(
    certificate: &Certificate,
    file: &[u8],
    public: &Option<Spki<'_>>,
    request: &CertificateRequest,
) -> bool
    requires revision { HasNextRevision (Some certificate.now) }
    requires public { option_map key_shown public.now ≡ key_file_at file.now }
    ensures { result ≡ words.is_fresh_request certificate.now file.now request.now }
{
    is_next(certificate, request) && !is_stale(certificate, file, public, request)
}

fn is_any_fresh(
    certificate: &Certificate,
    requests: &[Shared<CertificateRequest>],
    file: &[u8],
    public: &Option<Spki<'_>>,
) -> bool
    requires revision { HasNextRevision (Some certificate.now) }
    requires public { option_map key_shown public.now ≡ key_file_at file.now }
    ensures { result ≡ list_any (words.is_fresh_request certificate.now file.now) requests.now }
{
    requests.iter().any(|request| is_fresh_request(certificate, file, public, request))
}

fn has_fresh(
    certificate: &Certificate,
    requests: &[Shared<CertificateRequest>],
    file: &[u8],
    public: &Option<Spki<'_>>,
) -> bool
    requires revision { HasNextRevision (Some certificate.now) }
    requires public { option_map key_shown public.now ≡ key_file_at file.now }
    ensures { result ≡ words.has_fresh certificate.now requests.now (Some file.now) }
{
    key_fits_as_read(&certificate.spec.key, file, public)
        && is_any_fresh(certificate, requests, file, public)
}

fn has_fresh_for(
    certificate: &Certificate,
    requests: &[Shared<CertificateRequest>],
    key: Option<&Shared<Secret>>,
) -> bool
    requires { HasNextRevision (Some certificate.now) }
    ensures { result ≡ words.has_fresh_for certificate.now requests.now (option_copied key.entry) }
{
    let Some(secret) = key else {
        return false;
    };
    match key_in(secret) {
        None => false,
        Some(file) => has_fresh(certificate, requests, file.as_slice(), &public_in(secret)),
    }
}

/// 4 where no request of the next revision may stay for the named key, and else 0.
pub(crate) fn request_part(certificate: &Certificate, seen: &Views) -> u128
    requires { HasNextRevision (Some certificate.now) }
    ensures { result ≡ words.weight 4 (not (words.has_fresh_for certificate.now seen.now.requests (named_key certificate.now.status.next_key seen.now.next))) }
{
    let key = named_key(&certificate.status.next_key, seen.next.as_slice());
    weight(
        4,
        !has_fresh_for(certificate, seen.requests.as_slice(), key),
    )
}

fn are_same_marks(left: &Pairs, right: &Pairs) -> bool
    ensures { result ≡ words.same_pairs left.now right.now }
{
    left.same(right)
}

fn are_same_parts(left: &Parts, right: &Parts) -> bool
    ensures { result ≡ words.same_pairs left.now right.now }
{
    left.same(right)
}

fn is_left(old: &Option<Shared<Secret>>, call: &Call) -> bool
    ensures { result ≡ words.is_left old.now call.now }
{
    match (old, call) {
        (
            Some(old),
            Call::Update {
                object: Object::Secret(new),
                ..
            },
        ) => are_same_marks(&new.meta.annotations, &old.meta.annotations)
            && are_same_parts(&new.parts, &old.parts),
        _ => false,
    }
}

/// Whether the act is an issuance whose Secret exists as it will be left.
pub(crate) fn is_target_written(old: &Option<Shared<Secret>>, act: &Act) -> bool
    ensures { result ≡ words.is_target_written old.now act.now }
{
    match act {
        Act::Issue(plan) => is_left(old, &plan.secret),
        _ => false,
    }
}
