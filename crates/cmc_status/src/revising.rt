//! Which requests of a Certificate are kept.
ghost use Rattle.std.specs.Option.{option_copied};
ghost use Rattle.std.specs.Prelude.{◌≡◌, IfOk, filter, length, nat_lt, if◌then◌else◌};
ghost use Rattle.cmc_objects.specs.declared.role.Role.TheVariants as roles;
ghost use Rattle.cmc_rules.specs.Acts as acts;
ghost use Rattle.cmc_rules.specs.RevisionManager as spec;

use crate::conditions::{is_issuing, is_ready};
use cmc_match::revision_of;
use cmc_meta::{Key, Kind};
use cmc_objects::{Call, Certificate, CertificateRequest, Shared};
use cmc_pass::{Act, Desk, Views};
use std::alloc::{AllocError, Global};

#[tactic(auto, unfolding(cmc_rules::specs::RevisionManager::counts))]
fn counts(request: &CertificateRequest) -> bool
    ensures { result ≡ spec.counts request.now }
{
    revision_of(request).is_some() && is_ready(request.status.conditions.as_slice())
}

fn revision(request: &CertificateRequest) -> u64
    ensures { result ≡ spec.revision request.now }
{
    revision_of(request).unwrap_or(0)
}

fn count_of(requests: &[Shared<CertificateRequest>]) -> usize
    ensures { result ≡ length (filter spec.counts requests.now) }
{
    let mut count = 0;
    for request in requests {
        count += counts(request) as usize;
    }
    count
}

/// Whether more requests count than the limit allows.
fn is_above(limit: u32, requests: &[Shared<CertificateRequest>]) -> bool
    ensures { result ≡ nat_lt limit (length (filter spec.counts requests.now)) }
{
    (limit as usize) < count_of(requests)
}

fn older_of<'a>(
    oldest: Option<&'a Shared<CertificateRequest>>,
    request: &'a Shared<CertificateRequest>,
) -> Option<&'a Shared<CertificateRequest>>
    ensures { option_copied result ≡ spec.older_of (option_copied oldest.entry) request.now }
{
    match oldest {
        Some(oldest) if revision(oldest) <= revision(request) => Some(oldest),
        _ => Some(request),
    }
}

fn oldest_with<'a>(
    oldest: Option<&'a Shared<CertificateRequest>>,
    request: &'a Shared<CertificateRequest>,
) -> Option<&'a Shared<CertificateRequest>>
    ensures { option_copied result ≡ (if spec.counts request.now then spec.older_of (option_copied oldest.entry) request.now else option_copied oldest.entry) }
{
    if counts(request) {
        older_of(oldest, request)
    } else {
        oldest
    }
}

/// The request of least revision of those that count, of several the first; none where none counts.
#[tactic(auto, unfolding(cmc_rules::specs::RevisionManager::oldest_of))]
fn oldest_in(requests: &[Shared<CertificateRequest>]) -> Option<&Shared<CertificateRequest>>
    ensures { option_copied result ≡ spec.oldest_of (filter spec.counts requests.now) }
{
    let mut oldest: Option<&Shared<CertificateRequest>> = None;
    for request in requests {
        oldest = oldest_with(oldest, request);
    }
    oldest
}

#[tactic(auto, unfolding(cmc_rules::specs::RevisionManager::delete_call))]
fn delete_of(oldest: Option<&Shared<CertificateRequest>>) -> Result<Act, AllocError>
    ensures { IfOk result (λ a. a ≡ spec.delete_of (option_copied oldest.entry)) }
{
    match oldest {
        None => Ok(Act::Nothing),
        Some(request) => Ok(Act::Call(Call::Delete {
            key: Key {
                kind: Kind::CertificateRequest,
                namespace: request.meta.namespace.copy()?,
                name: request.meta.name.copy()?,
            },
            version: Some(request.meta.version),
        })),
    }
}

fn by_limit(limit: Option<u32>, requests: &[Shared<CertificateRequest>]) -> Result<Act, AllocError>
    ensures { IfOk result (λ a. a ≡ spec.by_limit limit requests.now) }
{
    match limit {
        Some(limit) if is_above(limit, requests) => delete_of(oldest_in(requests)),
        _ => Ok(Act::Nothing),
    }
}

fn revise_of(
    requests: &[Shared<CertificateRequest>],
    certificate: &Certificate,
) -> Result<Act, AllocError>
    ensures { IfOk result (λ a. a ≡ spec.revise_of requests.now (Some certificate.now)) }
{
    if is_issuing(certificate.status.conditions.as_slice()) {
        return Ok(Act::Nothing);
    }
    by_limit(certificate.spec.history_limit, requests)
}

/// What the revision controller does on these views.
///
/// Where more requests of the Certificate have a revision and are Ready than its `revisionHistoryLimit` says, it
/// deletes the one of least revision, of several the first by name, at the version that it sees (cert-manager.io/v1
/// `CertificateSpec`). It does nothing where there is no Certificate or no limit, and while the Certificate is being
/// issued. It looks at neither the moment nor the desk.
#[tactic(auto, unfolding(cmc_rules::specs::Acts::act, cmc_rules::specs::RevisionManager::revise))]
pub fn act_revision(alloc: Global, views: &Views, now: i64, desk: &Desk) -> Result<Act, AllocError>
    ensures { IfOk result (λ a. a ≡ acts.act roles.Revision views.now now desk.now) }
{
    let (_alloc, _now, _desk) = (alloc, now, desk);
    match &views.certificate {
        None => Ok(Act::Nothing),
        Some(certificate) => revise_of(views.requests.as_slice(), certificate),
    }
}
