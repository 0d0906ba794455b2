//! What Certificates that are not Ready wait for.
ghost use Rattle.std.specs.List.{list_any};
ghost use Rattle.std.specs.Option.{option_copied};
ghost use Rattle.std.specs.Prelude.{◌≡◌, false, IfOk, IfSome};
ghost use Rattle.cmc_model.specs.Histories as histories;
ghost use Rattle.cmc_objects.specs.declared.role.Role.TheVariants.{Issuing};
ghost use Rattle.cmc_rules.specs.Dates.{HasDatedFailure, IsDatedOption};
ghost use Rattle.cmc_rules.specs.Issuance as issuing;
ghost use Rattle.cmc_rules.specs.Trigger as triggering;
ghost use Rattle.cmc_rules.specs.Views as viewing;
ghost use Rattle.cmc_caches.specs.Posted.{caches_of};
ghost use Rattle.cmc_kernel.specs.Kept.{on};
ghost use Rattle.cmc_waits.specs.Waits as words;

use cmc_caches::Caches;
use cmc_kernel::Kernel;
use cmc_match::{is_next_key, next_request};
use cmc_meta::{Condition, ConditionKind, Key, Kind, Tri};
use cmc_next::{is_approved, is_denied, is_issuing};
use cmc_objects::{
    CertStatus, Certificate, CertificateRequest, Positions, Role, Secret, Shared, has_informer,
};
use cmc_pass::Views;
use cmc_policies::backoff_until;
use cmc_summary::WaitName;
use std::alloc::{AllocError, Global};

// ---- one Certificate, by what there is to see of it

fn is_backing_off(status: &CertStatus, moment: i64) -> bool
    requires { IsDatedOption status.now.last_failure }
    ensures { result ≡ triggering.is_backing_off status.now moment }
{
    match status.last_failure {
        None => false,
        Some(last) => moment < backoff_until(last, status.attempts),
    }
}

fn says_issued(ready: Option<&Condition>) -> bool
    ensures { result ≡ issuing.says_issued (option_copied ready.entry) }
{
    match ready {
        None => false,
        Some(ready) => ready.status.same(Tri::True) && ready.reason.as_str() == "Issued",
    }
}

fn is_unanswered(ready: Option<&Condition>) -> bool
    ensures { result ≡ words.is_unanswered (option_copied ready.entry) }
{
    match ready {
        None => true,
        Some(ready) => ready.reason.as_str() == "Pending",
    }
}

fn is_kept_for_keys(target: &Option<Shared<Secret>>) -> bool
    ensures { result ≡ issuing.is_kept_for_keys target.now }
{
    match target {
        None => false,
        Some(secret) => is_next_key(secret),
    }
}

fn wait_of_request(
    target: &Option<Shared<Secret>>,
    request: &CertificateRequest,
) -> Option<WaitName>
    ensures { result ≡ words.wait_of_request target.now request.now }
{
    if !is_approved(request) && !is_denied(request) {
        return Some(WaitName::Unapproved);
    }
    let conditions = &request.status.conditions;
    if says_issued(conditions.get(ConditionKind::Ready)) && is_kept_for_keys(target) {
        return Some(WaitName::Name);
    }
    if is_approved(request) && is_unanswered(conditions.get(ConditionKind::Ready)) {
        return Some(WaitName::Pending);
    }
    None
}

fn wait_of_next(
    target: &Option<Shared<Secret>>,
    request: Option<&Shared<CertificateRequest>>,
) -> Option<WaitName>
    ensures { result ≡ words.wait_of_next target.now (option_copied request.entry) }
{
    match request {
        None => None,
        Some(request) => wait_of_request(target, request),
    }
}

fn wait_of(moment: i64, seen: &Views, certificate: &Certificate) -> Option<WaitName>
    requires { IsDatedOption certificate.now.status.last_failure }
    ensures { result ≡ words.wait_of moment seen.now certificate.now }
{
    if !is_issuing(certificate) && is_backing_off(&certificate.status, moment) {
        return Some(WaitName::Backoff);
    }
    if is_issuing(certificate) && seen.next.as_slice().is_empty() {
        return Some(WaitName::Key);
    }
    let request = next_request(certificate.status.revision, seen.requests.as_slice());
    wait_of_next(&seen.secret, request)
}

fn wait_in(moment: i64, seen: &Views) -> Option<WaitName>
    requires { HasDatedFailure seen.now }
    ensures { result ≡ words.wait_in moment seen.now }
{
    match &seen.certificate {
        None => None,
        Some(certificate) => wait_of(moment, seen, certificate),
    }
}

// ---- the roles

/// Whether the role does not run, or its informer of the kind is held.
fn is_kept_from(kernel: &Kernel, role: Role, kind: Kind) -> bool
    ensures { result ≡ on words.is_kept_from kernel.now role kind }
{
    !kernel.runs(role) || (has_informer(role, kind) && kernel.is_held(role, kind))
}

fn is_hindered(kernel: &Kernel, role: Role) -> bool
    ensures { result ≡ on words.is_hindered kernel.now role }
{
    is_kept_from(kernel, role, Kind::Certificate)
        || is_kept_from(kernel, role, Kind::CertificateRequest)
        || is_kept_from(kernel, role, Kind::Secret)
}

fn is_any_hindered(kernel: &Kernel, roles: &[Role]) -> bool
    ensures { result ≡ list_any (λ role. on words.is_hindered kernel.now role) roles.now }
{
    for role in roles {
        if is_hindered(kernel, *role) {
            return true;
        }
    }
    false
}

/// Whether some role does not run, or some informer is held.
pub(crate) fn is_stopped(kernel: &Kernel) -> bool
    ensures { result ≡ on words.is_stopped kernel.now }
{
    let roles = [
        Role::Trigger,
        Role::KeyManager,
        Role::RequestManager,
        Role::Approver,
        Role::Issuer,
        Role::Issuing,
        Role::Readiness,
        Role::Revision,
    ];
    is_any_hindered(kernel, &roles)
}

// ---- a Certificate, by all that exists

/// Caches of their own, of which the issuing controller's row is told of all writes: what it sees is all that exists. It goes
/// over all writes; `Err` where there is no memory.
pub fn all_that_exists(alloc: Global, kernel: &Kernel) -> Result<Caches, AllocError>
    ensures { IfOk result (λ all. on words.IsAllThatExists kernel.now (caches_of all Issuing)) }
{
    let mut all = kernel.caches().same_writes(alloc)?;
    let newest = all.log().accepted();
    let at = Positions {
        certificates: newest,
        requests: newest,
        secrets: newest,
    };
    all.start(alloc, Role::Issuing, at)?;
    Ok(all)
}

/// What there is to see of the key, where `all` is all that exists.
fn present_views(
    alloc: Global,
    kernel: &Kernel,
    all: &Caches,
    key: &Key,
) -> Result<Views, AllocError>
    requires { on words.IsAllThatExists kernel.now (caches_of all.now Issuing) }
    ensures same { IfOk result (λ seen. seen ≡ on viewing.present_views kernel.now Issuing key.now) }
    ensures dated { IfOk result (λ seen. HasDatedFailure seen) }
{
    kernel.is_run();
    all.views(alloc, Role::Issuing, key)
}

fn wait_seen(
    alloc: Global,
    kernel: &Kernel,
    all: &Caches,
    key: &Key,
) -> Result<Option<WaitName>, AllocError>
    requires { on words.IsAllThatExists kernel.now (caches_of all.now Issuing) }
    ensures { IfOk result (λ wait. wait ≡ words.wait_in (on histories.moment kernel.now) (on viewing.present_views kernel.now Issuing key.now)) }
{
    let seen = present_views(alloc, kernel, all, key)?;
    Ok(wait_in(kernel.moment(), &seen))
}

/// The same, where all that exists is not given. Never inlined, since what it builds takes much room.
#[inline(never)]
fn wait_seen_anew(alloc: Global, kernel: &Kernel, key: &Key) -> Result<Option<WaitName>, AllocError>
    ensures { IfOk result (λ wait. wait ≡ words.wait_in (on histories.moment kernel.now) (on viewing.present_views kernel.now Issuing key.now)) }
{
    let all = all_that_exists(alloc, kernel)?;
    wait_seen(alloc, kernel, &all, key)
}

/// What the Certificate of `key` waits for, where `all` is all that exists and `stopped` says whether some role does not
/// run or some informer is held: for that, or else for the end of its back-off, a next key, a verdict on its next
/// request, the name of its Secret, or its issuer, the first of these that is so. `None` where none is so. All that exists
/// is gone over anew where it is not given and is looked at.
pub(crate) fn wait_at(
    alloc: Global,
    kernel: &Kernel,
    stopped: bool,
    all: &Option<Caches>,
    key: &Key,
) -> Result<Option<WaitName>, AllocError>
    requires stopped { stopped ≡ on words.is_stopped kernel.now }
    requires all { IfSome all.now (λ given. on words.IsAllThatExists kernel.now (caches_of given Issuing)) }
    ensures { IfOk result (λ wait. wait ≡ on words.wait_at kernel.now key.now) }
{
    if stopped {
        return Ok(Some(WaitName::Stopped));
    }
    match all {
        Some(all) => wait_seen(alloc, kernel, all, key),
        None => wait_seen_anew(alloc, kernel, key),
    }
}
