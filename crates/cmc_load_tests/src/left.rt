//! What the roles of a load have left to write for a Certificate, as a number.
ghost use Rattle.std.specs.Prelude.{◌≡◌, ◌<◌, ◌^◌, Some, IfOk, length};
ghost use Rattle.cmc_objects.specs.declared.role.Role.TheVariants.{Issuing, Trigger, Readiness};
ghost use Rattle.cmc_objects.specs.declared.request.CertificateRequest.{CertificateRequest as RequestValue};
ghost use Rattle.cmc_rules.specs.Acts.{act};
ghost use Rattle.cmc_rules.specs.NextRequests.{HasNextRevision};
ghost use Rattle.cmc_rules.specs.SeenObjects.{IsAmong};
ghost use Rattle.cmc_rules.specs.Views.{present_views};
ghost use Rattle.cmc_model.specs.Histories.{moment};
ghost use Rattle.cmc_safety.specs.MayAct.{MayAct};
ghost use Rattle.cmc_kernel.specs.Kept.{on};
ghost use Rattle.cmc_load_laws.specs.Measure as words;
ghost use Rattle.cmc_load_tests.specs.Left.{desk_with, request_alone};
ghost use Rattle.cmc_load_tests.specs.Left as left;

use crate::parts::{is_target_written, key_part, request_part, weight};
use cmc_kernel::Kernel;
use cmc_meta::Key;
use cmc_moves::{act_of, is_idle_of, let_go};
use cmc_next::is_issuing;
use cmc_objects::{Certificate, CertificateRequest, Material, Role, Rules, Shared};
use cmc_pass::{Act, Desk, Views};
use cmc_waits::all_that_exists;
use std::alloc::{AllocError, Global};

/// A desk with these rules, of a scenario that says nothing of keys and issuers.
fn desk_of(alloc: Global, rules: &Rules) -> Result<Desk, AllocError>
    ensures { IfOk result (λ d. d ≡ desk_with rules.now) }
{
    Ok(Desk {
        material: Material::new(alloc),
        asked: 0,
        rules: rules.copy()?,
    })
}

/// Whether the role has something to do on these views at the moment `now`.
fn acts(alloc: Global, role: Role, seen: &Views, now: i64, desk: &Desk) -> Result<bool, AllocError>
    requires { MayAct seen.now now desk.now }
    ensures { IfOk result (λ b. b ≡ words.acts (act role seen.now now desk.now)) }
{
    Ok(!is_idle_of(alloc, role, seen, now, desk)?)
}

// ---- a request

/// The views of a role of requests on this one.
fn alone(alloc: Global, request: &Shared<CertificateRequest>) -> Result<Views, AllocError>
    ensures { IfOk result (λ v. v ≡ request_alone request.now) }
{
    let mut seen = Views::new(alloc);
    seen.request = Some(request.copy()?);
    Ok(seen)
}

/// 2 where the approver has something to do on the request, 1 where the issuer's controller has, and else 0.
#[tactic(auto, unfolding(cmc_rules::specs::Acts::act, cmc_rules::specs::Approver::approver, cmc_rules::specs::Issuer::issuer))]
fn waits(
    alloc: Global,
    desk: &Desk,
    now: i64,
    request: &Shared<CertificateRequest>,
) -> Result<u128, AllocError>
    requires { MayAct (request_alone request.now) now desk.now }
    ensures { IfOk result (λ n. n ≡ words.waits desk.now now request.now) }
{
    let seen = alone(alloc, request)?;
    if acts(alloc, Role::Approver, &seen, now, desk)? {
        return Ok(2);
    }
    Ok(weight(1, acts(alloc, Role::Issuer, &seen, now, desk)?))
}

fn requests_part(
    alloc: Global,
    desk: &Desk,
    now: i64,
    requests: &[Shared<CertificateRequest>],
) -> Result<u128, AllocError>
    requires each { (r : RequestValue) → IsAmong r requests.now → MayAct (request_alone r) now desk.now }
    requires few { length requests.now < 2 ^ 64 }
    ensures { IfOk result (λ n. n ≡ words.requests_part desk.now now requests.now) }
{
    let mut sum = 0;
    for request in requests {
        sum += waits(alloc, desk, now, request)?;
    }
    Ok(sum)
}

// ---- a Certificate

#[tactic(auto, unfolding(cmc_rules::specs::Acts::act))]
fn under_way(
    alloc: Global,
    desk: &Desk,
    now: i64,
    seen: &Views,
    certificate: &Certificate,
) -> Result<u128, AllocError>
    requires may { MayAct seen.now now desk.now }
    requires revision { HasNextRevision (Some certificate.now) }
    ensures { IfOk result (λ n. n ≡ words.under_way now seen.now certificate.now) }
{
    let does = act_of(alloc, Role::Issuing, seen, now, desk)?;
    let written = is_target_written(&seen.secret, &does);
    let_go(does);
    Ok(
        3 + (key_part(certificate, seen.next.as_slice())
            + (request_part(certificate, seen) + weight(2, !written))),
    )
}

#[tactic(auto, unfolding(cmc_rules::specs::Acts::act))]
fn idle(
    alloc: Global,
    desk: &Desk,
    now: i64,
    seen: &Views,
    certificate: &Certificate,
) -> Result<u128, AllocError>
    requires { MayAct seen.now now desk.now }
    ensures { IfOk result (λ n. n ≡ words.idle now seen.now certificate.now) }
{
    let asks = acts(alloc, Role::Trigger, seen, now, desk)?;
    Ok(weight(1, certificate.status.next_key.is_some()) + weight(13, asks))
}

#[tactic(auto, unfolding(cmc_rules::specs::Acts::act))]
fn part_of(
    alloc: Global,
    desk: &Desk,
    now: i64,
    seen: &Views,
    certificate: &Certificate,
) -> Result<u128, AllocError>
    requires may { MayAct seen.now now desk.now }
    requires revision { HasNextRevision (Some certificate.now) }
    ensures { IfOk result (λ n. n ≡ words.certificate_part now seen.now (Some certificate.now)) }
{
    let restates = weight(1, acts(alloc, Role::Readiness, seen, now, desk)?);
    if is_issuing(certificate) {
        return Ok(restates + under_way(alloc, desk, now, seen, certificate)?);
    }
    Ok(restates + idle(alloc, desk, now, seen, certificate)?)
}

fn certificate_part(alloc: Global, desk: &Desk, now: i64, seen: &Views) -> Result<u128, AllocError>
    requires { MayAct seen.now now desk.now }
    ensures { IfOk result (λ n. n ≡ words.certificate_part now seen.now seen.now.certificate) }
{
    match &seen.certificate {
        None => Ok(0),
        Some(certificate) => part_of(alloc, desk, now, seen, certificate),
    }
}

/// The same count, in a wider type.
fn wide(count: usize) -> u128
    ensures same { result ≡ count }
    ensures short { result < 2 ^ 64 }
{
    count as u128
}

fn measure(alloc: Global, desk: &Desk, now: i64, seen: &Views) -> Result<u128, AllocError>
    requires may { MayAct seen.now now desk.now }
    requires each { (r : RequestValue) → IsAmong r seen.now.requests → MayAct (request_alone r) now desk.now }
    ensures { IfOk result (λ n. n ≡ words.measure desk.now 0 now seen.now) }
{
    let next = wide(seen.next.as_slice().len());
    let owned = wide(seen.requests.as_slice().len());
    let requests = requests_part(alloc, desk, now, seen.requests.as_slice())?;
    let own = certificate_part(alloc, desk, now, seen)?;
    Ok(next + (owned + (requests + own)))
}

// ---- all that exists

/// What there is to see of the key.
fn present(alloc: Global, kernel: &Kernel, key: &Key) -> Result<Views, AllocError>
    ensures same { IfOk result (λ seen. seen ≡ on present_views kernel.now Issuing key.now) }
    ensures may { IfOk result (λ seen. MayAct seen (on moment kernel.now) (desk_with kernel.now.scenario.approver)) }
    ensures each { IfOk result (λ seen. (r : RequestValue) → IsAmong r seen.requests → MayAct (request_alone r) (on moment kernel.now) (desk_with kernel.now.scenario.approver)) }
{
    kernel.is_run();
    kernel.is_formed();
    let all = all_that_exists(alloc, kernel)?;
    all.views(alloc, Role::Issuing, key)
}

/// How much the roles have left to write at this moment for the Certificate under the key, in a scenario that says
/// nothing of keys and issuers: the number that the laws of loads say falls with each of their writes. 0 where there is no
/// Certificate.
pub fn left_to_write(alloc: Global, kernel: &Kernel, key: &Key) -> Result<u128, AllocError>
    ensures { IfOk result (λ n. n ≡ on left.left_to_write kernel.now key.now) }
{
    let seen = present(alloc, kernel, key)?;
    let desk = desk_of(alloc, kernel.scenario().approver())?;
    measure(alloc, &desk, kernel.moment(), &seen)
}
