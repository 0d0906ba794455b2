//! What the readiness controller writes.
ghost use Rattle.std.specs.Option.{option_copied};
ghost use Rattle.std.specs.Prelude.{◌≡◌, ◌++◌, ◌&&◌, IfOk, Some, codes};
ghost use Rattle.cmc_meta.specs.declared.conditions.ConditionKind.TheVariants as kinds;
ghost use Rattle.cmc_meta.specs.ConditionLists.{condition_at, transitioned};
ghost use Rattle.cmc_objects.specs.declared.call.Call.TheVariants.{UpdateStatus};
ghost use Rattle.cmc_objects.specs.declared.object.Object.TheVariants.{Cert};
ghost use Rattle.cmc_pass.specs.declared.pass.Act.TheVariants.{Call as Calls};
ghost use Rattle.cmc_objects.specs.declared.role.Role.TheVariants as roles;
ghost use Rattle.cmc_policies.specs.Reasons.{reason_name};
ghost use Rattle.cmc_rules.specs.Acts as acts;
ghost use Rattle.cmc_rules.specs.Readiness as spec;

use crate::reasons::{Judged, Times, judge};
use cmc_meta::{Condition, ConditionKind, Text, Tri};
use cmc_objects::{Call, CertStatus, Certificate, CertificateRequest, Object, Secret, Shared};
use cmc_pass::{Act, Desk, Views};
use cmc_policies::{Frame, Reason, Renew};
use std::alloc::{AllocError, Global};

fn message(alloc: Global, reason: Reason) -> Result<Text, AllocError>
    ensures { IfOk result (λ t. t ≡ codes "Certificate is not ready: " ++ reason_name reason) }
{
    let mut message = String::from_str(alloc, "Certificate is not ready: ")?;
    message.push_str(reason.name())?;
    Text::from_str(alloc, message.as_str())
}

#[tactic(auto, unfolding(cmc_rules::specs::Readiness::ready_condition))]
fn condition(alloc: Global, moment: i64, reason: Option<Reason>) -> Result<Condition, AllocError>
    ensures { IfOk result (λ c. c ≡ spec.ready_condition moment reason) }
{
    match reason {
        None => Ok(Condition {
            kind: ConditionKind::Ready,
            status: Tri::True,
            reason: Text::from_str(alloc, "Ready")?,
            message: Text::from_str(alloc, "Certificate is up to date and has not expired")?,
            since: moment,
        }),
        Some(reason) => Ok(Condition {
            kind: ConditionKind::Ready,
            status: Tri::False,
            reason: Text::from_str(alloc, reason.name())?,
            message: message(alloc, reason)?,
            since: moment,
        }),
    }
}

fn is_moment(left: Option<i64>, right: Option<i64>) -> bool
    ensures { result ≡ spec.is_same_moment left right }
{
    match (left, right) {
        (None, None) => true,
        (Some(left), Some(right)) => left == right,
        _ => false,
    }
}

fn says(old: Option<&Condition>, new: &Condition) -> bool
    ensures { result ≡ spec.says (option_copied old.entry) new.now }
{
    match old {
        None => false,
        Some(old) => {
            old.status.same(new.status)
                && (old.reason.as_str() == new.reason.as_str()
                    && old.message.as_str() == new.message.as_str())
        }
    }
}

/// Whether the status has the times already.
fn has_times(status: &CertStatus, times: Times) -> bool
    ensures { result ≡ (spec.is_same_moment status.now.not_before times.not_before && (spec.is_same_moment status.now.not_after times.not_after && spec.is_same_moment status.now.renewal times.renewal)) }
{
    is_moment(status.not_before, times.not_before)
        && (is_moment(status.not_after, times.not_after)
            && is_moment(status.renewal, times.renewal))
}

fn is_settled(condition: &Condition, times: Times, status: &CertStatus) -> bool
    ensures { result ≡ (spec.says (condition_at status.now.conditions kinds.Ready) condition.now && (spec.is_same_moment status.now.not_before times.not_before && (spec.is_same_moment status.now.not_after times.not_after && spec.is_same_moment status.now.renewal times.renewal))) }
{
    says(status.conditions.get(ConditionKind::Ready), condition) && has_times(status, times)
}

fn status_with(
    condition: Condition,
    times: Times,
    status: &CertStatus,
) -> Result<CertStatus, AllocError>
    ensures { IfOk result (λ s. s ≡ record status.now { conditions = transitioned status.now.conditions condition; not_before = times.not_before; not_after = times.not_after; renewal = times.renewal }) }
{
    let mut changed = status.copy()?;
    changed.conditions.set(condition)?;
    changed.not_before = times.not_before;
    changed.not_after = times.not_after;
    changed.renewal = times.renewal;
    Ok(changed)
}

fn with_status(
    alloc: Global,
    certificate: &Certificate,
    status: CertStatus,
) -> Result<Act, AllocError>
    ensures { IfOk result (λ a. a ≡ Calls (UpdateStatus (Cert (record certificate.now { status = status })) certificate.now.meta.version)) }
{
    let changed = Certificate {
        meta: certificate.meta.copy()?,
        spec: certificate.spec.copy()?,
        status: Shared::new(alloc, status)?,
    };
    let object = Object::of_certificate(alloc, changed)?;
    Ok(Act::Call(Call::UpdateStatus {
        object,
        version: certificate.meta.version,
    }))
}

#[tactic(auto, unfolding(cmc_rules::specs::Readiness::is_settled, cmc_rules::specs::Readiness::ready_call, cmc_rules::specs::Readiness::ready_status))]
fn ready_of(
    alloc: Global,
    moment: i64,
    secret: &Option<Shared<Secret>>,
    requests: &[Shared<CertificateRequest>],
    certificate: &Certificate,
) -> Result<Act, AllocError>
    ensures { IfOk result (λ a. a ≡ spec.ready_of moment secret.now requests.now (Some certificate.now)) }
{
    let renew = Renew::by(
        certificate.spec.renew_percent,
        certificate.spec.renew_before,
    );
    let frame = Frame { now: moment, renew };
    let Judged { reason, times } = judge(frame, certificate, secret.as_ref(), requests);
    let condition = condition(alloc, moment, reason)?;
    if is_settled(&condition, times, &certificate.status) {
        return Ok(Act::Nothing);
    }
    let status = status_with(condition, times, &certificate.status)?;
    with_status(alloc, certificate, status)
}

/// What the readiness controller does on these views at the moment `now`, in seconds since 1970-01-01T00:00:00Z.
///
/// It sets Ready to True where the Secret stands, has a key and a certificate that are a pair, fits the specification
/// and the current request, and has not expired, and to False with the first reason that says otherwise; and it sets
/// the times of the certificate that exists, and when that is renewed, or takes them away where there is no pair
/// (cert-manager.io/v1 `CertificateStatus`). It does nothing where there is no Certificate, or its status says all
/// of this already.
#[tactic(auto, unfolding(cmc_rules::specs::Acts::act, cmc_rules::specs::Readiness::readiness))]
pub fn act_readiness(alloc: Global, views: &Views, now: i64, desk: &Desk) -> Result<Act, AllocError>
    ensures { IfOk result (λ a. a ≡ acts.act roles.Readiness views.now now desk.now) }
{
    match &views.certificate {
        None => Ok(Act::Nothing),
        Some(certificate) => ready_of(
            alloc,
            now,
            &views.secret,
            views.requests.as_slice(),
            certificate,
        ),
    }
}
