//! The condition that asks for an issuance.
ghost use Rattle.std.specs.Prelude.{◌≡◌, ◌==◌, ◌&&◌, ◌++◌, codes, IfOk};
ghost use Rattle.cmc_meta.specs.declared.conditions.ConditionKind.TheVariants.{Issuing};
ghost use Rattle.cmc_meta.specs.declared.conditions.Tri.TheVariants.{True};
ghost use Rattle.cmc_meta.specs.ConditionLists.{condition_rank, tri_eq};
ghost use Rattle.cmc_objects.specs.Requests.{is_stated};
ghost use Rattle.cmc_policies.specs.Reasons.{reason_name};
ghost use Rattle.cmc_rules.specs.Trigger as spec;

use cmc_meta::{Condition, ConditionKind, Text, Tri};
use cmc_objects::{Call, CertStatus, Certificate, Object, Shared};
use cmc_pass::Act;
use cmc_policies::Reason;
use std::alloc::{AllocError, Global};

fn states_issuing(condition: &Condition) -> bool
    ensures { result ≡ ((condition_rank condition.now.kind == condition_rank Issuing) && tri_eq condition.now.status True) }
{
    match condition.kind {
        ConditionKind::Issuing => condition.status.same(Tri::True),
        _ => false,
    }
}

/// Whether the Certificate is being issued: its condition Issuing is True.
pub fn is_issuing(conditions: &[Condition]) -> bool
    ensures { result ≡ is_stated Issuing conditions.now }
{
    conditions.iter().any(states_issuing)
}

fn message(alloc: Global, reason: Reason) -> Result<Text, AllocError>
    ensures { IfOk result (λ t. t ≡ codes "Certificate must be issued: " ++ reason_name reason) }
{
    let mut message = String::from_str(alloc, "Certificate must be issued: ")?;
    message.push_str(reason.name())?;
    Text::from_str(alloc, message.as_str())
}

#[tactic(auto, unfolding(cmc_rules::specs::Trigger::issuing_condition))]
fn condition(alloc: Global, moment: i64, reason: Reason) -> Result<Condition, AllocError>
    ensures { IfOk result (λ c. c ≡ spec.issuing_condition moment reason) }
{
    Ok(Condition {
        kind: ConditionKind::Issuing,
        status: Tri::True,
        reason: Text::from_str(alloc, reason.name())?,
        message: message(alloc, reason)?,
        since: moment,
    })
}

#[tactic(auto, unfolding(cmc_rules::specs::Trigger::issuing_status))]
fn status_with(
    alloc: Global,
    moment: i64,
    reason: Reason,
    status: &CertStatus,
) -> Result<CertStatus, AllocError>
    ensures { IfOk result (λ s. s ≡ spec.issuing_status moment reason status.now) }
{
    let mut changed = status.copy()?;
    changed.conditions.set(condition(alloc, moment, reason)?)?;
    Ok(changed)
}

#[tactic(auto, unfolding(cmc_rules::specs::Trigger::with_issuing))]
fn with_issuing(
    alloc: Global,
    moment: i64,
    reason: Reason,
    certificate: &Certificate,
) -> Result<Certificate, AllocError>
    ensures { IfOk result (λ c. c ≡ spec.with_issuing moment reason certificate.now) }
{
    let status = status_with(alloc, moment, reason, &certificate.status)?;
    Ok(Certificate {
        meta: certificate.meta.copy()?,
        spec: certificate.spec.copy()?,
        status: Shared::new(alloc, status)?,
    })
}

/// The status update, at the version of the Certificate, that asks for its issuance for this reason.
#[tactic(auto, unfolding(cmc_rules::specs::Trigger::issue_call))]
pub fn issue_call(
    alloc: Global,
    moment: i64,
    reason: Reason,
    certificate: &Certificate,
) -> Result<Act, AllocError>
    ensures { IfOk result (λ a. a ≡ spec.issue_call moment reason certificate.now) }
{
    let changed = with_issuing(alloc, moment, reason, certificate)?;
    let object = Object::of_certificate(alloc, changed)?;
    Ok(Act::Call(Call::UpdateStatus {
        object,
        version: certificate.meta.version,
    }))
}
