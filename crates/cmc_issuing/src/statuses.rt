//! The status that the controller writes.
ghost use Rattle.std.specs.Prelude.{◌≡◌, ◌+◌, ◌-◌, ◌<◌, ◌^◌, IfOk, Some, codes, min, unwrap_or};
ghost use Rattle.cmc_rules.specs.Issuance as table;
ghost use Rattle.cmc_rules.specs.NextRequests.{HasNextRevision};

use cmc_meta::{Condition, ConditionKind, Text, Tri};
use cmc_objects::{Call, CertStatus, Certificate, Object, Shared};
use cmc_pass::Act;
use std::alloc::{AllocError, Global};

#[tactic(auto, unfolding(cmc_rules::specs::Issuance::ended_condition))]
fn ended_condition(
    alloc: Global,
    moment: i64,
    reason: &str,
    message: &str,
) -> Result<Condition, AllocError>
    ensures { IfOk result (λ c. c ≡ table.ended_condition moment reason.now message.now) }
{
    Ok(Condition {
        kind: ConditionKind::Issuing,
        status: Tri::False,
        reason: Text::from_str(alloc, reason)?,
        message: Text::from_str(alloc, message)?,
        since: moment,
    })
}

fn issued_condition(alloc: Global, moment: i64) -> Result<Condition, AllocError>
    ensures { IfOk result (λ c. c ≡ table.ended_condition moment (codes "Issued") (codes "The certificate has been successfully issued")) }
{
    ended_condition(
        alloc,
        moment,
        "Issued",
        "The certificate has been successfully issued",
    )
}

fn failed_condition(alloc: Global, moment: i64, reason: &str) -> Result<Condition, AllocError>
    ensures { IfOk result (λ c. c ≡ table.ended_condition moment reason.now (codes "The certificate request has failed to complete and will be retried")) }
{
    ended_condition(
        alloc,
        moment,
        reason,
        "The certificate request has failed to complete and will be retried",
    )
}

#[tactic(auto, unfolding(cmc_rules::specs::Issuance::issued_status))]
fn issued_status(alloc: Global, moment: i64, status: &CertStatus) -> Result<CertStatus, AllocError>
    requires { unwrap_or status.now.revision 0 < 2 ^ 63 }
    ensures { IfOk result (λ s. s ≡ table.issued_status moment status.now) }
{
    let mut changed = status.copy()?;
    changed.conditions.set(issued_condition(alloc, moment)?)?;
    changed.revision = Some(status.revision.unwrap_or(0) + 1);
    changed.last_failure = None;
    changed.attempts = None;
    Ok(changed)
}

/// One failure more, up to the greatest count that can be written.
fn one_more(attempts: Option<u32>) -> u32
    ensures { result ≡ min (unwrap_or attempts 0 + 1) (2 ^ 32 - 1) }
{
    attempts.unwrap_or(0).saturating_add(1)
}

#[tactic(auto, unfolding(cmc_rules::specs::Issuance::failed_status))]
fn failed_status(
    alloc: Global,
    moment: i64,
    reason: &str,
    status: &CertStatus,
) -> Result<CertStatus, AllocError>
    ensures { IfOk result (λ s. s ≡ table.failed_status moment reason.now status.now) }
{
    let mut changed = status.copy()?;
    changed
        .conditions
        .set(failed_condition(alloc, moment, reason)?)?;
    changed.last_failure = Some(moment);
    changed.attempts = Some(one_more(status.attempts));
    Ok(changed)
}

#[tactic(auto, unfolding(cmc_rules::specs::Issuance::status_call))]
fn status_call(
    alloc: Global,
    status: CertStatus,
    certificate: &Certificate,
) -> Result<Call, AllocError>
    ensures { IfOk result (λ c. c ≡ table.status_call status certificate.now) }
{
    let changed = Certificate {
        meta: certificate.meta.copy()?,
        spec: certificate.spec.copy()?,
        status: Shared::new(alloc, status)?,
    };
    let object = Object::of_certificate(alloc, changed)?;
    Ok(Call::UpdateStatus {
        object,
        version: certificate.meta.version,
    })
}

/// The status update, at the version of the Certificate, that ends its issuance with the next revision.
pub fn issued_call(
    alloc: Global,
    moment: i64,
    certificate: &Certificate,
) -> Result<Call, AllocError>
    requires { HasNextRevision (Some certificate.now) }
    ensures { IfOk result (λ c. c ≡ table.status_call (table.issued_status moment certificate.now.status) certificate.now) }
{
    let status = issued_status(alloc, moment, &certificate.status)?;
    status_call(alloc, status, certificate)
}

/// The status update, at the version of the Certificate, that ends its issuance with a failure for this reason.
#[tactic(auto, unfolding(cmc_rules::specs::Issuance::failure))]
pub fn failure(
    alloc: Global,
    moment: i64,
    reason: &str,
    certificate: &Certificate,
) -> Result<Act, AllocError>
    ensures { IfOk result (λ a. a ≡ table.failure moment reason.now certificate.now) }
{
    let status = failed_status(alloc, moment, reason, &certificate.status)?;
    Ok(Act::Call(status_call(alloc, status, certificate)?))
}
