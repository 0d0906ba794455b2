//! The write of a verdict.
ghost use Rattle.std.specs.Prelude.{◌≡◌, IfOk};
ghost use Rattle.cmc_rules.specs.Approver as table;

use cmc_meta::Condition;
use cmc_objects::{Call, CertificateRequest, Object, RequestStatus, Shared};
use std::alloc::{AllocError, Global};

#[tactic(auto, unfolding(cmc_rules::specs::Approver::judged_status))]
fn judged_status(verdict: Condition, status: &RequestStatus) -> Result<RequestStatus, AllocError>
    ensures { IfOk result (λ s. s ≡ table.judged_status verdict status.now) }
{
    let mut changed = status.copy()?;
    changed.conditions.set(verdict)?;
    Ok(changed)
}

fn with_verdict(
    alloc: Global,
    verdict: Condition,
    request: &CertificateRequest,
) -> Result<CertificateRequest, AllocError>
    ensures { IfOk result (λ r. r ≡ record request.now { status = table.judged_status verdict request.now.status }) }
{
    let status = judged_status(verdict, &request.status)?;
    Ok(CertificateRequest {
        meta: request.meta.copy()?,
        spec: request.spec.copy()?,
        status: Shared::new(alloc, status)?,
    })
}

/// The status update, at the version of the request, with the verdict.
#[tactic(auto, unfolding(cmc_rules::specs::Approver::verdict_call))]
pub fn judge_call(
    alloc: Global,
    verdict: Condition,
    request: &CertificateRequest,
) -> Result<Call, AllocError>
    ensures { IfOk result (λ c. c ≡ table.verdict_call verdict request.now) }
{
    let object = Object::of_request(alloc, with_verdict(alloc, verdict, request)?)?;
    Ok(Call::UpdateStatus {
        object,
        version: request.meta.version,
    })
}
