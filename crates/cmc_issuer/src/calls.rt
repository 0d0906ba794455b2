//! The write of a status.
ghost use Rattle.std.specs.Prelude.{◌≡◌, IfOk};
ghost use Rattle.cmc_rules.specs.Issuer as table;

use cmc_meta::{Condition, ConditionKind, Text, Tri};
use cmc_objects::{Call, CertificateRequest, Object, RequestStatus, Shared};
use std::alloc::{AllocError, Global};

/// The status update, at the version of the request, with this status.
#[tactic(auto, unfolding(cmc_rules::specs::Issuer::status_call))]
pub fn status_call(
    alloc: Global,
    status: RequestStatus,
    request: &CertificateRequest,
) -> Result<Call, AllocError>
    ensures { IfOk result (λ c. c ≡ table.status_call status request.now) }
{
    let changed = CertificateRequest {
        meta: request.meta.copy()?,
        spec: request.spec.copy()?,
        status: Shared::new(alloc, status)?,
    };
    let object = Object::of_request(alloc, changed)?;
    Ok(Call::UpdateStatus {
        object,
        version: request.meta.version,
    })
}

#[tactic(auto, unfolding(cmc_rules::specs::Issuer::denied_condition))]
fn denied_condition(alloc: Global, moment: i64) -> Result<Condition, AllocError>
    ensures { IfOk result (λ c. c ≡ table.denied_condition moment) }
{
    Ok(Condition {
        kind: ConditionKind::Ready,
        status: Tri::False,
        reason: Text::from_str(alloc, "Denied")?,
        message: Text::from_str(
            alloc,
            "The CertificateRequest was denied by an approval controller",
        )?,
        since: moment,
    })
}

#[tactic(auto, unfolding(cmc_rules::specs::Issuer::denied_status))]
fn denied_status(
    alloc: Global,
    status: &RequestStatus,
    moment: i64,
) -> Result<RequestStatus, AllocError>
    ensures { IfOk result (λ s. s ≡ table.denied_status status.now moment) }
{
    let mut changed = status.copy()?;
    changed.conditions.set(denied_condition(alloc, moment)?)?;
    changed.failure = Some(moment);
    Ok(changed)
}

/// The status update, at the version of the request, that marks it as denied at this moment.
pub fn deny_call(
    alloc: Global,
    request: &CertificateRequest,
    moment: i64,
) -> Result<Call, AllocError>
    ensures { IfOk result (λ c. c ≡ table.status_call (table.denied_status request.now.status moment) request.now) }
{
    status_call(
        alloc,
        denied_status(alloc, &request.status, moment)?,
        request,
    )
}
