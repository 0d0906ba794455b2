//! What the answer of an issuer makes of a request's status.
ghost use Rattle.std.specs.Prelude.{◌≡◌, IfOk};
ghost use Rattle.cmc_objects.specs.declared.orders.Signing.TheVariants.{Issued, Pending, Failed};
ghost use Rattle.cmc_rules.specs.IssuerAnswers as spec;

use cmc_meta::{Bytes, Condition, ConditionKind, Text, Tri};
use cmc_objects::{CertificateRequest, RequestStatus, Signing};
use std::alloc::{AllocError, Global};

fn ready(
    alloc: Global,
    status: Tri,
    reason: &str,
    message: &str,
    moment: i64,
) -> Result<Condition, AllocError>
    ensures { IfOk result (λ c. c ≡ spec.answer_condition status reason.now message.now moment) }
{
    Ok(Condition {
        kind: ConditionKind::Ready,
        status,
        reason: Text::from_str(alloc, reason)?,
        message: Text::from_str(alloc, message)?,
        since: moment,
    })
}

#[tactic(auto, unfolding(cmc_rules::specs::IssuerAnswers::issued_condition))]
fn issued_condition(alloc: Global, moment: i64) -> Result<Condition, AllocError>
    ensures { IfOk result (λ c. c ≡ spec.issued_condition moment) }
{
    ready(
        alloc,
        Tri::True,
        "Issued",
        "Certificate fetched from issuer successfully",
        moment,
    )
}

#[tactic(auto, unfolding(cmc_rules::specs::IssuerAnswers::pending_condition))]
fn pending_condition(alloc: Global, moment: i64) -> Result<Condition, AllocError>
    ensures { IfOk result (λ c. c ≡ spec.pending_condition moment) }
{
    ready(
        alloc,
        Tri::False,
        "Pending",
        "Waiting on the issuer",
        moment,
    )
}

#[tactic(auto, unfolding(cmc_rules::specs::IssuerAnswers::failed_condition))]
fn failed_condition(alloc: Global, message: &Text, moment: i64) -> Result<Condition, AllocError>
    ensures { IfOk result (λ c. c ≡ spec.failed_condition message.now moment) }
{
    ready(alloc, Tri::False, "Failed", message.as_str(), moment)
}

#[tactic(auto, unfolding(cmc_rules::specs::IssuerAnswers::answered))]
fn issued(
    alloc: Global,
    status: &RequestStatus,
    certificate: &Bytes,
    ca: &Bytes,
    moment: i64,
) -> Result<RequestStatus, AllocError>
    ensures { IfOk result (λ s. s ≡ spec.answered status.now (Issued certificate.now ca.now) moment) }
{
    let mut conditions = status.conditions.copy()?;
    conditions.set(issued_condition(alloc, moment)?)?;
    Ok(RequestStatus {
        conditions,
        certificate: certificate.copy()?,
        ca: ca.copy()?,
        failure: status.failure,
    })
}

#[tactic(auto, unfolding(cmc_rules::specs::IssuerAnswers::answered))]
fn pending(alloc: Global, status: &RequestStatus, moment: i64) -> Result<RequestStatus, AllocError>
    ensures { IfOk result (λ s. s ≡ spec.answered status.now Pending moment) }
{
    let mut changed = status.copy()?;
    changed.conditions.renew(pending_condition(alloc, moment)?)?;
    Ok(changed)
}

#[tactic(auto, unfolding(cmc_rules::specs::IssuerAnswers::answered))]
fn failed(
    alloc: Global,
    status: &RequestStatus,
    message: &Text,
    moment: i64,
) -> Result<RequestStatus, AllocError>
    ensures { IfOk result (λ s. s ≡ spec.answered status.now (Failed message.now) moment) }
{
    let mut changed = status.copy()?;
    changed
        .conditions
        .set(failed_condition(alloc, message, moment)?)?;
    changed.failure = Some(moment);
    Ok(changed)
}

/// The status of the request once its issuer has answered so at the moment `now`, in seconds since
/// 1970-01-01T00:00:00Z.
///
/// A certificate that was issued is stored with the CA's, and Ready becomes True with reason Issued. An answer that is
/// pending sets Ready to False with reason Pending, at this moment also where it was so before. A failure sets Ready to
/// False with reason Failed and the message, and the moment of the failure. Nothing else changes (cert-manager.io/v1
/// `CertificateRequestStatus`).
pub fn status_of(
    alloc: Global,
    request: &CertificateRequest,
    answer: &Signing,
    now: i64,
) -> Result<RequestStatus, AllocError>
    ensures { IfOk result (λ s. s ≡ spec.answered request.now.status answer.now now) }
{
    match answer {
        Signing::Issued { certificate, ca } => issued(alloc, &request.status, certificate, ca, now),
        Signing::Pending => pending(alloc, &request.status, now),
        Signing::Failed { message } => failed(alloc, &request.status, message, now),
    }
}
