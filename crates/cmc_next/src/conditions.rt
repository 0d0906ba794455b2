//! Conditions that are True.
ghost use Rattle.std.specs.Prelude.{◌≡◌, ◌==◌};
ghost use Rattle.cmc_meta.specs.ConditionLists.{condition_rank};
ghost use Rattle.cmc_objects.specs.Requests as requests;
ghost use Rattle.cmc_rules.specs.Trigger as triggering;

use cmc_meta::{Condition, ConditionKind, Tri};
use cmc_objects::{Certificate, CertificateRequest};

fn is_kind(left: ConditionKind, right: ConditionKind) -> bool
    ensures { result ≡ (condition_rank left == condition_rank right) }
{
    match (left, right) {
        (ConditionKind::Ready, ConditionKind::Ready) => true,
        (ConditionKind::Issuing, ConditionKind::Issuing) => true,
        (ConditionKind::Approved, ConditionKind::Approved) => true,
        (ConditionKind::Denied, ConditionKind::Denied) => true,
        (ConditionKind::InvalidRequest, ConditionKind::InvalidRequest) => true,
        _ => false,
    }
}

fn is_stated(kind: ConditionKind, conditions: &[Condition]) -> bool
    ensures { result ≡ requests.is_stated kind conditions.now }
{
    conditions.iter().any(|condition| is_kind(condition.kind, kind)
        && condition.status.same(Tri::True))
}

/// Whether the Certificate is being issued: its condition Issuing is True.
pub fn is_issuing(certificate: &Certificate) -> bool
    ensures { result ≡ triggering.is_issuing certificate.now }
{
    is_stated(
        ConditionKind::Issuing,
        certificate.status.conditions.as_slice(),
    )
}

/// Whether the request is approved: its condition Approved is True.
pub fn is_approved(request: &CertificateRequest) -> bool
    ensures { result ≡ requests.is_approved request.now }
{
    is_stated(
        ConditionKind::Approved,
        request.status.conditions.as_slice(),
    )
}

/// Whether the request is denied: its condition Denied is True.
pub fn is_denied(request: &CertificateRequest) -> bool
    ensures { result ≡ requests.is_denied request.now }
{
    is_stated(ConditionKind::Denied, request.status.conditions.as_slice())
}
