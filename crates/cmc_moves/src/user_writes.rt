//! The status updates that users make by the steps approve, deny, answer and renew.
ghost use Rattle.std.specs.Option.{option_copied};
ghost use Rattle.std.specs.Prelude.{◌≡◌, IfOk, codes, option_map, true};
ghost use Rattle.cmc_meta.specs.declared.conditions.ConditionKind.TheVariants as kinds;
ghost use Rattle.cmc_objects.specs.Requests.{is_row_form, is_run_time};
ghost use Rattle.cmc_rules.specs.UserWrites as spec;

use cmc_answers::signing_of;
use cmc_issuer::status_of;
use cmc_match::{has_text, is_of};
use cmc_meta::{Condition, ConditionKind, Key, Text, Tri};
use cmc_objects::{
    Call, CertStatus, Certificate, CertificateRequest, Object, RequestStatus, Shared, SignRow,
};
use cmc_store::Store;
use std::alloc::{AllocError, Global};
use std::collections::BTreeMap;

type Objects = BTreeMap<Key, Object>;

/// Whether the request is annotated as one for this revision of the Certificate, in its namespace.
#[tactic(auto, unfolding(cmc_rules::specs::UserWrites::is_request_for))]
fn is_request_for(certificate: &Key, revision: u64, request: &CertificateRequest) -> bool
    ensures { result ≡ spec.is_request_for certificate.now revision request.now }
{
    request.meta.namespace.as_str() == certificate.namespace.as_str()
        && (has_text(
            &request.meta.annotations,
            "cert-manager.io/certificate-name",
            certificate.name.as_str(),
        ) && is_of(request, revision))
}

fn is_object_for(certificate: &Key, revision: u64, object: &Object) -> bool
    ensures { result ≡ spec.is_object_for certificate.now revision object.now }
{
    match object {
        Object::Request(request) => is_request_for(certificate, revision, request),
        _ => false,
    }
}

fn as_request(object: &Object) -> Option<&Shared<CertificateRequest>>
    ensures { option_copied result ≡ spec.as_request object.now }
{
    match object {
        Object::Request(request) => Some(request),
        _ => None,
    }
}

fn first_for<'a>(
    objects: &'a Objects,
    certificate: &Key,
    revision: u64,
) -> Option<&'a Shared<CertificateRequest>>
    ensures { option_copied result ≡ spec.first_for certificate.now revision objects.now.entries }
{
    for (_, object) in objects.iter() {
        if is_object_for(certificate, revision, object) {
            return as_request(object);
        }
    }
    None
}

/// The stored request of this revision of the Certificate, of several the one of least name.
pub fn request_for<'a>(
    store: &'a Store,
    certificate: &Key,
    revision: u64,
) -> Option<&'a Shared<CertificateRequest>>
    ensures { option_copied result ≡ spec.request_for store.now.state.objects certificate.now revision }
{
    first_for(store.objects(), certificate, revision)
}

/// The write of this status of the request, at its version.
fn with_status(
    alloc: Global,
    request: &CertificateRequest,
    status: RequestStatus,
) -> Result<Call, AllocError>
    ensures { IfOk result (λ c. c ≡ spec.with_status_of request.now status) }
{
    let changed = CertificateRequest {
        meta: request.meta.copy()?,
        spec: request.spec.copy()?,
        status: Shared::new(alloc, status)?,
    };
    Ok(Call::UpdateStatus {
        object: Object::of_request(alloc, changed)?,
        version: request.meta.version,
    })
}

#[tactic(auto, unfolding(cmc_rules::specs::UserWrites::verdict))]
fn verdict(
    alloc: Global,
    kind: ConditionKind,
    message: &str,
    moment: i64,
) -> Result<Condition, AllocError>
    ensures { IfOk result (λ c. c ≡ spec.verdict kind message.now moment) }
{
    Ok(Condition {
        kind,
        status: Tri::True,
        reason: Text::from_str(alloc, "Script")?,
        message: Text::from_str(alloc, message)?,
        since: moment,
    })
}

#[tactic(auto, unfolding(cmc_rules::specs::UserWrites::judge_call))]
fn judge_call(
    alloc: Global,
    condition: Condition,
    request: &CertificateRequest,
) -> Result<Call, AllocError>
    ensures { IfOk result (λ c. c ≡ spec.judge_call condition request.now) }
{
    let mut status = RequestStatus::copy(&request.status)?;
    status.conditions.set(condition)?;
    with_status(alloc, request, status)
}

fn approve_call(
    alloc: Global,
    moment: i64,
    request: &CertificateRequest,
) -> Result<Call, AllocError>
    ensures { IfOk result (λ c. c ≡ spec.judge_call (spec.verdict kinds.Approved (codes "approved by the script") moment) request.now) }
{
    let condition = verdict(
        alloc,
        ConditionKind::Approved,
        "approved by the script",
        moment,
    )?;
    judge_call(alloc, condition, request)
}

/// The approval of the request by the script.
pub fn approve(
    alloc: Global,
    moment: i64,
    request: Option<&Shared<CertificateRequest>>,
) -> Result<Option<Call>, AllocError>
    ensures { IfOk result (λ c. c ≡ option_map (spec.judge_call (spec.verdict kinds.Approved (codes "approved by the script") moment)) (option_copied request.entry)) }
{
    match request {
        None => Ok(None),
        Some(request) => Ok(Some(approve_call(alloc, moment, request)?)),
    }
}

fn deny_call(alloc: Global, moment: i64, request: &CertificateRequest) -> Result<Call, AllocError>
    ensures { IfOk result (λ c. c ≡ spec.judge_call (spec.verdict kinds.Denied (codes "denied by the script") moment) request.now) }
{
    let condition = verdict(alloc, ConditionKind::Denied, "denied by the script", moment)?;
    judge_call(alloc, condition, request)
}

/// The denial of the request by the script.
pub fn deny(
    alloc: Global,
    moment: i64,
    request: Option<&Shared<CertificateRequest>>,
) -> Result<Option<Call>, AllocError>
    ensures { IfOk result (λ c. c ≡ option_map (spec.judge_call (spec.verdict kinds.Denied (codes "denied by the script") moment)) (option_copied request.entry)) }
{
    match request {
        None => Ok(None),
        Some(request) => Ok(Some(deny_call(alloc, moment, request)?)),
    }
}

#[tactic(auto, unfolding(cmc_rules::specs::UserWrites::answer_call))]
fn answer_call(
    alloc: Global,
    row: &SignRow,
    moment: i64,
    request: &CertificateRequest,
) -> Result<Call, AllocError>
    requires moment { is_run_time moment ≡ true }
    requires row_form { is_row_form row.now ≡ true }
    ensures { IfOk result (λ c. c ≡ spec.answer_call row.now moment request.now) }
{
    let answer = signing_of(alloc, row, 1, request, moment)?;
    let status = status_of(alloc, request, &answer, moment)?;
    with_status(alloc, request, status)
}

/// The answer of the row to the request, as its issuer writes it.
pub fn answer(
    alloc: Global,
    row: &SignRow,
    moment: i64,
    request: Option<&Shared<CertificateRequest>>,
) -> Result<Option<Call>, AllocError>
    requires moment { is_run_time moment ≡ true }
    requires row_form { is_row_form row.now ≡ true }
    ensures { IfOk result (λ c. c ≡ option_map (spec.answer_call row.now moment) (option_copied request.entry)) }
{
    match request {
        None => Ok(None),
        Some(request) => Ok(Some(answer_call(alloc, row, moment, request)?)),
    }
}

#[tactic(auto, unfolding(cmc_rules::specs::UserWrites::manual_condition))]
fn manual_condition(alloc: Global, moment: i64) -> Result<Condition, AllocError>
    ensures { IfOk result (λ c. c ≡ spec.manual_condition moment) }
{
    Ok(Condition {
        kind: ConditionKind::Issuing,
        status: Tri::True,
        reason: Text::from_str(alloc, "ManuallyTriggered")?,
        message: Text::from_str(alloc, "Certificate re-issuance manually triggered")?,
        since: moment,
    })
}

#[tactic(auto, unfolding(cmc_rules::specs::UserWrites::renew_call))]
fn renew_call(alloc: Global, moment: i64, certificate: &Certificate) -> Result<Call, AllocError>
    ensures { IfOk result (λ c. c ≡ spec.renew_call moment certificate.now) }
{
    let mut status = CertStatus::copy(&certificate.status)?;
    status.conditions.set(manual_condition(alloc, moment)?)?;
    let changed = Certificate {
        meta: certificate.meta.copy()?,
        spec: certificate.spec.copy()?,
        status: Shared::new(alloc, status)?,
    };
    Ok(Call::UpdateStatus {
        object: Object::of_certificate(alloc, changed)?,
        version: certificate.meta.version,
    })
}

/// What has the object issued again, where it is a Certificate that exists.
pub fn renew(
    alloc: Global,
    moment: i64,
    object: Option<&Object>,
) -> Result<Option<Call>, AllocError>
    ensures { IfOk result (λ c. c ≡ spec.renewal_of moment (option_copied object.entry)) }
{
    match object {
        Some(Object::Cert(certificate)) => Ok(Some(renew_call(alloc, moment, certificate)?)),
        _ => Ok(None),
    }
}
