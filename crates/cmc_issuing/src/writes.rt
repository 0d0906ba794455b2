//! The writes of a plan, each alone, for a pass that goes on with it. That there is such a plan is known there, so that
//! neither the key nor a certificate is read again.
ghost use Rattle.std.specs.Option.{option_copied};
ghost use Rattle.std.specs.Prelude.{◌≡◌, IfOk, IsSome, Some, true};
ghost use Rattle.cmc_objects.specs.Requests.{is_run_time};
ghost use Rattle.cmc_issuing.specs.PlanCalls as calls;
ghost use Rattle.cmc_rules.specs.Issuance as table;
ghost use Rattle.cmc_rules.specs.NextRequests.{HasNextRevision};

use crate::deciding::is_granted;
use crate::plans::{issued_secret, marked_secret};
use crate::statuses::issued_call;
use cmc_answers::temporary;
use cmc_match::next_request;
use cmc_meta::Bytes;
use cmc_next::{key_in, named_key};
use cmc_objects::{Call, Certificate, CertificateRequest, Secret, Shared};
use cmc_pass::Views;
use std::alloc::{AllocError, Global};

fn secret_with(
    alloc: Global,
    moment: i64,
    certificate: &Certificate,
    file: &Bytes,
    target: &Option<Shared<Secret>>,
    request: &CertificateRequest,
) -> Result<Call, AllocError>
    requires time { is_run_time moment ≡ true }
    requires plan { IsSome (calls.secret_call_of (table.with_wanted moment certificate.now file.now target.now request.now)) }
    ensures { IfOk result (λ call. calls.secret_call_of (table.with_wanted moment certificate.now file.now target.now request.now) ≡ Some call) }
{
    if is_granted(request) {
        return issued_secret(alloc, certificate, file, request, target);
    }
    let stand_in = temporary(
        alloc,
        request.spec.request.as_slice(),
        file.as_slice(),
        moment,
    )?;
    match stand_in {
        Some(stand_in) => marked_secret(alloc, certificate, file, &stand_in, target),
        None => unreachable!(),
    }
}

fn secret_from(
    alloc: Global,
    moment: i64,
    certificate: &Certificate,
    target: &Option<Shared<Secret>>,
    requests: &[Shared<CertificateRequest>],
    file: Option<&Bytes>,
) -> Result<Call, AllocError>
    requires time { is_run_time moment ≡ true }
    requires plan { IsSome (calls.secret_call_of (table.with_file moment certificate.now target.now requests.now (option_copied file))) }
    ensures { IfOk result (λ call. calls.secret_call_of (table.with_file moment certificate.now target.now requests.now (option_copied file.entry)) ≡ Some call) }
{
    let Some(file) = file else { unreachable!() };
    let request = next_request(certificate.status.revision, requests);
    match request {
        Some(request) => secret_with(alloc, moment, certificate, file, target, request),
        None => unreachable!(),
    }
}

fn secret_by(
    alloc: Global,
    moment: i64,
    certificate: &Certificate,
    target: &Option<Shared<Secret>>,
    requests: &[Shared<CertificateRequest>],
    key: Option<&Shared<Secret>>,
) -> Result<Call, AllocError>
    requires time { is_run_time moment ≡ true }
    requires plan { IsSome (calls.secret_call_of (table.with_key_of moment certificate.now target.now requests.now (option_copied key))) }
    ensures { IfOk result (λ call. calls.secret_call_of (table.with_key_of moment certificate.now target.now requests.now (option_copied key.entry)) ≡ Some call) }
{
    match key {
        Some(key) => secret_from(alloc, moment, certificate, target, requests, key_in(key)),
        None => unreachable!(),
    }
}

/// The write of the Secret that the act on these views has. It builds nothing else, and of what decided on the act it
/// looks at nothing again but whether the request is granted: this tells an issuance from a certificate that stands in.
///
/// The act is a plan. `now` is the moment of the pass, in seconds since 1970-01-01T00:00:00Z.
pub fn secret_of(alloc: Global, views: &Views, now: i64) -> Result<Call, AllocError>
    requires time { is_run_time now ≡ true }
    requires plan { IsSome (calls.secret_call_of (table.issuing views.now now)) }
    ensures { IfOk result (λ call. calls.secret_call_of (table.issuing views.now now) ≡ Some call) }
{
    let Some(certificate) = &views.certificate else {
        unreachable!()
    };
    let key = named_key(&certificate.status.next_key, views.next.as_slice());
    secret_by(
        alloc,
        now,
        certificate,
        &views.secret,
        views.requests.as_slice(),
        key,
    )
}

/// The write of the status that the act on these views has: it hangs on the Certificate and on the moment alone, and
/// nothing else is looked at or built.
///
/// The act is the plan of an issuance, and the revision that stands is below 2^63. `now` is the moment of the pass, in
/// seconds since 1970-01-01T00:00:00Z.
pub fn status_of(alloc: Global, views: &Views, now: i64) -> Result<Call, AllocError>
    requires revision { HasNextRevision views.now.certificate }
    requires plan { IsSome (calls.status_call_of (table.issuing views.now now)) }
    ensures { IfOk result (λ call. calls.status_call_of (table.issuing views.now now) ≡ Some call) }
{
    match &views.certificate {
        Some(certificate) => issued_call(alloc, now, certificate),
        None => unreachable!(),
    }
}
