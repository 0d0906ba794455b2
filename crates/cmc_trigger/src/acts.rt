//! The act, by the first line of its table that fits.
ghost use Rattle.std.specs.Option.{option_copied};
ghost use Rattle.std.specs.Prelude.{◌≡◌, IfOk};
ghost use Rattle.cmc_objects.specs.declared.role.Role.TheVariants.{Trigger};
ghost use Rattle.cmc_rules.specs.Acts as acts;
ghost use Rattle.cmc_rules.specs.Trigger as spec;
ghost use Rattle.cmc_rules.specs.Dates.{IsDatedOption, HasDatedFailure};

use crate::issuing::{is_issuing, issue_call};
use crate::reasons::reason_for;
use cmc_match::{next_request, request_matches};
use cmc_objects::{CertSpec, CertStatus, Certificate, CertificateRequest, Secret, Shared};
use cmc_pass::{Act, Desk, Views};
use cmc_policies::{Frame, Reason, Renew, backoff_until};
use std::alloc::{AllocError, Global};

fn is_backing_off(status: &CertStatus, moment: i64) -> bool
    requires { IsDatedOption status.now.last_failure }
    ensures { result ≡ spec.is_backing_off status.now moment }
{
    match status.last_failure {
        None => false,
        Some(last) => moment < backoff_until(last, status.attempts),
    }
}

fn is_outrun(wanted: &CertSpec, request: Option<&Shared<CertificateRequest>>) -> bool
    ensures { result ≡ spec.is_outrun wanted.now (option_copied request.entry) }
{
    match request {
        None => false,
        Some(request) => !request_matches(wanted, request),
    }
}

fn is_held_back(
    moment: i64,
    requests: &[Shared<CertificateRequest>],
    certificate: &Certificate,
) -> bool
    requires { IsDatedOption certificate.now.status.last_failure }
    ensures { result ≡ spec.is_in_back_off moment requests.now certificate.now }
{
    let next = next_request(certificate.status.revision, requests);
    is_backing_off(&certificate.status, moment) && !is_outrun(&certificate.spec, next)
}

fn for_reason(
    alloc: Global,
    moment: i64,
    requests: &[Shared<CertificateRequest>],
    certificate: &Certificate,
    reason: Option<Reason>,
) -> Result<Act, AllocError>
    requires { IsDatedOption certificate.now.status.last_failure }
    ensures { IfOk result (λ a. a ≡ spec.for_reason moment requests.now certificate.now reason) }
{
    let Some(reason) = reason else {
        return Ok(Act::Nothing);
    };
    if is_held_back(moment, requests, certificate) {
        return Ok(Act::Nothing);
    }
    issue_call(alloc, moment, reason, certificate)
}

#[tactic(auto, unfolding(cmc_rules::specs::Trigger::for_certificate))]
fn for_certificate(
    alloc: Global,
    moment: i64,
    secret: &Option<Shared<Secret>>,
    requests: &[Shared<CertificateRequest>],
    certificate: &Certificate,
) -> Result<Act, AllocError>
    requires { IsDatedOption certificate.now.status.last_failure }
    ensures { IfOk result (λ a. a ≡ spec.for_certificate moment secret.now requests.now certificate.now) }
{
    if is_issuing(certificate.status.conditions.as_slice()) {
        return Ok(Act::Nothing);
    }
    let frame = Frame {
        now: moment,
        renew: Renew::by(
            certificate.spec.renew_percent,
            certificate.spec.renew_before,
        ),
    };
    let reason = reason_for(frame, certificate, secret, requests);
    for_reason(alloc, moment, requests, certificate, reason)
}

/// What the controller does on these views at the moment `now`, in seconds since 1970-01-01T00:00:00Z.
///
/// It does nothing where there is no Certificate or its condition Issuing is True, and where no reason holds:
/// DoesNotExist, MissingData, InvalidKeyPair, IncorrectIssuer, IncorrectCertificate, SecretMismatch, RequestChanged,
/// Renewing, looked at in this order. It does nothing either where `now` lies in the back-off after a failure,
/// unless exactly one next request stands and the specification asks for something else than that. Else it writes
/// the status with Issuing True and the reason, at the version of the Certificate that it sees; all else stays as
/// it is seen.
///
/// The moment of the Certificate's last failure, where there is one, has to lie in the years 1950 to 9999
/// (`HasDatedFailure`): the back-off is counted from it.
#[tactic(auto, unfolding(cmc_rules::specs::Acts::act, cmc_rules::specs::Trigger::trigger))]
pub fn act(alloc: Global, views: &Views, now: i64, desk: &Desk) -> Result<Act, AllocError>
    requires { HasDatedFailure views.now }
    ensures { IfOk result (λ a. a ≡ acts.act Trigger views.now now desk.now) }
{
    match &views.certificate {
        None => Ok(Act::Nothing),
        Some(certificate) => for_certificate(
            alloc,
            now,
            &views.secret,
            views.requests.as_slice(),
            certificate,
        ),
    }
}
