//! The act, by the first line of the table that fits.
ghost use Rattle.std.specs.Option.{option_copied};
ghost use Rattle.std.specs.Prelude.{◌≡◌, ◌<◌, ◌^◌, ◌+ℤ◌, IfOk, int_lt, pos, true, false};
ghost use Rattle.cmc_objects.specs.Requests.{is_denied as is_refused, is_request_form, is_row_form, is_run_time};
ghost use Rattle.cmc_rules.specs.Issuer as table;
ghost use Rattle.cmc_rules.specs.Orders.{reply_row};

use crate::calls::deny_call;
use crate::questions::ask_issuer;
use cmc_meta::{Condition, ConditionKind};
use cmc_next::{is_approved, is_denied};
use cmc_objects::{CertificateRequest, IssuerRef, Shared};
use cmc_pass::{Act, Desk, Views};
use std::alloc::{AllocError, Global};

fn gives(reason: &str, ready: Option<&Condition>) -> bool
    ensures { result ≡ table.gives reason.now (option_copied ready.entry) }
{
    match ready {
        None => false,
        Some(ready) => ready.reason.as_str() == reason,
    }
}

fn has_reason(reason: &str, request: &CertificateRequest) -> bool
    ensures { result ≡ table.has_reason reason.now request.now }
{
    gives(reason, request.status.conditions.get(ConditionKind::Ready))
}

fn is_own(issuer: &IssuerRef) -> bool
    ensures { result ≡ table.is_own issuer.now }
{
    issuer.group_at_use() == "cert-manager.io"
}

fn is_open(request: &CertificateRequest) -> bool
    ensures { result ≡ table.is_open request.now }
{
    is_approved(request)
        && !has_reason("Issued", request)
        && !has_reason("Failed", request)
        && is_own(&request.spec.issuer)
}

fn is_within_minute(moment: i64, since: i64) -> bool
    requires { is_run_time moment ≡ true }
    ensures { result ≡ int_lt moment (since +ℤ pos 60) }
{
    moment - 60 < since
}

fn is_waiting_on(moment: i64, ready: Option<&Condition>) -> bool
    requires { is_run_time moment ≡ true }
    ensures { result ≡ table.is_waiting_on moment (option_copied ready.entry) }
{
    match ready {
        None => false,
        Some(ready) => {
            ready.reason.as_str() == "Pending" && is_within_minute(moment, ready.since)
        }
    }
}

fn is_waiting(moment: i64, request: &CertificateRequest) -> bool
    requires { is_run_time moment ≡ true }
    ensures { result ≡ table.is_request_waiting moment request.now }
{
    is_waiting_on(moment, request.status.conditions.get(ConditionKind::Ready))
}

fn deny(alloc: Global, request: &CertificateRequest, now: i64) -> Result<Act, AllocError>
    ensures { IfOk result (λ a. a ≡ table.deny now request.now) }
{
    if has_reason("Denied", request) {
        return Ok(Act::Nothing);
    }
    Ok(Act::Call(deny_call(alloc, request, now)?))
}

fn grant(
    alloc: Global,
    request: &Shared<CertificateRequest>,
    now: i64,
    desk: &Desk,
) -> Result<Act, AllocError>
    requires not_denied { is_refused request.now ≡ false }
    requires form { is_request_form request.now ≡ true }
    requires in_run { is_run_time now ≡ true }
    requires reply_form { is_row_form (reply_row desk.now.material (table.certificate_of request.now) desk.now.asked) ≡ true }
    requires few { desk.now.asked < 2 ^ 63 }
    ensures { IfOk result (λ a. a ≡ table.grant now desk.now request.now) }
{
    if !is_open(request) || is_waiting(now, request) {
        return Ok(Act::Nothing);
    }
    ask_issuer(alloc, request, now, desk)
}

fn grant_one(
    alloc: Global,
    request: &Shared<CertificateRequest>,
    now: i64,
    desk: &Desk,
) -> Result<Act, AllocError>
    requires form { is_request_form request.now ≡ true }
    requires in_run { is_run_time now ≡ true }
    requires reply_form { is_row_form (reply_row desk.now.material (table.certificate_of request.now) desk.now.asked) ≡ true }
    requires few { desk.now.asked < 2 ^ 63 }
    ensures { IfOk result (λ a. a ≡ table.grant_one now desk.now request.now) }
{
    if is_denied(request) {
        deny(alloc, request, now)
    } else {
        grant(alloc, request, now, desk)
    }
}

/// What the controller does on these views at the moment `now`, in seconds since 1970-01-01T00:00:00Z.
///
/// A request that is denied, whoever its issuer is, gets Ready False with reason Denied and the moment of its failure,
/// unless Ready has that reason. Its issuer is asked about a request that is approved, where the issuer's group, with
/// its default, is `cert-manager.io`; not where Ready has the reason Issued or Failed, nor within 60 seconds of its
/// moment where it has the reason Pending. Else it does nothing.
///
/// The moment is one of a run, fewer than 2 ^ 63 questions were asked, and the request and the answer that is set out
/// for it are of the forms that reading gives.
#[tactic(auto, unfolding(cmc_rules::specs::Issuer::issuer))]
pub fn act(alloc: Global, views: &Views, now: i64, desk: &Desk) -> Result<Act, AllocError>
    requires in_run { is_run_time now ≡ true }
    requires few { desk.now.asked < 2 ^ 63 }
    requires form { table.HasRequestForm views.now.request }
    requires reply_form { table.HasReplyRowForm views.now.request desk.now }
    ensures { IfOk result (λ a. a ≡ table.issuer views.now now desk.now) }
{
    match &views.request {
        None => Ok(Act::Nothing),
        Some(request) => grant_one(alloc, request, now, desk),
    }
}
