//! The act, by the first line of the table that fits.
ghost use Rattle.std.specs.Prelude.{◌≡◌, IfOk};
ghost use Rattle.cmc_rules.specs.Approver as table;

use cmc_meta::Text;
use cmc_next::{is_approved, is_denied};
use cmc_objects::{CertificateRequest, IssuerRef, JudgeOrder, Order, Rules, Shared};
use cmc_pass::{Act, Desk, Views};
use std::alloc::{AllocError, Global};

fn is_listed(issuer: &Text, names: &[Text]) -> bool
    ensures { result ≡ table.is_listed_issuer issuer.now names.now }
{
    names.iter().any(|name| name.as_str() == issuer.as_str() || name.as_str() == "*")
}

fn is_covered(rules: &Rules, issuer: &IssuerRef) -> bool
    ensures { result ≡ table.is_covered rules.now issuer.now }
{
    issuer.group_at_use() == "cert-manager.io" && is_listed(&issuer.name, rules.issuers.as_slice())
}

#[tactic(auto, unfolding(cmc_rules::specs::Approver::ask_judgement))]
fn ask_judgement(
    alloc: Global,
    request: &Shared<CertificateRequest>,
    rules: &Rules,
) -> Result<Act, AllocError>
    ensures { IfOk result (λ a. a ≡ table.ask_judgement request.now rules.now) }
{
    let rules = rules.copy()?;
    let request = request.copy()?;
    let order = JudgeOrder { request, rules };
    Ok(Act::Ask(Order::Judge(Shared::new(alloc, order)?)))
}

fn judge_one(
    alloc: Global,
    rules: &Rules,
    request: &Shared<CertificateRequest>,
) -> Result<Act, AllocError>
    ensures { IfOk result (λ a. a ≡ table.judge_one rules.now request.now) }
{
    if is_approved(request) || is_denied(request) {
        return Ok(Act::Nothing);
    }
    if is_covered(rules, &request.spec.issuer) {
        ask_judgement(alloc, request, rules)
    } else {
        Ok(Act::Nothing)
    }
}

/// What the controller does on these views; it does not look at the moment `now`.
///
/// It asks for a judgement of the request, by the rules of the desk. It does nothing where there is no request, where
/// Approved or Denied is True already, where the issuer's group, with its default, is not `cert-manager.io`, and where
/// the rules name neither the issuer nor `*`.
#[tactic(auto, unfolding(cmc_rules::specs::Approver::approver))]
pub fn act(alloc: Global, views: &Views, now: i64, desk: &Desk) -> Result<Act, AllocError>
    ensures { IfOk result (λ a. a ≡ table.approver views.now desk.now) }
{
    let _now = now;
    match &views.request {
        None => Ok(Act::Nothing),
        Some(request) => judge_one(alloc, &desk.rules, request),
    }
}
