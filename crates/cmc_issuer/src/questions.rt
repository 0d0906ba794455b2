//! The question to an issuer.
ghost use Rattle.std.specs.Prelude.{◌≡◌, ◌<◌, ◌^◌, IfOk, true, false};
ghost use Rattle.cmc_objects.specs.Requests.{is_approved, is_denied, is_request_form, is_row_form, is_run_time};
ghost use Rattle.cmc_rules.specs.Issuer as table;
ghost use Rattle.cmc_rules.specs.Orders.{reply_row as row_for};

use crate::replies::reply_row;
use cmc_objects::{CertificateRequest, Order, Shared, SignOrder};
use cmc_pass::{Act, Desk};
use std::alloc::{AllocError, Global};

#[tactic(auto, unfolding(cmc_rules::specs::Issuer::sign_order))]
fn sign_order(
    alloc: Global,
    request: &Shared<CertificateRequest>,
    now: i64,
    desk: &Desk,
) -> Result<SignOrder, AllocError>
    requires approved { is_approved request.now ≡ true }
    requires not_denied { is_denied request.now ≡ false }
    requires form { is_request_form request.now ≡ true }
    requires in_run { is_run_time now ≡ true }
    requires reply_form { is_row_form (row_for desk.now.material (table.certificate_of request.now) desk.now.asked) ≡ true }
    requires few { desk.now.asked < 2 ^ 63 }
    ensures { IfOk result (λ o. o ≡ table.sign_order now desk.now request.now) }
{
    let row = reply_row(alloc, &desk.material, request, desk.asked)?;
    let request = request.copy()?;
    Ok(SignOrder::new(desk.asked + 1, request, now, row))
}

/// The question about this request to its issuer: the one after those that were asked for its Certificate, with the
/// answer that is set out for it.
#[tactic(auto, unfolding(cmc_rules::specs::Issuer::ask_issuer))]
pub fn ask_issuer(
    alloc: Global,
    request: &Shared<CertificateRequest>,
    now: i64,
    desk: &Desk,
) -> Result<Act, AllocError>
    requires approved { is_approved request.now ≡ true }
    requires not_denied { is_denied request.now ≡ false }
    requires form { is_request_form request.now ≡ true }
    requires in_run { is_run_time now ≡ true }
    requires reply_form { is_row_form (row_for desk.now.material (table.certificate_of request.now) desk.now.asked) ≡ true }
    requires few { desk.now.asked < 2 ^ 63 }
    ensures { IfOk result (λ a. a ≡ table.ask_issuer now desk.now request.now) }
{
    let order = sign_order(alloc, request, now, desk)?;
    Ok(Act::Ask(Order::Sign(Shared::new(alloc, order)?)))
}
