//! The call that follows a value.
ghost use Rattle.std.specs.Prelude.{◌≡◌, IfOk, IsSome, Some};
ghost use Rattle.cmc_next.specs.Questions.{IsQuestionOf};
ghost use Rattle.cmc_pass.specs.GivenValues.{order_of, value_of};
ghost use Rattle.cmc_pass.specs.Values.{IsValue};
ghost use Rattle.cmc_rules.specs.Issuer as table;

use crate::answering::status_of;
use crate::calls::status_call;
use cmc_next::value_in;
use cmc_objects::{Call, CertificateRequest, Order, Shared};
use cmc_pass::{Given, Value, Views};
use std::alloc::{AllocError, Global};

fn answered_with(
    alloc: Global,
    now: i64,
    request: &CertificateRequest,
    value: &Value,
) -> Result<Option<Call>, AllocError>
    ensures { IfOk result (λ c. c ≡ table.answered_with now request.now value.now) }
{
    match value {
        Value::Answered(answer) => {
            let status = status_of(alloc, request, answer, now)?;
            Ok(Some(status_call(alloc, status, request)?))
        }
        _ => Ok(None),
    }
}

fn answered_for(
    alloc: Global,
    now: i64,
    request: &Option<Shared<CertificateRequest>>,
    value: &Value,
) -> Result<Option<Call>, AllocError>
    ensures { IfOk result (λ c. c ≡ table.answered_for now request.now value.now) }
{
    match request {
        None => Ok(None),
        Some(request) => answered_with(alloc, now, request, value),
    }
}

fn answered_to(
    alloc: Global,
    now: i64,
    request: &Option<Shared<CertificateRequest>>,
    order: &Order,
    value: &Value,
) -> Result<Option<Call>, AllocError>
    ensures { IfOk result (λ c. c ≡ table.answered_to now request.now order.now value.now) }
{
    match order {
        Order::Sign(_) => answered_for(alloc, now, request, value),
        _ => Ok(None),
    }
}

#[tactic(auto, unfolding(cmc_rules::specs::Issuer::answered_after))]
fn followed(
    alloc: Global,
    views: &Views,
    now: i64,
    order: &Order,
    value: &Value,
) -> Result<Call, AllocError>
    requires { IsSome (table.answered_after views.now now order.now value.now) }
    ensures { IfOk result (λ c. table.answered_after views.now now order.now value.now ≡ Some c) }
{
    match answered_to(alloc, now, &views.request, order, value)? {
        Some(call) => Ok(call),
        None => unreachable!(),
    }
}

/// The call that follows this value of the question on these views: the status update with what the issuer's answer
/// makes of the request's status. The moment `now` is in seconds since 1970-01-01T00:00:00Z.
///
/// `order` is the question that the controller asks on these views by some desk, and `value` a right value of it.
/// A call follows: there is a request, the question is one to an issuer, and the value its answer.
pub fn follow(
    alloc: Global,
    views: &Views,
    now: i64,
    order: &Order,
    value: &Value,
) -> Result<Call, AllocError>
    requires asked { IsQuestionOf (table.issuer views.now now) order.now }
    requires right { IsValue order.now value.now }
    requires follows { IsSome (table.answered_after views.now now order.now value.now) }
    ensures { IfOk result (λ c. table.answered_after views.now now order.now value.now ≡ Some c) }
{
    followed(alloc, views, now, order, value)
}

/// The call that follows what is given back for the controller's question on these views.
///
/// What is given back answers the question that the controller asks on these views by some desk.
/// A call follows: there is a request, and the answer of an issuer is given back.
pub fn then(alloc: Global, views: &Views, now: i64, given: &Given) -> Result<Call, AllocError>
    requires asked { IsQuestionOf (table.issuer views.now now) (order_of given.now) }
    requires follows { IsSome (table.answered_after views.now now (order_of given.now) (value_of given.now)) }
    ensures { IfOk result (λ c. table.answered_after views.now now (order_of given.now) (value_of given.now) ≡ Some c) }
{
    let order = given.order()?;
    let value = value_in(alloc, given)?;
    followed(alloc, views, now, &order, &value)
}
