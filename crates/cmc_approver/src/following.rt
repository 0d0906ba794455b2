//! The call that follows a value.
ghost use Rattle.std.specs.Prelude.{◌≡◌, IfOk, IsSome, Some};
ghost use Rattle.cmc_answers.specs.Denials.{denial_of};
ghost use Rattle.cmc_next.specs.Questions.{IsQuestionOf};
ghost use Rattle.cmc_pass.specs.GivenValues.{order_of, value_of};
ghost use Rattle.cmc_pass.specs.Values.{IsValue};
ghost use Rattle.cmc_rules.specs.Approver as table;

use crate::calls::judge_call;
use crate::verdicts::verdict_by;
use cmc_answers::{Denial, judge};
use cmc_meta::Condition;
use cmc_next::value_in;
use cmc_objects::{Call, CertificateRequest, JudgeOrder, Order, Shared};
use cmc_pass::{Given, Value, Views};
use std::alloc::{AllocError, Global};

fn denial_in(alloc: Global, order: &Shared<JudgeOrder>) -> Result<Option<Denial>, AllocError>
    ensures { IfOk result (λ d. d ≡ denial_of order.now) }
{
    let (_order, denial) = judge(alloc, order.copy()?)?.into_parts();
    Ok(denial)
}

fn verdict_of(
    alloc: Global,
    moment: i64,
    order: &Order,
    value: &Value,
) -> Result<Option<Condition>, AllocError>
    ensures { IfOk result (λ c. c ≡ table.verdict_of moment order.now value.now) }
{
    match (order, value) {
        (Order::Judge(order), Value::Judged(approved)) => {
            let denial = denial_in(alloc, order)?;
            verdict_by(alloc, moment, *approved, &denial)
        }
        _ => Ok(None),
    }
}

fn judged_by(
    alloc: Global,
    request: &CertificateRequest,
    verdict: Option<Condition>,
) -> Result<Option<Call>, AllocError>
    ensures { IfOk result (λ c. c ≡ table.judged_by request.now verdict) }
{
    match verdict {
        None => Ok(None),
        Some(verdict) => Ok(Some(judge_call(alloc, verdict, request)?)),
    }
}

fn judged_for(
    alloc: Global,
    views: &Views,
    verdict: Option<Condition>,
) -> Result<Option<Call>, AllocError>
    ensures { IfOk result (λ c. c ≡ table.judged_for views.now.request verdict) }
{
    match &views.request {
        None => Ok(None),
        Some(request) => judged_by(alloc, request, verdict),
    }
}

#[tactic(auto, unfolding(cmc_rules::specs::Approver::judged_after))]
fn followed(
    alloc: Global,
    views: &Views,
    now: i64,
    order: &Order,
    value: &Value,
) -> Result<Call, AllocError>
    requires { IsSome (table.judged_after views.now now order.now value.now) }
    ensures { IfOk result (λ c. table.judged_after views.now now order.now value.now ≡ Some c) }
{
    let verdict = verdict_of(alloc, now, order, value)?;
    match judged_for(alloc, views, verdict)? {
        Some(call) => Ok(call),
        None => unreachable!(),
    }
}

/// The call that follows this value of the question on these views: the status update with Approved on a yes, and on a
/// no with Denied, whose message is the reason that the question's rules give. The condition's moment is `now`, in
/// seconds since 1970-01-01T00:00:00Z.
///
/// `order` is the question that the controller asks on these views by some desk, and `value` a right value of it.
/// A call follows: there is a request, the question is for a judgement, the value is one, and a no has a reason.
pub fn follow(
    alloc: Global,
    views: &Views,
    now: i64,
    order: &Order,
    value: &Value,
) -> Result<Call, AllocError>
    requires asked { IsQuestionOf (table.approver views.now) order.now }
    requires right { IsValue order.now value.now }
    requires follows { IsSome (table.judged_after views.now now order.now value.now) }
    ensures { IfOk result (λ c. table.judged_after views.now now order.now value.now ≡ Some c) }
{
    followed(alloc, views, now, order, value)
}

/// The call that follows what is given back for the controller's question on these views.
///
/// What is given back answers the question that the controller asks on these views by some desk.
/// A call follows: there is a request, and a judgement is given back.
pub fn then(alloc: Global, views: &Views, now: i64, given: &Given) -> Result<Call, AllocError>
    requires asked { IsQuestionOf (table.approver views.now) (order_of given.now) }
    requires follows { IsSome (table.judged_after views.now now (order_of given.now) (value_of given.now)) }
    ensures { IfOk result (λ c. table.judged_after views.now now (order_of given.now) (value_of given.now) ≡ Some c) }
{
    let order = given.order()?;
    let value = value_in(alloc, given)?;
    followed(alloc, views, now, &order, &value)
}
