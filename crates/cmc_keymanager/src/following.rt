//! The call that follows a value.
ghost use Rattle.std.specs.Prelude.{◌≡◌, IfOk, IsSome, Some};
ghost use Rattle.cmc_next.specs.Questions.{IsQuestionOf};
ghost use Rattle.cmc_pass.specs.GivenValues.{order_of, value_of};
ghost use Rattle.cmc_pass.specs.Values.{IsValue};
ghost use Rattle.cmc_rules.specs.KeyManager as table;

use crate::calls::make_call;
use cmc_next::value_in;
use cmc_objects::{Call, Certificate, Order};
use cmc_pass::{Given, Value, Views};
use std::alloc::{AllocError, Global};

fn kept(alloc: Global, certificate: &Certificate, value: &Value) -> Result<Option<Call>, AllocError>
    ensures { IfOk result (λ c. c ≡ table.kept certificate.now value.now) }
{
    match value {
        Value::Made(file) => Ok(Some(make_call(alloc, certificate, file.copy()?)?)),
        _ => Ok(None),
    }
}

fn kept_for(alloc: Global, views: &Views, value: &Value) -> Result<Option<Call>, AllocError>
    ensures { IfOk result (λ c. c ≡ table.kept_for views.now.certificate value.now) }
{
    match &views.certificate {
        None => Ok(None),
        Some(certificate) => kept(alloc, certificate, value),
    }
}

#[tactic(auto, unfolding(cmc_rules::specs::KeyManager::key_after))]
fn followed(
    alloc: Global,
    views: &Views,
    now: i64,
    order: &Order,
    value: &Value,
) -> Result<Call, AllocError>
    requires { IsSome (table.key_after views.now now order.now value.now) }
    ensures { IfOk result (λ c. table.key_after views.now now order.now value.now ≡ Some c) }
{
    let (_now, _order) = (now, order);
    match kept_for(alloc, views, value)? {
        Some(call) => Ok(call),
        None => unreachable!(),
    }
}

/// The call that follows this value of the question on these views: the create of the Secret with the key that was
/// made. It looks at neither the moment `now` nor the question.
///
/// `order` is the question that the controller asks on these views by some desk, and `value` a right value of it.
/// A call follows: there is a Certificate, and the value is a key.
pub fn follow(
    alloc: Global,
    views: &Views,
    now: i64,
    order: &Order,
    value: &Value,
) -> Result<Call, AllocError>
    requires asked { IsQuestionOf (table.key_manager views.now) order.now }
    requires right { IsValue order.now value.now }
    requires follows { IsSome (table.key_after views.now now order.now value.now) }
    ensures { IfOk result (λ c. table.key_after views.now now order.now value.now ≡ Some c) }
{
    followed(alloc, views, now, order, value)
}

/// The call that follows what is given back for the controller's question on these views.
///
/// What is given back answers the question that the controller asks on these views by some desk.
/// A call follows: there is a Certificate, and a key is given back.
pub fn then(alloc: Global, views: &Views, now: i64, given: &Given) -> Result<Call, AllocError>
    requires asked { IsQuestionOf (table.key_manager views.now) (order_of given.now) }
    requires follows { IsSome (table.key_after views.now now (order_of given.now) (value_of given.now)) }
    ensures { IfOk result (λ c. table.key_after views.now now (order_of given.now) (value_of given.now) ≡ Some c) }
{
    let order = given.order()?;
    let value = value_in(alloc, given)?;
    followed(alloc, views, now, &order, &value)
}
