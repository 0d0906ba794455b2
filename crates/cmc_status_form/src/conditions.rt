// Conditions, read from JSON.
ghost use Rattle.std.specs.Prelude.{◌≡◌, ◌<◌, codes, decimal, map};
ghost use Rattle.serde_json.specs.View.{view, items_view};
ghost use Rattle.cmc_meta.specs.ConditionLists as orders;
ghost use Rattle.cmc_cursor.specs.Members.{Gives, under};
ghost use Rattle.cmc_cursor.specs.Readers.{text_at};
ghost use Rattle.cmc_cursor.specs.Seen.{shown};
ghost use Rattle.cmc_codec.specs.Given.{needed_at};
ghost use Rattle.cmc_status_form.specs.ConditionForm as forms;

use crate::given::moment;
use cmc_cursor::{BadField, Fields, at, at_place, check_end, fields, required, text};
use cmc_meta::{Condition, ConditionKind, Conditions, Text, Texts, Tri};
use serde_json::Value;
use std::alloc::Global;

fn tri_named(text: &str) -> Option<Tri>
    ensures { result ≡ forms.tri_named text.now }
{
    match text {
        "True" => Some(Tri::True),
        "False" => Some(Tri::False),
        "Unknown" => Some(Tri::Unknown),
        _ => None,
    }
}

#[tactic(auto, unfolding(crate::specs::ConditionForm::tri_at))]
fn tri(alloc: Global, value: &Value) -> Result<Tri, BadField>
    ensures { Gives (λ t. t) result (forms.tri_at (view value.now)) }
{
    match value.as_str().and_then(tri_named) {
        Some(tri) => Ok(tri),
        None => Err(BadField::Path(Texts::new(alloc))),
    }
}

fn condition_named(text: &str) -> Option<ConditionKind>
    ensures { result ≡ forms.condition_named text.now }
{
    match text {
        "Ready" => Some(ConditionKind::Ready),
        "Issuing" => Some(ConditionKind::Issuing),
        "Approved" => Some(ConditionKind::Approved),
        "Denied" => Some(ConditionKind::Denied),
        "InvalidRequest" => Some(ConditionKind::InvalidRequest),
        _ => None,
    }
}

#[tactic(auto, unfolding(crate::specs::ConditionForm::condition_kind_at))]
fn condition_kind(alloc: Global, value: &Value) -> Result<ConditionKind, BadField>
    ensures { Gives (λ t. t) result (forms.condition_kind_at (view value.now)) }
{
    match value.as_str().and_then(condition_named) {
        Some(kind) => Ok(kind),
        None => Err(BadField::Path(Texts::new(alloc))),
    }
}

fn since(alloc: Global, value: &Value) -> Result<i64, BadField>
    ensures { Gives (λ t. t) result (under (codes "lastTransitionTime") (forms.moment_at (view value.now))) }
{
    at(alloc, "lastTransitionTime", moment(alloc, value))
}

fn needed_text<'a, 'b>(
    alloc: Global,
    rest: Fields<'a, 'b>,
    name: &str,
) -> Result<(Text, Fields<'a, 'b>), BadField>
    ensures { Gives (λ p. (p.0, map shown p.1.now)) result (needed_at text_at name.now (map shown rest.now)) }
{
    let (value, rest) = required(alloc, rest, name)?;
    Ok((at(alloc, name, text(alloc, value))?, rest))
}

fn needed_tri<'a, 'b>(
    alloc: Global,
    rest: Fields<'a, 'b>,
) -> Result<(Tri, Fields<'a, 'b>), BadField>
    ensures { Gives (λ p. (p.0, map shown p.1.now)) result (needed_at forms.tri_at (codes "status") (map shown rest.now)) }
{
    let (value, rest) = required(alloc, rest, "status")?;
    Ok((at(alloc, "status", tri(alloc, value))?, rest))
}

fn needed_kind<'a, 'b>(
    alloc: Global,
    rest: Fields<'a, 'b>,
) -> Result<(ConditionKind, Fields<'a, 'b>), BadField>
    ensures { Gives (λ p. (p.0, map shown p.1.now)) result (needed_at forms.condition_kind_at (codes "type") (map shown rest.now)) }
{
    let (value, rest) = required(alloc, rest, "type")?;
    Ok((at(alloc, "type", condition_kind(alloc, value))?, rest))
}

#[tactic(auto, unfolding(crate::specs::ConditionForm::condition_in))]
fn read_condition(alloc: Global, rest: Fields<'_, '_>) -> Result<Condition, BadField>
    ensures { Gives (λ t. t) result (forms.condition_in (map shown rest.now)) }
{
    let (given, rest) = required(alloc, rest, "lastTransitionTime")?;
    let since = since(alloc, given)?;
    let (message, rest) = needed_text(alloc, rest, "message")?;
    let (reason, rest) = needed_text(alloc, rest, "reason")?;
    let (status, rest) = needed_tri(alloc, rest)?;
    let (kind, rest) = needed_kind(alloc, rest)?;
    check_end(alloc, rest)?;
    Ok(Condition {
        kind,
        status,
        reason,
        message,
        since,
    })
}

#[tactic(auto, unfolding(crate::specs::ConditionForm::condition_read_at))]
fn condition(alloc: Global, value: &Value) -> Result<Condition, BadField>
    ensures { Gives (λ t. t) result (forms.condition_read_at (view value.now)) }
{
    let members = fields(alloc, value)?;
    read_condition(alloc, &members)
}

/// The place of a kind in the order of kinds.
fn rank(kind: ConditionKind) -> u8
    ensures value { result ≡ orders.condition_rank kind }
    ensures bound { result < 5 }
{
    match kind {
        ConditionKind::Ready => 0,
        ConditionKind::Issuing => 1,
        ConditionKind::Approved => 2,
        ConditionKind::Denied => 3,
        ConditionKind::InvalidRequest => 4,
    }
}

fn condition_from(alloc: Global, least: u8, value: &Value) -> Result<Condition, BadField>
    ensures { Gives (λ t. t) result (forms.ranked_at least (view value.now)) }
{
    let condition = condition(alloc, value)?;
    if least <= rank(condition.kind) {
        return Ok(condition);
    }
    Err(BadField::Path(Texts::new(alloc)))
}

fn numbered_condition(
    alloc: Global,
    place: usize,
    least: u8,
    value: &Value,
) -> Result<Condition, BadField>
    ensures { Gives (λ t. t) result (under (decimal place) (forms.ranked_at least (view value.now))) }
{
    at_place(alloc, place, condition_from(alloc, least, value))
}

fn conditions_of(alloc: Global, items: &[Value]) -> Result<Conditions, BadField>
    ensures { Gives (λ t. t) result (forms.conditions_from 0 0 (items_view items.now)) }
{
    let mut conditions = Conditions::new(alloc);
    let mut least = 0;
    for (place, item) in items.iter().enumerate() {
        match numbered_condition(alloc, place, least, item) {
            Ok(condition) => {
                least = rank(condition.kind) + 1;
                conditions.renew(condition)?;
            }
            Err(error) => return Err(error),
        }
    }
    Ok(conditions)
}

fn some_conditions(alloc: Global, items: &[Value]) -> Result<Conditions, BadField>
    ensures { Gives (λ t. t) result (forms.some_conditions_in (items_view items.now)) }
{
    let conditions = conditions_of(alloc, items)?;
    if conditions.as_slice().is_empty() {
        return Err(BadField::Path(Texts::new(alloc)));
    }
    Ok(conditions)
}

/// The conditions of a list: at least one, in the order of their kinds, each kind at most once.
pub fn conditions(alloc: Global, value: &Value) -> Result<Conditions, BadField>
    ensures { Gives (λ t. t) result (forms.conditions_at (view value.now)) }
{
    match value {
        Value::Array(items) => some_conditions(alloc, items.as_slice()),
        _ => Err(BadField::Path(Texts::new(alloc))),
    }
}
