// Numbers that are kept as floats.
ghost use Rattle.std.specs.Prelude.{◌≡◌, false, OnOk};
ghost use Rattle.serde_json.specs.Written.{has_float, items_have_float, members_have_float};
ghost use Rattle.serde_json.specs.View.{view, items_view, members_view};
ghost use Rattle.cmc_cursor.specs.Members.{Gives};
ghost use Rattle.cmc_cursor.specs.Readers.{floats_at, floats_from, floats_in};

use crate::cursor::{at, at_place};
use crate::error::BadField;
use cmc_meta::Texts;
use serde_json::{Map, Value};
use std::alloc::Global;

/// Checks that no number in the value is kept as a float: a fraction, an exponent, or an integer
/// outside -2^63 to 2^64 - 1. Fails at the path of the first that is.
#[tactic(auto, using(crate::proofs::FloatFree::value_has_none, crate::proofs::FloatFree::value_passes))]
pub fn check_floats(alloc: Global, value: &Value) -> Result<(), BadField>
    ensures first { Gives (λ t. t) result (floats_at (view value.now)) }
    ensures none { OnOk result (has_float (view value.now) ≡ false) }
{
    // Most values have none, and the test alone makes no path.
    if !holds_float(value) {
        return Ok(());
    }
    check_value(alloc, value)
}

#[cycle(holds)]
fn holds_float(value: &Value) -> bool
    ensures { result ≡ has_float (view value.now) }
{
    match value {
        Value::Number(number) => number.is_f64(),
        Value::Array(items) => hold_float(items),
        Value::Object(members) => members_hold_float(members),
        _ => false,
    }
}

#[cycle(holds)]
fn hold_float(items: &Vec<Value>) -> bool
    ensures { result ≡ items_have_float (items_view items.now.items) }
{
    for item in items {
        if holds_float(item) {
            return true;
        }
    }
    false
}

#[cycle(holds)]
fn members_hold_float(members: &Map<String, Value>) -> bool
    ensures { result ≡ members_have_float (members_view members.now.entries) }
{
    for (_, member) in members.iter() {
        if holds_float(member) {
            return true;
        }
    }
    false
}

#[cycle(floats)]
fn check_value(alloc: Global, value: &Value) -> Result<(), BadField>
    ensures { Gives (λ t. t) result (floats_at (view value.now)) }
{
    match value {
        Value::Number(number) if number.is_f64() => Err(BadField::Path(Texts::new(alloc))),
        Value::Array(items) => check_items(alloc, items),
        Value::Object(members) => check_members(alloc, members),
        _ => Ok(()),
    }
}

#[cycle(floats)]
fn check_items(alloc: Global, items: &Vec<Value>) -> Result<(), BadField>
    ensures { Gives (λ t. t) result (floats_from 0 (items_view items.now.items)) }
{
    for (place, item) in items.iter().enumerate() {
        at_place(alloc, place, check_value(alloc, item))?;
    }
    Ok(())
}

#[cycle(floats)]
fn check_members(alloc: Global, members: &Map<String, Value>) -> Result<(), BadField>
    ensures { Gives (λ t. t) result (floats_in (members_view members.now.entries)) }
{
    for (name, member) in members.iter() {
        at(alloc, name.as_str(), check_value(alloc, member))?;
    }
    Ok(())
}
