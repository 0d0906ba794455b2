// What Certificates wait for, read from JSON.
ghost use Rattle.std.specs.Prelude.{◌≡◌, codes, decimal, map};
ghost use Rattle.std.specs.Option.{option_copied};
ghost use Rattle.serde_json.specs.View.{view, items_view};
ghost use Rattle.cmc_cursor.specs.Members.{Gives, under};
ghost use Rattle.cmc_cursor.specs.Seen.{shown};
ghost use Rattle.cmc_codec.specs.Given.{needed_at};
ghost use Rattle.cmc_material.specs.MaterialRows.{certificate_key_at};
ghost use Rattle.cmc_summary_form.specs.SummaryForm as forms;

use cmc_cursor::{BadField, Fields, at, at_place, check_end, fields, required};
use cmc_material::certificate;
use cmc_meta::{Key, Texts};
use cmc_summary::{WaitName, Waiting, Waits};
use serde_json::Value;
use std::alloc::Global;

fn wait_named(text: &str) -> Option<WaitName>
    ensures { result ≡ forms.wait_named text.now }
{
    match text {
        "stopped" => Some(WaitName::Stopped),
        "backoff" => Some(WaitName::Backoff),
        "key" => Some(WaitName::Key),
        "unapproved" => Some(WaitName::Unapproved),
        "name" => Some(WaitName::Name),
        "pending" => Some(WaitName::Pending),
        _ => None,
    }
}

#[tactic(auto, unfolding(crate::specs::SummaryForm::wait_read_at))]
fn wait(alloc: Global, value: &Value) -> Result<WaitName, BadField>
    ensures { Gives (λ t. t) result (forms.wait_read_at (view value.now)) }
{
    match value.as_str().and_then(wait_named) {
        Some(wait) => Ok(wait),
        None => Err(BadField::Path(Texts::new(alloc))),
    }
}

fn needed_certificate<'a, 'b>(
    alloc: Global,
    rest: Fields<'a, 'b>,
) -> Result<(Key, Fields<'a, 'b>), BadField>
    ensures { Gives (λ p. (p.0, map shown p.1.now)) result (needed_at certificate_key_at (codes "certificate") (map shown rest.now)) }
{
    let (value, rest) = required(alloc, rest, "certificate")?;
    Ok((at(alloc, "certificate", certificate(alloc, value))?, rest))
}

fn needed_wait<'a, 'b>(
    alloc: Global,
    rest: Fields<'a, 'b>,
) -> Result<(WaitName, Fields<'a, 'b>), BadField>
    ensures { Gives (λ p. (p.0, map shown p.1.now)) result (needed_at forms.wait_read_at (codes "wait") (map shown rest.now)) }
{
    let (value, rest) = required(alloc, rest, "wait")?;
    Ok((at(alloc, "wait", wait(alloc, value))?, rest))
}

#[tactic(auto, unfolding(crate::specs::SummaryForm::waiting_in))]
fn read_waiting(alloc: Global, rest: Fields<'_, '_>) -> Result<Waiting, BadField>
    ensures { Gives (λ t. t) result (forms.waiting_in (map shown rest.now)) }
{
    let (certificate, rest) = needed_certificate(alloc, rest)?;
    let (wait, rest) = needed_wait(alloc, rest)?;
    check_end(alloc, rest)?;
    Ok(Waiting { certificate, wait })
}

#[tactic(auto, unfolding(crate::specs::SummaryForm::waiting_at))]
fn waiting(alloc: Global, value: &Value) -> Result<Waiting, BadField>
    ensures { Gives (λ t. t) result (forms.waiting_at (view value.now)) }
{
    let members = fields(alloc, value)?;
    read_waiting(alloc, &members)
}

/// Whether the key comes after that of the last of those that were read.
fn comes_after(waits: &[Waiting], key: &Key) -> bool
    ensures { result ≡ forms.comes_after (forms.last_key waits.now) key.now }
{
    match waits.last() {
        None => true,
        Some(last) => last.certificate.cmp(key).is_lt(),
    }
}

fn next_waiting(alloc: Global, waits: &[Waiting], value: &Value) -> Result<Waiting, BadField>
    ensures { Gives (λ t. t) result (forms.next_waiting_at (forms.last_key waits.now) (view value.now)) }
{
    let waiting = waiting(alloc, value)?;
    if comes_after(waits, &waiting.certificate) {
        return Ok(waiting);
    }
    Err(BadField::Path(Texts::new(alloc)))
}

fn numbered_waiting(
    alloc: Global,
    place: usize,
    waits: &[Waiting],
    value: &Value,
) -> Result<Waiting, BadField>
    ensures { Gives (λ t. t) result (under (decimal place) (forms.next_waiting_at (forms.last_key waits.now) (view value.now))) }
{
    at_place(alloc, place, next_waiting(alloc, waits, value))
}

fn waits_of(alloc: Global, items: &[Value]) -> Result<Waits, BadField>
    ensures { Gives (λ t. t) result (forms.all_waits (items_view items.now)) }
{
    let mut waits = Waits::new(alloc);
    for (place, item) in items.iter().enumerate() {
        match numbered_waiting(alloc, place, waits.as_slice(), item) {
            Ok(waiting) => waits.push(waiting)?,
            Err(error) => return Err(error),
        }
    }
    Ok(waits)
}

/// What Certificates wait for, in order of key, each Certificate once.
pub fn waits(alloc: Global, value: &Value) -> Result<Waits, BadField>
    ensures { Gives (λ t. t) result (forms.waits_at (view value.now)) }
{
    match value {
        Value::Array(items) => waits_of(alloc, items.as_slice()),
        _ => Err(BadField::Path(Texts::new(alloc))),
    }
}
