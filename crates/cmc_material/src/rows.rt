// Rows for keys and for issuers.
ghost use Rattle.std.specs.Prelude.{◌≡◌, [], codes, map, option_map};
ghost use Rattle.serde_json.specs.View.{view, items_view};
ghost use Rattle.cmc_cursor.specs.Members.{Gives};
ghost use Rattle.cmc_cursor.specs.Readers.{bytes_at, text_at};
ghost use Rattle.cmc_cursor.specs.Seen.{shown, shown_option};
ghost use Rattle.cmc_material.specs.Lists.{items_from, member_or, numbered_at};
ghost use Rattle.cmc_material.specs.MaterialRows.{synthetic_in, key_row_in, key_row_at, issue_in, pending_in, fail_in, raw_in, no_reply_in, reply_row_in, reply_row_at, key_rows_at, reply_rows_at};

use crate::optional::{bounded_option, bounded_or, count_option};
use cmc_cursor::{
    BadField, Fields, at, at_place, bytes, check_end, count, fields, member, optional, pass,
    path_to, required, text,
};
use cmc_meta::{Bytes, Text, Texts};
use cmc_objects::{KeyRow, KeyRows, SignRow, SignRows};
use serde_json::Value;
use std::alloc::Global;

const LONGEST_LIFETIME: u64 = 3_153_600_000;

const LONGEST_BEFORE: u64 = 86_400;

#[tactic(auto, unfolding(crate::specs::MaterialRows::synthetic_in))]
fn synthetic(alloc: Global, given: Option<&Value>, rest: Fields<'_, '_>) -> Result<KeyRow, BadField>
    ensures { Gives (λ t. t) result (synthetic_in (shown_option given.entry) (map shown rest.now)) }
{
    match given {
        None => {
            check_end(alloc, rest)?;
            Err(BadField::Path(Texts::new(alloc)))
        }
        Some(value) => {
            let number = at(alloc, "synthetic", count(alloc, value))?;
            check_end(alloc, rest)?;
            Ok(KeyRow::Synthetic(number))
        }
    }
}

#[tactic(auto, unfolding(crate::specs::MaterialRows::key_row_in))]
fn key_form(alloc: Global, der: Option<&Value>, rest: Fields<'_, '_>) -> Result<KeyRow, BadField>
    ensures { Gives (λ t. t) result (key_row_in (shown_option der.entry) (map shown rest.now)) }
{
    match der {
        None => {
            let (given, rest) = optional(alloc, rest, "synthetic")?;
            synthetic(alloc, given, rest)
        }
        Some(value) => {
            let bytes = at(alloc, "der", bytes(alloc, value))?;
            check_end(alloc, rest)?;
            Ok(KeyRow::Der(bytes))
        }
    }
}

#[tactic(auto, unfolding(crate::specs::MaterialRows::key_row_at))]
fn key_row(alloc: Global, value: &Value) -> Result<KeyRow, BadField>
    ensures { Gives (λ t. t) result (key_row_at (view value.now)) }
{
    let members = fields(alloc, value)?;
    let (der, rest) = optional(alloc, &members, "der")?;
    key_form(alloc, der, rest)
}

fn bytes_or_none(alloc: Global, name: &str, value: Option<&Value>) -> Result<Bytes, BadField>
    ensures { Gives (λ t. t) result (member_or [] name.now bytes_at (shown_option value.entry)) }
{
    match value {
        None => Ok(Bytes::new(alloc)),
        Some(value) => at(alloc, name, bytes(alloc, value)),
    }
}

#[tactic(auto, unfolding(crate::specs::MaterialRows::issue_in))]
fn issue(alloc: Global, rest: Fields<'_, '_>) -> Result<SignRow, BadField>
    ensures { Gives (λ t. t) result (issue_in (map shown rest.now)) }
{
    let (given, rest) = optional(alloc, rest, "before")?;
    let before = bounded_or(alloc, "before", given, 0, 0, LONGEST_BEFORE)?;
    let (given, rest) = optional(alloc, rest, "ca")?;
    let ca = bytes_or_none(alloc, "ca", given)?;
    let (given, rest) = optional(alloc, rest, "key")?;
    let key = count_option(alloc, "key", given)?;
    let (_, rest) = required(alloc, rest, "reply")?;
    let (given, rest) = optional(alloc, rest, "seconds")?;
    let seconds = bounded_option(alloc, "seconds", given, 1, LONGEST_LIFETIME)?;
    let (given, rest) = optional(alloc, rest, "serial")?;
    let serial = count_option(alloc, "serial", given)?;
    check_end(alloc, rest)?;
    Ok(SignRow::Issue {
        seconds,
        before,
        serial,
        key,
        ca,
    })
}

#[tactic(auto, unfolding(crate::specs::MaterialRows::pending_in))]
fn pending(alloc: Global, rest: Fields<'_, '_>) -> Result<SignRow, BadField>
    ensures { Gives (λ t. t) result (pending_in (map shown rest.now)) }
{
    let (_, rest) = required(alloc, rest, "reply")?;
    check_end(alloc, rest)?;
    Ok(SignRow::Pending)
}

fn message_of(alloc: Global, value: Option<&Value>) -> Result<Text, BadField>
    ensures { Gives (λ t. t) result (member_or (codes "The issuer refused") (codes "message") text_at (shown_option value.entry)) }
{
    match value {
        None => Ok(Text::from_str(alloc, "The issuer refused")?),
        Some(value) => at(alloc, "message", text(alloc, value)),
    }
}

#[tactic(auto, unfolding(crate::specs::MaterialRows::fail_in))]
fn fail(alloc: Global, rest: Fields<'_, '_>) -> Result<SignRow, BadField>
    ensures { Gives (λ t. t) result (fail_in (map shown rest.now)) }
{
    let (given, rest) = optional(alloc, rest, "message")?;
    let message = message_of(alloc, given)?;
    let (_, rest) = required(alloc, rest, "reply")?;
    check_end(alloc, rest)?;
    Ok(SignRow::Fail { message })
}

#[tactic(auto, unfolding(crate::specs::MaterialRows::raw_in))]
fn raw(alloc: Global, rest: Fields<'_, '_>) -> Result<SignRow, BadField>
    ensures { Gives (λ t. t) result (raw_in (map shown rest.now)) }
{
    let (given, rest) = required(alloc, rest, "der")?;
    let der = at(alloc, "der", bytes(alloc, given))?;
    let (_, rest) = required(alloc, rest, "reply")?;
    check_end(alloc, rest)?;
    Ok(SignRow::Raw { der })
}

#[tactic(auto, unfolding(crate::specs::MaterialRows::no_reply_in))]
fn no_reply(alloc: Global, rest: Fields<'_, '_>) -> Result<SignRow, BadField>
    ensures { Gives (λ t. t) result (no_reply_in (map shown rest.now)) }
{
    let (given, rest) = optional(alloc, rest, "before")?;
    pass(alloc, "before", given)?;
    let (given, rest) = optional(alloc, rest, "ca")?;
    pass(alloc, "ca", given)?;
    let (given, rest) = optional(alloc, rest, "der")?;
    pass(alloc, "der", given)?;
    let (given, rest) = optional(alloc, rest, "key")?;
    pass(alloc, "key", given)?;
    let (given, rest) = optional(alloc, rest, "message")?;
    pass(alloc, "message", given)?;
    required(alloc, rest, "reply")?;
    Err(BadField::Path(path_to(alloc, "reply")?))
}

fn reply_form(alloc: Global, word: Option<&str>, rest: Fields<'_, '_>) -> Result<SignRow, BadField>
    ensures { Gives (λ t. t) result (reply_row_in (option_map (λ t. t.now) word.entry) (map shown rest.now)) }
{
    match word {
        Some("issue") => issue(alloc, rest),
        Some("pending") => pending(alloc, rest),
        Some("fail") => fail(alloc, rest),
        Some("raw") => raw(alloc, rest),
        _ => no_reply(alloc, rest),
    }
}

/// A row for one question to an issuer.
#[tactic(auto, unfolding(crate::specs::MaterialRows::reply_row_at))]
pub fn reply_row(alloc: Global, value: &Value) -> Result<SignRow, BadField>
    ensures { Gives (λ t. t) result (reply_row_at (view value.now)) }
{
    let members = fields(alloc, value)?;
    reply_form(alloc, member(value, "reply"), &members)
}

#[tactic(auto, unfolding(crate::specs::Lists::numbered_at))]
fn numbered_key_row(alloc: Global, place: usize, value: &Value) -> Result<KeyRow, BadField>
    ensures { Gives (λ t. t) result (numbered_at key_row_at place (view value.now)) }
{
    at_place(alloc, place, key_row(alloc, value))
}

#[tactic(auto, unfolding(crate::specs::Lists::numbered_at))]
fn numbered_reply_row(alloc: Global, place: usize, value: &Value) -> Result<SignRow, BadField>
    ensures { Gives (λ t. t) result (numbered_at reply_row_at place (view value.now)) }
{
    at_place(alloc, place, reply_row(alloc, value))
}

fn key_rows_of(alloc: Global, items: &[Value]) -> Result<KeyRows, BadField>
    ensures { Gives (λ t. t) result (items_from (numbered_at key_row_at) 0 (items_view items.now)) }
{
    let mut rows = KeyRows::new(alloc);
    for (place, item) in items.iter().enumerate() {
        match numbered_key_row(alloc, place, item) {
            Ok(row) => rows.push(row)?,
            Err(error) => return Err(error),
        }
    }
    Ok(rows)
}

fn reply_rows_of(alloc: Global, items: &[Value]) -> Result<SignRows, BadField>
    ensures { Gives (λ t. t) result (items_from (numbered_at reply_row_at) 0 (items_view items.now)) }
{
    let mut rows = SignRows::new(alloc);
    for (place, item) in items.iter().enumerate() {
        match numbered_reply_row(alloc, place, item) {
            Ok(row) => rows.push(row)?,
            Err(error) => return Err(error),
        }
    }
    Ok(rows)
}

fn key_list(alloc: Global, value: &Value) -> Result<KeyRows, BadField>
    ensures { Gives (λ t. t) result (key_rows_at (view value.now)) }
{
    match value {
        Value::Array(items) => key_rows_of(alloc, items.as_slice()),
        _ => Err(BadField::Path(Texts::new(alloc))),
    }
}

fn reply_list(alloc: Global, value: &Value) -> Result<SignRows, BadField>
    ensures { Gives (λ t. t) result (reply_rows_at (view value.now)) }
{
    match value {
        Value::Array(items) => reply_rows_of(alloc, items.as_slice()),
        _ => Err(BadField::Path(Texts::new(alloc))),
    }
}

/// The key rows of the member `keys`.
pub fn key_rows(alloc: Global, value: Option<&Value>) -> Result<KeyRows, BadField>
    ensures { Gives (λ t. t) result (member_or [] (codes "keys") key_rows_at (shown_option value.entry)) }
{
    match value {
        None => Ok(KeyRows::new(alloc)),
        Some(value) => at(alloc, "keys", key_list(alloc, value)),
    }
}

/// The reply rows of the member `replies`.
pub fn reply_rows(alloc: Global, value: Option<&Value>) -> Result<SignRows, BadField>
    ensures { Gives (λ t. t) result (member_or [] (codes "replies") reply_rows_at (shown_option value.entry)) }
{
    match value {
        None => Ok(SignRows::new(alloc)),
        Some(value) => at(alloc, "replies", reply_list(alloc, value)),
    }
}
