// Values of a certain form, and members that may be left out.
ghost use Rattle.std.specs.Prelude.{◌≡◌, [], None, decimal, false, is_some, map};
ghost use Rattle.serde_json.specs.View.{view, items_view};
ghost use Rattle.cmc_x509_build.specs.Addresses as addresses;
ghost use Rattle.cmc_cursor.specs.Members.{Gives, under};
ghost use Rattle.cmc_cursor.specs.Readers.{bytes_at, flag_at, name_at, short_text_at, small_count_at};
ghost use Rattle.cmc_cursor.specs.Seen.{shown};
ghost use Rattle.cmc_codec.specs.Given.{address_text_at, worded_at, list_from, text_list_at, clean_text_at, duration_at, choice_at, member_at, next_member_or, needed_at};

use cmc_cursor::{
    BadField, Fields, at, at_place, bytes, flag, name, optional, printable, required, short_text,
    small_count, text,
};
use cmc_meta::{Bytes, Name, Text, Texts, is_clean};
use cmc_time::read_duration;
use cmc_x509_build::address_at;
use serde_json::Value;
use std::alloc::Global;

/// What the texts of a list have to be.
#[derive(Clone, Copy)]
pub enum Wording {
    /// Any texts.
    Any,
    /// 1 to 253 printable characters of ASCII.
    Printable,
    /// IP addresses (RFC 4291 and dotted decimals), with no zone and no embedded IPv4 address.
    Address,
}

fn is_address(text: &str) -> bool
    ensures { result ≡ is_some (addresses.address_at text.now) }
{
    address_at(text).is_some()
}

fn address(alloc: Global, value: &Value) -> Result<Text, BadField>
    ensures { Gives (λ t. t) result (address_text_at (view value.now)) }
{
    match value.as_str() {
        Some(text) if is_address(text) => Ok(Text::from_str(alloc, text)?),
        _ => Err(BadField::Path(Texts::new(alloc))),
    }
}

fn worded(alloc: Global, wording: Wording, value: &Value) -> Result<Text, BadField>
    ensures { Gives (λ t. t) result (worded_at wording (view value.now)) }
{
    match wording {
        Wording::Any => text(alloc, value),
        Wording::Printable => printable(alloc, value),
        Wording::Address => address(alloc, value),
    }
}

fn worded_item(
    alloc: Global,
    wording: Wording,
    place: usize,
    value: &Value,
) -> Result<Text, BadField>
    ensures { Gives (λ t. t) result (under (decimal place) (worded_at wording (view value.now))) }
{
    at_place(alloc, place, worded(alloc, wording, value))
}

fn list_of(alloc: Global, wording: Wording, items: &[Value]) -> Result<Texts, BadField>
    ensures { Gives (λ t. t) result (list_from wording 0 (items_view items.now)) }
{
    let mut texts = Texts::new(alloc);
    for (place, item) in items.iter().enumerate() {
        match worded_item(alloc, wording, place, item) {
            Ok(text) => texts.push(text)?,
            Err(error) => return Err(error),
        }
    }
    Ok(texts)
}

fn list(alloc: Global, wording: Wording, value: &Value) -> Result<Texts, BadField>
    ensures { Gives (λ t. t) result (text_list_at wording (view value.now)) }
{
    match value {
        Value::Array(items) => list_of(alloc, wording, items.as_slice()),
        _ => Err(BadField::Path(Texts::new(alloc))),
    }
}

fn clean_text(alloc: Global, value: &Value) -> Result<Text, BadField>
    ensures { Gives (λ t. t) result (clean_text_at (view value.now)) }
{
    match value.as_str() {
        Some(text) if is_clean(text) => Ok(Text::from_str(alloc, text)?),
        _ => Err(BadField::Path(Texts::new(alloc))),
    }
}

fn duration(alloc: Global, value: &Value) -> Result<u64, BadField>
    ensures { Gives (λ t. t) result (duration_at (view value.now)) }
{
    let Some(text) = value.as_str() else {
        return Err(BadField::Path(Texts::new(alloc)));
    };
    match read_duration(text) {
        Ok(seconds) => Ok(seconds),
        Err(_) => Err(BadField::Path(Texts::new(alloc))),
    }
}

/// What one of two words stands for.
pub fn choice<T: Copy + Drop>(
    alloc: Global,
    value: &Value,
    first: (&str, T),
    second: (&str, T),
) -> Result<T, BadField>
    ensures { Gives (λ t. t) result (choice_at first.entry.0.now first.entry.1 second.entry.0.now second.entry.1 (view value.now)) }
{
    match value.as_str() {
        Some(text) if text == first.0 => Ok(first.1),
        Some(text) if text == second.0 => Ok(second.1),
        _ => Err(BadField::Path(Texts::new(alloc))),
    }
}

/// A list of texts, empty where the member is left out.
pub fn given_list<'a, 'b>(
    alloc: Global,
    rest: Fields<'a, 'b>,
    name: &str,
    wording: Wording,
) -> Result<(Texts, Fields<'a, 'b>), BadField>
    ensures { Gives (λ p. (p.0, map shown p.1.now)) result (next_member_or [] (text_list_at wording) name.now (map shown rest.now)) }
{
    match optional(alloc, rest, name)? {
        (None, rest) => Ok((Texts::new(alloc), rest)),
        (Some(value), rest) => Ok((at(alloc, name, list(alloc, wording, value))?, rest)),
    }
}

/// A text without a control character, empty where the member is left out.
pub fn given_clean_text<'a, 'b>(
    alloc: Global,
    rest: Fields<'a, 'b>,
    name: &str,
) -> Result<(Text, Fields<'a, 'b>), BadField>
    ensures { Gives (λ p. (p.0, map shown p.1.now)) result (next_member_or [] clean_text_at name.now (map shown rest.now)) }
{
    match optional(alloc, rest, name)? {
        (None, rest) => Ok((Text::new(alloc), rest)),
        (Some(value), rest) => Ok((at(alloc, name, clean_text(alloc, value))?, rest)),
    }
}

/// A flag, false where the member is left out.
pub fn given_flag<'a, 'b>(
    alloc: Global,
    rest: Fields<'a, 'b>,
    name: &str,
) -> Result<(bool, Fields<'a, 'b>), BadField>
    ensures { Gives (λ p. (p.0, map shown p.1.now)) result (next_member_or false flag_at name.now (map shown rest.now)) }
{
    match optional(alloc, rest, name)? {
        (None, rest) => Ok((false, rest)),
        (Some(value), rest) => Ok((at(alloc, name, flag(alloc, value))?, rest)),
    }
}

/// The seconds of a duration, where the member is there.
pub fn given_duration<'a, 'b>(
    alloc: Global,
    rest: Fields<'a, 'b>,
    name: &str,
) -> Result<(Option<u64>, Fields<'a, 'b>), BadField>
    ensures { Gives (λ p. (p.0, map shown p.1.now)) result (member_at duration_at name.now (map shown rest.now)) }
{
    match optional(alloc, rest, name)? {
        (None, rest) => Ok((None, rest)),
        (Some(value), rest) => Ok((Some(at(alloc, name, duration(alloc, value))?), rest)),
    }
}

/// A number below 2^32, where the member is there.
pub fn given_count<'a, 'b>(
    alloc: Global,
    rest: Fields<'a, 'b>,
    name: &str,
) -> Result<(Option<u32>, Fields<'a, 'b>), BadField>
    ensures { Gives (λ p. (p.0, map shown p.1.now)) result (member_at small_count_at name.now (map shown rest.now)) }
{
    match optional(alloc, rest, name)? {
        (None, rest) => Ok((None, rest)),
        (Some(value), rest) => Ok((Some(at(alloc, name, small_count(alloc, value))?), rest)),
    }
}

/// A text of at most 253 bytes, where the member is there.
pub fn given_short_text<'a, 'b>(
    alloc: Global,
    rest: Fields<'a, 'b>,
    name: &str,
) -> Result<(Option<Text>, Fields<'a, 'b>), BadField>
    ensures { Gives (λ p. (p.0, map shown p.1.now)) result (member_at (short_text_at 253) name.now (map shown rest.now)) }
{
    match optional(alloc, rest, name)? {
        (None, rest) => Ok((None, rest)),
        (Some(value), rest) => Ok((Some(at(alloc, name, short_text(alloc, value, 253))?), rest)),
    }
}

/// What one of two words stands for, where the member is there.
pub fn given_choice<'a, 'b, T: Copy + Drop>(
    alloc: Global,
    rest: Fields<'a, 'b>,
    name: &str,
    first: (&str, T),
    second: (&str, T),
) -> Result<(Option<T>, Fields<'a, 'b>), BadField>
    ensures { Gives (λ p. (p.0, map shown p.1.now)) result (member_at (choice_at first.entry.0.now first.entry.1 second.entry.0.now second.entry.1) name.now (map shown rest.now)) }
{
    match optional(alloc, rest, name)? {
        (None, rest) => Ok((None, rest)),
        (Some(value), rest) => {
            let chosen = at(alloc, name, choice(alloc, value, first, second))?;
            Ok((Some(chosen), rest))
        }
    }
}

/// A text of at most 253 bytes, which has to be there.
pub fn needed_short_text<'a, 'b>(
    alloc: Global,
    rest: Fields<'a, 'b>,
    name: &str,
) -> Result<(Text, Fields<'a, 'b>), BadField>
    ensures { Gives (λ p. (p.0, map shown p.1.now)) result (needed_at (short_text_at 253) name.now (map shown rest.now)) }
{
    let (value, rest) = required(alloc, rest, name)?;
    Ok((at(alloc, name, short_text(alloc, value, 253))?, rest))
}

/// The name of an object, which has to be there.
pub fn needed_name<'a, 'b>(
    alloc: Global,
    rest: Fields<'a, 'b>,
    member: &str,
) -> Result<(Name, Fields<'a, 'b>), BadField>
    ensures { Gives (λ p. (p.0, map shown p.1.now)) result (needed_at name_at member.now (map shown rest.now)) }
{
    let (value, rest) = required(alloc, rest, member)?;
    Ok((at(alloc, member, name(alloc, value))?, rest))
}

/// Bytes in standard base64, which have to be there.
pub fn needed_bytes<'a, 'b>(
    alloc: Global,
    rest: Fields<'a, 'b>,
    name: &str,
) -> Result<(Bytes, Fields<'a, 'b>), BadField>
    ensures { Gives (λ p. (p.0, map shown p.1.now)) result (needed_at bytes_at name.now (map shown rest.now)) }
{
    let (value, rest) = required(alloc, rest, name)?;
    Ok((at(alloc, name, bytes(alloc, value))?, rest))
}
