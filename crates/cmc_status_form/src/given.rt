// Single values, and members that may be left out.
ghost use Rattle.std.specs.Prelude.{◌≡◌, [], codes, map};
ghost use Rattle.serde_json.specs.View.{view};
ghost use Rattle.cmc_cursor.specs.Members.{Gives};
ghost use Rattle.cmc_cursor.specs.Readers.{count_at, name_at, small_count_at};
ghost use Rattle.cmc_cursor.specs.Seen.{shown};
ghost use Rattle.cmc_codec.specs.Given.{member_at, next_member_or};
ghost use Rattle.cmc_status_form.specs.ConditionForm.{conditions_at, moment_at};
ghost use Rattle.cmc_status_form.specs.StatusForm.{some_bytes_at, some_fields_at};

use crate::conditions::conditions;
use cmc_cursor::{BadField, Fields, at, bytes, count, fields, name, optional, small_count};
use cmc_meta::{Bytes, Conditions, Name, Texts};
use cmc_time::read_rfc3339;
use serde_json::Value;
use std::alloc::Global;

/// A moment as RFC 3339 writes it in UTC, to the second, in seconds since 1970-01-01T00:00:00Z.
pub fn moment(alloc: Global, value: &Value) -> Result<i64, BadField>
    ensures { Gives (λ t. t) result (moment_at (view value.now)) }
{
    let Some(text) = value.as_str() else {
        return Err(BadField::Path(Texts::new(alloc)));
    };
    match read_rfc3339(text) {
        Ok(moment) => Ok(moment),
        Err(_) => Err(BadField::Path(Texts::new(alloc))),
    }
}

fn some_bytes(alloc: Global, value: &Value) -> Result<Bytes, BadField>
    ensures { Gives (λ t. t) result (some_bytes_at (view value.now)) }
{
    let bytes = bytes(alloc, value)?;
    if bytes.as_slice().is_empty() {
        return Err(BadField::Path(Texts::new(alloc)));
    }
    Ok(bytes)
}

/// The members of an object that has some.
///
/// Fails at the value itself exactly where it is no object, or one without members.
pub fn some_fields(alloc: Global, value: &Value) -> Result<Vec<(&str, &Value)>, BadField>
    ensures { Gives (λ v. map shown v.items) result (some_fields_at (view value.now)) }
{
    let members = fields(alloc, value)?;
    if members.is_empty() {
        return Err(BadField::Path(Texts::new(alloc)));
    }
    Ok(members)
}

/// The conditions of a status, none where the member is left out.
pub fn given_conditions<'a, 'b>(
    alloc: Global,
    rest: Fields<'a, 'b>,
) -> Result<(Conditions, Fields<'a, 'b>), BadField>
    ensures { Gives (λ p. (p.0, map shown p.1.now)) result (next_member_or [] conditions_at (codes "conditions") (map shown rest.now)) }
{
    match optional(alloc, rest, "conditions")? {
        (None, rest) => Ok((Conditions::new(alloc), rest)),
        (Some(value), rest) => Ok((at(alloc, "conditions", conditions(alloc, value))?, rest)),
    }
}

/// Bytes in standard base64, none where the member is left out.
pub fn given_bytes<'a, 'b>(
    alloc: Global,
    rest: Fields<'a, 'b>,
    name: &str,
) -> Result<(Bytes, Fields<'a, 'b>), BadField>
    ensures { Gives (λ p. (p.0, map shown p.1.now)) result (next_member_or [] some_bytes_at name.now (map shown rest.now)) }
{
    match optional(alloc, rest, name)? {
        (None, rest) => Ok((Bytes::new(alloc), rest)),
        (Some(value), rest) => Ok((at(alloc, name, some_bytes(alloc, value))?, rest)),
    }
}

/// A moment, where the member is there.
pub fn given_moment<'a, 'b>(
    alloc: Global,
    rest: Fields<'a, 'b>,
    name: &str,
) -> Result<(Option<i64>, Fields<'a, 'b>), BadField>
    ensures { Gives (λ p. (p.0, map shown p.1.now)) result (member_at moment_at name.now (map shown rest.now)) }
{
    match optional(alloc, rest, name)? {
        (None, rest) => Ok((None, rest)),
        (Some(value), rest) => Ok((Some(at(alloc, name, moment(alloc, value))?), rest)),
    }
}

/// The name of an object, where the member is there.
pub fn given_name<'a, 'b>(
    alloc: Global,
    rest: Fields<'a, 'b>,
    member: &str,
) -> Result<(Option<Name>, Fields<'a, 'b>), BadField>
    ensures { Gives (λ p. (p.0, map shown p.1.now)) result (member_at name_at member.now (map shown rest.now)) }
{
    match optional(alloc, rest, member)? {
        (None, rest) => Ok((None, rest)),
        (Some(value), rest) => Ok((Some(at(alloc, member, name(alloc, value))?), rest)),
    }
}

/// A number below 2^32, where the member is there.
pub fn given_small_count<'a, 'b>(
    alloc: Global,
    rest: Fields<'a, 'b>,
    name: &str,
) -> Result<(Option<u32>, Fields<'a, 'b>), BadField>
    ensures { Gives (λ p. (p.0, map shown p.1.now)) result (member_at small_count_at name.now (map shown rest.now)) }
{
    match optional(alloc, rest, name)? {
        (None, rest) => Ok((None, rest)),
        (Some(value), rest) => Ok((Some(at(alloc, name, small_count(alloc, value))?), rest)),
    }
}

/// A number below 2^64, where the member is there.
pub fn given_count<'a, 'b>(
    alloc: Global,
    rest: Fields<'a, 'b>,
    name: &str,
) -> Result<(Option<u64>, Fields<'a, 'b>), BadField>
    ensures { Gives (λ p. (p.0, map shown p.1.now)) result (member_at count_at name.now (map shown rest.now)) }
{
    match optional(alloc, rest, name)? {
        (None, rest) => Ok((None, rest)),
        (Some(value), rest) => Ok((Some(at(alloc, name, count(alloc, value))?), rest)),
    }
}
