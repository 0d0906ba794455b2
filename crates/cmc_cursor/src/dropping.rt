// Members that are looked at out of turn, and members that are dropped.
ghost use Rattle.std.specs.Prelude.{◌≡◌, map, option_map};
ghost use Rattle.serde_json.specs.View.{view};
ghost use Rattle.cmc_cursor.specs.Members.{Gives};
ghost use Rattle.cmc_cursor.specs.Readers.{passes, text_member, sought_at, dropped_at};
ghost use Rattle.cmc_cursor.specs.Seen.{shown, shown_option};

use crate::cursor::{Fields, at};
use crate::error::BadField;
use crate::floats::check_floats;
use serde_json::Value;
use std::alloc::Global;
use std::cmp::Ordering;

/// Checks a member that is not read: it may hold anything but a float.
pub fn pass(alloc: Global, name: &str, value: Option<&Value>) -> Result<(), BadField>
    ensures { Gives (λ t. t) result (passes name.now (shown_option value.entry)) }
{
    match value {
        None => Ok(()),
        Some(value) => at(alloc, name, check_floats(alloc, value)),
    }
}

/// The text of a member of a value, if it has one.
pub fn member<'a>(value: &'a Value, name: &str) -> Option<&'a str>
    ensures { option_map (λ t. t.now) result ≡ text_member name.now (view value.now) }
{
    value.get(name).and_then(Value::as_str)
}

/// The member of that name, where it stands, and the members after it. The members before it are
/// dropped: each may hold anything but a float, and the first that holds one fails there.
pub fn seek<'a, 'b>(
    alloc: Global,
    rest: Fields<'a, 'b>,
    name: &str,
) -> Result<(Option<&'a Value>, Fields<'a, 'b>), BadField>
    ensures { Gives (λ p. (shown_option p.0, map shown p.1.now)) result (sought_at name.now (map shown rest.now)) }
{
    let mut left = rest;
    while let [(found, value), after @ ..] = left {
        match found.cmp(&name) {
            Ordering::Less => at(alloc, found, check_floats(alloc, value))?,
            Ordering::Equal => return Ok((Some(*value), after)),
            Ordering::Greater => return Ok((None, left)),
        }
        left = after;
    }
    Ok((None, left))
}

/// Drops all members that are left: the first that holds a float fails there.
pub fn drop_rest(alloc: Global, rest: Fields<'_, '_>) -> Result<(), BadField>
    ensures { Gives (λ t. t) result (dropped_at (map shown rest.now)) }
{
    let mut left = rest;
    while let [(found, value), after @ ..] = left {
        at(alloc, found, check_floats(alloc, value))?;
        left = after;
    }
    Ok(())
}
