// The members of an object, one after another.
ghost use Rattle.std.specs.Prelude.{◌≡◌, IfOk, map, decimal};
ghost use Rattle.std.specs.declared.result.Result.{Result};
ghost use Rattle.serde_json.specs.View.{view, members_view};
ghost use Rattle.cmc_cursor.specs.Members.{Gives, Read, fields_of, fields_at, optional_at, required_at, at_end, under};
ghost use Rattle.cmc_cursor.specs.Seen.{shown, shown_option};

use crate::error::BadField;
use crate::paths::{below, path_to};
use cmc_meta::Texts;
use serde_json::{Map, Value};
use std::alloc::{AllocError, Global};
use std::cmp::Ordering;

/// Members of an object that are left to be read, in byte order of their names.
pub type Fields<'a, 'b> = &'b [(&'a str, &'a Value)];

/// The members of an object, in byte order of their names.
///
/// Fails at the value itself exactly where it is no object.
pub fn fields(alloc: Global, value: &Value) -> Result<Vec<(&str, &Value)>, BadField>
    ensures { Gives (λ v. map shown v.items) result (fields_at (view value.now)) }
{
    match value {
        Value::Object(members) => Ok(members_of(alloc, members)?),
        _ => Err(BadField::Path(Texts::new(alloc))),
    }
}

fn members_of(
    alloc: Global,
    members: &Map<String, Value>,
) -> Result<Vec<(&str, &Value)>, AllocError>
    ensures { IfOk result (λ v. map shown v.items ≡ fields_of (members_view members.now.entries)) }
{
    let mut items = Vec::with_capacity(alloc, members.len())?;
    for (name, member) in members.iter() {
        items.push((name.as_str(), member))?;
    }
    Ok(items)
}

/// The member of that name, where it comes next, and the members after it.
///
/// Fails at the next member's name exactly where that comes before `name` in byte order.
pub fn optional<'a, 'b>(
    alloc: Global,
    rest: Fields<'a, 'b>,
    name: &str,
) -> Result<(Option<&'a Value>, Fields<'a, 'b>), BadField>
    ensures { Gives (λ p. (shown_option p.0, map shown p.1.now)) result (optional_at name.now (map shown rest.now)) }
{
    match rest {
        [] => Ok((None, rest)),
        [(found, value), after @ ..] => match found.cmp(&name) {
            Ordering::Less => Err(BadField::Path(path_to(alloc, found)?)),
            Ordering::Equal => Ok((Some(*value), after)),
            Ordering::Greater => Ok((None, rest)),
        },
    }
}

/// The member of that name, which has to come next, and the members after it.
///
/// Fails at the next member's name where that comes before `name` in byte order, and else at
/// `name` where no such member stands.
#[tactic(auto, unfolding(crate::specs::Members::required_at))]
pub fn required<'a, 'b>(
    alloc: Global,
    rest: Fields<'a, 'b>,
    name: &str,
) -> Result<(&'a Value, Fields<'a, 'b>), BadField>
    ensures { Gives (λ p. (view p.0.now, map shown p.1.now)) result (required_at name.now (map shown rest.now)) }
{
    match optional(alloc, rest, name)? {
        (Some(value), after) => Ok((value, after)),
        (None, _) => Err(BadField::Path(path_to(alloc, name)?)),
    }
}

/// Checks that no member is left. Fails at the name of the first that is.
pub fn check_end(alloc: Global, rest: Fields<'_, '_>) -> Result<(), BadField>
    ensures { Gives (λ t. t) result (at_end (map shown rest.now)) }
{
    match rest {
        [] => Ok(()),
        [(found, _), ..] => Err(BadField::Path(path_to(alloc, found)?)),
    }
}

/// What was read of the value under a name: a failing path goes below that name.
pub fn at<T: Drop>(alloc: Global, name: &str, found: Result<T, BadField>) -> Result<T, BadField>
    ensures { (read : Read T) → Gives (λ t. t) found read → Gives (λ t. t) result (under name.now read) }
{
    match found {
        Ok(value) => Ok(value),
        Err(BadField::NoMemory) => Err(BadField::NoMemory),
        Err(BadField::Path(path)) => Err(BadField::Path(below(alloc, name, &path)?)),
    }
}

/// What was read of the item at that place of a list: a failing path goes below the place, which is
/// written only where something fails.
pub fn at_place<T: Drop>(
    alloc: Global,
    place: usize,
    found: Result<T, BadField>,
) -> Result<T, BadField>
    ensures { (read : Read T) → Gives (λ t. t) found read → Gives (λ t. t) result (under (decimal place) read) }
{
    match found {
        Ok(value) => Ok(value),
        Err(error) => at(alloc, place.to_string(alloc)?.as_str(), Err(error)),
    }
}
