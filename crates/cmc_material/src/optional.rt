// Members that may be left out, and numbers in bounds.
ghost use Rattle.std.specs.Prelude.{◌≡◌};
ghost use Rattle.serde_json.specs.View.{view};
ghost use Rattle.cmc_cursor.specs.Members.{Gives};
ghost use Rattle.cmc_cursor.specs.Readers.{count_at, small_count_at};
ghost use Rattle.cmc_cursor.specs.Seen.{shown_option};
ghost use Rattle.cmc_material.specs.Lists.{bounded_at, member_option, member_or};

use cmc_cursor::{BadField, at, count, small_count};
use cmc_meta::Texts;
use serde_json::Value;
use std::alloc::Global;

/// A whole number in these bounds, both included.
pub fn bounded(alloc: Global, value: &Value, least: u64, most: u64) -> Result<u64, BadField>
    ensures { Gives (λ t. t) result (bounded_at least most (view value.now)) }
{
    let number = count(alloc, value)?;
    if least <= number && number <= most {
        return Ok(number);
    }
    Err(BadField::Path(Texts::new(alloc)))
}

/// A member with a number in these bounds; where it is left out, `default`.
pub fn bounded_or(
    alloc: Global,
    name: &str,
    value: Option<&Value>,
    default: u64,
    least: u64,
    most: u64,
) -> Result<u64, BadField>
    ensures { Gives (λ t. t) result (member_or default name.now (bounded_at least most) (shown_option value.entry)) }
{
    match value {
        None => Ok(default),
        Some(value) => at(alloc, name, bounded(alloc, value, least, most)),
    }
}

/// A member with a number in these bounds, if it is there.
pub fn bounded_option(
    alloc: Global,
    name: &str,
    value: Option<&Value>,
    least: u64,
    most: u64,
) -> Result<Option<u64>, BadField>
    ensures { Gives (λ t. t) result (member_option name.now (bounded_at least most) (shown_option value.entry)) }
{
    match value {
        None => Ok(None),
        Some(value) => Ok(Some(at(alloc, name, bounded(alloc, value, least, most))?)),
    }
}

/// A member with a number, if it is there.
pub fn count_option(
    alloc: Global,
    name: &str,
    value: Option<&Value>,
) -> Result<Option<u64>, BadField>
    ensures { Gives (λ t. t) result (member_option name.now count_at (shown_option value.entry)) }
{
    match value {
        None => Ok(None),
        Some(value) => Ok(Some(at(alloc, name, count(alloc, value))?)),
    }
}

/// A member with a number that fits a `u32`, if it is there.
pub fn small_count_option(
    alloc: Global,
    name: &str,
    value: Option<&Value>,
) -> Result<Option<u32>, BadField>
    ensures { Gives (λ t. t) result (member_option name.now small_count_at (shown_option value.entry)) }
{
    match value {
        None => Ok(None),
        Some(value) => Ok(Some(at(alloc, name, small_count(alloc, value))?)),
    }
}
