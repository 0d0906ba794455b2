// Texts of a certain form.
ghost use Rattle.std.specs.Prelude.{◌≡◌};
ghost use Rattle.serde_json.specs.View.{view};
ghost use Rattle.cmc_cursor.specs.Members.{Gives};
ghost use Rattle.cmc_cursor.specs.Readers.{short_text_at, printable_at, name_in, name_at, decimal_in, decimal_at};

use crate::error::BadField;
use cmc_meta::{BadName, Name, Text, Texts, is_printable_name, number_in};
use serde_json::Value;
use std::alloc::Global;

/// A text of at most `most` bytes.
pub fn short_text(alloc: Global, value: &Value, most: usize) -> Result<Text, BadField>
    ensures { Gives (λ t. t) result (short_text_at most (view value.now)) }
{
    match value.as_str() {
        Some(text) if text.len() <= most => Ok(Text::from_str(alloc, text)?),
        _ => Err(BadField::Path(Texts::new(alloc))),
    }
}

/// A text of 1 to 253 printable characters of ASCII, the blank included.
pub fn printable(alloc: Global, value: &Value) -> Result<Text, BadField>
    ensures { Gives (λ t. t) result (printable_at (view value.now)) }
{
    match value.as_str() {
        Some(text) if is_printable_name(text) => Ok(Text::from_str(alloc, text)?),
        _ => Err(BadField::Path(Texts::new(alloc))),
    }
}

/// The name that a text spells.
pub fn name_of(alloc: Global, text: &str) -> Result<Name, BadField>
    ensures { Gives (λ t. t) result (name_in text.now) }
{
    match Name::read(alloc, text) {
        Ok(name) => Ok(name),
        Err(BadName::NotSubdomain) => Err(BadField::Path(Texts::new(alloc))),
        Err(BadName::NoMemory) => Err(BadField::NoMemory),
    }
}

/// The name of an object or a namespace.
pub fn name(alloc: Global, value: &Value) -> Result<Name, BadField>
    ensures { Gives (λ t. t) result (name_at (view value.now)) }
{
    match value.as_str() {
        Some(text) => name_of(alloc, text),
        None => Err(BadField::Path(Texts::new(alloc))),
    }
}

fn decimal_of(alloc: Global, text: &str) -> Result<u64, BadField>
    ensures { Gives (λ t. t) result (decimal_in text.now) }
{
    match number_in(text) {
        Some(number) => Ok(number),
        None => Err(BadField::Path(Texts::new(alloc))),
    }
}

/// A number of 0 to 2^64 - 1 written as a decimal text without sign or leading zero, as resource
/// versions are (Kubernetes API conventions have them as texts).
pub fn decimal(alloc: Global, value: &Value) -> Result<u64, BadField>
    ensures { Gives (λ t. t) result (decimal_at (view value.now)) }
{
    match value.as_str() {
        Some(text) => decimal_of(alloc, text),
        None => Err(BadField::Path(Texts::new(alloc))),
    }
}
