// Single values.
ghost use Rattle.std.specs.Prelude.{◌≡◌, decimal};
ghost use Rattle.serde_json.specs.View.{view, items_view};
ghost use Rattle.cmc_cursor.specs.Members.{Gives, under};
ghost use Rattle.cmc_cursor.specs.Readers.{text_at, word_at, flag_at, count_at, small_count_at, texts_at, texts_from};

use crate::cursor::at_place;
use crate::error::BadField;
use cmc_meta::{Text, Texts};
use serde_json::Value;
use std::alloc::Global;

/// A text.
pub fn text(alloc: Global, value: &Value) -> Result<Text, BadField>
    ensures { Gives (λ t. t) result (text_at (view value.now)) }
{
    match value.as_str() {
        Some(text) => Ok(Text::from_str(alloc, text)?),
        None => Err(BadField::Path(Texts::new(alloc))),
    }
}

/// A text that has to be `word`.
pub fn word(alloc: Global, value: &Value, word: &str) -> Result<(), BadField>
    ensures { Gives (λ t. t) result (word_at word.now (view value.now)) }
{
    match value.as_str() {
        Some(found) if found == word => Ok(()),
        _ => Err(BadField::Path(Texts::new(alloc))),
    }
}

/// A truth value.
pub fn flag(alloc: Global, value: &Value) -> Result<bool, BadField>
    ensures { Gives (λ t. t) result (flag_at (view value.now)) }
{
    match value.as_bool() {
        Some(flag) => Ok(flag),
        None => Err(BadField::Path(Texts::new(alloc))),
    }
}

/// A whole number that fits a `u64`.
pub fn count(alloc: Global, value: &Value) -> Result<u64, BadField>
    ensures { Gives (λ t. t) result (count_at (view value.now)) }
{
    match value.as_u64() {
        Some(number) => Ok(number),
        None => Err(BadField::Path(Texts::new(alloc))),
    }
}

/// A whole number that fits a `u32`.
pub fn small_count(alloc: Global, value: &Value) -> Result<u32, BadField>
    ensures { Gives (λ t. t) result (small_count_at (view value.now)) }
{
    let number = count(alloc, value)?;
    if number < 1 << 32 {
        return Ok(number as u32);
    }
    Err(BadField::Path(Texts::new(alloc)))
}

fn text_in_list(alloc: Global, place: usize, value: &Value) -> Result<Text, BadField>
    ensures { Gives (λ t. t) result (under (decimal place) (text_at (view value.now))) }
{
    at_place(alloc, place, text(alloc, value))
}

/// A list of texts.
pub fn texts(alloc: Global, value: &Value) -> Result<Texts, BadField>
    ensures { Gives (λ t. t) result (texts_at (view value.now)) }
{
    match value {
        Value::Array(items) => texts_of(alloc, items.as_slice()),
        _ => Err(BadField::Path(Texts::new(alloc))),
    }
}

fn texts_of(alloc: Global, items: &[Value]) -> Result<Texts, BadField>
    ensures { Gives (λ t. t) result (texts_from 0 (items_view items.now)) }
{
    let mut texts = Texts::new(alloc);
    for (place, item) in items.iter().enumerate() {
        match text_in_list(alloc, place, item) {
            Ok(text) => texts.push(text)?,
            Err(error) => return Err(error),
        }
    }
    Ok(texts)
}
