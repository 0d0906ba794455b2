// Bytes as texts, the data of a Secret, and maps of texts.
ghost use Rattle.std.specs.Prelude.{◌≡◌, [], IfOk};
ghost use Rattle.base64.specs.Engines.{standard};
ghost use Rattle.base64.specs.GeneralPurpose.{decode_of, encode_of};
ghost use Rattle.serde_json.specs.Data.{string};
ghost use Rattle.serde_json.specs.View.{view, members_view};
ghost use Rattle.cmc_cursor.specs.Members.{Gives, under};
ghost use Rattle.cmc_cursor.specs.Readers.{decoded, bytes_at, text_at, parts_with, parts_at, pairs_with, pairs_at};

use crate::cursor::at;
use crate::error::BadField;
use crate::values::text;
use base64::DecodeAllocError;
use base64::engine::general_purpose::STANDARD;
use cmc_meta::{Bytes, Pairs, Text, Texts};
use cmc_objects::Parts;
use serde_json::{Map, Value};
use std::alloc::Global;

fn bytes_of(alloc: Global, text: &str) -> Result<Bytes, BadField>
    ensures value { Gives (λ t. t) result (decoded (decode_of standard text.now)) }
    ensures exact { IfOk result (λ b. text.now ≡ encode_of standard b) }
{
    match STANDARD.decode(alloc, text.as_bytes()) {
        Ok(items) => Ok(Bytes::from_slice(alloc, items.as_slice())?),
        Err(DecodeAllocError::DecodeError(_)) => Err(BadField::Path(Texts::new(alloc))),
        Err(DecodeAllocError::OutOfMemory) => Err(BadField::NoMemory),
    }
}

/// The bytes of a text in standard base64 (RFC 4648, section 4), strictly: with its padding, no
/// other characters, and zero bits at the end. So the bytes that are read are written as the same
/// text.
///
/// Fails at the value itself exactly where it is no such text.
pub fn bytes(alloc: Global, value: &Value) -> Result<Bytes, BadField>
    ensures value { Gives (λ t. t) result (bytes_at (view value.now)) }
    ensures exact { IfOk result (λ b. view value.now ≡ string (encode_of standard b)) }
{
    match value {
        Value::String(text) => bytes_of(alloc, text.as_str()),
        _ => Err(BadField::Path(Texts::new(alloc))),
    }
}

fn named_part(alloc: Global, name: &str, value: &Value) -> Result<Bytes, BadField>
    ensures { Gives (λ t. t) result (under name.now (bytes_at (view value.now))) }
{
    at(alloc, name, bytes(alloc, value))
}

fn parts_of(alloc: Global, members: &Map<String, Value>) -> Result<Parts, BadField>
    ensures { Gives (λ t. t) result (parts_with [] (members_view members.now.entries)) }
{
    let mut parts = Parts::new(alloc);
    for (name, member) in members.iter() {
        match named_part(alloc, name.as_str(), member) {
            Ok(bytes) => parts.set(Text::from_str(alloc, name.as_str())?, bytes)?,
            Err(error) => return Err(error),
        }
    }
    Ok(parts)
}

/// The data of a Secret: an object of names to bytes in standard base64.
///
/// Fails at the value itself where it is no object, and else at the first name, in byte order,
/// whose value is no such text.
pub fn parts(alloc: Global, value: &Value) -> Result<Parts, BadField>
    ensures { Gives (λ t. t) result (parts_at (view value.now)) }
{
    match value {
        Value::Object(members) => parts_of(alloc, members),
        _ => Err(BadField::Path(Texts::new(alloc))),
    }
}

fn named_text(alloc: Global, name: &str, value: &Value) -> Result<Text, BadField>
    ensures { Gives (λ t. t) result (under name.now (text_at (view value.now))) }
{
    at(alloc, name, text(alloc, value))
}

fn pairs_of(alloc: Global, members: &Map<String, Value>) -> Result<Pairs, BadField>
    ensures { Gives (λ t. t) result (pairs_with [] (members_view members.now.entries)) }
{
    let mut pairs = Pairs::new(alloc);
    for (name, member) in members.iter() {
        match named_text(alloc, name.as_str(), member) {
            Ok(text) => pairs.set(Text::from_str(alloc, name.as_str())?, text)?,
            Err(error) => return Err(error),
        }
    }
    Ok(pairs)
}

/// An object of texts under names, as labels and annotations are.
///
/// Fails at the value itself where it is no object, and else at the first name, in byte order,
/// whose value is no text.
pub fn pairs(alloc: Global, value: &Value) -> Result<Pairs, BadField>
    ensures { Gives (λ t. t) result (pairs_at (view value.now)) }
{
    match value {
        Value::Object(members) => pairs_of(alloc, members),
        _ => Err(BadField::Path(Texts::new(alloc))),
    }
}
