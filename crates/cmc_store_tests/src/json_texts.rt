//! Texts in JSON, as all tests of readers take them.
use serde_json::Value;
use std::alloc::Global;
use std::test::Fail;

pub(crate) fn value(alloc: Global, text: &str) -> Result<Value, Fail> {
    match Value::from_str(alloc, text) {
        Ok(value) => Ok(value),
        Err(_) => Err(Fail::from("no JSON")),
    }
}

/// The text between what stands before it and after it.
pub(crate) fn between(
    alloc: Global,
    before: &str,
    text: &str,
    after: &str,
) -> Result<String, Fail> {
    let mut whole = String::from_str(alloc, before)?;
    whole.push_str(text)?;
    whole.push_str(after)?;
    Ok(whole)
}
