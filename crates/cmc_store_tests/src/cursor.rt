//! What no clause says: which texts are values of a type, as JSON writes them.
use crate::checks::tells;
use crate::json_texts::value;
use cmc_cursor::{BadField, flag, path_text, small_count, texts};
use serde_json::Value;
use std::alloc::{AllocError, Global};
use std::process::Abort;
use std::test::Fail;

/// Where a value fails.
pub(crate) fn path_told(alloc: Global, bad: BadField) -> Result<String, AllocError> {
    match bad {
        BadField::Path(path) => format!(in alloc; "at {}", path_text(alloc, &path)?.as_str()),
        BadField::NoMemory => Err(AllocError),
    }
}

/// What a reader says of a value: what it is, or where it fails.
fn told(alloc: Global, read: Result<String, BadField>) -> Result<String, AllocError> {
    match read {
        Ok(text) => Ok(text),
        Err(bad) => path_told(alloc, bad),
    }
}

fn flag_told(alloc: Global, value: &Value) -> Result<String, BadField> {
    match flag(alloc, value)? {
        true => Ok(String::from_str(alloc, "yes")?),
        false => Ok(String::from_str(alloc, "no")?),
    }
}

fn count_told(alloc: Global, value: &Value) -> Result<String, BadField> {
    let number = small_count(alloc, value)?;
    Ok(format!(in alloc; "{number}")?)
}

fn texts_told(alloc: Global, value: &Value) -> Result<String, BadField> {
    let texts = texts(alloc, value)?;
    let mut told = String::new(alloc);
    for text in texts.as_slice() {
        told.push_str(text.as_str())?;
        told.push_str(";")?;
    }
    Ok(told)
}

/// A value, and what it is as a flag, as a count and as a list of texts.
type Row = (&'static str, &'static str, &'static str, &'static str);

static VALUES: [Row; 7] = [
    ("true", "yes", "at ", "at "),
    ("false", "no", "at ", "at "),
    ("4294967295", "at ", "4294967295", "at "),
    ("4294967296", "at ", "at ", "at "),
    ("-1", "at ", "at ", "at "),
    (r#"["a","b"]"#, "at ", "at ", "a;b;"),
    (r#"["a",1]"#, "at ", "at ", "at 1"),
];

/// What the reader of this word makes of the value.
fn read_as(alloc: Global, reader: &str, value: &Value) -> Result<String, BadField> {
    match reader {
        "flag" => flag_told(alloc, value),
        "count" => count_told(alloc, value),
        _ => texts_told(alloc, value),
    }
}

/// The reader says of the value of the row what is wanted.
fn reads(
    rt: &impl Abort,
    alloc: Global,
    row: &str,
    reader: &str,
    value: &Value,
    want: &str,
) -> Result<(), Fail> {
    let told = told(alloc, read_as(alloc, reader, value))?;
    tells(rt, row, told.as_str(), want);
    Ok(())
}

fn reads_row(rt: &impl Abort, alloc: Global, row: &Row, value: &Value) -> Result<(), Fail> {
    let (text, as_flag, as_count, as_texts) = *row;
    reads(rt, alloc, text, "flag", value, as_flag)?;
    reads(rt, alloc, text, "count", value, as_count)?;
    reads(rt, alloc, text, "texts", value, as_texts)
}

#[test]
fn reads_single_values(rt: HostRuntime) -> Result<(), Fail> {
    let alloc = rt.alloc();
    for row in &VALUES {
        let value = value(alloc, row.0)?;
        reads_row(&rt, alloc, row, &value)?;
    }
    Ok(())
}
