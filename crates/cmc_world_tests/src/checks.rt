//! The assertions of all tests, once: each names the row that does not pass.
use std::process::Abort;
use std::test::Fail;

/// The row passed.
pub(crate) fn passes(rt: &impl Abort, row: &str, passed: bool) {
    assert!(rt; passed, "{row}");
}

/// What is told of the row is what is wanted.
pub(crate) fn tells(rt: &impl Abort, row: &str, told: &str, want: &str) {
    assert!(rt; told == want, "{row}: {told}");
}

/// The text that is told of the row is what is wanted.
pub(crate) fn tells_text(
    rt: &impl Abort,
    row: &str,
    told: Result<String, Fail>,
    want: &str,
) -> Result<(), Fail> {
    let told = told?;
    tells(rt, row, told.as_str(), want);
    Ok(())
}

/// The row of this number passed in this.
pub(crate) fn passes_at(rt: &impl Abort, number: usize, part: &str, passed: bool) {
    assert!(rt; passed, "row {number}: {part}");
}

/// The text that is told of the row of this number is what is wanted.
pub(crate) fn tells_at(
    rt: &impl Abort,
    number: usize,
    told: Result<String, Fail>,
    want: &str,
) -> Result<(), Fail> {
    let told = told?;
    passes_at(rt, number, told.as_str(), told.as_str() == want);
    Ok(())
}
