//! The assertions of all tests, once: each names the row that does not pass.
use std::process::Abort;

/// The row passed.
pub(crate) fn passes(rt: &impl Abort, row: &str, passed: bool) {
    assert!(rt; passed, "{row}");
}

/// What is told of the row is what is wanted.
pub(crate) fn tells(rt: &impl Abort, row: &str, told: &str, want: &str) {
    assert!(rt; told == want, "{row}: {told}");
}

/// What is counted of the row is what is wanted.
pub(crate) fn counts(rt: &impl Abort, row: &str, count: u64, want: u64) {
    assert!(rt; count == want, "{row}: {count}");
}
