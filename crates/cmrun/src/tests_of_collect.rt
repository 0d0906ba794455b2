// Owner collection through the command: what is printed of it, and how it ends. The rows come from the rules of the
// collector and of its input.
use crate::checks::{passes, tells};
use crate::tests::{end_told, run_with};
use crate::tests_of_rows::has_pieces;
use std::alloc::{AllocError, Global};
use std::process::Abort;
use std::str;
use std::sync::Wait;
use std::test::Fail;
use std::thread::Threads;

/// What stands for what in the inputs: Secrets that are applied, `b` without owners, with one, and with one of a uid that was not given
/// out; and other steps.
static STAND_INS: [(&str, &str); 8] = [
    (
        "@a",
        r#"{"do":"apply","object":{"apiVersion":"v1","kind":"Secret","metadata":{"name":"a"}}}"#,
    ),
    (
        "@b",
        r#"{"do":"apply","object":{"apiVersion":"v1","kind":"Secret","metadata":{"name":"b"}}}"#,
    ),
    (
        "@o",
        r#"{"do":"apply","object":{"apiVersion":"v1","kind":"Secret","metadata":{"name":"b","ownerReferences":[{"kind":"Secret","name":"a","uid":"uid-1"}]}}}"#,
    ),
    (
        "@u",
        r#"{"do":"apply","object":{"apiVersion":"v1","kind":"Secret","metadata":{"name":"b","ownerReferences":[{"kind":"Secret","name":"a","uid":"uid-9"}]}}}"#,
    ),
    ("@d", r#"{"do":"delete","key":"Secret/default/a"}"#),
    ("@3", r#"{"do":"deliver","kind":"Secret","to":3}"#),
    ("@x", r#"{"do":"examine","key":"Secret/default/b"}"#),
    ("@s", r#"{"do":"settle"}"#),
];

/// Inputs, and pieces of what is printed, as `has_pieces` has them.
static PRINTED: [(&str, &str); 8] = [
    (
        r#"{"script":[@a,@o,@d,@s]}"#,
        r#""n":3,"reply":{"ok":3},"who":"user"} .. {"is":"deliver","kind":"Secret","n":4,"to":3} .. {"call":"get","is":"call","key":"Secret/default/a","n":5,"reply":{"notFound":3},"who":"collector"} .. {"call":"delete","is":"call","key":"Secret/default/b","n":6,"reply":{"ok":4},"version":2,"who":"collector"} .. {"is":"deliver","kind":"Secret","n":7,"to":4} .. {"collect":{"deleted":1,"objects":0}}"#,
    ),
    (
        r#"{"script":[@a,@o,@d,@3,@b,@x,@x]}"#,
        r#""reply":{"ok":4},"version":2,"who":"user"} .. "key":"Secret/default/a","n":6,"reply":{"notFound":4},"who":"collector"} .. {"call":"delete","is":"call","key":"Secret/default/b","n":7,"reply":{"conflict":{"have":4,"named":2}},"version":2,"who":"collector"} .. {"collect":{"deleted":0,"objects":1}}"#,
    ),
    (
        r#"{"script":[@a,@o,@d,@a,@s]}"#,
        r#""key":"Secret/default/a","n":6,"reply":{"found":4},"who":"collector"} .. "key":"Secret/default/b","n":7,"reply":{"ok":5},"version":2,"who":"collector"} .. {"collect":{"deleted":1,"objects":1}}"#,
    ),
    (
        r#"{"script":[@u,@s,@x]}"#,
        r#"{"is":"deliver","kind":"Secret","n":2,"to":1} .. !collector .. {"collect":{"deleted":0,"objects":1}}"#,
    ),
    (
        r#"{"faults":[4],"script":[@a,@o,@d,@s]}"#,
        r#""reply":{"unavailable":4},"who":"collector"} .. "reply":{"notFound":3},"who":"collector"} .. "reply":{"ok":4},"version":2,"who":"collector"} .. {"collect":{"deleted":1,"objects":0}}"#,
    ),
    (
        r#"{"script":[@a,@a],"window":1}"#,
        r#""reply":{"unchanged":1},"version":1,"who":"user"} .. {"collect":{"deleted":0,"objects":1}}"#,
    ),
    (
        r#"{"script":[@a,@o,@d,@s],"window":1}"#,
        r#"{"is":"list","kind":"Secret","n":4,"to":3} .. {"collect":{"deleted":1,"objects":0}}"#,
    ),
    (
        r#"{"now":"2040-01-01T00:00:00Z","script":[{"do":"tick","seconds":60},@a]}"#,
        r#"{"scenario":{"now":"2040-01-01T00:00:00Z" .. "n":1,"object":{"apiVersion":"v1","kind":"Secret","metadata":{"name":"a","namespace":"default"},"type":"Opaque"},"reply":{"name":"a","ok":1},"who":"user"} .. {"collect":{"deleted":0,"objects":1}}"#,
    ),
];

/// Inputs, and how they end: at which path they fail, or in words.
static ENDS: [(&str, &str); 18] = [
    ("{}", "done"),
    ("[]", ""),
    (r#"{"roles":[]}"#, "roles"),
    (r#"{"window":0}"#, "window"),
    (r#"{"script":[{"DO":"settle"}]}"#, "script.0.DO"),
    (r#"{"script":[{}]}"#, "script.0.do"),
    (r#"{"script":[{"behind":1,"do":"x"}]}"#, "script.0.behind"),
    (
        r#"{"script":[{"do":"stop","role":"trigger"}]}"#,
        "script.0.do",
    ),
    (
        r#"{"script":[{"do":"deliver","kind":"Pod","to":1}]}"#,
        "script.0.kind",
    ),
    (
        r#"{"script":[{"do":"deliver","kind":"Secret"}]}"#,
        "script.0.to",
    ),
    (
        r#"{"script":[{"do":"examine","key":"Secret/a"}]}"#,
        "script.0.key",
    ),
    (r#"{"script":[{"do":"settle","x":1}]}"#, "script.0.x"),
    (
        r#"{"script":[@s,{"do":"tick","seconds":0}]}"#,
        "script.1.seconds",
    ),
    (
        r#"{"now":"9900-01-01T00:00:00Z","script":[@s,{"do":"tick","seconds":1}]}"#,
        "script.1",
    ),
    (r#"{"events":1.5}"#, "events"),
    (r#"{"events":1,"script":[@a,@a]}"#, "full"),
    (r#"{"events":3,"script":[@a,@o,@d,@x,@s]}"#, "full"),
    ("{", "not JSON"),
];

fn filled(alloc: Global, row: &str) -> Result<String, AllocError> {
    let mut text = String::from_str(alloc, row)?;
    for (name, step) in &STAND_INS {
        text = text.as_str().replace(alloc, name, step)?;
    }
    Ok(text)
}

fn prints<R: Abort + Threads + Wait + Sync>(
    rt: &R,
    alloc: Global,
    row: &str,
    pieces: &str,
) -> Result<(), AllocError> {
    let input = filled(alloc, row)?;
    let ended = run_with(rt, alloc, "collect", input.as_bytes(), &[], &[])?;
    let written = str::from_utf8(ended.written.as_slice()).unwrap_or("");
    passes(rt, row, has_pieces(written, pieces));
    Ok(())
}

fn ends<R: Abort + Threads + Wait + Sync>(
    rt: &R,
    alloc: Global,
    row: &str,
    end: &str,
) -> Result<(), AllocError> {
    let input = filled(alloc, row)?;
    let ended = run_with(rt, alloc, "collect", input.as_bytes(), &[], &[])?;
    tells(rt, row, end_told(&ended.status), end);
    Ok(())
}

#[test]
fn prints_what_is_collected(rt: HostRuntime) -> Result<(), Fail> {
    for (row, pieces) in &PRINTED {
        prints(&rt, rt.alloc(), row, pieces)?;
    }
    Ok(())
}

#[test]
fn ends_collections_so(rt: HostRuntime) -> Result<(), Fail> {
    for (row, end) in &ENDS {
        ends(&rt, rt.alloc(), row, end)?;
    }
    Ok(())
}
