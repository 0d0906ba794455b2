// The audit of histories that a run prints, as they are and with one line changed. Verdicts come from the rules of the
// clauses.
use crate::checks::{passes, tells};
use crate::status::{Status, failing_line, message};
use crate::tests::{Ended, line_count, run_on, run_with, web};
use crate::tests_of_rows::filled;
use std::alloc::{AllocError, Global};
use std::process::Abort;
use std::sync::Wait;
use std::test::Fail;
use std::thread::Threads;

/// What `audit` writes of the text.
fn audited<R: Threads + Wait + Sync>(
    rt: &R,
    alloc: Global,
    text: &[u8],
) -> Result<Ended, AllocError> {
    run_with(rt, alloc, "audit", text, &[], &[])
}

/// The audit of the history says yes, with the number of its entries: there is a line for each, one for the scenario and one
/// for the summary.
pub(crate) fn is_audited_yes<R: Threads + Wait + Sync>(
    rt: &R,
    alloc: Global,
    history: &[u8],
) -> Result<bool, AllocError> {
    let entries = line_count(history).saturating_sub(2);
    let want = format!(in alloc; "{{\"audit\":{{\"entries\":{entries},\"yes\":true}}}}\n")?;
    let ended = audited(rt, alloc, history)?;
    Ok(matches!(ended.status, Status::Done) && ended.written.as_slice() == want.as_bytes())
}

/// Two applies of one Certificate with no role: four entries.
const TWICE: &str =
    r#"{"roles":[],"script":[{"do":"apply","object":@},{"do":"apply","object":@}]}"#;

/// Pieces of the history of `TWICE`, what stands in their place, and what its audit writes.
static CHANGED: [(&str, &str, &str); 8] = [
    (
        "\"scenario\"",
        "\"scenario\"",
        r#"{"audit":{"entries":4,"yes":true}}"#,
    ),
    (
        r#"{"unchanged":1}"#,
        r#"{"ok":2}"#,
        r#"{"audit":{"clause":"reply","entry":4,"yes":false}}"#,
    ),
    (
        r#""ready":0"#,
        r#""ready":1"#,
        r#"{"audit":{"clause":"counts","entry":5,"yes":false}}"#,
    ),
    (
        r#""certificates":1"#,
        r#""certificates":0"#,
        r#"{"audit":{"clause":"counts","entry":5,"yes":false}}"#,
    ),
    (
        r#""secrets":0"#,
        r#""secrets":1"#,
        r#"{"audit":{"clause":"counts","entry":5,"yes":false}}"#,
    ),
    // (a pass that never began calls)
    (
        r#"{"name":"web","ok":1},"who":"user"}"#,
        r#"{"name":"web","ok":1},"who":1}"#,
        r#"{"audit":{"clause":"place","entry":2,"yes":false}}"#,
    ),
    // (the clock stands still)
    (
        r#"{"is":"script","n":1,"step":1}"#,
        r#"{"is":"tick","n":1,"now":"2030-01-01T00:00:00Z"}"#,
        r#"{"audit":{"clause":"place","entry":1,"yes":false}}"#,
    ),
    // (a role is told of what was not written yet)
    (
        r#"{"is":"script","n":1,"step":1}"#,
        r#"{"is":"deliver","kind":"Certificate","n":1,"role":"trigger","to":1}"#,
        r#"{"audit":{"clause":"place","entry":1,"yes":false}}"#,
    ),
];

/// Texts that are no history, and the line of each that fails first.
static NO_HISTORY: [(&str, u64); 4] = [
    ("", 1),
    ("{}\n", 1),
    ("{\"scenario\":{}}\n", 2),
    ("{\"scenario\":{\"a\":1}}\n", 1),
];

/// The history of the scenario, with the first such piece exchanged.
fn changed<R: Threads + Wait + Sync>(
    rt: &R,
    alloc: Global,
    scenario: &str,
    piece: &str,
    other: &str,
) -> Result<String, AllocError> {
    let input = scenario.replace(alloc, "@", web())?;
    let ended = run_on(rt, alloc, input.as_str())?;
    let written = str::from_utf8(ended.written.as_slice()).unwrap_or("");
    written.replacen(alloc, piece, other, 1)
}

fn is_said<R: Abort + Threads + Wait + Sync>(
    rt: &R,
    alloc: Global,
    row: (&str, &str, &str),
) -> Result<(), AllocError> {
    let (piece, other, want) = row;
    let history = changed(rt, alloc, TWICE, piece, other)?;
    let ended = audited(rt, alloc, history.as_bytes())?;
    let written = str::from_utf8(ended.written.as_slice()).unwrap_or("");
    tells(rt, other, written.trim_end(), want);
    Ok(())
}

#[test]
fn audits_a_history_with_one_line_changed(rt: HostRuntime) -> Result<(), Fail> {
    for row in &CHANGED {
        is_said(&rt, rt.alloc(), *row)?;
    }
    Ok(())
}

/// The place of the first line after that place which has the piece.
fn line_behind(written: &str, behind: usize, piece: &str) -> usize {
    let found = written
        .lines()
        .enumerate()
        .find(|(place, line)| *place > behind && line.contains(piece));
    match found {
        Some((place, _)) => place,
        None => 0,
    }
}

/// The text with another line in that place.
fn with_line(alloc: Global, written: &str, place: usize, line: &str) -> Result<String, AllocError> {
    let mut text = String::new(alloc);
    for (at, old) in written.lines().enumerate() {
        text.push_str(if at == place { line } else { old })?;
        text.push_str("\n")?;
    }
    Ok(text)
}

/// The history with a tick in place of the line that approves the request, and what its audit writes: the roles are told of a
/// write that is missing.
fn without_approval(alloc: Global, written: &str) -> Result<(String, String), AllocError> {
    let place = line_behind(written, 0, "\"reply\":{\"ok\":8}");
    let tick = format!(in alloc;
        "{{\"is\":\"tick\",\"n\":{place},\"now\":\"2030-01-01T00:00:01Z\"}}"
    )?;
    let told = line_behind(written, place, "\"is\":\"deliver\"");
    let want = format!(in alloc;
        "{{\"audit\":{{\"clause\":\"place\",\"entry\":{told},\"yes\":false}}}}\n"
    )?;
    Ok((with_line(alloc, written, place, tick.as_str())?, want))
}

/// An issuer that others answer for, and a request that a user approves.
const APPROVED: &str =
    r#"{"script":[OTHER,SETTLE,{"certificate":"default/web","do":"answer","revision":1,"row":{"reply":"issue"}},SETTLE,APPROVE,SETTLE]}"#;

#[test]
fn audits_a_history_without_its_approval(rt: HostRuntime) -> Result<(), Fail> {
    let alloc = rt.alloc();
    let input = filled(alloc, APPROVED)?;
    let ended = run_on(&rt, alloc, input.as_str())?;
    let written = str::from_utf8(ended.written.as_slice()).unwrap_or("");
    let (history, want) = without_approval(alloc, written)?;
    let ended = audited(&rt, alloc, history.as_bytes())?;
    let written = str::from_utf8(ended.written.as_slice()).unwrap_or("");
    tells(&rt, "no approval", written, want.as_str());
    Ok(())
}

fn is_no_history<R: Abort + Threads + Wait + Sync>(
    rt: &R,
    alloc: Global,
    text: &str,
    line: u64,
) -> Result<(), AllocError> {
    let ended = audited(rt, alloc, text.as_bytes())?;
    passes(rt, text, failing_line(&ended.status) == Some(line));
    tells(rt, text, message(&ended.status), "bad history at line ");
    passes(rt, text, ended.written.is_empty());
    Ok(())
}

#[test]
fn says_where_a_text_is_no_history(rt: HostRuntime) -> Result<(), Fail> {
    for (text, line) in &NO_HISTORY {
        is_no_history(&rt, rt.alloc(), text, *line)?;
    }
    Ok(())
}
