// The command line: which words are taken, and what `load` and `--summary` print. The rows come from the rules of the
// command line and of the generated scenario.
use crate::checks::passes;
use crate::status::Status;
use crate::tests::{run_with, web, words_of};
use crate::words::{Command, read_words};
use std::alloc::{AllocError, Global};
use std::process::Abort;
use std::sync::Wait;
use std::test::Fail;
use std::thread::Threads;

/// Words that are refused.
static REFUSED: [&str; 42] = [
    "",
    " ",
    "help",
    "Run",
    "--summary run",
    "run x",
    "run run",
    "run -x",
    "run --",
    "run -- --summary",
    "run --help",
    "run --summary --summary",
    "run --summary=1",
    "run --workers",
    "run --workers=",
    "run --workers ",
    "run --workers --summary",
    "run --workers 65",
    "run --workers -1",
    "run --workers ++1",
    "run --workers=1x",
    "run --workers 4294967296",
    "run --workers 18446744073709551617",
    "run --workers 1 --workers 1",
    "run --workers=1 --workers 2",
    "load",
    "load ",
    "load 0",
    "load 201",
    "load 1 2",
    "load -1",
    "load --workers 1",
    "load -- 1",
    "load 1 --summary --workers 65",
    "Audit",
    "audit ",
    "audit x",
    "audit --workers 1",
    "Collect",
    "collect ",
    "collect x",
    "collect --summary",
];

fn run_by(workers: u32, summary: bool) -> Option<Command> {
    Some(Command::Run { workers, summary })
}

fn load_by(count: u32, workers: u32, summary: bool) -> Option<Command> {
    Some(Command::Load {
        count,
        workers,
        summary,
    })
}

fn read_from(alloc: Global, text: &str) -> Result<Option<Command>, AllocError> {
    let words = words_of(alloc, text)?;
    Ok(read_words(words.as_slice()))
}

fn assert_refused(rt: &impl Abort, alloc: Global, rows: &[&str]) -> Result<(), AllocError> {
    for text in rows {
        passes(rt, text, read_from(alloc, *text)?.is_none());
    }
    Ok(())
}

/// Words that ask for this.
static RUNS: [(&str, u32, bool); 9] = [
    ("run", 4, false),
    ("run --summary", 4, true),
    ("run --summary --workers=+0", 0, true),
    ("run --workers 0 --summary", 0, true),
    ("run --workers 64", 64, false),
    ("run --workers=07", 7, false),
    ("run --workers +00000000000000000000001", 1, false),
    ("run --workers=00000000000000000000064", 64, false),
    ("run --workers 4 --summary", 4, true),
];

static LOADS: [(&str, u32, u32, bool); 6] = [
    ("load 1", 1, 4, false),
    ("load 200", 200, 4, false),
    ("load +07", 7, 4, false),
    ("load --summary 1 --workers 3", 1, 3, true),
    ("load --workers=3 0000200 --summary", 200, 3, true),
    ("load --workers 2 1", 1, 2, false),
];

fn assert_runs(
    rt: &impl Abort,
    alloc: Global,
    rows: &[(&str, u32, bool)],
) -> Result<(), AllocError> {
    for (text, workers, summary) in rows {
        let command = read_from(alloc, *text)?;
        passes(rt, text, command == run_by(*workers, *summary));
    }
    Ok(())
}

fn assert_loads(
    rt: &impl Abort,
    alloc: Global,
    rows: &[(&str, u32, u32, bool)],
) -> Result<(), AllocError> {
    for (text, count, workers, summary) in rows {
        let command = read_from(alloc, *text)?;
        passes(rt, text, command == load_by(*count, *workers, *summary));
    }
    Ok(())
}

#[test]
fn reads_the_command_line(rt: HostRuntime) -> Result<(), Fail> {
    assert_refused(&rt, rt.alloc(), &REFUSED)?;
    assert_runs(&rt, rt.alloc(), &RUNS)?;
    assert_loads(&rt, rt.alloc(), &LOADS)?;
    let command = read_from(rt.alloc(), "audit")?;
    passes(&rt, "audit", command == Some(Command::Audit));
    let command = read_from(rt.alloc(), "collect")?;
    passes(&rt, "collect", command == Some(Command::Collect));
    Ok(())
}

/// Words, and all that is written.
static WRITTEN: [(&str, &str); 6] = [
    (
        "load 20 --summary --workers 0",
        "{\"summary\":{\"certificates\":20,\"ready\":20,\"secrets\":20,\"waiting\":[]}}\n",
    ),
    (
        "load 20 --summary --workers 8",
        "{\"summary\":{\"certificates\":20,\"ready\":20,\"secrets\":20,\"waiting\":[]}}\n",
    ),
    (
        "load 200 --summary --workers 0",
        "{\"summary\":{\"certificates\":200,\"ready\":200,\"secrets\":200,\"waiting\":[]}}\n",
    ),
    (
        "load 200 --summary --workers 8",
        "{\"summary\":{\"certificates\":200,\"ready\":200,\"secrets\":200,\"waiting\":[]}}\n",
    ),
    (
        "load --workers=64 +01 --summary",
        "{\"summary\":{\"certificates\":1,\"ready\":1,\"secrets\":1,\"waiting\":[]}}\n",
    ),
    (
        "run --summary",
        "{\"summary\":{\"certificates\":1,\"ready\":0,\"secrets\":0,\"waiting\":[{\"certificate\":\"default/web\",\"wait\":\"stopped\"}]}}\n",
    ),
];

/// What `load` has to read fails at its first read.
fn failing_reads(words: &str) -> &'static [u64] {
    if words.starts_with("load") { &[1] } else { &[] }
}

/// The run with these words is done, and writes this.
fn is_written<R: Threads + Wait + Sync>(
    rt: &R,
    alloc: Global,
    input: &str,
    words: &str,
    want: &str,
) -> Result<bool, AllocError> {
    let failing = failing_reads(words);
    let ended = run_with(rt, alloc, words, input.as_bytes(), failing, &[])?;
    let is_done = matches!(ended.status, Status::Done);
    Ok(is_done && ended.written.as_slice() == want.as_bytes())
}

/// The scenario of one Certificate.
static LOAD_OF_ONE: &str =
    r#"{"scenario":{"events":2000,"script":[{"do":"apply","object":{"apiVersion":"cert-manager.io/v1","kind":"Certificate","metadata":{"name":"c0001","namespace":"load"},"spec":{"dnsNames":["c0001.example"],"issuerRef":{"name":"ca"},"privateKey":{"algorithm":"ECDSA"},"revisionHistoryLimit":1,"secretName":"c0001-tls"}}},{"do":"settle"},{"do":"tick","seconds":5184000},{"do":"settle"}]}}
{"is":"script","n":1,"step":1}
"#;

fn applying(alloc: Global) -> Result<String, AllocError> {
    let web = web();
    format!(in alloc; "{{\"roles\":[],\"script\":[{{\"do\":\"apply\",\"object\":{web}}}]}}")
}

#[test]
fn writes_loads_and_summaries(rt: HostRuntime) -> Result<(), Fail> {
    let alloc = rt.alloc();
    let input = applying(alloc)?;
    for (words, want) in &WRITTEN {
        let passed = is_written(&rt, alloc, input.as_str(), words, want)?;
        passes(&rt, words, passed);
    }
    Ok(())
}

/// The load of one Certificate, whose reads fail, begins so.
fn begins_so<R: Threads + Wait + Sync>(
    rt: &R,
    alloc: Global,
    want: &&str,
) -> Result<bool, AllocError> {
    let ended = run_with(rt, alloc, "load 1 --workers 0", b"", &[1], &[])?;
    let is_done = matches!(ended.status, Status::Done);
    Ok(is_done && ended.written.starts_with(want.as_bytes()))
}

/// The summary whose write fails is told so, and nothing is written.
fn fails_to_write<R: Threads + Wait + Sync>(rt: &R, alloc: Global) -> Result<bool, AllocError> {
    let ended = run_with(rt, alloc, "load 1 --summary", b"", &[], &[1])?;
    Ok(matches!(ended.status, Status::WriteFault) && ended.written.is_empty())
}

#[test]
fn writes_a_load(rt: HostRuntime) -> Result<(), Fail> {
    let begins = begins_so(&rt, rt.alloc(), &LOAD_OF_ONE)?;
    passes(&rt, "load of one", begins);
    let fails = fails_to_write(&rt, rt.alloc())?;
    passes(&rt, "no summary", fails);
    Ok(())
}
