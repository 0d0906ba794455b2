// Hostile use of the whole program: cut and malicious input, reads, writes and calls that fail, sinks that are full, and
// material that is no key and no certificate. What is expected comes from the table of replies and the form of scenarios.
use crate::checks::passes_at;
use crate::status::{Status, failing_path, message};
use crate::tests::{is_first_lines, line_count, run_into, run_on, run_with, web};
use crate::tests_of_rows::{BACKOFF, READY};
use std::alloc::{AllocError, Global};
use std::process::Abort;
use std::sync::Wait;
use std::test::Fail;
use std::thread::Threads;

/// A scenario in which a Certificate is issued: `FAULTS` stands for members in front, `ROWS` for its material.
static ISSUANCE: &str =
    r#"{FAULTS"material":{"default/web":{ROWS}},"script":[{"do":"apply","object":@}]}"#;

fn issuance(alloc: Global, faults: &str, rows: &str) -> Result<String, AllocError> {
    let text = ISSUANCE.replace(alloc, "FAULTS", faults)?;
    let text = text.as_str().replace(alloc, "ROWS", rows)?;
    text.as_str().replace(alloc, "@", web())
}

/// The scenario whose run every reader of these tests knows: 13 calls, 12 writes, and one Secret at the end.
fn first(alloc: Global) -> Result<String, AllocError> {
    issuance(alloc, "", r#""keys":[{"synthetic":1}]"#)
}

/// How many lines of the text have this piece.
fn count_of(text: &str, piece: &str) -> usize {
    text.lines().filter(|line| line.contains(piece)).count()
}

/// The run is refused as no JSON, and writes nothing.
fn is_no_json<R: Threads + Wait + Sync>(
    rt: &R,
    alloc: Global,
    input: &[u8],
) -> Result<bool, AllocError> {
    let ended = run_with(rt, alloc, "run --workers 0", input, &[], &[])?;
    Ok(matches!(ended.status, Status::NotJson) && ended.written.is_empty())
}

#[test]
fn takes_no_first_part_for_the_whole(rt: HostRuntime) -> Result<(), Fail> {
    let alloc = rt.alloc();
    let input = first(alloc)?;
    let bytes = input.as_bytes();
    for count in 0..bytes.len() {
        passes_at(
            &rt,
            "octets",
            count as u64,
            is_no_json(&rt, alloc, &bytes[..count])?,
        );
    }
    Ok(())
}

/// How a run that writes nothing ends, as the line on standard error says it.
fn told<R: Threads + Wait + Sync>(
    rt: &R,
    alloc: Global,
    input: &str,
) -> Result<String, AllocError> {
    let ended = run_on(rt, alloc, input)?;
    if !ended.written.is_empty() {
        return String::from_str(alloc, "something is written");
    }
    format!(in alloc; "{}{}", message(&ended.status), failing_path(&ended.status))
}

/// Inputs and how they are refused. `@` stands for the Certificate with other names, and `(` and
/// `)` for 127 brackets.
static REFUSED: [(&str, &str); 20] = [
    ("(", "not JSON"),
    ("()", "bad scenario at "),
    ("[()]", "not JSON"),
    ("[()", "not JSON"),
    (r#"{"events":0}"#, "bad scenario at events"),
    (r#"{"events":1.5}"#, "bad scenario at events"),
    (r#"{"events":250001}"#, "bad scenario at events"),
    (r#"{"events":1e3}"#, "bad scenario at events"),
    (r#"{"events":-1}"#, "bad scenario at events"),
    (
        r#"{"events":1234567890123456789012345678901234567890}"#,
        "bad scenario at events",
    ),
    (
        r#"{"events":18446744073709551617}"#,
        "bad scenario at events",
    ),
    (r#"{"window":0}"#, "bad scenario at window"),
    (r#"{"window":250001}"#, "bad scenario at window"),
    (r#"{"faults":[1,3,3]}"#, "bad scenario at faults.2"),
    (r#"{"faults":[0]}"#, "bad scenario at faults.0"),
    (
        r#"{"script":[{"do":"stop","role":"issuer"},{"do":"stop","role":"issuer"}]}"#,
        "bad scenario at script.1",
    ),
    (
        r#"{"script":[{"behind":0,"do":"start","role":"issuer"}]}"#,
        "bad scenario at script.0",
    ),
    (
        r#"{"script":[{"do":"hold","kind":"Secret","role":"approver"}]}"#,
        "bad scenario at script.0",
    ),
    (
        r#"{"script":[{"do":"apply","object":@}]}"#,
        "bad scenario at script.0.object.spec.otherNames",
    ),
    (
        r#"{"material":{"default/web":{"keys":[{"der":"AAA"}]}},"script":[]}"#,
        "bad scenario at material.default/web.keys.0.der",
    ),
];

/// As many brackets as values may lie in one another.
static OPEN: &str =
    "[[[[[[[[[[[[[[[[[[[[[[[[[[[[[[[[[[[[[[[[[[[[[[[[[[[[[[[[[[[[[[[[[[[[[[[[[[[[[[[[[[[[[[[[[[[[[[[[[[[[[[[[[[[[[[[[[[[[[[[[[[[[[[[";

static CLOSED: &str =
    "]]]]]]]]]]]]]]]]]]]]]]]]]]]]]]]]]]]]]]]]]]]]]]]]]]]]]]]]]]]]]]]]]]]]]]]]]]]]]]]]]]]]]]]]]]]]]]]]]]]]]]]]]]]]]]]]]]]]]]]]]]]]]]]";

/// The Certificate with a member that its spec does not have.
fn with_other_names(alloc: Global) -> Result<String, AllocError> {
    web().replace(alloc, "\"dnsNames\"", "\"otherNames\":[],\"dnsNames\"")
}

/// The text with what its stand-ins stand for.
fn filled(alloc: Global, text: &str) -> Result<String, AllocError> {
    let other = with_other_names(alloc)?;
    let text = text.replace(alloc, "(", OPEN)?;
    let text = text.as_str().replace(alloc, ")", CLOSED)?;
    text.as_str().replace(alloc, "@", other.as_str())
}

fn is_refused<R: Threads + Wait + Sync>(
    rt: &R,
    alloc: Global,
    input: &str,
    want: &str,
) -> Result<bool, AllocError> {
    let input = filled(alloc, input)?;
    Ok(told(rt, alloc, input.as_str())?.as_str() == want)
}

#[test]
fn refuses_at_the_path(rt: HostRuntime) -> Result<(), Fail> {
    let alloc = rt.alloc();
    for (input, want) in &REFUSED {
        passes_at(&rt, input, 0, is_refused(&rt, alloc, input, want)?);
    }
    Ok(())
}

/// The scenario that every reader of these tests knows, with room for so many entries.
fn with_room(alloc: Global, entries: usize) -> Result<String, AllocError> {
    let room = format!(in alloc; "\"events\":{entries},")?;
    issuance(alloc, room.as_str(), r#""keys":[{"synthetic":1}]"#)
}

/// Whether the run that has room for so many entries is finished, and has as many.
fn fits<R: Threads + Wait + Sync>(
    rt: &R,
    alloc: Global,
    entries: usize,
) -> Result<bool, AllocError> {
    let input = with_room(alloc, entries)?;
    let ended = run_on(rt, alloc, input.as_str())?;
    let is_done = matches!(ended.status, Status::Done);
    // The scenario and the summary are the other two lines.
    Ok(is_done && line_count(ended.written.as_slice()) == entries.saturating_add(2))
}

/// Whether the run with these words comes to a full history, and writes nothing.
fn is_spent<R: Threads + Wait + Sync>(
    rt: &R,
    alloc: Global,
    words: &str,
    input: &str,
) -> Result<bool, AllocError> {
    let ended = run_with(rt, alloc, words, input.as_bytes(), &[], &[])?;
    Ok(matches!(ended.status, Status::Spent) && ended.written.is_empty())
}

/// A trigger that never sees the Secret asks for an issuance again and again.
static ENDLESS: &str =
    r#"{"events":2000,"script":[{"do":"hold","kind":"Secret","role":"trigger"},{"do":"apply","object":@}]}"#;

fn endless(alloc: Global) -> Result<String, AllocError> {
    ENDLESS.replace(alloc, "@", web())
}

/// By one hand and by threads.
static HANDS: [&str; 3] = ["run --workers 0", "run --workers 1", "run --summary"];

#[test]
fn ends_where_the_history_is_full(rt: HostRuntime) -> Result<(), Fail> {
    let alloc = rt.alloc();
    let whole = run_on(&rt, alloc, first(alloc)?.as_str())?.written;
    let entries = line_count(whole.as_slice()).saturating_sub(2);
    passes_at(&rt, "room for", entries as u64, fits(&rt, alloc, entries)?);
    let short = with_room(alloc, entries.saturating_sub(1))?;
    let endless = endless(alloc)?;
    for words in &HANDS {
        let passed = is_spent(&rt, alloc, words, short.as_str())?;
        passes_at(&rt, words, 0, passed);
        let passed = is_spent(&rt, alloc, words, endless.as_str())?;
        passes_at(&rt, words, 2000, passed);
    }
    Ok(())
}

/// So many blanks after the scenario, and a read of its run that fails.
static READS: [(usize, u64); 6] = [
    (0, 1),
    (0, 2),
    (10_000, 1),
    (10_000, 2),
    (10_000, 3),
    (10_000, 4),
];

/// The scenario with so many blanks after it, which is the same scenario.
fn with_blanks(alloc: Global, count: usize) -> Result<Vec<u8>, AllocError> {
    let input = first(alloc)?;
    let blanks = vec![in alloc; b' '; count]?;
    let mut bytes = Vec::new(alloc);
    bytes.extend_from_slice(input.as_bytes())?;
    bytes.extend_from_slice(blanks.as_slice())?;
    Ok(bytes)
}

/// The run in which the read of this number fails is told so, and writes nothing.
fn fails_at_read<R: Threads + Wait + Sync>(
    rt: &R,
    alloc: Global,
    blanks: usize,
    number: u64,
) -> Result<bool, AllocError> {
    let input = with_blanks(alloc, blanks)?;
    let ended = run_with(
        rt,
        alloc,
        "run --workers 0",
        input.as_slice(),
        &[number],
        &[],
    )?;
    Ok(matches!(ended.status, Status::ReadFault) && ended.written.is_empty())
}

#[test]
fn ends_at_each_read_that_fails(rt: HostRuntime) -> Result<(), Fail> {
    let alloc = rt.alloc();
    for (blanks, number) in &READS {
        passes_at(
            &rt,
            "read",
            *number,
            fails_at_read(&rt, alloc, *blanks, *number)?,
        );
    }
    Ok(())
}

/// The run in which the write behind so many lines fails is told so, and has written these lines.
fn fails_behind<R: Threads + Wait + Sync>(
    rt: &R,
    alloc: Global,
    input: &str,
    whole: &[u8],
    lines: usize,
) -> Result<bool, AllocError> {
    let number = (lines as u64).saturating_add(1);
    let ended = run_with(
        rt,
        alloc,
        "run --workers 0",
        input.as_bytes(),
        &[],
        &[number],
    )?;
    Ok(
        matches!(ended.status, Status::WriteFault)
            && is_first_lines(whole, ended.written.as_slice(), lines),
    )
}

/// Lets each write of the run fail in turn.
fn fails_at_writes<R: Abort + Threads + Wait + Sync>(
    rt: &R,
    alloc: Global,
) -> Result<(), AllocError> {
    let input = first(alloc)?;
    let whole = run_on(rt, alloc, input.as_str())?.written;
    for lines in 0..line_count(whole.as_slice()) {
        let passed = fails_behind(rt, alloc, input.as_str(), whole.as_slice(), lines)?;
        passes_at(rt, "lines", lines as u64, passed);
    }
    Ok(())
}

#[test]
fn ends_at_each_write_that_fails(rt: HostRuntime) -> Result<(), Fail> {
    Ok(fails_at_writes(&rt, rt.alloc())?)
}

/// The run whose sink has room for so many bytes, and then takes nothing, is told so, and its sink holds the first part of
/// the text.
fn fills<R: Threads + Wait + Sync>(
    rt: &R,
    alloc: Global,
    input: &str,
    whole: &[u8],
    size: usize,
) -> Result<bool, AllocError> {
    let mut room = vec![in alloc; 0; size]?;
    let status = run_into(rt, alloc, input, room.as_mut_slice())?;
    Ok(matches!(status, Status::WriteFault) && whole.starts_with(room.as_slice()))
}

/// Sinks that are full before the first byte, after it, in the first line, and in a later one.
static ROOMS: [usize; 4] = [0, 1, 40, 5000];

#[test]
fn ends_where_a_sink_takes_nothing(rt: HostRuntime) -> Result<(), Fail> {
    let alloc = rt.alloc();
    let input = first(alloc)?;
    let whole = run_on(&rt, alloc, input.as_str())?.written;
    for size in &ROOMS {
        let passed = fills(&rt, alloc, input.as_str(), whole.as_slice(), *size)?;
        passes_at(&rt, "room", *size as u64, passed);
    }
    let last = whole.len().saturating_sub(1);
    let passed = fills(&rt, alloc, input.as_str(), whole.as_slice(), last)?;
    passes_at(&rt, "all but one", 0, passed);
    Ok(())
}

/// Base64 of none, one and 10,000 octets.
fn zeros(alloc: Global, count: u64) -> Result<String, AllocError> {
    let mut text = String::new(alloc);
    for _ in 0..count / 3 {
        text.push_str("AAAA")?;
    }
    if count % 3 == 1 {
        text.push_str("AA==")?;
    }
    Ok(text)
}

/// Rows of material in which `RAW` stands for octets that are neither a key nor a certificate, and how a run with them ends.
/// A key row that is no key counts as no row, and a certificate that is none is a failed issuance.
static RAW: [(&str, &str); 2] = [
    (r#""keys":[{"der":"RAW"}]"#, READY),
    (
        r#""keys":[{"synthetic":1}],"replies":[{"der":"RAW","reply":"raw"}]"#,
        BACKOFF,
    ),
];

static SIZES: [u64; 3] = [0, 1, 10_000];

/// The run with so many raw octets in its material is done, and ends so.
fn ends_with<R: Threads + Wait + Sync>(
    rt: &R,
    alloc: Global,
    rows: &str,
    size: u64,
    end: &str,
) -> Result<bool, AllocError> {
    let octets = zeros(alloc, size)?;
    let rows = rows.replace(alloc, "RAW", octets.as_str())?;
    let input = issuance(alloc, "", rows.as_str())?;
    let ended = run_on(rt, alloc, input.as_str())?;
    Ok(matches!(ended.status, Status::Done) && ended.written.ends_with(end.as_bytes()))
}

#[test]
fn ends_with_raw_material_of_any_size(rt: HostRuntime) -> Result<(), Fail> {
    let alloc = rt.alloc();
    for (rows, end) in &RAW {
        for size in &SIZES {
            passes_at(&rt, rows, *size, ends_with(&rt, alloc, rows, *size, end)?);
        }
    }
    Ok(())
}

/// A call of the store that fails, and how many calls and accepted writes the run then has. Of the first alone nothing
/// comes, since it is the user's; the ninth and the tenth are behind a read that has to be made again.
static FAULTS: [(u64, usize, usize); 13] = [
    (1, 1, 0),
    (2, 14, 12),
    (3, 14, 12),
    (4, 14, 12),
    (5, 14, 12),
    (6, 14, 12),
    (7, 14, 12),
    (8, 14, 12),
    (9, 15, 12),
    (10, 16, 12),
    (11, 14, 12),
    (12, 14, 12),
    (13, 14, 12),
];

/// The end of a run in which nothing is stored.
static EMPTY: &str =
    "{\"summary\":{\"certificates\":0,\"ready\":0,\"secrets\":0,\"waiting\":[]}}\n";

/// The end of a run with so many accepted writes.
fn end_behind(writes: usize) -> &'static str {
    if writes == 0 { EMPTY } else { READY }
}

/// How many calls, accepted writes, and calls that fail with this number the text has.
fn counts(alloc: Global, text: &str, fault: u64) -> Result<(usize, usize, usize), AllocError> {
    let unavailable = format!(in alloc; "\"reply\":{{\"unavailable\":{fault}}}")?;
    let created = count_of(text, "\"reply\":{\"name\":");
    let changed = count_of(text, "\"reply\":{\"ok\":");
    Ok((
        count_of(text, "\"is\":\"call\""),
        created.saturating_add(changed),
        count_of(text, unavailable.as_str()),
    ))
}

/// Whether the version is that of the newest accepted write: versions count accepted writes alone.
fn is_newest(alloc: Global, text: &str, version: usize) -> Result<bool, AllocError> {
    let last = format!(in alloc; "\"ok\":{version}}}")?;
    let next = format!(in alloc; "\"ok\":{}}}", version.saturating_add(1))?;
    Ok((version == 0 || text.contains(last.as_str())) && !text.contains(next.as_str()))
}

/// Whether the run with this fault has so many calls and writes, and ends as without it, or as an empty one.
fn survives<R: Threads + Wait + Sync>(
    rt: &R,
    alloc: Global,
    fault: u64,
    calls: usize,
    writes: usize,
) -> Result<bool, AllocError> {
    let faults = format!(in alloc; "\"faults\":[{fault}],")?;
    let input = issuance(alloc, faults.as_str(), r#""keys":[{"synthetic":1}]"#)?;
    let ended = run_on(rt, alloc, input.as_str())?;
    let Ok(text) = str::from_utf8(ended.written.as_slice()) else {
        return Ok(false);
    };
    Ok(
        counts(alloc, text, fault)? == (calls, writes, 1)
            && is_newest(alloc, text, writes)?
            && text.ends_with(end_behind(writes)),
    )
}

#[test]
fn survives_a_fault_at_each_call(rt: HostRuntime) -> Result<(), Fail> {
    let alloc = rt.alloc();
    for (fault, calls, writes) in &FAULTS {
        let passed = survives(&rt, alloc, *fault, *calls, *writes)?;
        passes_at(&rt, "fault", *fault, passed);
    }
    Ok(())
}
