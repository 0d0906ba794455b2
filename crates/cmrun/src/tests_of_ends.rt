// How runs end: at which byte reading stops, what a fault leaves, and what each exit status says.
use crate::checks::{passes, passes_at, tells};
use crate::memory::MemSource;
use crate::source::Source;
use crate::status::{Status, code, failing_line, failing_path, message};
use crate::tests::{
    GOOD, end_told, filled, is_first_lines, line_count, run_on, run_over, run_with, sink_of,
    source_of,
};
use cmc_meta::Text;
use std::alloc::{AllocError, Global};
use std::process::Abort;
use std::sync::Wait;
use std::test::Fail;
use std::thread::Threads;

/// So many blanks.
fn blanks(alloc: Global, count: usize) -> Result<Vec<u8>, AllocError> {
    vec![in alloc; b' '; count]
}

/// How a run ended, and the bytes that it wrote as a text.
fn end_and_text<R: Threads + Wait + Sync>(
    rt: &R,
    alloc: Global,
    words: &str,
    input: &[u8],
    failing: (&[u64], &[u64]),
) -> Result<String, AllocError> {
    let ended = run_with(rt, alloc, words, input, failing.0, failing.1)?;
    let end = end_told(&ended.status);
    let written = str::from_utf8(ended.written.as_slice()).unwrap_or("no text");
    format!(in alloc; "{end} {written}")
}

/// How a run on so many blanks ends, in which the read of this number fails, 0 for none.
fn end_on_blanks<R: Threads + Wait + Sync>(
    rt: &R,
    alloc: Global,
    count: usize,
    failing_read: u64,
) -> Result<String, AllocError> {
    let blanks = blanks(alloc, count)?;
    end_and_text(rt, alloc, "run", blanks.as_slice(), (&[failing_read], &[]))
}

/// How many blanks, and how the run ends.
static BLANKS: [(usize, &str); 2] = [(16_777_217, "too long "), (16_777_216, "not JSON ")];

#[test]
fn reads_as_much_as_it_may(rt: HostRuntime) -> Result<(), Fail> {
    let alloc = rt.alloc();
    let told = end_and_text(&rt, alloc, "run", &[0xff, 0xfe], (&[], &[]))?;
    tells(&rt, "no UTF-8", told.as_str(), "not JSON ");
    for (count, want) in &BLANKS {
        let told = end_on_blanks(&rt, alloc, *count, 0)?;
        tells(&rt, "blanks", told.as_str(), want);
    }
    Ok(())
}

#[test]
fn ends_at_a_fault(rt: HostRuntime) -> Result<(), Fail> {
    let alloc = rt.alloc();
    let told = end_on_blanks(&rt, alloc, 8_193, 3)?;
    tells(&rt, "read", told.as_str(), "read fault ");
    let input = b"{\"roles\":[]}";
    let told = end_and_text(&rt, alloc, "run", input, (&[], &[2]))?;
    let want = "write fault {\"scenario\":{\"roles\":[]}}\n";
    tells(&rt, "write", told.as_str(), want);
    let told = end_and_text(&rt, alloc, "load", input, (&[], &[]))?;
    tells(&rt, "usage", told.as_str(), "usage ");
    Ok(())
}

/// The line on standard error behind a run that ended so.
fn line_of(alloc: Global, status: &Status) -> Result<String, AllocError> {
    match failing_line(status) {
        Some(line) => format!(in alloc; "cmrun: {}{line}", message(status)),
        None => format!(in alloc; "cmrun: {}{}", message(status), failing_path(status)),
    }
}

/// The line of the status, if its exit status is this.
fn is_told(
    rt: &impl Abort,
    alloc: Global,
    status: Status,
    number: u8,
    want: &str,
) -> Result<(), AllocError> {
    passes(rt, want, code(&status) == number);
    tells(rt, want, line_of(alloc, &status)?.as_str(), want);
    Ok(())
}

fn bad_at(alloc: Global, path: &str) -> Result<Status, AllocError> {
    Ok(Status::BadScenario(Text::from_str(alloc, path)?))
}

static BAD_LINE: &str = "cmrun: bad history at line 7";

static USAGE: &str =
    "cmrun: usage: cmrun run|load COUNT [--workers N] [--summary] or cmrun audit|collect";

#[test]
fn tells_each_status(rt: HostRuntime) -> Result<(), Fail> {
    let alloc = rt.alloc();
    passes(&rt, "done", code(&Status::Done) == 0);
    tells(&rt, "done", message(&Status::Done), "");
    is_told(&rt, alloc, Status::TooLong, 1, "cmrun: input too long")?;
    is_told(&rt, alloc, Status::NotJson, 1, "cmrun: not JSON")?;
    is_told(&rt, alloc, Status::BadHistory(7), 1, BAD_LINE)?;
    is_told(&rt, alloc, Status::Usage, 2, USAGE)?;
    is_told(&rt, alloc, Status::ReadFault, 3, "cmrun: read failed")?;
    is_told(&rt, alloc, Status::WriteFault, 4, "cmrun: write failed")?;
    is_told(&rt, alloc, Status::NoMemory, 5, "cmrun: out of memory")?;
    is_told(&rt, alloc, Status::Spent, 6, "cmrun: history is full")?;
    Ok(())
}

#[test]
fn tells_the_path_of_a_bad_scenario(rt: HostRuntime) -> Result<(), Fail> {
    let alloc = rt.alloc();
    let want = "cmrun: bad scenario at roles.0";
    is_told(&rt, alloc, bad_at(alloc, "roles.0")?, 1, want)?;
    let want = "cmrun: bad scenario at ";
    is_told(&rt, alloc, bad_at(alloc, "")?, 1, want)?;
    Ok(())
}

/// Whether the run in which the write of this number fails has written so many lines, and is told so.
fn fails_behind<R: Threads + Wait + Sync>(
    rt: &R,
    alloc: Global,
    input: &[u8],
    whole: &[u8],
    lines: usize,
) -> Result<bool, AllocError> {
    let number = (lines as u64).saturating_add(1);
    let ended = run_with(rt, alloc, "run", input, &[], &[number])?;
    let is_failed = matches!(ended.status, Status::WriteFault);
    Ok(is_failed && is_first_lines(whole, ended.written.as_slice(), lines))
}

/// Whether the run in which only a fifth write would fail is done, and writes the whole.
fn is_done<R: Threads + Wait + Sync>(
    rt: &R,
    alloc: Global,
    input: &[u8],
    whole: &[u8],
) -> Result<bool, AllocError> {
    let ended = run_with(rt, alloc, "run", input, &[], &[5])?;
    Ok(matches!(ended.status, Status::Done) && ended.written.as_slice() == whole)
}

static LINES: [usize; 4] = [0, 1, 2, 3];

#[test]
fn writes_each_line_as_one_piece(rt: HostRuntime) -> Result<(), Fail> {
    let alloc = rt.alloc();
    let input = filled(alloc, GOOD)?;
    let whole = run_on(&rt, alloc, input.as_str())?.written;
    let (input, whole) = (input.as_bytes(), whole.as_slice());
    passes(&rt, "four lines", line_count(whole) == 4);
    for lines in &LINES {
        let passed = fails_behind(&rt, alloc, input, whole, *lines)?;
        passes_at(&rt, "lines", *lines as u64, passed);
    }
    passes(&rt, "all lines", is_done(&rt, alloc, input, whole)?);
    Ok(())
}

/// How many of the next eight bytes the source still has.
fn left_in(source: &mut MemSource) -> Result<usize, Fail> {
    let mut next = [0; 8];
    match source.read(&mut next) {
        Ok(count) => Ok(count),
        Err(_) => Err(Fail::from("failed again")),
    }
}

/// How a run ended, in words, and how many of the next eight bytes its source still has.
fn left_by<R: Threads + Wait + Sync>(
    rt: &R,
    alloc: Global,
    words: &str,
    input: &[u8],
    failing_reads: &[u64],
) -> Result<String, Fail> {
    let mut source = source_of(alloc, input, failing_reads)?;
    let mut sink = sink_of(alloc, &[])?;
    let status = run_over(rt, alloc, words, &mut source, &mut sink)?;
    let left = left_in(&mut source)?;
    left_told(alloc, &status, left)
}

fn left_told(alloc: Global, status: &Status, left: usize) -> Result<String, Fail> {
    let end = match status {
        Status::BadScenario(_) => "bad scenario",
        other => end_told(other),
    };
    Ok(format!(in alloc; "{end} {left}")?)
}

/// The same of so many blanks.
fn left_of_blanks<R: Threads + Wait + Sync>(
    rt: &R,
    alloc: Global,
    count: usize,
    failing_read: u64,
) -> Result<String, Fail> {
    let blanks = blanks(alloc, count)?;
    left_by(rt, alloc, "run", blanks.as_slice(), &[failing_read])
}

#[test]
fn stops_reading_where_a_run_ends(rt: HostRuntime) -> Result<(), Fail> {
    let alloc = rt.alloc();
    let told = left_by(&rt, alloc, "load", b"{}", &[])?;
    tells(&rt, "usage", told.as_str(), "usage 2");
    let told = left_by(&rt, alloc, "load 1 --summary", b"{}", &[])?;
    tells(&rt, "load", told.as_str(), "done 2");
    let told = left_by(&rt, alloc, "run", b"[]", &[])?;
    tells(&rt, "no scenario", told.as_str(), "bad scenario 0");
    let told = left_of_blanks(&rt, alloc, 8_195, 3)?;
    tells(&rt, "fault", told.as_str(), "read fault 3");
    let told = left_of_blanks(&rt, alloc, 16_777_219, 0)?;
    tells(&rt, "too long", told.as_str(), "too long 2");
    Ok(())
}
