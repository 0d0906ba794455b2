// What no clause shows: the worked rows and the paths of bad inputs, all with ample memory. Expected values come from
// the store's table of replies and the form of scenarios.
use crate::checks::{passes, tells};
use crate::memory::{MemSink, MemSource};
use crate::sink::{Sink, StdSink};
use crate::source::Source;
use crate::status::Status;
use crate::top::run;
use cmc_answers::ScriptedSigner;
use cmc_keys::ScriptedKeys;
use cmc_meta::{Bytes, Numbers};
use cmc_seed::HashSeed;
use cmc_workers::NoGate;
use std::alloc::{AllocError, Global};
use std::process::Abort;
use std::sync::Wait;
use std::test::Fail;
use std::thread::Threads;

/// The Certificate that `@` stands for in the rows.
pub(crate) const WEB: &str =
    r#"{"apiVersion":"cert-manager.io/v1","kind":"Certificate","metadata":{"name":"web","namespace":"default"},"spec":{"dnsNames":["example.com"],"issuerRef":{"name":"ca"},"privateKey":{"algorithm":"ECDSA"},"secretName":"web-tls"}}"#;

/// The same, as functions read it: a text that is named in a function is spelt in each goal of it.
pub(crate) fn web() -> &'static str {
    WEB
}

/// A scenario that is read.
pub(crate) static GOOD: &str = r#"{"roles":[],"script":[{"do":"apply","object":@}]}"#;

/// How a run of some bytes ended, and what it wrote.
#[derive(Drop)]
pub(crate) struct Ended {
    pub(crate) status: Status,
    pub(crate) written: Vec<u8>,
}

fn numbers(alloc: Global, list: &[u64]) -> Result<Numbers, AllocError> {
    let mut numbers = Numbers::new(alloc);
    for number in list {
        numbers.push(*number)?;
    }
    Ok(numbers)
}

/// The words of a command line, between which a blank stands; none where the text is empty.
pub(crate) fn words_of(alloc: Global, text: &str) -> Result<Vec<String>, AllocError> {
    let mut words = Vec::new(alloc);
    if !text.is_empty() {
        for word in text.split(" ") {
            words.push(String::from_str(alloc, word)?)?;
        }
    }
    Ok(words)
}

/// Does all that the program does, with these words, with the stand-in keys and the scripted issuers. All tests of whole
/// runs go through it.
pub(crate) fn run_over<R: Threads + Wait + Sync, S: Source, K: Sink>(
    rt: &R,
    alloc: Global,
    words: &str,
    source: &mut S,
    sink: &mut K,
) -> Result<Status, AllocError> {
    let words = words_of(alloc, words)?;
    Ok(run(
        rt,
        alloc,
        HashSeed::fixed(),
        words.as_slice(),
        source,
        sink,
        &ScriptedKeys,
        &ScriptedSigner,
        &NoGate,
    ))
}

pub(crate) fn source_of(
    alloc: Global,
    input: &[u8],
    failing_reads: &[u64],
) -> Result<MemSource, AllocError> {
    let bytes = Bytes::from_slice(alloc, input)?;
    MemSource::new(alloc, bytes, numbers(alloc, failing_reads)?)
}

pub(crate) fn sink_of(alloc: Global, failing_writes: &[u64]) -> Result<MemSink, AllocError> {
    MemSink::new(alloc, numbers(alloc, failing_writes)?)
}

fn ended_so(alloc: Global, status: Status, sink: &MemSink) -> Result<Ended, AllocError> {
    let written = sink.bytes().to_vec(alloc)?;
    Ok(Ended { status, written })
}

pub(crate) fn run_with<R: Threads + Wait + Sync>(
    rt: &R,
    alloc: Global,
    words: &str,
    input: &[u8],
    failing_reads: &[u64],
    failing_writes: &[u64],
) -> Result<Ended, AllocError> {
    let mut source = source_of(alloc, input, failing_reads)?;
    let mut sink = sink_of(alloc, failing_writes)?;
    let status = run_over(rt, alloc, words, &mut source, &mut sink)?;
    ended_so(alloc, status, &sink)
}

/// A run by one hand, whose text is a function of the input.
pub(crate) fn run_on<R: Threads + Wait + Sync>(
    rt: &R,
    alloc: Global,
    input: &str,
) -> Result<Ended, AllocError> {
    run_with(rt, alloc, "run --workers 0", input.as_bytes(), &[], &[])
}

/// How the run of the input ends whose sink has room for no more bytes than these, which it fills from the front.
pub(crate) fn run_into<R: Threads + Wait + Sync>(
    rt: &R,
    alloc: Global,
    input: &str,
    room: &mut [u8],
) -> Result<Status, AllocError> {
    let mut source = source_of(alloc, input.as_bytes(), &[])?;
    let mut sink = StdSink::new(room);
    run_over(rt, alloc, "run --workers 0", &mut source, &mut sink)
}

/// The path that a run failed at, or its end in words.
pub(crate) fn end_told(status: &Status) -> &str {
    match status {
        Status::BadScenario(path) => path.as_str(),
        Status::Done => "done",
        Status::NotJson => "not JSON",
        Status::TooLong => "too long",
        Status::ReadFault => "read fault",
        Status::WriteFault => "write fault",
        Status::Usage => "usage",
        Status::Spent => "full",
        _ => "another end",
    }
}

/// How the run of the input ends.
fn end_of<R: Threads + Wait + Sync>(
    rt: &R,
    alloc: Global,
    input: &str,
) -> Result<String, AllocError> {
    let ended = run_on(rt, alloc, input)?;
    String::from_str(alloc, end_told(&ended.status))
}

/// What comes after the spec of the Certificate once an issuance was asked for.
static ASKED: &str =
    r#","status":{"conditions":[{"lastTransitionTime":"2030-01-01T00:00:00Z","message":"Certificate must be issued: ?","reason":"?","status":"True","type":"Issuing"}]}}"#;

/// The Secret that `$` stands for in the rows, and the same as it is printed.
const KEYED: &str =
    r#"{"apiVersion":"v1","data":{"tls.key":"AAAA"},"kind":"Secret","metadata":{"name":"web-tls","namespace":"default"}}"#;

const PRINTED: &str =
    r#"{"apiVersion":"v1","data":{"tls.key":"AAAA"},"kind":"Secret","metadata":{"name":"web-tls","namespace":"default"},"type":"Opaque"}"#;

/// What stands for what in the rows.
static STAND_INS: [(&str, &str); 3] = [("@", WEB), ("$", KEYED), ("%", PRINTED)];

fn with_objects(alloc: Global, row: &str) -> Result<String, AllocError> {
    let mut text = String::from_str(alloc, row)?;
    for (name, object) in &STAND_INS {
        text = text.as_str().replace(alloc, name, object)?;
    }
    Ok(text)
}

/// The Certificate of the rows, asked to be issued for this reason.
fn asked(alloc: Global, reason: &str) -> Result<String, AllocError> {
    let mut object = String::from_str(alloc, web())?;
    let _ = object.pop();
    object.push_str(ASKED.replace(alloc, "?", reason)?.as_str())?;
    Ok(object)
}

fn with_asked(alloc: Global, row: &str, name: &str, reason: &str) -> Result<String, AllocError> {
    let object = asked(alloc, reason)?;
    row.replace(alloc, name, object.as_str())
}

/// The input of a row: `@` stands for the Certificate of the rows, `$` and `%` for its Secret, and
/// `#REASON#` for the Certificate that is asked to be issued.
pub(crate) fn filled(alloc: Global, row: &str) -> Result<String, AllocError> {
    let row = with_objects(alloc, row)?;
    let row = with_asked(alloc, row.as_str(), "#DoesNotExist#", "DoesNotExist")?;
    with_asked(alloc, row.as_str(), "#MissingData#", "MissingData")
}

fn run_filled<R: Threads + Wait + Sync>(
    rt: &R,
    alloc: Global,
    input: &str,
) -> Result<Ended, AllocError> {
    let input = filled(alloc, input)?;
    run_on(rt, alloc, input.as_str())
}

/// What is done with the input of a row, and whether that is written which the row wants.
fn is_written<R: Threads + Wait + Sync>(
    rt: &R,
    alloc: Global,
    input: &str,
    want: &str,
) -> Result<bool, AllocError> {
    let ended = run_filled(rt, alloc, input)?;
    let is_done = matches!(ended.status, Status::Done);
    Ok(is_done && ended.written.as_slice() == filled(alloc, want)?.as_bytes())
}

fn writes<R: Abort + Threads + Wait + Sync>(
    rt: &R,
    alloc: Global,
    rows: &[(&str, &str)],
) -> Result<(), AllocError> {
    for (input, want) in rows {
        passes(rt, input, is_written(rt, alloc, input, want)?);
    }
    Ok(())
}

/// Inputs, and all that is written of the runs of the trigger.
static TRIGGER: [(&str, &str); 3] = [
    // A Certificate whose Secret does not stand is asked to be issued, once.
    (
        r#"{"roles":["trigger"],"script":[{"do":"apply","object":@}]}"#,
        r#"{"scenario":{"roles":["trigger"],"script":[{"do":"apply","object":@}]}}
{"is":"script","n":1,"step":1}
{"call":"create","is":"call","key":"Certificate/default/web","n":2,"object":@,"reply":{"name":"web","ok":1},"who":"user"}
{"is":"deliver","kind":"Certificate","n":3,"role":"trigger","to":1}
{"at":{"Certificate":1,"CertificateRequest":0,"Secret":0},"is":"begin","key":"default/web","n":4,"now":"2030-01-01T00:00:00Z","pass":1,"role":"trigger"}
{"call":"updateStatus","is":"call","key":"Certificate/default/web","n":5,"object":#DoesNotExist#,"reply":{"ok":2},"version":1,"who":1}
{"cause":"wrote","is":"end","n":6,"pass":1}
{"is":"deliver","kind":"Certificate","n":7,"role":"trigger","to":2}
{"summary":{"certificates":1,"ready":0,"secrets":0,"waiting":[{"certificate":"default/web","wait":"stopped"}]}}
"#,
    ),
    // With a Secret that has a key alone, the reason is another.
    (
        r#"{"roles":["trigger"],"script":[{"do":"apply","object":$},{"do":"apply","object":@}]}"#,
        r#"{"scenario":{"roles":["trigger"],"script":[{"do":"apply","object":$},{"do":"apply","object":@}]}}
{"is":"script","n":1,"step":1}
{"call":"create","is":"call","key":"Secret/default/web-tls","n":2,"object":%,"reply":{"name":"web-tls","ok":1},"who":"user"}
{"is":"script","n":3,"step":2}
{"call":"create","is":"call","key":"Certificate/default/web","n":4,"object":@,"reply":{"name":"web","ok":2},"who":"user"}
{"is":"deliver","kind":"Certificate","n":5,"role":"trigger","to":2}
{"is":"deliver","kind":"Secret","n":6,"role":"trigger","to":1}
{"at":{"Certificate":2,"CertificateRequest":0,"Secret":1},"is":"begin","key":"default/web","n":7,"now":"2030-01-01T00:00:00Z","pass":1,"role":"trigger"}
{"call":"updateStatus","is":"call","key":"Certificate/default/web","n":8,"object":#MissingData#,"reply":{"ok":3},"version":2,"who":1}
{"cause":"wrote","is":"end","n":9,"pass":1}
{"is":"deliver","kind":"Certificate","n":10,"role":"trigger","to":3}
{"summary":{"certificates":1,"ready":0,"secrets":1,"waiting":[{"certificate":"default/web","wait":"stopped"}]}}
"#,
    ),
    // A script that settles goes on when the trigger has nothing to do any more.
    (
        r#"{"roles":["trigger","trigger"],"script":[{"do":"apply","object":@},{"do":"settle"},{"do":"delete","key":"Certificate/default/web"}]}"#,
        r#"{"scenario":{"roles":["trigger","trigger"],"script":[{"do":"apply","object":@},{"do":"settle"},{"do":"delete","key":"Certificate/default/web"}]}}
{"is":"script","n":1,"step":1}
{"call":"create","is":"call","key":"Certificate/default/web","n":2,"object":@,"reply":{"name":"web","ok":1},"who":"user"}
{"is":"deliver","kind":"Certificate","n":3,"role":"trigger","to":1}
{"at":{"Certificate":1,"CertificateRequest":0,"Secret":0},"is":"begin","key":"default/web","n":4,"now":"2030-01-01T00:00:00Z","pass":1,"role":"trigger"}
{"call":"updateStatus","is":"call","key":"Certificate/default/web","n":5,"object":#DoesNotExist#,"reply":{"ok":2},"version":1,"who":1}
{"cause":"wrote","is":"end","n":6,"pass":1}
{"is":"deliver","kind":"Certificate","n":7,"role":"trigger","to":2}
{"is":"script","n":8,"step":2}
{"is":"script","n":9,"step":3}
{"call":"delete","is":"call","key":"Certificate/default/web","n":10,"reply":{"ok":3},"who":"user"}
{"is":"deliver","kind":"Certificate","n":11,"role":"trigger","to":3}
{"summary":{"certificates":0,"ready":0,"secrets":0,"waiting":[]}}
"#,
    ),
];

#[test]
fn writes_the_rows_of_the_trigger(rt: HostRuntime) -> Result<(), Fail> {
    Ok(writes(&rt, rt.alloc(), &TRIGGER)?)
}

/// Inputs, and all that is written where no role runs, or nothing is to do.
static WORKED: [(&str, &str); 5] = [
    // Nothing at all.
    (
        "{}",
        "{\"scenario\":{}}\n{\"summary\":{\"certificates\":0,\"ready\":0,\"secrets\":0,\"waiting\":[]}}\n",
    ),
    // No role.
    (
        r#"{"roles":[]}"#,
        "{\"scenario\":{\"roles\":[]}}\n{\"summary\":{\"certificates\":0,\"ready\":0,\"secrets\":0,\"waiting\":[]}}\n",
    ),
    // An object that is applied twice is created once, and then left as it is.
    (
        r#"{"roles":[],"script":[{"do":"apply","object":@},{"do":"apply","object":@}]}"#,
        r#"{"scenario":{"roles":[],"script":[{"do":"apply","object":@},{"do":"apply","object":@}]}}
{"is":"script","n":1,"step":1}
{"call":"create","is":"call","key":"Certificate/default/web","n":2,"object":@,"reply":{"name":"web","ok":1},"who":"user"}
{"is":"script","n":3,"step":2}
{"call":"update","is":"call","key":"Certificate/default/web","n":4,"object":@,"reply":{"unchanged":1},"version":1,"who":"user"}
{"summary":{"certificates":1,"ready":0,"secrets":0,"waiting":[{"certificate":"default/web","wait":"stopped"}]}}
"#,
    ),
    // A delete of an object that does not stand.
    (
        r#"{"roles":[],"script":[{"do":"delete","key":"Certificate/default/web"}]}"#,
        r#"{"scenario":{"roles":[],"script":[{"do":"delete","key":"Certificate/default/web"}]}}
{"is":"script","n":1,"step":1}
{"call":"delete","is":"call","key":"Certificate/default/web","n":2,"reply":{"notFound":0},"who":"user"}
{"summary":{"certificates":0,"ready":0,"secrets":0,"waiting":[]}}
"#,
    ),
    // A delete counts as a write.
    (
        r#"{"roles":[],"script":[{"do":"apply","object":@},{"do":"apply","object":@},{"do":"delete","key":"Certificate/default/web"}]}"#,
        r#"{"scenario":{"roles":[],"script":[{"do":"apply","object":@},{"do":"apply","object":@},{"do":"delete","key":"Certificate/default/web"}]}}
{"is":"script","n":1,"step":1}
{"call":"create","is":"call","key":"Certificate/default/web","n":2,"object":@,"reply":{"name":"web","ok":1},"who":"user"}
{"is":"script","n":3,"step":2}
{"call":"update","is":"call","key":"Certificate/default/web","n":4,"object":@,"reply":{"unchanged":1},"version":1,"who":"user"}
{"is":"script","n":5,"step":3}
{"call":"delete","is":"call","key":"Certificate/default/web","n":6,"reply":{"ok":2},"who":"user"}
{"summary":{"certificates":0,"ready":0,"secrets":0,"waiting":[]}}
"#,
    ),
];

#[test]
fn writes_the_worked_rows(rt: HostRuntime) -> Result<(), Fail> {
    Ok(writes(&rt, rt.alloc(), &WORKED)?)
}

/// The same of Secrets.
static SECRETS: [(&str, &str); 1] = [
    // The type of an applied Secret is Opaque, and its namespace the default one.
    (
        r#"{"roles":[],"script":[{"do":"apply","object":{"apiVersion":"v1","data":{"tls.key":"AAAA"},"kind":"Secret","metadata":{"name":"web-tls"}}},{"do":"delete","key":"Secret/default/web-tls","version":2}]}"#,
        r#"{"scenario":{"roles":[],"script":[{"do":"apply","object":{"apiVersion":"v1","data":{"tls.key":"AAAA"},"kind":"Secret","metadata":{"name":"web-tls"}}},{"do":"delete","key":"Secret/default/web-tls","version":2}]}}
{"is":"script","n":1,"step":1}
{"call":"create","is":"call","key":"Secret/default/web-tls","n":2,"object":{"apiVersion":"v1","data":{"tls.key":"AAAA"},"kind":"Secret","metadata":{"name":"web-tls","namespace":"default"},"type":"Opaque"},"reply":{"name":"web-tls","ok":1},"who":"user"}
{"is":"script","n":3,"step":2}
{"call":"delete","is":"call","key":"Secret/default/web-tls","n":4,"reply":{"conflict":{"have":1,"named":2}},"version":2,"who":"user"}
{"summary":{"certificates":0,"ready":0,"secrets":1,"waiting":[]}}
"#,
    ),
];

#[test]
fn writes_a_run_of_secrets(rt: HostRuntime) -> Result<(), Fail> {
    Ok(writes(&rt, rt.alloc(), &SECRETS)?)
}

/// The Certificate is applied, and then at another version.
static OLD_VERSION: &str =
    r#"{"roles":[],"script":[{"do":"apply","object":@},{"do":"apply","object":{"apiVersion":"cert-manager.io/v1","kind":"Certificate","metadata":{"name":"web","namespace":"default","resourceVersion":"7"},"spec":{"dnsNames":["example.com"],"issuerRef":{"name":"ca"},"privateKey":{"algorithm":"ECDSA"},"secretName":"web-tls"}}}]}"#;

/// The end of what is written then.
static CONFLICT: &str =
    r#"{"call":"update","is":"call","key":"Certificate/default/web","n":4,"object":@,"reply":{"conflict":{"have":1,"named":7}},"version":7,"who":"user"}
{"summary":{"certificates":1,"ready":0,"secrets":0,"waiting":[{"certificate":"default/web","wait":"stopped"}]}}
"#;

fn ends_so<R: Threads + Wait + Sync>(
    rt: &R,
    alloc: Global,
    input: &str,
    want: &str,
) -> Result<bool, AllocError> {
    let ended = run_filled(rt, alloc, input)?;
    Ok(ended.written.ends_with(filled(alloc, want)?.as_bytes()))
}

#[test]
fn answers_an_old_version_with_a_conflict(rt: HostRuntime) -> Result<(), Fail> {
    let ends = ends_so(&rt, rt.alloc(), OLD_VERSION, CONFLICT)?;
    passes(&rt, "conflict", ends);
    Ok(())
}

/// Whole inputs, each with the path that fails first, or its end.
static WHOLE: [(&str, &str); 27] = [
    (
        r#"{"roles":[],"script":[{"do":"apply","object":{"apiVersion":"v1","data":{"a":"AAA"},"kind":"Secret","metadata":{"name":"s"}}}]}"#,
        "script.0.object.data.a",
    ),
    (
        r#"{"roles":[],"script":[{"do":"apply","object":{"apiVersion":"v1","data":{"tls.crt":"AAAA"},"kind":"Secret","metadata":{"name":"s"}}}]}"#,
        "done",
    ),
    (
        r#"{"roles":[],"script":[{"do":"apply","object":{"apiVersion":"v1","kind":"Secret","metadata":{"name":"s"},"type":"Opaque"}}]}"#,
        "done",
    ),
    (
        r#"{"roles":[],"script":[{"do":"apply","object":{"apiVersion":"v1","kind":"ConfigMap"}}]}"#,
        "script.0.object.kind",
    ),
    ("{}", "done"),
    (r#"{"x":1}"#, "x"),
    ("[]", ""),
    ("1.5", ""),
    (r#"{"script":[{"do":"settle"}]}"#, "done"),
    (r#"{"roles":[1.5]}"#, "roles.0"),
    (r#"{"roles":"trigger"}"#, "roles"),
    (r#"{"roles":["trigger","key-manager"]}"#, "roles.1"),
    (r#"{"roles":["Trigger"]}"#, "roles.0"),
    (
        r#"{"roles":["trigger"],"script":[{"do":"settle"}]}"#,
        "done",
    ),
    (
        r#"{"roles":[],"script":[{"a":1,"do":"settle"}]}"#,
        "script.0.a",
    ),
    (r#"{"roles":[1],"a":1}"#, "a"),
    (r#"{"roles":[1],"z":1}"#, "roles.0"),
    (r#"{"roles":[],"script":{}}"#, "script"),
    (r#"{"roles":[],"script":[5]}"#, "script.0"),
    (r#"{"roles":[],"script":[{"a":1,"do":"x"}]}"#, "script.0.a"),
    (r#"{"roles":[],"script":[{"DO":1}]}"#, "script.0.DO"),
    (
        r#"{"roles":[],"script":[{"certificate":5,"do":"x"}]}"#,
        "script.0.do",
    ),
    (
        r#"{"roles":[],"script":[{"certificate":{"b":[0,1e3]},"do":"x"}]}"#,
        "script.0.certificate.b.1",
    ),
    (
        r#"{"roles":[],"script":[{"do":"delete","key":"Certificate/default"}]}"#,
        "script.0.key",
    ),
    (
        r#"{"roles":[],"script":[{"do":"delete","key":"Secret/a/b","version":-1}]}"#,
        "script.0.version",
    ),
    (r#"{"roles":[],"roles":[]}"#, "done"),
    (
        r#"{"roles":[],"script":[{"do":"delete","key":"CertificateRequest/a/b","version":18446744073709551615}]}"#,
        "done",
    ),
];

/// Edits of the good scenario: what is replaced, by what, and which path of the object then fails
/// first.
static EDITS: [(&str, &str, &str); 17] = [
    (r#""cert-manager.io/v1""#, r#""v1""#, "apiVersion"),
    (r#""Certificate""#, r#""Issuer""#, "kind"),
    (r#""Certificate""#, r#""Secret""#, "apiVersion"),
    (r#""namespace""#, r#""uid":1.5,"namespace""#, "metadata.uid"),
    (r#""web""#, r#""Web""#, "metadata.name"),
    (r#""default""#, "5", "metadata.namespace"),
    (
        r#""default""#,
        r#""default","resourceVersion":"01""#,
        "metadata.resourceVersion",
    ),
    (r#"["example.com"]"#, "{}", "spec.dnsNames"),
    (r#"["example.com"]"#, r#"["a",5]"#, "spec.dnsNames.1"),
    (r#""example.com""#, r#""\u007f""#, "spec.dnsNames.0"),
    (
        r#""name":"ca""#,
        r#""kind":5,"name":"ca""#,
        "spec.issuerRef.kind",
    ),
    (r#""ECDSA""#, r#""Ed25519""#, "spec.privateKey.algorithm"),
    (r#""web-tls""#, r#""Web""#, "spec.secretName"),
    (r#""web-tls""#, "1.5", "spec.secretName"),
    (r#""secretName""#, r#""secretNames""#, "spec.secretName"),
    (r#""dnsNames""#, r#""dnsnames""#, "spec.dnsnames"),
    (r#""issuerRef""#, r#""isCA":1,"issuerRef""#, "spec.isCA"),
];

#[test]
fn fails_at_the_first_path(rt: HostRuntime) -> Result<(), Fail> {
    for (input, want) in &WHOLE {
        tells(&rt, input, end_of(&rt, rt.alloc(), input)?.as_str(), want);
    }
    Ok(())
}

/// How the good scenario ends in which the one text stands for the other.
fn end_of_edit<R: Threads + Wait + Sync>(
    rt: &R,
    alloc: Global,
    old: &str,
    new: &str,
) -> Result<String, AllocError> {
    let good = filled(alloc, GOOD)?;
    let input = good.as_str().replace(alloc, old, new)?;
    end_of(rt, alloc, input.as_str())
}

fn path_of(alloc: Global, path: &str) -> Result<String, AllocError> {
    format!(in alloc; "script.0.object.{path}")
}

#[test]
fn fails_at_the_path_of_an_edit(rt: HostRuntime) -> Result<(), Fail> {
    let alloc = rt.alloc();
    for (old, new, path) in &EDITS {
        let end = end_of_edit(&rt, alloc, old, new)?;
        tells(&rt, new, end.as_str(), path_of(alloc, path)?.as_str());
    }
    let end = end_of_edit(&rt, alloc, "none", "none")?;
    tells(&rt, "no edit", end.as_str(), "done");
    Ok(())
}

static NO_JSON: [&str; 5] = ["", "{", "1e400", "{\"roles\":[]} x", "[1,]"];

#[test]
fn refuses_what_is_no_json(rt: HostRuntime) -> Result<(), Fail> {
    for input in &NO_JSON {
        let end = end_of(&rt, rt.alloc(), input)?;
        tells(&rt, input, end.as_str(), "not JSON");
    }
    Ok(())
}

/// How many lines the bytes have.
pub(crate) fn line_count(bytes: &[u8]) -> usize {
    bytes.iter().filter(|byte| **byte == b'\n').count()
}

/// Whether the bytes are so many whole lines, the first ones of the text.
pub(crate) fn is_first_lines(whole: &[u8], bytes: &[u8], count: usize) -> bool {
    let is_whole = bytes.is_empty() || bytes.ends_with(b"\n");
    is_whole && whole.starts_with(bytes) && line_count(bytes) == count
}
