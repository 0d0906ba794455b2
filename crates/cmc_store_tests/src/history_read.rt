//! What no clause says: that a line of each kind is read, and which line fails of texts that are spoilt, one way in each row.
//! The lines of calls are those that another model of the controllers prints.
use crate::checks::counts;
use cmc_line_reading::{BadHistory, read_history};
use cmc_lines::Printed;
use std::alloc::{AllocError, Global};
use std::process::Abort;
use std::test::Fail;

static SCENARIO: &str = r#"{"scenario":{"script":[]}}
"#;

static SUMMARY: &str = r#"{"summary":{"certificates":0,"ready":0,"secrets":0,"waiting":[]}}
"#;

fn joined(alloc: Global, parts: &[&str]) -> Result<String, AllocError> {
    let mut text = String::new(alloc);
    for part in parts {
        text.push_str(part)?;
    }
    Ok(text)
}

/// Above each number that a test counts to.
const NO_MEMORY: u64 = 1000;

fn let_go(printed: Printed) -> u64 {
    let _entries = printed.entries.as_slice().len();
    0
}

/// The first line that fails, 0 where none does.
fn failing(alloc: Global, text: &str) -> u64 {
    match read_history(alloc, text.as_bytes()) {
        Ok(printed) => let_go(printed),
        Err(BadHistory::Line(line)) => line,
        Err(BadHistory::NoMemory) => NO_MEMORY,
    }
}

/// The same of a history with this one entry.
fn failing_entry(alloc: Global, line: &str) -> Result<u64, AllocError> {
    let text = joined(alloc, &[SCENARIO, line, "\n", SUMMARY])?;
    Ok(failing(alloc, text.as_str()))
}

// ---- lines of entries

static LINES: [&str; 34] = [
    r#"{"is":"script","n":1,"step":1}"#,
    r#"{"call":"create","is":"call","key":"Secret/a/x-1","n":1,"object":{"apiVersion":"v1","kind":"Secret","metadata":{"labels":{"cert-manager.io/next-private-key":"true"},"name":"x-1","namespace":"a"},"type":"x"},"reply":{"name":"x-1","ok":4},"who":"user"}"#,
    r#"{"call":"create","is":"call","key":"Certificate/a/b","n":1,"object":{"apiVersion":"cert-manager.io/v1","kind":"Certificate","metadata":{"name":"b","namespace":"a"},"spec":{"dnsNames":["a b~"],"issuerRef":{"name":"ca"},"secretName":"t"}},"reply":{"invalid":7},"who":"user"}"#,
    r#"{"call":"create","is":"call","key":"Certificate/a/b","n":1,"object":{"apiVersion":"cert-manager.io/v1","kind":"Certificate","metadata":{"name":"b","namespace":"a"},"spec":{"commonName":"☃ ","dnsNames":["a b~"],"duration":"4m59s","isCA":true,"issuerRef":{"name":"ca"},"secretName":"t"}},"reply":{"alreadyExists":2},"who":"user"}"#,
    r#"{"call":"generate","is":"call","key":"0-","n":1,"object":{"apiVersion":"v1","data":{"tls.key":"AAAA"},"kind":"Secret","metadata":{"labels":{"cert-manager.io/next-private-key":"true"},"name":"0","namespace":"a-b","ownerReferences":[{"controller":true,"kind":"Certificate","name":"0","uid":"uid-1"}]},"type":"Opaque"},"reply":{"name":"0-bbbbg","ok":4},"who":3}"#,
    r#"{"call":"generate","is":"call","key":"web-","n":1,"object":{"apiVersion":"v1","data":{"tls.key":"AAAA"},"kind":"Secret","metadata":{"name":"web","namespace":"default"},"type":"Opaque"},"reply":{"unavailable":4},"who":4}"#,
    r#"{"call":"update","is":"call","key":"Certificate/default/x-1","n":1,"object":{"apiVersion":"cert-manager.io/v1","kind":"Certificate","metadata":{"name":"x-1","namespace":"default"},"spec":{"dnsNames":["a b~"],"issuerRef":{"group":"example.org","name":""},"privateKey":{"algorithm":"ECDSA"},"secretName":"x-1-tls"}},"reply":{"ok":8},"version":4,"who":"user"}"#,
    r#"{"call":"update","is":"call","key":"Secret/default/web","n":1,"object":{"apiVersion":"v1","data":{"tls.key":"AAAA"},"kind":"Secret","metadata":{"name":"web","namespace":"default"},"type":"Opaque"},"reply":{"notFound":7},"version":7,"who":"user"}"#,
    r#"{"call":"updateStatus","is":"call","key":"Certificate/default/x-1","n":1,"object":{"apiVersion":"cert-manager.io/v1","kind":"Certificate","metadata":{"name":"x-1","namespace":"default"},"spec":{"dnsNames":["www.example.com"],"issuerRef":{"name":"Ca *"},"secretName":"x-1-tls","usages":["client auth"]},"status":{"conditions":[{"lastTransitionTime":"2030-03-02T00:00:00Z","message":"Certificate re-issuance manually triggered","reason":"ManuallyTriggered","status":"True","type":"Issuing"}]}},"reply":{"unchanged":3},"version":3,"who":"user"}"#,
    r#"{"call":"updateStatus","is":"call","key":"CertificateRequest/default/web-1","n":1,"object":{"apiVersion":"cert-manager.io/v1","kind":"CertificateRequest","metadata":{"name":"web-1","namespace":"default"},"spec":{"issuerRef":{"kind":"","name":"ca"},"request":"AAAA"},"status":{"failureTime":"2030-01-01T00:00:00Z"}},"reply":{"ok":9},"version":8,"who":12}"#,
    r#"{"call":"delete","is":"call","key":"Secret/a-b/api","n":1,"reply":{"ok":28},"who":"user"}"#,
    r#"{"call":"delete","is":"call","key":"Certificate/a.b/web","n":1,"reply":{"conflict":{"have":12,"named":0}},"version":0,"who":"user"}"#,
    r#"{"call":"get","is":"call","key":"Certificate/a/0","n":1,"reply":{"found":5},"who":24}"#,
    r#"{"is":"deliver","kind":"Secret","n":1,"role":"trigger","to":2}"#,
    r#"{"is":"list","kind":"CertificateRequest","n":1,"role":"requestmanager","to":3}"#,
    r#"{"at":{"Certificate":1,"CertificateRequest":2,"Secret":0},"is":"begin","key":"a/0","n":1,"now":"2030-01-01T00:00:00Z","pass":1,"role":"trigger"}"#,
    r#"{"at":{"Certificate":18446744073709551615,"CertificateRequest":0,"Secret":0},"is":"begin","key":"a/0","n":1,"now":"2030-01-01T00:00:00Z","pass":18446744073709551615,"role":"issuer"}"#,
    r#"{"is":"ask","n":1,"order":{"certificate":"a/0","is":"key","number":1},"pass":3}"#,
    r#"{"is":"ask","n":1,"order":{"body":"AAAA","is":"csr","key":""},"pass":3}"#,
    r#"{"is":"ask","n":1,"order":{"is":"sign","number":1,"request":"a-b/r","version":4},"pass":3}"#,
    r#"{"is":"ask","n":1,"order":{"is":"judge","request":"a-b/r","version":2},"pass":1}"#,
    r#"{"is":"made","key":"AAAA","n":1,"pass":3}"#,
    r#"{"is":"signed","n":1,"pass":9,"signature":"AAAA"}"#,
    r#"{"answer":{"certificate":"AAAA","is":"issued"},"is":"answered","n":1,"pass":14}"#,
    r#"{"answer":{"ca":"AAAA","certificate":"","is":"issued"},"is":"answered","n":1,"pass":14}"#,
    r#"{"answer":{"is":"pending"},"is":"answered","n":1,"pass":16}"#,
    r#"{"answer":{"is":"failed","message":""},"is":"answered","n":1,"pass":35}"#,
    r#"{"is":"judged","n":1,"pass":6,"yes":true}"#,
    r#"{"cause":"wrote","is":"end","n":1,"pass":1}"#,
    r#"{"cause":"nothing","is":"end","n":1,"pass":26}"#,
    r#"{"cause":{"entry":14},"is":"end","n":1,"pass":1}"#,
    r#"{"is":"stop","n":1,"role":"issuing"}"#,
    r#"{"at":0,"is":"start","n":1,"role":"keymanager"}"#,
    r#"{"is":"tick","n":1,"now":"2061-09-09T01:46:40Z"}"#,
];

fn is_read(rt: &impl Abort, alloc: Global, line: &str) -> Result<(), Fail> {
    counts(rt, line, failing_entry(alloc, line)?, 0);
    Ok(())
}

#[test]
fn reads_a_line_of_each_kind(rt: HostRuntime) -> Result<(), Fail> {
    let alloc = rt.alloc();
    for line in &LINES {
        is_read(&rt, alloc, line)?;
    }
    Ok(())
}

// ---- lines that are spoilt

static SPOILT: [&str; 40] = [
    "",
    " ",
    "[]",
    "{}",
    r#"{"is":"script","n":1,"step":1"#,
    r#"{"is":"script","n":1,"step":1} "#,
    r#" {"is":"script","n":1,"step":1}"#,
    r#"{"is":"script", "n":1,"step":1}"#,
    r#"{"is":"script","n":1,"step":1.0}"#,
    r#"{"is":"script","n":1,"step":01}"#,
    r#"{"is":"script","n":1,"step":-1}"#,
    r#"{"is":"script","n":1,"step":"1"}"#,
    r#"{"is":"script","n":1,"step":18446744073709551616}"#,
    r#"{"is":"script","n":1}"#,
    r#"{"is":"script","step":1}"#,
    r#"{"is":"script","n":0,"step":1}"#,
    r#"{"is":"script","n":2,"step":1}"#,
    r#"{"is":"script","n":1,"step":1,"was":1}"#,
    r#"{"is":"script","n":1,"n":1,"step":1}"#,
    r#"{"n":1,"is":"script","step":1}"#,
    r#"{"is":"scr\u0069pt","n":1,"step":1}"#,
    r#"{"is":"x","n":1}"#,
    r#"{"is":"tick","n":1,"now":"2061-09-09T01:46:40+00:00"}"#,
    r#"{"is":"tick","n":1,"now":"2061-09-09T01:46:40.0Z"}"#,
    r#"{"is":"stop","n":1,"role":"Issuing"}"#,
    r#"{"is":"made","key":"AAA","n":1,"pass":3}"#,
    r#"{"is":"judged","n":1,"pass":6,"yes":1}"#,
    r#"{"cause":"written","is":"end","n":1,"pass":1}"#,
    r#"{"answer":{"ca":"","certificate":"AAAA","is":"issued"},"is":"answered","n":1,"pass":14}"#,
    r#"{"at":{"Certificate":1,"Secret":0},"is":"begin","key":"a/0","n":1,"now":"2030-01-01T00:00:00Z","pass":1,"role":"trigger"}"#,
    r#"{"at":{"Certificate":1,"CertificateRequest":2,"Secret":0},"is":"begin","key":"a","n":1,"now":"2030-01-01T00:00:00Z","pass":1,"role":"trigger"}"#,
    r#"{"at":{"Certificate":1,"CertificateRequest":2,"Secret":0},"is":"begin","key":"a/B","n":1,"now":"2030-01-01T00:00:00Z","pass":1,"role":"trigger"}"#,
    r#"{"call":"delete","is":"call","key":"secret/a-b/api","n":1,"reply":{"ok":28},"who":"user"}"#,
    r#"{"call":"delete","is":"call","key":"Secret/a-b/api","n":1,"reply":{"name":"api","ok":28},"who":"user"}"#,
    r#"{"call":"delete","is":"call","key":"Secret/a-b/api","n":1,"reply":{"ok":28},"who":"collector"}"#,
    r#"{"call":"get","is":"call","key":"Certificate/a/0","n":1,"reply":{"found":5},"version":5,"who":24}"#,
    r#"{"call":"create","is":"call","key":"Secret/a/x-2","n":1,"object":{"apiVersion":"v1","kind":"Secret","metadata":{"name":"x-1","namespace":"a"},"type":"x"},"reply":{"name":"x-1","ok":4},"who":"user"}"#,
    r#"{"call":"create","is":"call","key":"Secret/a/x-1","n":1,"object":{"apiVersion":"v1","kind":"Secret","metadata":{"name":"x-1","namespace":"a"},"status":{},"type":"x"},"reply":{"name":"x-1","ok":4},"who":"user"}"#,
    r#"{"call":"create","is":"call","key":"Secret/a/x-1","n":1,"object":{"apiVersion":"v1","kind":"Secret","metadata":{"name":"x-1","namespace":"a","uid":"uid-1"},"type":"x"},"reply":{"name":"x-1","ok":4},"who":"user"}"#,
    r#"{"call":"create","is":"call","key":"Secret/a/x-1","n":1,"object":{"apiVersion":"v1","kind":"Secret","metadata":{"name":"x-1","namespace":"a"},"type":"x"},"reply":{"ok":4},"who":"user"}"#,
];

fn is_refused(rt: &impl Abort, alloc: Global, line: &str) -> Result<(), Fail> {
    counts(rt, line, failing_entry(alloc, line)?, 2);
    Ok(())
}

#[test]
fn refuses_each_line_that_is_spoilt(rt: HostRuntime) -> Result<(), Fail> {
    let alloc = rt.alloc();
    for line in &SPOILT {
        is_refused(&rt, alloc, line)?;
    }
    Ok(())
}

// ---- texts

/// Texts, the first line that fails in each, and 0 where none does.
static TEXTS: [(&str, u64); 17] = [
    ("", 1),
    ("\n", 1),
    ("{\"scenario\":{\"script\":[]}}", 1),
    ("{\"scenario\":{\"script\":[]}}\n", 2),
    ("{\"scenario\":{\"script\":[]}} \n", 1),
    ("{\"scenario\":{\"script\":[]} }\n", 1),
    ("{\"scenario\":{\"script\":[1]}}\n", 1),
    ("{\"scenario\":{\"script\":[]}}\n\n", 2),
    (
        "{\"scenario\":{\"script\":[]}}\n{\"is\":\"script\",\"n\":1,\"step\":1}\n",
        3,
    ),
    (
        "{\"scenario\":{\"script\":[]}}\n{\"summary\":{\"certificates\":0,\"ready\":0,\"secrets\":0,\"waiting\":[]}}",
        2,
    ),
    (
        "{\"scenario\":{\"script\":[]}}\n{\"summary\":{\"certificates\":0,\"ready\":0,\"secrets\":0,\"waiting\":[]}}\n",
        0,
    ),
    (
        "{\"scenario\":{\"script\":[]}}\n{\"summary\":{\"certificates\":0,\"ready\":0,\"secrets\":0}}\n",
        2,
    ),
    (
        "{\"scenario\":{\"script\":[]}}\n{\"summary\":{\"certificates\":2,\"ready\":0,\"secrets\":0,\"waiting\":[{\"certificate\":\"a/c\",\"wait\":\"pending\"},{\"certificate\":\"a/d\",\"wait\":\"stopped\"}]}}\n",
        0,
    ),
    (
        "{\"scenario\":{\"script\":[]}}\n{\"summary\":{\"certificates\":2,\"ready\":0,\"secrets\":0,\"waiting\":[{\"certificate\":\"a/d\",\"wait\":\"stopped\"},{\"certificate\":\"a/c\",\"wait\":\"pending\"}]}}\n",
        2,
    ),
    (
        "{\"scenario\":{\"script\":[]}}\n{\"summary\":{\"certificates\":0,\"ready\":0,\"secrets\":0,\"waiting\":[]}}\n\n",
        3,
    ),
    (
        "{\"scenario\":{\"script\":[]}}\n{\"summary\":{\"certificates\":0,\"ready\":0,\"secrets\":0,\"waiting\":[]}}\n{\"summary\":{\"certificates\":0,\"ready\":0,\"secrets\":0,\"waiting\":[]}}\n",
        3,
    ),
    (
        "{\"scenario\":{\"script\":[]}}\n{\"is\":\"script\",\"n\":1,\"step\":1}\n{\"is\":\"script\",\"n\":3,\"step\":1}\n",
        3,
    ),
];

fn fails_there(rt: &impl Abort, alloc: Global, text: &str, line: u64) {
    counts(rt, text, failing(alloc, text), line);
}

#[test]
fn finds_the_first_line_that_fails(rt: HostRuntime) -> Result<(), Fail> {
    let alloc = rt.alloc();
    for (text, line) in &TEXTS {
        fails_there(&rt, alloc, text, *line);
    }
    Ok(())
}
