// Whole runs of all controllers: who writes what, in which order, and how each run ends. The rows come from the tables of
// the controllers, of temporary certificates and of approval policies.
use crate::checks::{passes, tells};
use crate::status::Status;
use crate::tests::{WEB, run_on};
use crate::tests_of_audit::is_audited_yes;
use std::alloc::{AllocError, Global};
use std::process::Abort;
use std::sync::Wait;
use std::test::Fail;
use std::thread::Threads;

/// A scenario, and what its run prints. Words in capitals are stand-ins.
#[derive(Clone, Copy)]
pub(crate) struct Row {
    /// The members of the scenario.
    pub(crate) scenario: &'static str,
    /// A line for each accepted write, in order: who writes, and pieces of the printed line. Empty where the row does not
    /// tell the writes.
    pub(crate) writes: &'static str,
    /// Pieces of the whole text, as of calls that change nothing.
    pub(crate) told: &'static str,
    /// How many calls of the store are printed; 0 where the row does not tell.
    pub(crate) calls: usize,
    /// The end of the text.
    pub(crate) end: &'static str,
}

/// The ends of runs.
pub(crate) const READY: &str =
    "{\"summary\":{\"certificates\":1,\"ready\":1,\"secrets\":1,\"waiting\":[]}}\n";

pub(crate) const BACKOFF: &str = "[{\"certificate\":\"default/web\",\"wait\":\"backoff\"}]}}\n";

pub(crate) const UNAPPROVED: &str =
    "[{\"certificate\":\"default/web\",\"wait\":\"unapproved\"}]}}\n";

pub(crate) const PENDING: &str = "[{\"certificate\":\"default/web\",\"wait\":\"pending\"}]}}\n";

const KEY: &str = "[{\"certificate\":\"default/web\",\"wait\":\"key\"}]}}\n";

/// The stand-ins: steps of scripts, writes that many runs make, and beginnings of calls. Later ones may stand in the text
/// of earlier ones.
static STAND_INS: [(&str, &str); 23] = [
    ("APPLY", r#"{"do":"apply","object":@}"#),
    (
        "OTHER",
        r#"{"do":"apply","object":{OBJECT,NAMED,"spec":{"dnsNames":["example.com"],"issuerRef":{"group":"example.org","name":"ca"},"privateKey":{"algorithm":"ECDSA"},"secretName":"web-tls"}}}"#,
    ),
    (
        "TEMPORARY",
        r#"{"do":"apply","object":{OBJECT,ANNOTATED,"spec":{COMMON,"privateKey":{"algorithm":"ECDSA"}}}}"#,
    ),
    (
        "OBJECT",
        r#""apiVersion":"cert-manager.io/v1","kind":"Certificate""#,
    ),
    (
        "NAMED",
        r#""metadata":{"name":"web","namespace":"default"}"#,
    ),
    (
        "ANNOTATED",
        r#""metadata":{"annotations":{"cert-manager.io/issue-temporary-certificate":"true"},"name":"web","namespace":"default"}"#,
    ),
    (
        "COMMON",
        r#""dnsNames":["example.com"],"issuerRef":{"name":"ca"},"secretName":"web-tls""#,
    ),
    ("SETTLE", r#"{"do":"settle"}"#),
    (
        "APPROVE",
        r#"{"certificate":"default/web","do":"approve","revision":1}"#,
    ),
    (
        "DENY",
        r#"{"certificate":"default/web","do":"deny","revision":1}"#,
    ),
    // All that is written until a Certificate that nothing disturbs is Ready.
    (
        "ISSUED",
        r#"ASKED
ANSWERED
STORED
TIDIED
VALID .. "notAfter":"2030-04-01T00:00:00Z","notBefore":"2030-01-01T00:00:00Z","renewalTime":"2030-03-02T00:00:00Z""#,
    ),
    (
        "ASKED",
        r#"user "call":"create","is":"call","key":"Certificate/default/web"
trigger STATUS .. "reason":"DoesNotExist","status":"True","type":"Issuing"}
keymanager KEYED{"name":"web-bbbbf",
keymanager STATUS .. "nextPrivateKeySecretName":"web-bbbbf"
requestmanager FILED{"name":"web-bbbbh","#,
    ),
    (
        "ANSWERED",
        r#"approver REQUEST .. "status":"True","type":"Approved"}
issuer REQUEST .. "reason":"Issued","status":"True","type":"Ready"}"#,
    ),
    (
        "STORED",
        r#"issuing "call":"create","is":"call","key":"Secret/default/web-tls"
issuing STATUS .. "reason":"Issued","status":"False","type":"Issuing"} .. "revision":1}"#,
    ),
    // What follows a denial.
    (
        "REFUSED",
        r#"issuer REQUEST .. "reason":"Denied","status":"False","type":"Ready"} .. "failureTime":
issuing STATUS .. "reason":"Denied","status":"False","type":"Issuing"} .. "failedIssuanceAttempts":1,"lastFailureTime":
TIDIED"#,
    ),
    (
        "TIDIED",
        r#"keymanager "call":"delete","is":"call","key":"Secret/default/web-bbbbf"
keymanager STATUS .. !"nextPrivateKeySecretName""#,
    ),
    (
        "ABSENT",
        r#"readiness STATUS .. "reason":"DoesNotExist","status":"False","type":"Ready"}"#,
    ),
    (
        "VALID",
        r#"readiness STATUS .. "reason":"Ready","status":"True","type":"Ready"}"#,
    ),
    (
        "STATUS",
        r#""call":"updateStatus","is":"call","key":"Certificate/default/web""#,
    ),
    (
        "REQUEST",
        r#""call":"updateStatus","is":"call","key":"CertificateRequest/default/web-"#,
    ),
    (
        "KEYED",
        r#""call":"generate","is":"call","key":"web-" .. "kind":"Secret","metadata" .. "namespace":"default" .. "reply":"#,
    ),
    (
        "FILED",
        r#""call":"generate","is":"call","key":"web-" .. "kind":"CertificateRequest","metadata" .. "namespace":"default" .. "reply":"#,
    ),
    ("@", WEB),
];

/// Runs that issue, or wait for something else than a verdict.
static ISSUING: [Row; 13] = [
    Row {
        scenario: r#""material":{"default/web":{"keys":[{"synthetic":1}]}},"script":[APPLY]"#,
        writes: "ISSUED",
        told: r#""call":"get","is":"call","key":"Certificate/default/web" .. "reply":{"found":4} .. "call":"create","is":"call","key":"Secret/default/web-tls" .. "reply":{"name":"web-tls","ok":8}"#,
        calls: 13,
        end: READY,
    },
    // The key manager is not told of its own Secret, and makes no second key. Released it goes on.
    Row {
        scenario: r#""script":[{"do":"hold","kind":"Secret","role":"keymanager"},APPLY,SETTLE,{"do":"release","kind":"Secret","role":"keymanager"},SETTLE]"#,
        writes: r#"user "call":"create","is":"call","key":"Certificate/default/web"
trigger STATUS .. "reason":"DoesNotExist","status":"True","type":"Issuing"}
keymanager KEYED{"name":"web-bbbbf","ok":3}
ABSENT .. "reply":{"ok":4}
keymanager STATUS .. "nextPrivateKeySecretName":"web-bbbbf" .. "reply":{"ok":5}
requestmanager FILED{"name":"web-bbbbj","ok":6}
approver REQUEST .. "status":"True","type":"Approved"} .. "reply":{"ok":7}
issuer REQUEST .. "reason":"Issued","status":"True","type":"Ready"} .. "reply":{"ok":8}
issuing "call":"create","is":"call","key":"Secret/default/web-tls" .. "reply":{"name":"web-tls","ok":9}
issuing STATUS .. "reason":"Issued","status":"False","type":"Issuing"} .. "revision":1} .. "reply":{"ok":10}
keymanager "call":"delete","is":"call","key":"Secret/default/web-bbbbf" .. "reply":{"ok":11}
keymanager STATUS .. !"nextPrivateKeySecretName" .. "reply":{"ok":12}
VALID .. "reply":{"ok":13}"#,
        told: r#""reply":{"ok":4} .. "step":3} .. "step":4} .. "reply":{"ok":5}"#,
        calls: 0,
        end: READY,
    },
    // A certificate of an hour is renewed after two thirds of it, since as much as it lasts cannot be left at its renewal.
    Row {
        scenario: r#""material":{"default/web":{"replies":[{"reply":"issue","seconds":3600}]}},"script":[{"do":"apply","object":{OBJECT,NAMED,"spec":{COMMON,"privateKey":{"algorithm":"ECDSA"},"renewBefore":"1h"}}},SETTLE,{"do":"tick","seconds":2399},SETTLE,{"do":"tick","seconds":1},SETTLE]"#,
        writes: "",
        told: r#""renewalTime":"2030-01-01T00:40:00Z" .. "now":"2030-01-01T00:39:59Z" .. !"lastTransitionTime":"2030-01-01T00:39:59Z" .. "now":"2030-01-01T00:40:00Z" .. "lastTransitionTime":"2030-01-01T00:40:00Z" .. "revision":2} .. "renewalTime":"2030-01-01T01:20:00Z" .. !"revision":3}"#,
        calls: 0,
        end: READY,
    },
    // Issuing is stopped between its two writes. The next incarnation writes what exists, which changes nothing, and goes on.
    Row {
        scenario: r#""script":[APPLY,{"do":"until","kind":"Secret","role":"issuing","writes":1},{"do":"stop","role":"issuing"},{"behind":0,"do":"start","role":"issuing"},SETTLE]"#,
        writes: "ISSUED",
        told: r#""reply":{"name":"web-tls","ok":8} .. "call":"get","is":"call","key":"Certificate/default/web" .. "call":"update","is":"call","key":"Secret/default/web-tls" .. "reply":{"unchanged":8},"version":8"#,
        calls: 0,
        end: "",
    },
    // Issuing starts on old views once all is done: its live read ends the pass.
    Row {
        scenario: r#""script":[APPLY,SETTLE,{"do":"hold","kind":"Certificate","role":"issuing"},{"do":"hold","kind":"CertificateRequest","role":"issuing"},{"do":"hold","kind":"Secret","role":"issuing"},{"do":"stop","role":"issuing"},{"behind":5,"do":"start","role":"issuing"},SETTLE,{"do":"release","kind":"Certificate","role":"issuing"},{"do":"release","kind":"CertificateRequest","role":"issuing"},{"do":"release","kind":"Secret","role":"issuing"},SETTLE]"#,
        writes: "ISSUED",
        told: r#""at":{"Certificate":7,"CertificateRequest":7,"Secret":7} .. "reply":{"found":12} .. "cause":{ .. !"cause":{"#,
        calls: 0,
        end: READY,
    },
    // The issuer answers before anybody approves, and nothing is stored until somebody does.
    Row {
        scenario: r#""script":[OTHER,SETTLE,{"certificate":"default/web","do":"answer","revision":1,"row":{"reply":"issue"}},SETTLE,APPROVE,SETTLE]"#,
        writes: r#"ASKED
ABSENT
user REQUEST .. "reason":"Issued","status":"True","type":"Ready"}
user REQUEST .. "status":"True","type":"Approved"}
STORED
TIDIED
VALID"#,
        told: "",
        calls: 0,
        end: "",
    },
    // What was issued has another key.
    Row {
        scenario: r#""script":[OTHER,SETTLE,APPROVE,{"certificate":"default/web","do":"answer","revision":1,"row":{"key":9,"reply":"issue"}},SETTLE]"#,
        writes: r#"ASKED
ABSENT
user REQUEST .. "status":"True","type":"Approved"}
user REQUEST .. "reason":"Issued","status":"True","type":"Ready"}
issuing STATUS .. "reason":"InvalidCertificate","status":"False","type":"Issuing"} .. "failedIssuanceAttempts":1,"lastFailureTime":
TIDIED"#,
        told: "",
        calls: 0,
        end: BACKOFF,
    },
    // The key in the Secret is of another curve, and is never changed.
    Row {
        scenario: r#""script":[{"do":"apply","object":{"apiVersion":"v1","data":{"tls.key":"MIGkAgEBBDAAAAAAAAAAAAAAAAAAAAAAAAAAAAAAAAAAAAAAAAAAAAAAAAAAAAAAAAAAAAAAAAGgBwYFK4EEACKhZANiAAQAAAAAAAAAAAAAAAAAAAAAAAAAAAAAAAAAAAAAAAAAAAAAAAAAAAAAAAAAAAAAAAEAAAAAAAAAAAAAAAAAAAAAAAAAAAAAAAAAAAAAAAAAAAAAAAAAAAAAAAAAAAAAAAE="},"kind":"Secret","metadata":{"name":"web-tls","namespace":"default"}}},{"do":"apply","object":{OBJECT,NAMED,"spec":{COMMON,"privateKey":{"algorithm":"ECDSA","rotationPolicy":"Never"}}}},SETTLE]"#,
        writes: r#"user "call":"create","is":"call","key":"Secret/default/web-tls"
user "call":"create","is":"call","key":"Certificate/default/web"
trigger STATUS .. "reason":"MissingData","status":"True","type":"Issuing"}
readiness STATUS .. "reason":"MissingData","status":"False","type":"Ready"}"#,
        told: "",
        calls: 0,
        end: KEY,
    },
    // A Secret that is written over with no pair is issued again.
    Row {
        scenario: r#""material":{"default/web":{"keys":[{"synthetic":1}]}},"script":[APPLY,SETTLE,{"do":"apply","object":{"apiVersion":"v1","data":{"tls.crt":"AAAA","tls.key":"AAAA"},"kind":"Secret","metadata":{"name":"web-tls","namespace":"default"},"type":"kubernetes.io/tls"}},SETTLE]"#,
        writes: r#"ISSUED
user "call":"update","is":"call","key":"Secret/default/web-tls"
trigger STATUS .. "reason":"InvalidKeyPair","status":"True","type":"Issuing"}
keymanager KEYED{"name":"web-bbbbt",
keymanager STATUS .. "nextPrivateKeySecretName":"web-bbbbt"
requestmanager FILED{"name":"web-bbbbw",
ANSWERED
issuing "call":"update","is":"call","key":"Secret/default/web-tls"
issuing STATUS .. "reason":"Issued","status":"False","type":"Issuing"} .. "revision":2}
keymanager "call":"delete","is":"call","key":"Secret/default/web-bbbbt"
keymanager STATUS .. !"nextPrivateKeySecretName""#,
        told: "",
        calls: 0,
        end: "",
    },
    // The request manager starts again and does not see its own request: the second one is deleted.
    Row {
        scenario: r#""script":[APPLY,{"do":"until","kind":"CertificateRequest","role":"requestmanager","writes":1},{"do":"hold","kind":"CertificateRequest","role":"requestmanager"},{"do":"stop","role":"requestmanager"},{"behind":1,"do":"start","role":"requestmanager"},SETTLE,{"do":"release","kind":"CertificateRequest","role":"requestmanager"},SETTLE]"#,
        writes: r#"ASKED
requestmanager FILED{"name":"web-bbbbj",
approver REQUEST .. "status":"True","type":"Approved"}
approver REQUEST .. "status":"True","type":"Approved"}
issuer REQUEST .. "reason":"Issued","status":"True","type":"Ready"}
issuer REQUEST .. "reason":"Issued","status":"True","type":"Ready"}
ABSENT
requestmanager "call":"delete","is":"call","key":"CertificateRequest/default/web-bbbbj"
STORED
TIDIED
VALID"#,
        told: "",
        calls: 0,
        end: "",
    },
    // The ninth call does not reach the store, and the next pass reads and writes anew.
    Row {
        scenario: r#""faults":[9],"material":{"default/web":{"keys":[{"synthetic":1}]}},"script":[APPLY]"#,
        writes: "ISSUED",
        told: r#""call":"create","is":"call","key":"Secret/default/web-tls" .. "reply":{"unavailable":9} .. "call":"get","is":"call","key":"Certificate/default/web" .. "reply":{"found":4} .. "call":"create","is":"call","key":"Secret/default/web-tls" .. "reply":{"name":"web-tls","ok":8}"#,
        calls: 15,
        end: READY,
    },
    // The log keeps two writes: a role that was held is told the whole list.
    Row {
        scenario: r#""script":[{"do":"hold","kind":"Certificate","role":"revision"},APPLY,SETTLE,{"do":"release","kind":"Certificate","role":"revision"},SETTLE],"window":2"#,
        writes: "",
        told: r#""step":4}
{"is":"list","kind":"Certificate" .. !"is":"deliver" .. "role":"revision","to":12}"#,
        calls: 0,
        end: "",
    },
    // A quarter of the hour that the certificate lasts is left at its renewal.
    Row {
        scenario: r#""material":{"default/web":{"replies":[{"reply":"issue","seconds":3600}]}},"script":[{"do":"apply","object":{OBJECT,NAMED,"spec":{COMMON,"privateKey":{"algorithm":"ECDSA"},"renewBeforePercentage":25}}},SETTLE]"#,
        writes: "",
        told: r#""renewalTime":"2030-01-01T00:45:00Z""#,
        calls: 0,
        end: "",
    },
];

/// Issuers that lie: octets that are no certificate, a certificate for a request that is then denied, and one for a request
/// that nobody approves. The versions are told too.
static LIES: [Row; 3] = [
    Row {
        scenario: r#""script":[OTHER,SETTLE,APPROVE,{"certificate":"default/web","do":"answer","revision":1,"row":{"der":"AAAA","reply":"raw"}},SETTLE]"#,
        writes: r#"ASKED
ABSENT
user REQUEST .. "status":"True","type":"Approved"} .. "reply":{"ok":7}
user REQUEST .. "certificate":"AAAA" .. "reason":"Issued","status":"True","type":"Ready"} .. "reply":{"ok":8}
issuing STATUS .. "reason":"InvalidCertificate","status":"False","type":"Issuing"} .. "failedIssuanceAttempts":1,"lastFailureTime": .. "reply":{"ok":9}
keymanager "call":"delete","is":"call","key":"Secret/default/web-bbbbf" .. "reply":{"ok":10}
keymanager STATUS .. !"nextPrivateKeySecretName" .. "reply":{"ok":11}"#,
        told: r#"!"key":"Secret/default/web-tls""#,
        calls: 0,
        end: BACKOFF,
    },
    Row {
        scenario: r#""script":[OTHER,SETTLE,{"certificate":"default/web","do":"answer","revision":1,"row":{"reply":"issue"}},DENY,SETTLE]"#,
        writes: r#"ASKED
ABSENT
user REQUEST .. "reason":"Issued","status":"True","type":"Ready"} .. "reply":{"ok":7}
user REQUEST .. "status":"True","type":"Denied"} .. "reply":{"ok":8}
issuer REQUEST .. "reason":"Denied","status":"False","type":"Ready"} .. "failureTime": .. "reply":{"ok":9}
issuing STATUS .. "reason":"Denied","status":"False","type":"Issuing"} .. "failedIssuanceAttempts":1,"lastFailureTime": .. "reply":{"ok":10}
keymanager "call":"delete","is":"call","key":"Secret/default/web-bbbbf" .. "reply":{"ok":11}
keymanager STATUS .. !"nextPrivateKeySecretName" .. "reply":{"ok":12}"#,
        told: r#"!"key":"Secret/default/web-tls""#,
        calls: 0,
        end: BACKOFF,
    },
    Row {
        scenario: r#""script":[OTHER,SETTLE,{"certificate":"default/web","do":"answer","revision":1,"row":{"reply":"issue"}},SETTLE]"#,
        writes: r#"ASKED
ABSENT
user REQUEST .. "reason":"Issued","status":"True","type":"Ready"} .. "reply":{"ok":7}"#,
        told: r#"!"key":"Secret/default/web-tls""#,
        calls: 0,
        end: UNAPPROVED,
    },
];

/// The text with what its stand-ins stand for.
pub(crate) fn filled(alloc: Global, text: &str) -> Result<String, AllocError> {
    let mut text = String::from_str(alloc, text)?;
    for (name, meaning) in &STAND_INS {
        text = text.as_str().replace(alloc, name, meaning)?;
    }
    Ok(text)
}

/// The pieces, with ` .. ` between them, stand in the text in this order. Behind a `!` is what does not come after the
/// pieces before it.
pub(crate) fn has_pieces(text: &str, pieces: &str) -> bool {
    let mut rest = text;
    for piece in pieces.split(" .. ") {
        if let Some(absent) = piece.strip_prefix("!") {
            if rest.contains(absent) {
                return false;
            }
        } else if let Some((_, behind)) = rest.split_once(piece) {
            rest = behind;
        } else {
            return false;
        }
    }
    true
}

/// The call on the line is a user's, or one of a pass that the role began.
fn is_by(alloc: Global, written: &str, line: &str, role: &str) -> Result<bool, AllocError> {
    if role == "user" {
        return Ok(line.ends_with(",\"who\":\"user\"}"));
    }
    let Some((_, caller)) = line.rsplit_once(",\"who\":") else {
        return Ok(false);
    };
    let Some(pass) = caller.strip_suffix("}") else {
        return Ok(false);
    };
    let begun = format!(in alloc; "\"pass\":{pass},\"role\":\"{role}\"}}")?;
    Ok(written.contains(begun.as_str()))
}

/// The line is that of the write: by who writes, and with its pieces.
fn is_line_of(alloc: Global, written: &str, line: &str, write: &str) -> Result<bool, AllocError> {
    match write.split_once(" ") {
        Some((role, pieces)) => {
            let is_by = is_by(alloc, written, line, role)?;
            Ok(is_by && has_pieces(line, pieces))
        }
        None => Ok(false),
    }
}

/// The line tells an accepted write.
fn is_accepted(line: &str) -> bool {
    line.contains("\"reply\":{\"ok\":") || line.contains("\"reply\":{\"name\":")
}

/// The line is that of the write, where one is left.
fn is_write(
    rt: &impl Abort,
    alloc: Global,
    written: &str,
    line: &str,
    write: Option<&str>,
) -> Result<(), AllocError> {
    match write {
        Some(write) => {
            let is_line = is_line_of(alloc, written, line, write)?;
            tells(rt, write, if is_line { write } else { line }, write);
        }
        None => tells(rt, "one more", line, ""),
    }
    Ok(())
}

/// The accepted writes of the run are these, in order, and there are no others.
fn are_writes(
    rt: &impl Abort,
    alloc: Global,
    written: &str,
    writes: &str,
) -> Result<(), AllocError> {
    let mut left = writes.lines();
    for line in written.lines() {
        if is_accepted(line) {
            is_write(rt, alloc, written, line, left.next())?;
        }
    }
    passes(rt, writes, left.next().is_none());
    Ok(())
}

/// The scenario of the row.
fn input_of(alloc: Global, row: &Row) -> Result<String, AllocError> {
    let scenario = row.scenario;
    let scenario = format!(in alloc; "{{{scenario}}}")?;
    filled(alloc, scenario.as_str())
}

fn calls_in(written: &str) -> usize {
    written
        .lines()
        .filter(|line| line.contains("\"is\":\"call\""))
        .count()
}

/// What was written is what the row tells, but for its writes.
fn is_as_told(row: &Row, written: &str) -> bool {
    (row.told.is_empty() || has_pieces(written, row.told))
        && (row.calls == 0 || calls_in(written) == row.calls)
        && written.ends_with(row.end)
}

fn has_writes(rt: &impl Abort, alloc: Global, row: &Row, written: &str) -> Result<(), AllocError> {
    if !row.writes.is_empty() {
        let writes = filled(alloc, row.writes)?;
        are_writes(rt, alloc, written, writes.as_str())?;
    }
    Ok(())
}

pub(crate) fn meets<R: Abort + Threads + Wait + Sync>(
    rt: &R,
    alloc: Global,
    row: &Row,
) -> Result<(), AllocError> {
    let input = input_of(alloc, row)?;
    let ended = run_on(rt, alloc, input.as_str())?;
    let is_done = matches!(ended.status, Status::Done);
    passes(rt, input.as_str(), is_done);
    let written = str::from_utf8(ended.written.as_slice()).unwrap_or("");
    has_writes(rt, alloc, row, written)?;
    passes(rt, input.as_str(), is_as_told(row, written));
    let is_audited = is_audited_yes(rt, alloc, ended.written.as_slice())?;
    passes(rt, "audit", is_audited);
    Ok(())
}

#[test]
fn issues_in_order(rt: HostRuntime) -> Result<(), Fail> {
    for row in &ISSUING {
        meets(&rt, rt.alloc(), row)?;
    }
    Ok(())
}

#[test]
fn stores_nothing_for_an_issuer_that_lies(rt: HostRuntime) -> Result<(), Fail> {
    for row in &LIES {
        meets(&rt, rt.alloc(), row)?;
    }
    Ok(())
}
