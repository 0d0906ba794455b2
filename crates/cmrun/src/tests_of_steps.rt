// What users' steps are answered: the admission rules at their bounds, verdicts, answers and renewals. The replies come
// from the tables of rules and of replies.
use crate::checks::passes;
use crate::status::Status;
use crate::tests::{Ended, run_on, web};
use std::alloc::{AllocError, Global};
use std::process::Abort;
use std::sync::Wait;
use std::test::Fail;
use std::thread::Threads;

/// The request that `!` stands for in the rows.
fn request() -> &'static str {
    r#"{"apiVersion":"cert-manager.io/v1","kind":"CertificateRequest","metadata":{"annotations":{"cert-manager.io/certificate-name":"web","cert-manager.io/certificate-revision":"1"},"name":"web-1","namespace":"default"},"spec":{"issuerRef":{"name":"ca"},"request":"AAAA"}}"#
}

/// The script of a row in a scenario without roles: `@` stands for the Certificate of the rows, `!` for its request.
fn scenario(alloc: Global, script: &str) -> Result<String, AllocError> {
    let script = script.replace(alloc, "@", web())?;
    let script = script.as_str().replace(alloc, "!", request())?;
    format!(in alloc; "{{\"roles\":[],\"script\":[{script}]}}")
}

fn run_of<R: Threads + Wait + Sync>(
    rt: &R,
    alloc: Global,
    script: &str,
) -> Result<Ended, AllocError> {
    let input = scenario(alloc, script)?;
    run_on(rt, alloc, input.as_str())
}

/// What the run wrote where it is done, and nothing else.
fn text_of(ended: &Ended) -> &str {
    match ended.status {
        Status::Done => str::from_utf8(ended.written.as_slice()).unwrap_or(""),
        _ => "",
    }
}

fn has_reply(alloc: Global, line: &str, reply: &str) -> Result<bool, AllocError> {
    let text = format!(in alloc; "\"reply\":{{{reply}}},")?;
    Ok(line.contains(text.as_str()))
}

/// The calls of the text are answered so, with a blank between two replies, and there are no others.
fn has_replies(alloc: Global, text: &str, replies: &str) -> Result<bool, AllocError> {
    let mut left = replies.split_whitespace();
    for line in text.lines() {
        if line.contains("\"reply\":") {
            let reply = left.next().unwrap_or("none");
            if !has_reply(alloc, line, reply)? {
                return Ok(false);
            }
        }
    }
    Ok(!text.is_empty() && left.next().is_none())
}

/// The calls of the run are answered so, in order, and there are no others.
fn is_answered<R: Threads + Wait + Sync>(
    rt: &R,
    alloc: Global,
    script: &str,
    replies: &str,
) -> Result<bool, AllocError> {
    let ended = run_of(rt, alloc, script)?;
    has_replies(alloc, text_of(&ended), replies)
}

fn answers<R: Abort + Threads + Wait + Sync>(
    rt: &R,
    alloc: Global,
    rows: &[(&str, &str)],
) -> Result<(), AllocError> {
    for (script, replies) in rows {
        passes(rt, script, is_answered(rt, alloc, script, replies)?);
    }
    Ok(())
}

/// The script that applies the Certificate of the rows with these members of its spec in front.
fn with_spec(alloc: Global, members: &str) -> Result<String, AllocError> {
    let object = web().replace(alloc, "\"dnsNames\"", members)?;
    format!(in alloc; "{{\"do\":\"apply\",\"object\":{object}}}")
}

fn is_spec_answered<R: Threads + Wait + Sync>(
    rt: &R,
    alloc: Global,
    members: &str,
    reply: &str,
) -> Result<bool, AllocError> {
    let script = with_spec(alloc, members)?;
    is_answered(rt, alloc, script.as_str(), reply)
}

/// One member more in the spec, and the reply.
static SPECS: [(&str, &str); 12] = [
    (r#""dnsNames""#, r#""name":"web","ok":1"#),
    (r#""renewBefore":"4m","dnsNames""#, r#""invalid":4"#),
    (r#""renewBefore":"5m","dnsNames""#, r#""name":"web","ok":1"#),
    (
        r#""duration":"1h","renewBefore":"1h","dnsNames""#,
        r#""invalid":5"#,
    ),
    (
        r#""duration":"1h","renewBefore":"59m59s","dnsNames""#,
        r#""name":"web","ok":1"#,
    ),
    (r#""duration":"59m","dnsNames""#, r#""invalid":3"#),
    (
        r#""renewBefore":"1h","renewBeforePercentage":25,"dnsNames""#,
        r#""invalid":15"#,
    ),
    (r#""renewBeforePercentage":0,"dnsNames""#, r#""invalid":16"#),
    (
        r#""renewBeforePercentage":100,"dnsNames""#,
        r#""invalid":16"#,
    ),
    (
        r#""duration":"1h","renewBeforePercentage":8,"dnsNames""#,
        r#""invalid":16"#,
    ),
    (
        r#""duration":"1h","renewBeforePercentage":9,"dnsNames""#,
        r#""name":"web","ok":1"#,
    ),
    (r#""revisionHistoryLimit":0,"dnsNames""#, r#""invalid":12"#),
];

#[test]
fn refuses_by_the_least_rule(rt: HostRuntime) -> Result<(), Fail> {
    for (members, reply) in &SPECS {
        let passed = is_spec_answered(&rt, rt.alloc(), members, reply)?;
        passes(&rt, members, passed);
    }
    Ok(())
}

/// Steps of users, and the replies.
static STEPS: [(&str, &str); 4] = [
    (
        r#"{"do":"apply","object":!},{"certificate":"default/web","do":"deny","revision":1},{"certificate":"default/web","do":"approve","revision":1}"#,
        r#""name":"web-1","ok":1 "ok":2 "invalid":10"#,
    ),
    (
        r#"{"do":"apply","object":!},{"certificate":"default/web","do":"approve","revision":1},{"certificate":"default/web","do":"approve","revision":1},{"certificate":"default/web","do":"deny","revision":1}"#,
        r#""name":"web-1","ok":1 "ok":2 "unchanged":2 "invalid":10"#,
    ),
    (
        r#"{"certificate":"default/web","do":"approve","revision":1}"#,
        r#""#,
    ),
    (
        r#"{"do":"apply","object":@},{"certificate":"default/web","do":"renew"},{"certificate":"default/api","do":"renew"}"#,
        r#""name":"web","ok":1 "ok":2"#,
    ),
];

#[test]
fn answers_the_steps_of_users(rt: HostRuntime) -> Result<(), Fail> {
    Ok(answers(&rt, rt.alloc(), &STEPS)?)
}

/// Scripts, and the replies.
static STORED: [(&str, &str); 3] = [
    (
        r#"{"do":"apply","object":{"apiVersion":"v1","data":{"tls.key":"AAAA"},"kind":"Secret","metadata":{"name":"s"},"type":"kubernetes.io/tls"}}"#,
        r#""invalid":14"#,
    ),
    (
        r#"{"do":"apply","object":{"apiVersion":"v1","kind":"Secret","metadata":{"name":"s"}}},{"do":"apply","object":{"apiVersion":"v1","kind":"Secret","metadata":{"name":"s"},"type":"x"}}"#,
        r#""name":"s","ok":1 "invalid":14"#,
    ),
    (
        r#"{"do":"apply","object":@},{"do":"apply","object":{"apiVersion":"cert-manager.io/v1alpha2","kind":"Certificate","metadata":{"name":"web","namespace":"default"},"spec":{"dnsNames":["example.com"],"issuerRef":{"name":"ca"},"keyAlgorithm":"ecdsa","secretName":"web-tls"}}}"#,
        r#""name":"web","ok":1 "unchanged":1"#,
    ),
];

/// The script that applies one object and then the same with other text in it.
fn applied_twice(alloc: Global, object: &str, old: &str, new: &str) -> Result<String, AllocError> {
    let other = object.replace(alloc, old, new)?;
    format!(in alloc;
        "{{\"do\":\"apply\",\"object\":{object}}},{{\"do\":\"apply\",\"object\":{other}}}"
    )
}

/// How two objects are answered that differ in that text.
fn is_answered_twice<R: Threads + Wait + Sync>(
    rt: &R,
    alloc: Global,
    object: &str,
    edit: (&str, &str),
    replies: &str,
) -> Result<bool, AllocError> {
    let script = applied_twice(alloc, object, edit.0, edit.1)?;
    is_answered(rt, alloc, script.as_str(), replies)
}

static OTHER_REQUEST: (&str, &str) = ("\"AAAA\"", "\"AAAB\"");

static OTHER_NAME: (&str, &str) = (r#""name":"web""#, r#""name":"api""#);

#[test]
fn keeps_what_is_stored_in_order(rt: HostRuntime) -> Result<(), Fail> {
    let alloc = rt.alloc();
    let replies = r#""name":"web-1","ok":1 "invalid":8"#;
    let passed = is_answered_twice(&rt, alloc, request(), OTHER_REQUEST, replies)?;
    passes(&rt, "a request that changes", passed);
    let replies = r#""name":"web","ok":1 "invalid":7"#;
    let passed = is_answered_twice(&rt, alloc, web(), OTHER_NAME, replies)?;
    passes(&rt, "a Secret that is taken", passed);
    answers(&rt, alloc, &STORED)?;
    Ok(())
}

/// What the run writes has this text.
fn has_text<R: Threads + Wait + Sync>(
    rt: &R,
    alloc: Global,
    script: &str,
    text: &str,
) -> Result<bool, AllocError> {
    let ended = run_of(rt, alloc, script)?;
    Ok(text_of(&ended).contains(text))
}

/// An issuer that has not answered, twice.
const PENDING: &str =
    r#"{"do":"apply","object":!},{"certificate":"default/web","do":"answer","revision":1,"row":{"reply":"pending"}},{"do":"tick","seconds":1},{"certificate":"default/web","do":"answer","revision":1,"row":{"reply":"pending"}}"#;

/// An issuer that cannot read the request.
const UNREADABLE: &str =
    r#"{"do":"apply","object":!},{"certificate":"default/web","do":"answer","revision":1,"row":{"reply":"issue"}}"#;

const RENEWED: &str = r#"{"do":"apply","object":@},{"certificate":"default/web","do":"renew"}"#;

/// Scripts, and texts that stand in what is written.
static ANSWERS: [(&str, &str); 6] = [
    (
        PENDING,
        r#"{"lastTransitionTime":"2030-01-01T00:00:00Z","message":"Waiting on the issuer","reason":"Pending","status":"False","type":"Ready"}"#,
    ),
    (
        PENDING,
        r#"{"lastTransitionTime":"2030-01-01T00:00:01Z","message":"Waiting on the issuer","reason":"Pending","status":"False","type":"Ready"}"#,
    ),
    (PENDING, r#""reply":{"ok":3}"#),
    (UNREADABLE, r#""failureTime":"2030-01-01T00:00:00Z""#),
    (
        UNREADABLE,
        r#"{"lastTransitionTime":"2030-01-01T00:00:00Z","message":"The request is not readable","reason":"Failed","status":"False","type":"Ready"}"#,
    ),
    (
        RENEWED,
        r#"{"lastTransitionTime":"2030-01-01T00:00:00Z","message":"Certificate re-issuance manually triggered","reason":"ManuallyTriggered","status":"True","type":"Issuing"}"#,
    ),
];

#[test]
fn writes_the_answers_of_issuers(rt: HostRuntime) -> Result<(), Fail> {
    for (script, text) in &ANSWERS {
        passes(&rt, text, has_text(&rt, rt.alloc(), script, text)?);
    }
    Ok(())
}
