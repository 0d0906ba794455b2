// What Certificates that are not Ready wait for. The rows come from the tables of the controllers and of waits.
use crate::checks::passes;
use crate::status::Status;
use crate::tests::{Ended, run_on, web};
use std::alloc::{AllocError, Global};
use std::sync::Wait;
use std::test::Fail;
use std::thread::Threads;

/// The scenario of a row: `APPLY` stands for the step that applies the Certificate of the rows, and `OTHER` for one whose
/// issuer is of another group.
fn scenario(alloc: Global, row: &str) -> Result<String, AllocError> {
    let web = web();
    let apply = format!(in alloc; "{{\"do\":\"apply\",\"object\":{web}}}")?;
    let other = apply.as_str().replace(
        alloc,
        r#""name":"ca""#,
        r#""group":"example.org","name":"ca""#,
    )?;
    let row = row.replace(alloc, "APPLY", apply.as_str())?;
    row.as_str().replace(alloc, "OTHER", other.as_str())
}

fn wait_told(alloc: Global, wait: &str) -> Result<String, AllocError> {
    format!(in alloc; "\"waiting\":[{{\"certificate\":\"default/web\",\"wait\":\"{wait}\"}}]}}}}\n")
}

fn run_of<R: Threads + Wait + Sync>(rt: &R, alloc: Global, row: &str) -> Result<Ended, AllocError> {
    let input = scenario(alloc, row)?;
    run_on(rt, alloc, input.as_str())
}

/// The run ends with a Certificate that waits for this.
fn waits_for<R: Threads + Wait + Sync>(
    rt: &R,
    alloc: Global,
    row: &str,
    wait: &str,
) -> Result<bool, AllocError> {
    let ended = run_of(rt, alloc, row)?;
    let end = wait_told(alloc, wait)?;
    Ok(matches!(ended.status, Status::Done) && ended.written.ends_with(end.as_bytes()))
}

/// Scenarios, and what their Certificate waits for in the end.
static WAITS: [(&str, &str); 10] = [
    (
        r#"{"script":[{"do":"hold","kind":"Secret","role":"readiness"},APPLY]}"#,
        "stopped",
    ),
    (
        r#"{"script":[{"do":"stop","role":"readiness"},APPLY]}"#,
        "stopped",
    ),
    // The request is denied; 3,599 seconds later nothing is tried yet, and a second later a new request stands.
    (
        r#"{"approver":{"issuers":[]},"script":[APPLY,{"do":"settle"},{"certificate":"default/web","do":"deny","revision":1}]}"#,
        "backoff",
    ),
    (
        r#"{"approver":{"issuers":[]},"script":[APPLY,{"do":"settle"},{"certificate":"default/web","do":"deny","revision":1},{"do":"settle"},{"do":"tick","seconds":3599}]}"#,
        "backoff",
    ),
    (
        r#"{"approver":{"issuers":[]},"script":[APPLY,{"do":"settle"},{"certificate":"default/web","do":"deny","revision":1},{"do":"settle"},{"do":"tick","seconds":3600}]}"#,
        "unapproved",
    ),
    // What was issued has another key.
    (
        r#"{"script":[OTHER,{"do":"settle"},{"certificate":"default/web","do":"approve","revision":1},{"certificate":"default/web","do":"answer","revision":1,"row":{"key":9,"reply":"issue"}}]}"#,
        "backoff",
    ),
    // What was issued is not approved.
    (
        r#"{"script":[OTHER,{"do":"settle"},{"certificate":"default/web","do":"answer","revision":1,"row":{"reply":"issue"}}]}"#,
        "unapproved",
    ),
    // The Secret is one for next keys.
    (
        r#"{"script":[{"do":"apply","object":{"apiVersion":"v1","kind":"Secret","metadata":{"labels":{"cert-manager.io/next-private-key":"true"},"name":"web-tls","namespace":"default"}}},APPLY]}"#,
        "name",
    ),
    (
        r#"{"material":{"default/web":{"replies":[{"reply":"pending"}]}},"script":[APPLY]}"#,
        "pending",
    ),
    // The issuer is of another group, and no controller here asks it.
    (
        r#"{"script":[OTHER,{"do":"settle"},{"certificate":"default/web","do":"approve","revision":1}]}"#,
        "pending",
    ),
];

#[test]
fn tells_what_certificates_wait_for(rt: HostRuntime) -> Result<(), Fail> {
    for (row, wait) in &WAITS {
        passes(&rt, row, waits_for(&rt, rt.alloc(), row, wait)?);
    }
    Ok(())
}
