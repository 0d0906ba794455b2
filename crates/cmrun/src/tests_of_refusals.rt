// Runs in which a request is denied or fails, a policy decides, or a temporary certificate is written.
use crate::tests_of_rows::{PENDING, READY, Row, UNAPPROVED, meets};
use std::test::Fail;

/// Runs with denials, failures, policies and temporary certificates.
static REFUSING: [Row; 13] = [
    // A denied request is not answered. It is tried again an hour later, and not before.
    Row {
        scenario: r#""approver":{"issuers":[]},"script":[APPLY,SETTLE,DENY,SETTLE,{"do":"tick","seconds":3599},SETTLE,{"do":"tick","seconds":1},SETTLE]"#,
        writes: r#"ASKED
ABSENT
user REQUEST .. "status":"True","type":"Denied"}
REFUSED
trigger STATUS .. "lastTransitionTime":"2030-01-01T01:00:00Z" .. "status":"True","type":"Issuing"}
keymanager KEYED{"name":"web-bbbbr",
keymanager STATUS .. "nextPrivateKeySecretName":"web-bbbbr"
requestmanager "call":"delete","is":"call","key":"CertificateRequest/default/web-bbbbh"
requestmanager FILED{"name":"web-bbbbv","#,
        told: "",
        calls: 0,
        end: UNAPPROVED,
    },
    // Who denied a request can not approve it any more.
    Row {
        scenario: r#""approver":{"issuers":[]},"script":[APPLY,SETTLE,DENY,APPROVE]"#,
        writes: "",
        told: r#""step":4}
{"call":"updateStatus","is":"call","key":"CertificateRequest/default/web-bbbbh" .. "reply":{"invalid":10} .. !"type":"Approved""#,
        calls: 0,
        end: "",
    },
    // Each failure doubles the wait, up to 32 hours.
    Row {
        scenario: r#""material":{"default/web":{"replies":[{"reply":"fail"}]}},"script":[APPLY,SETTLE,{"do":"tick","seconds":3600},SETTLE,{"do":"tick","seconds":7200},SETTLE,{"do":"tick","seconds":14400},SETTLE,{"do":"tick","seconds":28800},SETTLE,{"do":"tick","seconds":57600},SETTLE,{"do":"tick","seconds":115200},SETTLE,{"do":"tick","seconds":115199},SETTLE,{"do":"tick","seconds":1},SETTLE]"#,
        writes: "",
        told: r#""failedIssuanceAttempts":1,"lastFailureTime":"2030-01-01T00:00:00Z" .. "failedIssuanceAttempts":2,"lastFailureTime":"2030-01-01T01:00:00Z" .. "failedIssuanceAttempts":3,"lastFailureTime":"2030-01-01T03:00:00Z" .. "failedIssuanceAttempts":4,"lastFailureTime":"2030-01-01T07:00:00Z" .. "failedIssuanceAttempts":5,"lastFailureTime":"2030-01-01T15:00:00Z" .. "failedIssuanceAttempts":6,"lastFailureTime":"2030-01-02T07:00:00Z" .. "failedIssuanceAttempts":7,"lastFailureTime":"2030-01-03T15:00:00Z" .. "failedIssuanceAttempts":8,"lastFailureTime":"2030-01-04T23:00:00Z" .. !"failedIssuanceAttempts":9"#,
        calls: 0,
        end: "",
    },
    // A Certificate that was changed after a failure is tried at once.
    Row {
        scenario: r#""material":{"default/web":{"replies":[{"reply":"fail"},{"reply":"issue"}]}},"script":[APPLY,SETTLE,{"do":"apply","object":{OBJECT,NAMED,"spec":{"dnsNames":["www.example.com"],"issuerRef":{"name":"ca"},"privateKey":{"algorithm":"ECDSA"},"secretName":"web-tls"}}},SETTLE]"#,
        writes: r#"ASKED
approver REQUEST .. "status":"True","type":"Approved"}
issuer REQUEST .. "reason":"Failed","status":"False","type":"Ready"}
issuing STATUS .. "status":"False","type":"Issuing"}
TIDIED
ABSENT
user "call":"update","is":"call","key":"Certificate/default/web"
trigger STATUS .. "status":"True","type":"Issuing"}
keymanager KEYED
keymanager STATUS .. "nextPrivateKeySecretName"
requestmanager "call":"delete","is":"call","key":"CertificateRequest/default/web-bbbbh"
requestmanager FILED
ANSWERED
issuing "call":"create","is":"call","key":"Secret/default/web-tls"
issuing STATUS .. "reason":"Issued","status":"False","type":"Issuing"} .. !"failedIssuanceAttempts" .. !"lastFailureTime" .. "revision":1}
keymanager "call":"delete","is":"call","key":"Secret/default/
keymanager STATUS .. !"nextPrivateKeySecretName"
VALID"#,
        told: "",
        calls: 0,
        end: "",
    },
    // While the request waits for a verdict, a temporary certificate stands.
    Row {
        scenario: r#""approver":{"issuers":[]},"script":[TEMPORARY,SETTLE]"#,
        writes: r#"ASKED
issuing "call":"create","is":"call","key":"Secret/default/web-tls" .. "cert-manager.io/temporary-certificate":"true"
readiness STATUS .. "reason":"MissingData","status":"False","type":"Ready"}"#,
        told: "",
        calls: 0,
        end: UNAPPROVED,
    },
    Row {
        scenario: r#""approver":{"issuers":[]},"script":[TEMPORARY,SETTLE,APPROVE,SETTLE]"#,
        writes: r#"ASKED
issuing "call":"create","is":"call","key":"Secret/default/web-tls" .. "cert-manager.io/temporary-certificate":"true"
readiness STATUS .. "reason":"MissingData","status":"False","type":"Ready"}
user REQUEST .. "status":"True","type":"Approved"}
issuer REQUEST .. "reason":"Issued","status":"True","type":"Ready"}
issuing "call":"update","is":"call","key":"Secret/default/web-tls" .. !"cert-manager.io/temporary-certificate"
issuing STATUS .. "reason":"Issued","status":"False","type":"Issuing"} .. "revision":1}
TIDIED
VALID"#,
        told: "",
        calls: 0,
        end: "",
    },
    // As long as the issuer has not answered, too.
    Row {
        scenario: r#""material":{"default/web":{"replies":[{"reply":"pending"}]}},"script":[TEMPORARY]"#,
        writes: r#"ASKED
approver REQUEST .. "status":"True","type":"Approved"}
issuer REQUEST .. "reason":"Pending","status":"False","type":"Ready"}
issuing "call":"create","is":"call","key":"Secret/default/web-tls" .. "cert-manager.io/temporary-certificate":"true"
readiness STATUS .. "reason":"MissingData","status":"False","type":"Ready"}"#,
        told: "",
        calls: 0,
        end: PENDING,
    },
    // A pair that exists is not written over by a temporary certificate.
    Row {
        scenario: r#""material":{"default/web":{"replies":[{"reply":"issue"},{"reply":"pending"}]}},"script":[APPLY,SETTLE,{"do":"apply","object":{OBJECT,ANNOTATED,"spec":{COMMON,"privateKey":{"algorithm":"ECDSA","rotationPolicy":"Always","size":384}}}},SETTLE]"#,
        writes: "",
        told: r#""key":"Secret/default/web-tls" .. "step":3} .. !"key":"Secret/default/web-tls" .. "reason":"Pending","status":"False","type":"Ready"}"#,
        calls: 0,
        end: "",
    },
    // A star stands for any text, also for none; the dot after it has to be there.
    Row {
        scenario: r#""approver":{"policies":[{"dnsNames":["*.example.com"],"name":"web"}]},"material":{"default/web":{"keys":[{"synthetic":1}]}},"script":[APPLY]"#,
        writes: r#"ASKED
approver REQUEST .. "message":"Policy web does not allow dnsNames" .. "status":"True","type":"Denied"}
REFUSED
ABSENT"#,
        told: "",
        calls: 0,
        end: "",
    },
    Row {
        scenario: r#""approver":{"policies":[{"dnsNames":["*example.com"],"name":"web"}]},"material":{"default/web":{"keys":[{"synthetic":1}]}},"script":[APPLY]"#,
        writes: "ISSUED",
        told: "",
        calls: 0,
        end: READY,
    },
    // A certificate of 2,160 hours is asked for.
    Row {
        scenario: r#""approver":{"policies":[{"dnsNames":["*example.com"],"maxDuration":"2159h","name":"web"}]},"material":{"default/web":{"keys":[{"synthetic":1}]}},"script":[APPLY]"#,
        writes: r#"ASKED
approver REQUEST .. "message":"Policy web does not allow maxDuration" .. "status":"True","type":"Denied"}
REFUSED
ABSENT"#,
        told: "",
        calls: 0,
        end: "",
    },
    Row {
        scenario: r#""approver":{"policies":[{"dnsNames":["*example.com"],"maxDuration":"2160h","name":"web"}]},"material":{"default/web":{"keys":[{"synthetic":1}]}},"script":[APPLY]"#,
        writes: "ISSUED",
        told: "",
        calls: 0,
        end: READY,
    },
    // The only policy is for another issuer.
    Row {
        scenario: r#""approver":{"policies":[{"dnsNames":["*example.com"],"issuers":["other"],"name":"web"}]},"material":{"default/web":{"keys":[{"synthetic":1}]}},"script":[APPLY]"#,
        writes: r#"ASKED
approver REQUEST .. "message":"No policy applies to the request" .. "status":"True","type":"Denied"}
REFUSED
ABSENT"#,
        told: "",
        calls: 0,
        end: "",
    },
];

#[test]
fn refuses_and_tries_again(rt: HostRuntime) -> Result<(), Fail> {
    for row in &REFUSING {
        meets(&rt, rt.alloc(), row)?;
    }
    Ok(())
}
