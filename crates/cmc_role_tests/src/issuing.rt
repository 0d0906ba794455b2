//! What no clause says: what the issuing controller does, as texts, and that there is an answer where memory is ample.
ghost use Rattle.cmc_rules.specs.NextRequests.{HasNextRevision};

use crate::checks::tells_at;
use crate::fixtures::{Case, RequestRow, SecretRow, Stated, views};
use crate::keymanager::WIDE;
use crate::requestmanager::{KEYED, NEXT_KEY, WANTED};
use crate::telling::told_then;
use crate::trigger::{CERTIFICATE, KEY, OTHER, OTHER_KEY, OTHER_NAME, desk};
use cmc_issuing::{act, is_sound};
use cmc_meta::{ConditionKind, Tri};
use cmc_pass::Views;
use std::alloc::{AllocError, Global};
use std::process::Abort;
use std::test::Fail;

/// 2030-01-01T00:01:00Z, a minute after the issuance began.
const NOW: i64 = 1_893_456_060;

const APPROVED: Stated = (ConditionKind::Approved, Tri::True, "Script", 1_893_456_000);

const DENIED: Stated = (ConditionKind::Denied, Tri::True, "Script", 1_893_456_000);

const READY: Stated = (ConditionKind::Ready, Tri::True, "Issued", 1_893_456_000);

const FAILED: Stated = (ConditionKind::Ready, Tri::False, "Failed", 1_893_456_000);

/// What comes of it: nothing; a failure with its reason and the number of failures; the Secret's write and the new
/// revision; or the Secret's write alone.
#[derive(Clone, Copy)]
enum Outcome {
    Nothing,
    Fails(&'static str, u32),
    Issues(&'static str, u32),
    StandsIn(&'static str),
}

/// An approved request with the certificate that openssl made of the next key.
const ISSUED: RequestRow = RequestRow {
    conditions: &[READY, APPROVED],
    certificate: CERTIFICATE,
    ..WANTED
};

const ISSUED_AGAIN: RequestRow = RequestRow {
    name: "web-bbbbj",
    ..ISSUED
};

/// All stands that the Certificate's second issuance needs, and two failures before.
const GRANTED: Case = Case {
    requests: &[ISSUED],
    failures: Some((1_893_400_000, 2)),
    ..KEYED
};

/// Without a Certificate that is being issued, or a fitting key under the name that the status has.
static WITHOUT_KEY: [(Case, Outcome); 9] = [
    (
        Case {
            stands: false,
            ..GRANTED
        },
        Outcome::Nothing,
    ),
    (
        Case {
            conditions: &[],
            ..GRANTED
        },
        Outcome::Nothing,
    ),
    (
        Case {
            conditions: &[(ConditionKind::Issuing, Tri::False, "Issued", 0)],
            ..GRANTED
        },
        Outcome::Nothing,
    ),
    (
        Case {
            conditions: &[(ConditionKind::Issuing, Tri::Unknown, "", 0)],
            ..GRANTED
        },
        Outcome::Nothing,
    ),
    (
        Case {
            named: "",
            ..GRANTED
        },
        Outcome::Nothing,
    ),
    (
        Case {
            next: &[],
            ..GRANTED
        },
        Outcome::Nothing,
    ),
    (
        Case {
            named: "web-bbbbg",
            ..GRANTED
        },
        Outcome::Nothing,
    ),
    (
        Case {
            next: &[SecretRow {
                parts: &[("tls.key", "000000")],
                ..NEXT_KEY
            }],
            ..GRANTED
        },
        Outcome::Nothing,
    ),
    (
        Case {
            next: &[SecretRow {
                parts: &[("tls.key", WIDE)],
                ..NEXT_KEY
            }],
            ..GRANTED
        },
        Outcome::Nothing,
    ),
];

/// Without one request of the next revision that asks for what the Certificate asks for, with that key.
static WITHOUT_REQUEST: [(Case, Outcome); 8] = [
    (
        Case {
            requests: &[],
            ..GRANTED
        },
        Outcome::Nothing,
    ),
    (
        Case {
            requests: &[ISSUED, ISSUED_AGAIN],
            ..GRANTED
        },
        Outcome::Nothing,
    ),
    (
        Case {
            requests: &[WANTED, ISSUED_AGAIN],
            ..GRANTED
        },
        Outcome::Nothing,
    ),
    (
        Case {
            requests: &[RequestRow {
                revision: "1",
                ..ISSUED
            }],
            ..GRANTED
        },
        Outcome::Nothing,
    ),
    (
        Case {
            requests: &[RequestRow {
                revision: "3",
                ..ISSUED
            }],
            ..GRANTED
        },
        Outcome::Nothing,
    ),
    (
        Case {
            requests: &[RequestRow {
                der: OTHER_NAME,
                ..ISSUED
            }],
            ..GRANTED
        },
        Outcome::Nothing,
    ),
    (
        Case {
            requests: &[RequestRow {
                der: OTHER_KEY,
                ..ISSUED
            }],
            ..GRANTED
        },
        Outcome::Nothing,
    ),
    (
        Case {
            requests: &[RequestRow {
                der: "3000",
                ..ISSUED
            }],
            ..GRANTED
        },
        Outcome::Nothing,
    ),
];

/// The issuer refused, or the request was denied, in this issuance or before it.
static REFUSED: [(Case, Outcome); 9] = [
    (
        Case {
            requests: &[RequestRow {
                conditions: &[FAILED, APPROVED],
                failure: None,
                ..WANTED
            }],
            ..GRANTED
        },
        Outcome::Nothing,
    ),
    (
        Case {
            requests: &[RequestRow {
                conditions: &[FAILED, APPROVED],
                failure: Some(1_893_455_999),
                ..WANTED
            }],
            ..GRANTED
        },
        Outcome::Nothing,
    ),
    (
        Case {
            requests: &[RequestRow {
                conditions: &[FAILED, APPROVED],
                failure: Some(1_893_456_000),
                ..WANTED
            }],
            ..GRANTED
        },
        Outcome::Fails("Failed", 3),
    ),
    (
        Case {
            requests: &[RequestRow {
                conditions: &[FAILED, APPROVED],
                failure: Some(1_893_456_059),
                ..WANTED
            }],
            ..GRANTED
        },
        Outcome::Fails("Failed", 3),
    ),
    (
        Case {
            requests: &[RequestRow {
                conditions: &[FAILED, APPROVED],
                failure: Some(1_893_456_000),
                ..WANTED
            }],
            failures: None,
            ..GRANTED
        },
        Outcome::Fails("Failed", 1),
    ),
    (
        Case {
            requests: &[RequestRow {
                conditions: &[FAILED, APPROVED],
                failure: Some(1_893_456_000),
                ..WANTED
            }],
            failures: Some((1_893_400_000, 4_294_967_295)),
            ..GRANTED
        },
        Outcome::Fails("Failed", 4_294_967_295),
    ),
    (
        Case {
            requests: &[RequestRow {
                conditions: &[(ConditionKind::Ready, Tri::False, "Denied", 0), DENIED],
                failure: Some(1_893_456_000),
                ..ISSUED
            }],
            ..GRANTED
        },
        Outcome::Fails("Denied", 3),
    ),
    (
        Case {
            requests: &[RequestRow {
                conditions: &[(ConditionKind::Ready, Tri::Unknown, "Failed", 0), APPROVED],
                failure: Some(1_893_456_000),
                ..ISSUED
            }],
            ..GRANTED
        },
        Outcome::Nothing,
    ),
    (
        Case {
            requests: &[RequestRow {
                conditions: &[(ConditionKind::Ready, Tri::True, "Failed", 0), APPROVED],
                failure: Some(1_893_456_000),
                ..ISSUED
            }],
            ..GRANTED
        },
        Outcome::Nothing,
    ),
];

/// What is not issued, or not by an approval that exists; and certificates that do not belong to the key.
static FOREIGN: [(Case, Outcome); 10] = [
    (
        Case {
            requests: &[RequestRow {
                conditions: &[],
                ..ISSUED
            }],
            ..GRANTED
        },
        Outcome::Nothing,
    ),
    (
        Case {
            requests: &[RequestRow {
                conditions: &[APPROVED],
                ..ISSUED
            }],
            ..GRANTED
        },
        Outcome::Nothing,
    ),
    (
        Case {
            requests: &[RequestRow {
                conditions: &[READY],
                ..ISSUED
            }],
            ..GRANTED
        },
        Outcome::Nothing,
    ),
    (
        Case {
            requests: &[RequestRow {
                conditions: &[READY, (ConditionKind::Approved, Tri::False, "", 0)],
                ..ISSUED
            }],
            ..GRANTED
        },
        Outcome::Nothing,
    ),
    (
        Case {
            requests: &[RequestRow {
                conditions: &[READY, APPROVED, DENIED],
                ..ISSUED
            }],
            ..GRANTED
        },
        Outcome::Nothing,
    ),
    (
        Case {
            requests: &[RequestRow {
                conditions: &[(ConditionKind::Ready, Tri::False, "Issued", 0), APPROVED],
                ..ISSUED
            }],
            ..GRANTED
        },
        Outcome::Nothing,
    ),
    (
        Case {
            requests: &[RequestRow {
                conditions: &[(ConditionKind::Ready, Tri::True, "Ready", 0), APPROVED],
                ..ISSUED
            }],
            ..GRANTED
        },
        Outcome::Nothing,
    ),
    (
        Case {
            requests: &[RequestRow {
                certificate: "",
                ..ISSUED
            }],
            ..GRANTED
        },
        Outcome::Fails("InvalidCertificate", 3),
    ),
    (
        Case {
            requests: &[RequestRow {
                certificate: "3000",
                ..ISSUED
            }],
            ..GRANTED
        },
        Outcome::Fails("InvalidCertificate", 3),
    ),
    (
        Case {
            requests: &[RequestRow {
                der: OTHER_KEY,
                ..ISSUED
            }],
            next: &[SecretRow {
                parts: &[("tls.key", OTHER)],
                ..NEXT_KEY
            }],
            target: Some(KEPT_FOR_KEYS),
            ..GRANTED
        },
        Outcome::Fails("InvalidCertificate", 3),
    ),
];

/// A Secret under the target's name that holds a next key.
const KEPT_FOR_KEYS: SecretRow = SecretRow {
    name: "web-tls",
    version: 5,
    ..NEXT_KEY
};

/// A stand-in of another key and a CA's certificate, beside what others wrote.
const STANDING_IN: SecretRow = SecretRow {
    name: "web-tls",
    version: 5,
    labels: &[("app", "shop")],
    marks: &[
        ("cert-manager.io/issuer-name", "other"),
        ("cert-manager.io/temporary-certificate", "false"),
        ("team", "web"),
    ],
    parts: &[
        ("ca.crt", "aa"),
        ("tls.crt", "bb"),
        ("tls.key", OTHER),
        ("tls.pem", "cc"),
    ],
};

const CREATED: &str =
    r#"create {"apiVersion":"v1","data":{"tls.crt":"CERTIFICATE","tls.key":"KEY"},"kind":"Secret","metadata":{"annotations":{"cert-manager.io/certificate-name":"web","cert-manager.io/issuer-group":"cert-manager.io","cert-manager.io/issuer-kind":"Issuer","cert-manager.io/issuer-name":"ca"},"name":"web-tls","namespace":"default"},"type":"kubernetes.io/tls"}"#;

const CREATED_WITH_CA: &str =
    r#"create {"apiVersion":"v1","data":{"ca.crt":"qv8=","tls.crt":"CERTIFICATE","tls.key":"KEY"},"kind":"Secret","metadata":{"annotations":{"cert-manager.io/certificate-name":"web","cert-manager.io/issuer-group":"cert-manager.io","cert-manager.io/issuer-kind":"Issuer","cert-manager.io/issuer-name":"ca"},"name":"web-tls","namespace":"default"},"type":"kubernetes.io/tls"}"#;

const UPDATED: &str =
    r#"update 5 {"apiVersion":"v1","data":{"tls.crt":"CERTIFICATE","tls.key":"KEY","tls.pem":"zA=="},"kind":"Secret","metadata":{"annotations":{"cert-manager.io/certificate-name":"web","cert-manager.io/issuer-group":"cert-manager.io","cert-manager.io/issuer-kind":"Issuer","cert-manager.io/issuer-name":"ca","team":"web"},"labels":{"app":"shop"},"name":"web-tls","namespace":"default"},"type":"Opaque"}"#;

const UPDATED_WITH_CA: &str =
    r#"update 5 {"apiVersion":"v1","data":{"ca.crt":"qv8=","tls.crt":"CERTIFICATE","tls.key":"KEY","tls.pem":"zA=="},"kind":"Secret","metadata":{"annotations":{"cert-manager.io/certificate-name":"web","cert-manager.io/issuer-group":"cert-manager.io","cert-manager.io/issuer-kind":"Issuer","cert-manager.io/issuer-name":"ca","team":"web"},"labels":{"app":"shop"},"name":"web-tls","namespace":"default"},"type":"Opaque"}"#;

const RELABELLED: &str =
    r#"update 5 {"apiVersion":"v1","data":{"tls.crt":"CERTIFICATE","tls.key":"KEY"},"kind":"Secret","metadata":{"annotations":{"cert-manager.io/certificate-name":"web","cert-manager.io/issuer-group":"cert-manager.io","cert-manager.io/issuer-kind":"Issuer","cert-manager.io/issuer-name":"ca"},"labels":{"cert-manager.io/next-private-key":"True"},"name":"web-tls","namespace":"default"},"type":"Opaque"}"#;

/// The Secret is made or written, with the CA's certificate only where there is one, and what others wrote stays; but
/// never a Secret that holds a next key.
static WRITTEN: [(Case, Outcome); 8] = [
    (GRANTED, Outcome::Issues(CREATED, 2)),
    (
        Case {
            revision: None,
            requests: &[RequestRow {
                revision: "1",
                ..ISSUED
            }],
            ..GRANTED
        },
        Outcome::Issues(CREATED, 1),
    ),
    (
        Case {
            requests: &[
                RequestRow {
                    revision: "1",
                    ..ISSUED
                },
                ISSUED_AGAIN,
                RequestRow {
                    revision: "3",
                    ..ISSUED
                },
            ],
            ..GRANTED
        },
        Outcome::Issues(CREATED, 2),
    ),
    (
        Case {
            requests: &[RequestRow {
                ca: "aaff",
                ..ISSUED
            }],
            ..GRANTED
        },
        Outcome::Issues(CREATED_WITH_CA, 2),
    ),
    (
        Case {
            target: Some(STANDING_IN),
            ..GRANTED
        },
        Outcome::Issues(UPDATED, 2),
    ),
    (
        Case {
            target: Some(STANDING_IN),
            requests: &[RequestRow {
                ca: "aaff",
                ..ISSUED
            }],
            ..GRANTED
        },
        Outcome::Issues(UPDATED_WITH_CA, 2),
    ),
    (
        Case {
            target: Some(KEPT_FOR_KEYS),
            ..GRANTED
        },
        Outcome::Nothing,
    ),
    (
        Case {
            target: Some(SecretRow {
                labels: &[("cert-manager.io/next-private-key", "True")],
                ..KEPT_FOR_KEYS
            }),
            ..GRANTED
        },
        Outcome::Issues(RELABELLED, 2),
    ),
];

/// The Certificate asks for a stand-in while its request waits for its approval.
const ASKING: Case = Case {
    marks: &[("cert-manager.io/issue-temporary-certificate", "true")],
    requests: &[WANTED],
    ..KEYED
};

/// A certificate that `openssl req -x509` made of the other key.
const OTHER_CERTIFICATE: &str =
    "308201753082011ba0030201020214016ead375bd0971a1e1eea15d65597f0054856c8300a06082a8648ce3d0403023010310e300c06035504030c056f74686572301e170d3236313132383032313635375a170d3237303232363032313635375a3010310e300c06035504030c056f746865723059301306072a8648ce3d020106082a8648ce3d0301070342000495ea512d20710eb1467018384a3490769b802ea547fb8b829ceb548ddf16351917edc00c9e811029f6440fdd380aedf01a6c510e38a4fd37b011c05a466d9cefa3533051301d0603551d0e041604141e18a4fb609774c9c9b7ace568323d6a97f82dcd301f0603551d230418301680141e18a4fb609774c9c9b7ace568323d6a97f82dcd300f0603551d130101ff040530030101ff300a06082a8648ce3d040302034800304502204b0e8866bac83f12801ec9b360b5a49eac2699171fee59662386b24c25dacfa1022100c3cbabb386b26dfe1f316185dd5577cbcc9d270b71b2a11e0f4bccd2c05d652e";

/// A key and its certificate.
const PAIR: SecretRow = SecretRow {
    parts: &[("tls.crt", CERTIFICATE), ("tls.key", KEY)],
    marks: &[],
    ..STANDING_IN
};

/// The other key and its certificate.
const OTHER_PAIR: SecretRow = SecretRow {
    parts: &[("tls.crt", OTHER_CERTIFICATE), ("tls.key", OTHER)],
    ..PAIR
};

const TEMPORARY: &str =
    r#"create {"apiVersion":"v1","data":{"tls.crt":"STAND-IN","tls.key":"KEY"},"kind":"Secret","metadata":{"annotations":{"cert-manager.io/certificate-name":"web","cert-manager.io/issuer-group":"cert-manager.io","cert-manager.io/issuer-kind":"Issuer","cert-manager.io/issuer-name":"ca","cert-manager.io/temporary-certificate":"true"},"name":"web-tls","namespace":"default"},"type":"kubernetes.io/tls"}"#;

const TEMPORARY_UPDATE: &str =
    r#"update 5 {"apiVersion":"v1","data":{"tls.crt":"STAND-IN","tls.key":"KEY","tls.pem":"zA=="},"kind":"Secret","metadata":{"annotations":{"cert-manager.io/certificate-name":"web","cert-manager.io/issuer-group":"cert-manager.io","cert-manager.io/issuer-kind":"Issuer","cert-manager.io/issuer-name":"ca","cert-manager.io/temporary-certificate":"true","team":"web"},"labels":{"app":"shop"},"name":"web-tls","namespace":"default"},"type":"Opaque"}"#;

const TEMPORARY_AGAIN: &str =
    r#"update 5 {"apiVersion":"v1","data":{"tls.crt":"STAND-IN","tls.key":"KEY"},"kind":"Secret","metadata":{"annotations":{"cert-manager.io/certificate-name":"web","cert-manager.io/issuer-group":"cert-manager.io","cert-manager.io/issuer-kind":"Issuer","cert-manager.io/issuer-name":"ca","cert-manager.io/temporary-certificate":"true"},"labels":{"app":"shop"},"name":"web-tls","namespace":"default"},"type":"Opaque"}"#;

/// A stand-in is written where the Certificate asks for one and nothing better stands, whether or not the request is
/// approved yet.
static STOOD_IN: [(Case, Outcome); 9] = [
    (ASKING, Outcome::StandsIn(TEMPORARY)),
    (
        Case {
            requests: &[RequestRow {
                conditions: &[(ConditionKind::Ready, Tri::False, "Pending", 0), APPROVED],
                ..WANTED
            }],
            ..ASKING
        },
        Outcome::StandsIn(TEMPORARY),
    ),
    (
        Case {
            requests: &[RequestRow {
                conditions: &[READY],
                ..ISSUED
            }],
            ..ASKING
        },
        Outcome::StandsIn(TEMPORARY),
    ),
    (
        Case {
            target: Some(STANDING_IN),
            ..ASKING
        },
        Outcome::StandsIn(TEMPORARY_UPDATE),
    ),
    (
        Case {
            marks: &[],
            ..ASKING
        },
        Outcome::Nothing,
    ),
    (
        Case {
            marks: &[("cert-manager.io/issue-temporary-certificate", "True")],
            ..ASKING
        },
        Outcome::Nothing,
    ),
    (
        Case {
            requests: &[RequestRow {
                conditions: &[DENIED],
                ..WANTED
            }],
            ..ASKING
        },
        Outcome::Nothing,
    ),
    (
        Case {
            requests: &[RequestRow {
                conditions: &[FAILED, APPROVED],
                failure: Some(0),
                ..WANTED
            }],
            ..ASKING
        },
        Outcome::Nothing,
    ),
    (
        Case {
            target: Some(KEPT_FOR_KEYS),
            ..ASKING
        },
        Outcome::Nothing,
    ),
];

/// The target's pair stays, unless it is marked as one that stands in and has another key than the next one.
static PAIRED: [(Case, Outcome); 5] = [
    (
        Case {
            target: Some(PAIR),
            ..ASKING
        },
        Outcome::Nothing,
    ),
    (
        Case {
            target: Some(SecretRow {
                marks: &[("cert-manager.io/temporary-certificate", "true")],
                ..PAIR
            }),
            ..ASKING
        },
        Outcome::Nothing,
    ),
    (
        Case {
            target: Some(OTHER_PAIR),
            ..ASKING
        },
        Outcome::Nothing,
    ),
    (
        Case {
            target: Some(SecretRow {
                marks: &[("cert-manager.io/temporary-certificate", "True")],
                ..OTHER_PAIR
            }),
            ..ASKING
        },
        Outcome::Nothing,
    ),
    (
        Case {
            target: Some(SecretRow {
                marks: &[("cert-manager.io/temporary-certificate", "true")],
                ..OTHER_PAIR
            }),
            ..ASKING
        },
        Outcome::StandsIn(TEMPORARY_AGAIN),
    ),
];

fn expected(alloc: Global, outcome: &Outcome) -> Result<String, AllocError> {
    match outcome {
        Outcome::Nothing => String::from_str(alloc, "nothing"),
        Outcome::Fails(reason, attempts) => format!(in alloc;
            r#"status 3 web {{"conditions":[{{"lastTransitionTime":"2030-01-01T00:01:00Z","message":"The certificate request has failed to complete and will be retried","reason":"{reason}","status":"False","type":"Issuing"}}],"failedIssuanceAttempts":{attempts},"lastFailureTime":"2030-01-01T00:01:00Z","nextPrivateKeySecretName":"web-bbbbf","revision":1}}}}"#
        ),
        Outcome::Issues(secret, revision) => format!(in alloc;
            r#"issue 3 Certificate/default/web; {secret}; status 3 web {{"conditions":[{{"lastTransitionTime":"2030-01-01T00:01:00Z","message":"The certificate has been successfully issued","reason":"Issued","status":"False","type":"Issuing"}}],"nextPrivateKeySecretName":"web-bbbbf","revision":{revision}}}}}"#
        ),
        Outcome::StandsIn(secret) => {
            format!(in alloc; "temporary 3 Certificate/default/web; {secret}")
        }
    }
}

fn told_on(alloc: Global, views: &Views) -> Result<String, AllocError>
    requires { HasNextRevision views.now.certificate }
{
    let desk = desk(alloc);
    told_then(alloc, act(alloc, views, NOW, &desk)?)
}

fn told_of(alloc: Global, case: &Case) -> Result<String, Fail> {
    let views = views(alloc, case)?;
    Ok(told_on(alloc, &views)?)
}

fn meets(rt: &impl Abort, alloc: Global, rows: &[(Case, Outcome)]) -> Result<(), Fail> {
    for (number, (case, outcome)) in rows.iter().enumerate() {
        let told = told_of(alloc, case)?;
        let want = expected(alloc, outcome)?;
        tells_at(rt, number, told.as_str(), want.as_str());
    }
    Ok(())
}

#[test]
fn does_nothing_before_all_stands(rt: HostRuntime) -> Result<(), Fail> {
    let alloc = rt.alloc();
    is_sound();
    meets(&rt, alloc, &WITHOUT_KEY)?;
    meets(&rt, alloc, &WITHOUT_REQUEST)
}

#[test]
fn ends_with_a_failure(rt: HostRuntime) -> Result<(), Fail> {
    let alloc = rt.alloc();
    meets(&rt, alloc, &REFUSED)?;
    meets(&rt, alloc, &FOREIGN)
}

#[test]
fn ends_with_the_secret(rt: HostRuntime) -> Result<(), Fail> {
    meets(&rt, rt.alloc(), &WRITTEN)
}

#[test]
fn stands_in_while_the_request_waits(rt: HostRuntime) -> Result<(), Fail> {
    let alloc = rt.alloc();
    meets(&rt, alloc, &STOOD_IN)?;
    meets(&rt, alloc, &PAIRED)
}
