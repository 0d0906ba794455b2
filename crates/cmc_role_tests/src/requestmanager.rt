//! What no clause says: what the request manager does, as texts, and that there is an answer where memory is ample.
ghost use Rattle.std.specs.Option.{option_copied};
ghost use Rattle.std.specs.Prelude.{◌≡◌, ℕ, List, IfOk, IsSome, IsTrue, option_map};
ghost use Rattle.cmc_der.specs.Keys.{key_shown};
ghost use Rattle.cmc_objects.specs.declared.orders.Order.TheVariants as orders;
ghost use Rattle.cmc_pass.specs.declared.pass.Act.TheVariants as acts;
ghost use Rattle.cmc_rules.specs.NextRequests.{HasNextRevision};
ghost use Rattle.cmc_rules.specs.RequestManager as table;

use crate::checks::{tells, tells_at};
use crate::fixtures::{Case, RequestRow, SecretRow, Stated, views};
use crate::keymanager::WIDE;
use crate::telling::{call_told_then, told_then};
use crate::trigger::{KEY, OTHER, OTHER_KEY, OTHER_NAME, REQUEST, desk};
use cmc_keys::{KeyMaker, ScriptedKeys};
use cmc_meta::{Bytes, ConditionKind, Tri};
use cmc_next::{key_in, named_key};
use cmc_objects::{Algorithm, Certificate, CsrOrder, Order, Secret, Shared};
use cmc_pass::{Act, Desk, Given, Views};
use cmc_requestmanager::{act, is_sound, then};
use cmc_tests::values::let_go;
use cmc_x509::{Spki, key_public};
use std::alloc::{AllocError, Global};
use std::process::Abort;
use std::test::Fail;

/// The condition Issuing since 2030-01-01T00:00:00Z.
const ISSUING: &[Stated] = &[(ConditionKind::Issuing, Tri::True, "Renewing", 1_893_456_000)];

pub(crate) const NEXT_KEY: SecretRow = SecretRow {
    name: "web-bbbbf",
    version: 7,
    labels: &[("cert-manager.io/next-private-key", "true")],
    marks: &[],
    parts: &[("tls.key", KEY)],
};

/// Another next key under another name.
const OTHER_SECRET: SecretRow = SecretRow {
    name: "web-bbbbg",
    parts: &[("tls.key", OTHER)],
    ..NEXT_KEY
};

/// The request that is wanted, as it was made.
pub(crate) const WANTED: RequestRow = RequestRow {
    name: "web-bbbbh",
    revision: "2",
    der: REQUEST,
    conditions: &[],
    failure: None,
    certificate: "",
    ca: "",
};

const WANTED_AGAIN: RequestRow = RequestRow {
    name: "web-bbbbj",
    ..WANTED
};

const STANDING: RequestRow = RequestRow {
    name: "web-bbbbd",
    revision: "1",
    ..WANTED
};

const LATER: RequestRow = RequestRow {
    name: "web-bbbbk",
    revision: "3",
    ..WANTED
};

/// The request failed a second before the last transition of Issuing.
const FAILED: RequestRow = RequestRow {
    conditions: &[(ConditionKind::Ready, Tri::False, "Failed", 1_893_455_999)],
    failure: Some(1_893_455_999),
    ..WANTED
};

const DENIED: RequestRow = RequestRow {
    conditions: &[(ConditionKind::Ready, Tri::False, "Denied", 1_893_455_999)],
    ..FAILED
};

/// The Certificate is being issued as revision 2, and its next key stands.
pub(crate) const KEYED: Case = Case {
    stands: true,
    conditions: ISSUING,
    algorithm: Some(Algorithm::Ecdsa),
    rotation: None,
    named: "web-bbbbf",
    revision: Some(1),
    failures: None,
    marks: &[],
    target: None,
    next: &[NEXT_KEY],
    requests: &[],
};

const ASK: &str = "ask signature, body true, key true";

/// Nothing is asked before a fitting key exists under the name that the status has.
static WAITING: [(Case, &str); 10] = [
    (
        Case {
            stands: false,
            ..KEYED
        },
        "nothing",
    ),
    (
        Case {
            conditions: &[],
            ..KEYED
        },
        "nothing",
    ),
    (
        Case {
            conditions: &[(ConditionKind::Issuing, Tri::Unknown, "Renewing", 0)],
            ..KEYED
        },
        "nothing",
    ),
    (Case { named: "", ..KEYED }, "nothing"),
    (Case { next: &[], ..KEYED }, "nothing"),
    (
        Case {
            named: "web-bbbbg",
            ..KEYED
        },
        "nothing",
    ),
    (
        Case {
            next: &[SecretRow {
                parts: &[("tls.key", "000000")],
                ..NEXT_KEY
            }],
            ..KEYED
        },
        "nothing",
    ),
    (
        Case {
            next: &[SecretRow {
                parts: &[("tls.key", WIDE)],
                ..NEXT_KEY
            }],
            ..KEYED
        },
        "nothing",
    ),
    (
        Case {
            next: &[NEXT_KEY, OTHER_SECRET],
            ..KEYED
        },
        ASK,
    ),
    (KEYED, ASK),
];

/// One request of the next revision stays; those that ask for something else go, and the last of several.
static KEPT: [(Case, &str); 10] = [
    (
        Case {
            requests: &[WANTED],
            ..KEYED
        },
        "nothing",
    ),
    (
        Case {
            requests: &[WANTED, WANTED_AGAIN],
            ..KEYED
        },
        "delete 9 CertificateRequest/default/web-bbbbj",
    ),
    (
        Case {
            requests: &[STANDING, WANTED, WANTED_AGAIN, LATER],
            ..KEYED
        },
        "delete 9 CertificateRequest/default/web-bbbbj",
    ),
    (
        Case {
            requests: &[STANDING, LATER],
            ..KEYED
        },
        ASK,
    ),
    (
        Case {
            requests: &[RequestRow {
                revision: "02",
                ..WANTED
            }],
            ..KEYED
        },
        ASK,
    ),
    (
        Case {
            revision: None,
            requests: &[RequestRow {
                revision: "1",
                ..WANTED
            }],
            ..KEYED
        },
        "nothing",
    ),
    (
        Case {
            requests: &[RequestRow {
                der: OTHER_NAME,
                ..WANTED
            }],
            ..KEYED
        },
        "delete 9 CertificateRequest/default/web-bbbbh",
    ),
    (
        Case {
            requests: &[
                WANTED,
                RequestRow {
                    der: OTHER_KEY,
                    ..WANTED_AGAIN
                },
            ],
            ..KEYED
        },
        "delete 9 CertificateRequest/default/web-bbbbj",
    ),
    (
        Case {
            requests: &[
                RequestRow {
                    der: OTHER_KEY,
                    ..WANTED
                },
                WANTED_AGAIN,
            ],
            ..KEYED
        },
        "delete 9 CertificateRequest/default/web-bbbbh",
    ),
    (
        Case {
            requests: &[RequestRow {
                der: "3000",
                ..WANTED
            }],
            ..KEYED
        },
        "delete 9 CertificateRequest/default/web-bbbbh",
    ),
];

/// A request that failed in an issuance before this one goes; one that failed in this one stays for issuing.
static REFUSED: [(Case, &str); 8] = [
    (
        Case {
            requests: &[FAILED],
            ..KEYED
        },
        "delete 9 CertificateRequest/default/web-bbbbh",
    ),
    (
        Case {
            requests: &[DENIED],
            ..KEYED
        },
        "delete 9 CertificateRequest/default/web-bbbbh",
    ),
    (
        Case {
            requests: &[RequestRow {
                failure: Some(1_893_456_000),
                ..FAILED
            }],
            ..KEYED
        },
        "nothing",
    ),
    (
        Case {
            requests: &[RequestRow {
                failure: Some(1_893_456_000),
                ..DENIED
            }],
            ..KEYED
        },
        "nothing",
    ),
    (
        Case {
            requests: &[RequestRow {
                failure: None,
                ..FAILED
            }],
            ..KEYED
        },
        "nothing",
    ),
    (
        Case {
            requests: &[RequestRow {
                conditions: &[(ConditionKind::Ready, Tri::False, "Pending", 0)],
                ..FAILED
            }],
            ..KEYED
        },
        "nothing",
    ),
    (
        Case {
            requests: &[RequestRow {
                conditions: &[(ConditionKind::Ready, Tri::True, "Failed", 0)],
                ..FAILED
            }],
            ..KEYED
        },
        "nothing",
    ),
    (
        Case {
            requests: &[FAILED, WANTED_AGAIN],
            ..KEYED
        },
        "delete 9 CertificateRequest/default/web-bbbbh",
    ),
];

fn told_on(alloc: Global, views: &Views) -> Result<String, AllocError>
    requires { HasNextRevision views.now.certificate }
{
    let desk = desk(alloc);
    told_then(alloc, act(alloc, views, 0, &desk)?)
}

fn told_of(alloc: Global, case: &Case) -> Result<String, Fail> {
    let views = views(alloc, case)?;
    Ok(told_on(alloc, &views)?)
}

fn meets(rt: &impl Abort, alloc: Global, rows: &[(Case, &str)]) -> Result<(), Fail> {
    for (number, (case, expected)) in rows.iter().enumerate() {
        tells_at(rt, number, told_of(alloc, case)?.as_str(), expected);
    }
    Ok(())
}

#[test]
fn asks_once_the_key_stands(rt: HostRuntime) -> Result<(), Fail> {
    is_sound();
    meets(&rt, rt.alloc(), &WAITING)
}

#[test]
fn keeps_one_request(rt: HostRuntime) -> Result<(), Fail> {
    let alloc = rt.alloc();
    meets(&rt, alloc, &KEPT)?;
    meets(&rt, alloc, &REFUSED)
}

/// A request that names the Certificate, its next revision and the Secret with the key, and belongs to the Certificate.
/// The signature is the SHA-256 digest of the body, as Python's hashlib gives it; openssl reads the request.
static MADE: &str =
    r#"generate {"apiVersion":"cert-manager.io/v1","kind":"CertificateRequest","metadata":{"annotations":{"cert-manager.io/certificate-name":"web","cert-manager.io/certificate-revision":"2","cert-manager.io/private-key-secret-name":"web-bbbbf"},"name":"web","namespace":"default","ownerReferences":[{"controller":true,"kind":"Certificate","name":"web","uid":"uid-1"}]},"spec":{"issuerRef":{"name":"ca"},"request":"MIG9MIGLAgEAMAAwWTATBgcqhkjOPQIBBggqhkjOPQMBBwNCAATI1JEjhdbiiR1s+rs0shLmYyTm9wk1ltZTmcMTO+uic78cS6KE1pDQJ1b2FFGjs3kcD3+e9tmsNx7h+lJY1nWIoCkwJwYJKoZIhvcNAQkOMRowGDAWBgNVHREEDzANggtleGFtcGxlLmNvbTAKBggqhkjOPQQDAgMhANEZ/LZLik+L+FVK4aoYl9rVSPJ/NZ/01AmscKNfkmJx"}}"#;

static KEYED_ONCE: Case = KEYED;

/// A call follows each signature where the key is read.
fn follows_by(certificate: &Certificate, secret: &Secret, key: Option<Spki<'_>>) -> bool
    ensures { IsTrue result → (s : List ℕ) → IsSome (table.signed_by certificate.now secret.now (option_map key_shown key.entry) s) }
{
    let (_certificate, _secret) = (certificate, secret);
    match key {
        None => false,
        Some(_key) => true,
    }
}

fn follows_in(certificate: &Certificate, secret: &Secret, file: Option<&Bytes>) -> bool
    ensures { IsTrue result → (s : List ℕ) → IsSome (table.signed_in certificate.now secret.now (option_copied file.entry) s) }
{
    match file {
        None => false,
        Some(file) => follows_by(certificate, secret, key_public(file.as_slice())),
    }
}

fn follows_with(certificate: &Certificate, secret: Option<&Shared<Secret>>) -> bool
    ensures { IsTrue result → (s : List ℕ) → IsSome (table.signed_with certificate.now (option_copied secret.entry) s) }
{
    match secret {
        None => false,
        Some(secret) => follows_in(certificate, secret, key_in(secret)),
    }
}

/// Whether the next key that the Certificate names stands and is read.
fn follows(views: &Views) -> bool
    ensures { IsTrue result → (s : List ℕ) → IsSome (table.signed_for views.now.certificate views.now.next s) }
{
    match &views.certificate {
        None => false,
        Some(certificate) => {
            let secret = named_key(&certificate.status.next_key, views.next.as_slice());
            follows_with(certificate, secret)
        }
    }
}

fn order_of(act: &Act) -> Result<Shared<CsrOrder>, Fail>
    ensures { IfOk result (λ order. act.now ≡ acts.Ask (orders.Csr order)) }
{
    match act {
        Act::Ask(Order::Csr(order)) => Ok(order.copy()?),
        _ => Err(Fail::from("no question")),
    }
}

fn order_in(act: Act) -> Result<Shared<CsrOrder>, Fail>
    ensures { IfOk result (λ order. act ≡ acts.Ask (orders.Csr order)) }
{
    let order = order_of(&act);
    let_go(act);
    order
}

fn question(alloc: Global, views: &Views, desk: &Desk) -> Result<Shared<CsrOrder>, Fail>
    requires { HasNextRevision views.now.certificate }
    ensures { IfOk result (λ order. table.request_manager views.now ≡ acts.Ask (orders.Csr order)) }
{
    order_in(act(alloc, views, 0, desk)?)
}

#[tactic(auto, unfolding(cmc_rules::specs::RequestManager::request_after))]
fn made_on(
    alloc: Global,
    views: &Views,
    desk: &Desk,
    order: &Shared<CsrOrder>,
) -> Result<String, AllocError>
    requires revision { HasNextRevision views.now.certificate }
    requires asked { table.request_manager views.now ≡ acts.Ask (orders.Csr order.now) }
{
    let _desk = desk;
    if !follows(views) {
        return String::from_str(alloc, "no readable key");
    }
    let given = Given::Signed(ScriptedKeys.sign(alloc, order)?);
    call_told_then(alloc, then(alloc, views, 0, &given)?)
}

// The signature that was made stands in a new request.
#[test]
fn makes_the_request_that_was_signed(rt: HostRuntime) -> Result<(), Fail> {
    let alloc = rt.alloc();
    let views = views(alloc, &KEYED_ONCE)?;
    let desk = desk(alloc);
    let order = question(alloc, &views, &desk)?;
    tells(
        &rt,
        "new request",
        made_on(alloc, &views, &desk, &order)?.as_str(),
        MADE,
    );
    Ok(())
}
