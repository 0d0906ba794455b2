//! What no clause says: what the key manager does, as texts, and that there is an answer where memory is ample.
ghost use Rattle.std.specs.Prelude.{◌≡◌, ◌<◌, ◌^◌, IfOk, IsSome};
ghost use Rattle.cmc_objects.specs.declared.orders.Order.TheVariants as orders;
ghost use Rattle.cmc_pass.specs.declared.pass.Act.TheVariants as acts;
ghost use Rattle.cmc_rules.specs.KeyManager.{key_manager};

use crate::checks::{passes, tells, tells_at};
use crate::fixtures::{Case, SecretRow, Stated, bytes, certificate, views};
use crate::telling::{call_told_then, told_then};
use crate::trigger::{KEY, OTHER, desk};
use cmc_keymanager::{act, is_sound, then};
use cmc_keys::{KeyMaker, ScriptedKeys, is_allowed_size};
use cmc_meta::{ConditionKind, Kind, Tri};
use cmc_objects::{
    Algorithm, KeyOrder, KeyRow, KeyRows, Material, Order, Rotation, Rows, Shared, SignRows,
};
use cmc_pass::{Act, Desk, Given, Views};
use cmc_tests::values::{key, let_go};
use std::alloc::{AllocError, Global};
use std::process::Abort;
use std::test::Fail;

/// A key file of P-384 that `openssl ecparam -genkey` made: of another size than the one that is asked for.
pub(crate) const WIDE: &str =
    "3081a402010104301bb5d509c01f1e877d4238df77fba1465560a08e32a079e816172b65017f36f060df2233bccbb801bf5b4180e19e9b1aa00706052b81040022a16403620004c48f649e005b7395581d53e2c13b15a4dbd8e2ab8da8a7d2327bc1de5df69742a20572ae91fdde6aa3ad515125bd4a899a932cebb82a8ef5e25249662ab78e359738a4c732fc99d3e04cbe4d3fdc56771b5547b521e4cd729ad77005b5b8130d";

/// The condition Issuing since 2030-01-01T00:00:00Z.
const ISSUING: &[Stated] = &[(
    ConditionKind::Issuing,
    Tri::True,
    "DoesNotExist",
    1_893_456_000,
)];

const ISSUED: &[Stated] = &[(ConditionKind::Issuing, Tri::False, "Issued", 1_893_456_000)];

const FIRST: SecretRow = SecretRow {
    name: "web-bbbbf",
    version: 7,
    labels: &[("cert-manager.io/next-private-key", "true")],
    marks: &[],
    parts: &[("tls.key", KEY)],
};

const SECOND: SecretRow = SecretRow {
    name: "web-bbbbg",
    version: 8,
    ..FIRST
};

/// The Secret with the certificate, which has this key.
const TARGET: SecretRow = SecretRow {
    name: "web-tls",
    version: 5,
    labels: &[],
    ..FIRST
};

/// The Certificate is being issued for the first time, and no key exists.
const BEGUN: Case = Case {
    stands: true,
    conditions: ISSUING,
    algorithm: Some(Algorithm::Ecdsa),
    rotation: None,
    named: "",
    revision: None,
    failures: None,
    marks: &[],
    target: None,
    next: &[],
    requests: &[],
};

const IDLE: Case = Case {
    conditions: ISSUED,
    ..BEGUN
};

/// The target's key is to be taken again.
const AGAIN: Case = Case {
    rotation: Some(Rotation::Never),
    target: Some(TARGET),
    ..BEGUN
};

const CREATED: &str =
    r#"generate {"apiVersion":"v1","data":{"tls.key":"KEY"},"kind":"Secret","metadata":{"labels":{"cert-manager.io/next-private-key":"true"},"name":"web","namespace":"default","ownerReferences":[{"controller":true,"kind":"Certificate","name":"web","uid":"uid-1"}]},"type":"Opaque"}"#;

const NAMED: &str =
    r#"status 3 web {"conditions":[{"lastTransitionTime":"2030-01-01T00:00:00Z","message":"","reason":"DoesNotExist","status":"True","type":"Issuing"}],"nextPrivateKeySecretName":"web-bbbbf"}}"#;

const UNNAMED: &str =
    r#"status 3 web {"conditions":[{"lastTransitionTime":"2030-01-01T00:00:00Z","message":"","reason":"Issued","status":"False","type":"Issuing"}]}}"#;

/// Where nothing is being issued, and where one key or several stand.
static KEPT: [(Case, &str); 12] = [
    (
        Case {
            stands: false,
            next: &[FIRST],
            ..BEGUN
        },
        "nothing",
    ),
    (
        Case {
            named: "web-bbbbg",
            next: &[FIRST, SECOND],
            ..IDLE
        },
        "delete 7 Secret/default/web-bbbbf",
    ),
    (
        Case {
            conditions: &[],
            next: &[SECOND],
            ..IDLE
        },
        "delete 8 Secret/default/web-bbbbg",
    ),
    (
        Case {
            named: "web-bbbbf",
            ..IDLE
        },
        UNNAMED,
    ),
    (IDLE, "nothing"),
    (
        Case {
            named: "web-bbbbg",
            next: &[FIRST, SECOND],
            ..BEGUN
        },
        "delete 7 Secret/default/web-bbbbf",
    ),
    (
        Case {
            named: "web-bbbbf",
            next: &[FIRST, SECOND],
            ..BEGUN
        },
        "delete 8 Secret/default/web-bbbbg",
    ),
    (
        Case {
            next: &[FIRST, SECOND],
            ..BEGUN
        },
        "delete 7 Secret/default/web-bbbbf",
    ),
    (
        Case {
            next: &[FIRST],
            ..BEGUN
        },
        NAMED,
    ),
    (
        Case {
            named: "web-bbbbg",
            next: &[FIRST],
            ..BEGUN
        },
        NAMED,
    ),
    (
        Case {
            named: "web-bbbbf",
            next: &[FIRST],
            ..BEGUN
        },
        "nothing",
    ),
    (
        Case {
            named: "web-bbbbf",
            next: &[SecretRow {
                parts: &[("tls.key", "000000")],
                ..FIRST
            }],
            ..BEGUN
        },
        "delete 7 Secret/default/web-bbbbf",
    ),
];

/// Keys that do not fit; and where no key stands a new one, or with the rotation Never the one of the target.
static ASKED: [(Case, &str); 12] = [
    (
        Case {
            next: &[SecretRow {
                parts: &[],
                ..FIRST
            }],
            ..BEGUN
        },
        "delete 7 Secret/default/web-bbbbf",
    ),
    (
        Case {
            next: &[SecretRow {
                parts: &[("tls.key", WIDE)],
                ..FIRST
            }],
            ..BEGUN
        },
        "delete 7 Secret/default/web-bbbbf",
    ),
    (
        Case {
            algorithm: None,
            next: &[FIRST],
            ..BEGUN
        },
        "delete 7 Secret/default/web-bbbbf",
    ),
    (BEGUN, "ask key 3 default/web ECDSA 256 default"),
    (
        Case {
            algorithm: None,
            ..BEGUN
        },
        "ask key 3 default/web RSA 2048 default",
    ),
    (
        Case {
            rotation: None,
            ..AGAIN
        },
        "ask key 3 default/web ECDSA 256 default",
    ),
    (
        Case {
            rotation: Some(Rotation::Always),
            ..AGAIN
        },
        "ask key 3 default/web ECDSA 256 default",
    ),
    (
        Case {
            target: None,
            ..AGAIN
        },
        "ask key 3 default/web ECDSA 256 default",
    ),
    (
        Case {
            target: Some(SecretRow {
                parts: &[("tls.key", "000000")],
                ..TARGET
            }),
            ..AGAIN
        },
        "ask key 3 default/web ECDSA 256 default",
    ),
    (
        Case {
            target: Some(SecretRow {
                parts: &[("tls.crt", KEY)],
                ..TARGET
            }),
            ..AGAIN
        },
        "ask key 3 default/web ECDSA 256 default",
    ),
    (AGAIN, CREATED),
    (
        Case {
            target: Some(SecretRow {
                parts: &[("tls.key", WIDE)],
                ..TARGET
            }),
            ..AGAIN
        },
        "nothing",
    ),
];

fn asked(alloc: Global) -> Desk
    ensures { result.asked < 2 ^ 63 }
{
    let mut desk = desk(alloc);
    desk.asked = 2;
    desk
}

fn told_on(alloc: Global, views: &Views) -> Result<String, AllocError> {
    let desk = asked(alloc);
    told_then(alloc, act(alloc, views, 0, &desk)?)
}

fn told_of(alloc: Global, case: &Case) -> Result<String, Fail> {
    let views = views(alloc, case)?;
    Ok(told_on(alloc, &views)?)
}

fn meets(rt: &impl Abort, alloc: Global, rows: &[(Case, &str)]) -> Result<(), Fail> {
    for (number, (case, expected)) in rows.iter().enumerate() {
        tells_at(rt, number, told_of(alloc, case)?.as_str(), expected);
    }
    Ok(())
}

// One key is kept while the Certificate is being issued, and the status names it; afterwards none.
#[test]
fn keeps_one_key(rt: HostRuntime) -> Result<(), Fail> {
    is_sound();
    meets(&rt, rt.alloc(), &KEPT)
}

#[test]
fn asks_or_takes_the_key_again(rt: HostRuntime) -> Result<(), Fail> {
    meets(&rt, rt.alloc(), &ASKED)
}

fn rows(alloc: Global) -> Result<Rows, Fail> {
    let mut keys = KeyRows::new(alloc);
    keys.push(KeyRow::Der(bytes(alloc, KEY)?))?;
    let replies = SignRows::new(alloc);
    Ok(Rows { keys, replies })
}

fn material(alloc: Global) -> Result<Material, Fail> {
    let mut material = Material::new(alloc);
    let web = key(alloc, Kind::Certificate, "web")?;
    material.set(web, rows(alloc)?)?;
    Ok(material)
}

/// The scenario's first key of the Certificate is the one that openssl made.
fn scripted(alloc: Global) -> Result<Desk, Fail>
    ensures { IfOk result (λ d. d.asked < 2 ^ 63) }
{
    let mut desk = desk(alloc);
    desk.material = material(alloc)?;
    desk.asked = 0;
    Ok(desk)
}

fn order_of(act: &Act) -> Result<Shared<KeyOrder>, Fail>
    ensures { IfOk result (λ order. act.now ≡ acts.Ask (orders.Key order)) }
{
    match act {
        Act::Ask(Order::Key(order)) => Ok(order.copy()?),
        _ => Err(Fail::from("no question")),
    }
}

fn order_in(act: Act) -> Result<Shared<KeyOrder>, Fail>
    ensures { IfOk result (λ order. act ≡ acts.Ask (orders.Key order)) }
{
    let order = order_of(&act);
    let_go(act);
    order
}

fn question(alloc: Global, views: &Views, desk: &Desk) -> Result<Shared<KeyOrder>, Fail>
    requires { desk.now.asked < 2 ^ 63 }
    ensures { IfOk result (λ order. key_manager views.now desk.now ≡ acts.Ask (orders.Key order)) }
{
    order_in(act(alloc, views, 0, desk)?)
}

static BEGUN_ONCE: Case = BEGUN;

fn views_with(alloc: Global, case: &Case) -> Result<Views, Fail>
    ensures { IfOk result (λ v. IsSome v.certificate) }
{
    let mut views = Views::new(alloc);
    views.certificate = Some(Shared::new(alloc, certificate(alloc, case)?)?);
    Ok(views)
}

#[tactic(auto, unfolding(cmc_rules::specs::KeyManager::key_after))]
fn kept(
    alloc: Global,
    views: &Views,
    desk: &Desk,
    order: &Shared<KeyOrder>,
) -> Result<String, AllocError>
    requires stands { IsSome views.now.certificate }
    requires asked { key_manager views.now desk.now ≡ acts.Ask (orders.Key order.now) }
{
    let _desk = desk;
    if !is_allowed_size(order.algorithm, order.size) {
        return String::from_str(alloc, "another size");
    }
    let given = Given::Made(ScriptedKeys.make(alloc, order)?);
    call_told_then(alloc, then(alloc, views, 0, &given)?)
}

// The key that was made, by the row of the first question, is kept in a new Secret.
#[test]
fn keeps_the_key_that_was_made(rt: HostRuntime) -> Result<(), Fail> {
    let alloc = rt.alloc();
    let views = views_with(alloc, &BEGUN_ONCE)?;
    let desk = scripted(alloc)?;
    let order = question(alloc, &views, &desk)?;
    passes(&rt, "the first", order.number == 1);
    let kept = kept(alloc, &views, &desk, &order)?;
    tells(&rt, "kept", kept.as_str(), CREATED);
    Ok(())
}
