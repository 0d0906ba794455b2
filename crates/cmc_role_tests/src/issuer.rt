//! What no clause says: what the controller that asks issuers does, as texts, and that there is an answer where memory
//! is ample.
ghost use Rattle.std.specs.Prelude.{◌≡◌, ◌<◌, ◌^◌, [], IfOk, IsSome, true};
ghost use Rattle.cmc_objects.specs.declared.orders.Order.TheVariants as orders;
ghost use Rattle.cmc_pass.specs.declared.pass.Act.TheVariants as acts;
ghost use Rattle.cmc_rules.specs.Issuer.{HasRequestForm, issuer};
ghost use Rattle.cmc_objects.specs.Requests.{is_short_text, is_short_option, is_duration_form, is_request_form};

use crate::checks::{tells, tells_at};
use crate::fixtures::{RequestRow, Stated, ask_group, bytes, request};
use crate::requestmanager::WANTED;
use crate::telling::{call_told_then, told_then};
use crate::trigger::desk;
use cmc_answers::{ScriptedSigner, Signer};
use cmc_issuer::{act, follow, is_sound, status_of, then};
use cmc_meta::{ConditionKind, Text, Tri};
use cmc_objects::{Call, CertificateRequest, Object, Order, Shared, SignOrder, Signing};
use cmc_pass::{Act, Desk, Given, Value, Views};
use cmc_tests::values::{let_go, text};
use std::alloc::{AllocError, Global};
use std::process::Abort;
use std::test::Fail;

/// 2030-01-01T00:01:00Z.
const NOW: i64 = 1_893_456_060;

const APPROVED: Stated = (ConditionKind::Approved, Tri::True, "Script", 1_893_456_000);

const DENIED: Stated = (ConditionKind::Denied, Tri::True, "Script", 1_893_456_000);

const OPEN_ROW: RequestRow = RequestRow {
    conditions: &[APPROVED],
    ..WANTED
};

/// What the controller sees of the request, where one exists, and the group of its issuer; and how many questions were
/// asked for its Certificate.
#[derive(Clone, Copy)]
struct Case {
    stands: bool,
    row: RequestRow,
    group: Option<&'static str>,
    asked: u32,
}

/// An approved request that its issuer has not been asked about.
const OPEN: Case = Case {
    stands: true,
    row: OPEN_ROW,
    group: None,
    asked: 0,
};

const ASK: &str = "ask issuer 1 9 1893456060 issue";

/// Requests that are not denied.
static ASKED: [(Case, &str); 10] = [
    (
        Case {
            stands: false,
            ..OPEN
        },
        "nothing",
    ),
    (OPEN, ASK),
    (Case { asked: 4, ..OPEN }, "ask issuer 5 9 1893456060 issue"),
    (
        Case {
            row: WANTED,
            ..OPEN
        },
        "nothing",
    ),
    (
        Case {
            row: RequestRow {
                conditions: &[(ConditionKind::Approved, Tri::False, "", 0)],
                ..WANTED
            },
            ..OPEN
        },
        "nothing",
    ),
    (
        Case {
            row: RequestRow {
                conditions: &[(ConditionKind::Approved, Tri::Unknown, "", 0)],
                ..WANTED
            },
            ..OPEN
        },
        "nothing",
    ),
    (
        Case {
            row: RequestRow {
                conditions: &[(ConditionKind::Ready, Tri::True, "Approved", 0)],
                ..WANTED
            },
            ..OPEN
        },
        "nothing",
    ),
    (
        Case {
            group: Some("cert-manager.io"),
            ..OPEN
        },
        ASK,
    ),
    (
        Case {
            group: Some("example.com"),
            ..OPEN
        },
        "nothing",
    ),
    (
        Case {
            group: Some(""),
            ..OPEN
        },
        "nothing",
    ),
];

/// Approved requests that the issuer has answered, and one that is said not to be denied.
static ANSWERED: [(Case, &str); 9] = [
    (
        Case {
            row: RequestRow {
                conditions: &[(ConditionKind::Ready, Tri::True, "Issued", 0), APPROVED],
                ..WANTED
            },
            ..OPEN
        },
        "nothing",
    ),
    (
        Case {
            row: RequestRow {
                conditions: &[(ConditionKind::Ready, Tri::False, "Issued", 0), APPROVED],
                ..WANTED
            },
            ..OPEN
        },
        "nothing",
    ),
    (
        Case {
            row: RequestRow {
                conditions: &[(ConditionKind::Ready, Tri::False, "Failed", 0), APPROVED],
                ..WANTED
            },
            ..OPEN
        },
        "nothing",
    ),
    (
        Case {
            row: RequestRow {
                conditions: &[
                    (ConditionKind::Ready, Tri::False, "Pending", 1_893_456_001),
                    APPROVED,
                ],
                ..WANTED
            },
            ..OPEN
        },
        "nothing",
    ),
    (
        Case {
            row: RequestRow {
                conditions: &[
                    (ConditionKind::Ready, Tri::False, "Pending", 1_893_456_000),
                    APPROVED,
                ],
                ..WANTED
            },
            ..OPEN
        },
        ASK,
    ),
    (
        Case {
            row: RequestRow {
                conditions: &[
                    (ConditionKind::Ready, Tri::False, "Pending", 1_893_455_999),
                    APPROVED,
                ],
                ..WANTED
            },
            ..OPEN
        },
        ASK,
    ),
    (
        Case {
            row: RequestRow {
                conditions: &[
                    (ConditionKind::Ready, Tri::False, "Pending", 1_893_456_061),
                    APPROVED,
                ],
                ..WANTED
            },
            ..OPEN
        },
        "nothing",
    ),
    (
        Case {
            row: RequestRow {
                conditions: &[(ConditionKind::Ready, Tri::False, "Denied", 0), APPROVED],
                ..WANTED
            },
            ..OPEN
        },
        ASK,
    ),
    (
        Case {
            row: RequestRow {
                conditions: &[APPROVED, (ConditionKind::Denied, Tri::False, "", 0)],
                ..WANTED
            },
            ..OPEN
        },
        ASK,
    ),
];

const MARKED: &str =
    r#"status 9 request {"conditions":[{"lastTransitionTime":"2030-01-01T00:01:00Z","message":"The CertificateRequest was denied by an approval controller","reason":"Denied","status":"False","type":"Ready"},{"lastTransitionTime":"2030-01-01T00:00:00Z","message":"","reason":"Script","status":"True","type":"Denied"}],"failureTime":"2030-01-01T00:01:00Z"}}"#;

const MARKED_ALL: &str =
    r#"status 9 request {"ca":"qv8=","certificate":"Aw==","conditions":[{"lastTransitionTime":"2030-01-01T00:01:00Z","message":"The CertificateRequest was denied by an approval controller","reason":"Denied","status":"False","type":"Ready"},APPROVED,{"lastTransitionTime":"2030-01-01T00:00:00Z","message":"","reason":"Script","status":"True","type":"Denied"}],"failureTime":"2030-01-01T00:01:00Z"}}"#;

/// Denied requests are marked so once, and keep all else.
static REFUSED: [(Case, &str); 4] = [
    (
        Case {
            row: RequestRow {
                conditions: &[DENIED],
                ..WANTED
            },
            ..OPEN
        },
        MARKED,
    ),
    (
        Case {
            row: RequestRow {
                conditions: &[(ConditionKind::Ready, Tri::False, "Denied", 0), DENIED],
                ..WANTED
            },
            ..OPEN
        },
        "nothing",
    ),
    (
        Case {
            row: RequestRow {
                conditions: &[
                    (ConditionKind::Ready, Tri::True, "Issued", 0),
                    APPROVED,
                    DENIED,
                ],
                failure: Some(0),
                certificate: "03",
                ca: "aaff",
                ..WANTED
            },
            ..OPEN
        },
        MARKED_ALL,
    ),
    (
        Case {
            row: RequestRow {
                conditions: &[
                    (ConditionKind::Ready, Tri::True, "Denied", 0),
                    APPROVED,
                    DENIED,
                ],
                ..WANTED
            },
            ..OPEN
        },
        "nothing",
    ),
];

fn is_short(text: &Text) -> bool
    ensures { result ≡ is_short_text text.now }
{
    text.as_str().len() <= 253
}

fn is_short_or_absent(text: &Option<Text>) -> bool
    ensures { result ≡ is_short_option text.now }
{
    match text {
        None => true,
        Some(text) => is_short(text),
    }
}

fn is_duration(seconds: Option<u64>) -> bool
    ensures { result ≡ is_duration_form seconds }
{
    match seconds {
        None => true,
        Some(seconds) => seconds <= 3_599_999_996_400,
    }
}

/// Whether the request is one that reading gives.
fn is_of_form(request: &CertificateRequest) -> bool
    ensures { result ≡ is_request_form request.now }
{
    let issuer = &request.spec.issuer;
    (is_short(&issuer.name)
        && (is_short_or_absent(&issuer.kind) && is_short_or_absent(&issuer.group)))
        && is_duration(request.spec.duration)
}

fn request_of(alloc: Global, case: &Case) -> Result<CertificateRequest, Fail>
    ensures { IfOk result (λ r. is_request_form r ≡ true) }
{
    let mut request = request(alloc, &case.row)?;
    if let Some(group) = case.group {
        ask_group(alloc, &mut request, group)?;
    }
    if is_of_form(&request) {
        return Ok(request);
    }
    Err(Fail::from("no such request"))
}

fn views_of(alloc: Global, case: &Case) -> Result<Views, Fail>
    ensures { IfOk result (λ v. HasRequestForm v.request) }
{
    let mut views = Views::new(alloc);
    views.request = None;
    if case.stands {
        views.request = Some(Shared::new(alloc, request_of(alloc, case)?)?);
    }
    Ok(views)
}

fn asked(alloc: Global, count: u32) -> Desk
    ensures few { result.asked < 2 ^ 63 }
    ensures plain { result.material ≡ [] }
{
    let mut desk = desk(alloc);
    desk.asked = count as u64;
    desk
}

#[tactic(auto, unfolding(cmc_rules::specs::Orders::reply_row))]
fn told_on(alloc: Global, views: &Views, count: u32) -> Result<String, AllocError>
    requires { HasRequestForm views.now.request }
{
    let desk = asked(alloc, count);
    told_then(alloc, act(alloc, views, NOW, &desk)?)
}

fn told_of(alloc: Global, case: &Case) -> Result<String, Fail> {
    let views = views_of(alloc, case)?;
    Ok(told_on(alloc, &views, case.asked)?)
}

fn meets(rt: &impl Abort, alloc: Global, rows: &[(Case, &str)]) -> Result<(), Fail> {
    for (number, (case, expected)) in rows.iter().enumerate() {
        tells_at(rt, number, told_of(alloc, case)?.as_str(), expected);
    }
    Ok(())
}

#[test]
fn asks_about_approved_requests(rt: HostRuntime) -> Result<(), Fail> {
    let alloc = rt.alloc();
    is_sound();
    meets(&rt, alloc, &ASKED)?;
    meets(&rt, alloc, &ANSWERED)?;
    meets(&rt, alloc, &REFUSED)
}

/// What an issuer says.
#[derive(Clone, Copy)]
enum Answer {
    Issued(&'static str, &'static str),
    Pending,
    Failed(&'static str),
}

/// An approved request that the issuer was asked about a minute ago, and that had a certificate and a failure before.
const WAITED: RequestRow = RequestRow {
    conditions: &[
        (ConditionKind::Ready, Tri::False, "Pending", 1_893_456_000),
        APPROVED,
    ],
    failure: Some(0),
    certificate: "03",
    ca: "aaff",
    ..WANTED
};

const WAITED_CASE: Case = Case {
    row: WAITED,
    ..OPEN
};

/// What each answer makes of the status. Another role's condition stays; only a request that goes on waiting gets a new
/// moment where the status of Ready stays False.
static WRITTEN: [(Case, Answer, &str); 6] = [
    (
        OPEN,
        Answer::Issued("03", "aaff"),
        r#""ca":"qv8=","certificate":"Aw==","conditions":[{"lastTransitionTime":"2030-01-01T00:01:00Z","message":"Certificate fetched from issuer successfully","reason":"Issued","status":"True","type":"Ready"},APPROVED]"#,
    ),
    (
        WAITED_CASE,
        Answer::Issued("ff", ""),
        r#""certificate":"/w==","conditions":[{"lastTransitionTime":"2030-01-01T00:01:00Z","message":"Certificate fetched from issuer successfully","reason":"Issued","status":"True","type":"Ready"},APPROVED],"failureTime":"1970-01-01T00:00:00Z""#,
    ),
    (
        OPEN,
        Answer::Pending,
        r#""conditions":[{"lastTransitionTime":"2030-01-01T00:01:00Z","message":"Waiting on the issuer","reason":"Pending","status":"False","type":"Ready"},APPROVED]"#,
    ),
    (
        WAITED_CASE,
        Answer::Pending,
        r#""ca":"qv8=","certificate":"Aw==","conditions":[{"lastTransitionTime":"2030-01-01T00:01:00Z","message":"Waiting on the issuer","reason":"Pending","status":"False","type":"Ready"},APPROVED],"failureTime":"1970-01-01T00:00:00Z""#,
    ),
    (
        OPEN,
        Answer::Failed("The issuer refused"),
        r#""conditions":[{"lastTransitionTime":"2030-01-01T00:01:00Z","message":"The issuer refused","reason":"Failed","status":"False","type":"Ready"},APPROVED],"failureTime":"2030-01-01T00:01:00Z""#,
    ),
    (
        WAITED_CASE,
        Answer::Failed("no"),
        r#""ca":"qv8=","certificate":"Aw==","conditions":[{"lastTransitionTime":"2030-01-01T00:00:00Z","message":"no","reason":"Failed","status":"False","type":"Ready"},APPROVED],"failureTime":"2030-01-01T00:01:00Z""#,
    ),
];

fn signing(alloc: Global, answer: &Answer) -> Result<Signing, Fail> {
    match answer {
        Answer::Issued(certificate, ca) => {
            let certificate = bytes(alloc, certificate)?;
            Ok(Signing::Issued {
                certificate,
                ca: bytes(alloc, ca)?,
            })
        }
        Answer::Pending => Ok(Signing::Pending),
        Answer::Failed(message) => Ok(Signing::Failed {
            message: text(alloc, message)?,
        }),
    }
}

fn order_of(act: &Act) -> Result<Shared<SignOrder>, Fail>
    ensures { IfOk result (λ order. act.now ≡ acts.Ask (orders.Sign order)) }
{
    match act {
        Act::Ask(Order::Sign(order)) => Ok(order.copy()?),
        _ => Err(Fail::from("no question")),
    }
}

fn order_in(act: Act) -> Result<Shared<SignOrder>, Fail>
    ensures { IfOk result (λ order. act ≡ acts.Ask (orders.Sign order)) }
{
    let order = order_of(&act);
    let_go(act);
    order
}

/// The question about the request.
#[tactic(auto, unfolding(cmc_rules::specs::Orders::reply_row))]
fn question(alloc: Global, views: &Views, desk: &Desk) -> Result<Shared<SignOrder>, Fail>
    requires form { HasRequestForm views.now.request }
    requires few { desk.now.asked < 2 ^ 63 }
    requires plain { desk.now.material ≡ [] }
    ensures { IfOk result (λ order. issuer views.now NOW desk.now ≡ acts.Ask (orders.Sign order)) }
{
    order_in(act(alloc, views, NOW, desk)?)
}

/// The request with the status that the answer makes.
fn answered(
    alloc: Global,
    request: &CertificateRequest,
    answer: &Signing,
) -> Result<Object, AllocError> {
    let status = status_of(alloc, request, answer, NOW)?;
    let answered = CertificateRequest {
        meta: request.meta.copy()?,
        spec: request.spec.copy()?,
        status: Shared::new(alloc, status)?,
    };
    Object::of_request(alloc, answered)
}

fn views_with(alloc: Global, case: &Case) -> Result<Views, Fail>
    ensures form { IfOk result (λ v. HasRequestForm v.request) }
    ensures stands { IfOk result (λ v. IsSome v.request) }
{
    let mut views = Views::new(alloc);
    views.request = Some(Shared::new(alloc, request_of(alloc, case)?)?);
    Ok(views)
}

fn written(alloc: Global, case: &Case, answer: &Answer) -> Result<String, Fail> {
    let request = request_of(alloc, case)?;
    let object = answered(alloc, &request, &signing(alloc, answer)?)?;
    let version = request.meta.version;
    Ok(call_told_then(alloc, Call::UpdateStatus { object, version })?)
}

fn status_told(alloc: Global, members: &str) -> Result<String, AllocError> {
    format!(in alloc; "status 9 request {{{members}}}}}")
}

#[test]
fn writes_answers(rt: HostRuntime) -> Result<(), Fail> {
    let alloc = rt.alloc();
    for (case, answer, members) in &WRITTEN {
        let written = written(alloc, case, answer)?;
        let want = status_told(alloc, members)?;
        tells(&rt, members, written.as_str(), want.as_str());
    }
    Ok(())
}

const BY_SCRIPT: &str =
    r#""certificate":"BY-SCRIPT","conditions":[{"lastTransitionTime":"2030-01-01T00:01:00Z","message":"Certificate fetched from issuer successfully","reason":"Issued","status":"True","type":"Ready"},APPROVED]"#;

static ASKED_ONCE: Case = OPEN;

#[tactic(auto, unfolding(cmc_rules::specs::Issuer::answered_after))]
fn scripted(alloc: Global, views: &Views) -> Result<String, Fail>
    requires form { HasRequestForm views.now.request }
    requires stands { IsSome views.now.request }
{
    let desk = asked(alloc, 0);
    let order = question(alloc, views, &desk)?;
    let given = Given::Answered(ScriptedSigner.sign(alloc, &order)?);
    Ok(call_told_then(alloc, then(alloc, views, NOW, &given)?)?)
}

/// The same, where question and answer are handed in each by itself.
#[tactic(auto, unfolding(cmc_rules::specs::Issuer::answered_after))]
fn scripted_apart(alloc: Global, views: &Views) -> Result<String, Fail>
    requires form { HasRequestForm views.now.request }
    requires stands { IsSome views.now.request }
{
    let desk = asked(alloc, 0);
    let order = question(alloc, views, &desk)?;
    let (order, answer) = ScriptedSigner.sign(alloc, &order)?.into_parts();
    let (order, value) = (Order::Sign(order), Value::Answered(answer));
    Ok(call_told_then(alloc, follow(alloc, views, NOW, &order, &value)?)?)
}

// A plain answer is a certificate for what the request asks for.
#[test]
fn writes_the_certificate_that_was_issued(rt: HostRuntime) -> Result<(), Fail> {
    let alloc = rt.alloc();
    let views = views_with(alloc, &ASKED_ONCE)?;
    let want = status_told(alloc, BY_SCRIPT)?;
    let written = scripted(alloc, &views)?;
    tells(&rt, "by script", written.as_str(), want.as_str());
    let written = scripted_apart(alloc, &views)?;
    tells(&rt, "each by itself", written.as_str(), want.as_str());
    Ok(())
}
