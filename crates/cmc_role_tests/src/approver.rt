//! What no clause says: what the approver asks and writes, as texts, and that there is an answer where memory is ample.
ghost use Rattle.std.specs.Prelude.{◌≡◌, IfOk, IsSome};
ghost use Rattle.cmc_objects.specs.declared.orders.Order.TheVariants as orders;
ghost use Rattle.cmc_pass.specs.declared.pass.Act.TheVariants as acts;
ghost use Rattle.cmc_rules.specs.Approver.{approver};

use crate::checks::{passes, tells_at};
use crate::fixtures::{RequestRow, ask_group, request};
use crate::requestmanager::WANTED;
use crate::telling::{call_told_then, told_then};
use crate::trigger::{OTHER_NAME, desk};
use cmc_answers::judge;
use cmc_approver::{act, is_sound, then};
use cmc_meta::{ConditionKind, Tri};
use cmc_objects::{CertificateRequest, JudgeOrder, Order, Rules, Shared};
use cmc_pass::{Act, Desk, Given, Views};
use cmc_policy_rules::{Policies, Policy};
use cmc_tests::values::{let_go, policy, text, texts};
use std::alloc::{AllocError, Global};
use std::test::Fail;

/// What the controller sees of the request, where one exists, and the group of its issuer `ca`; and the issuers that the
/// rules name.
#[derive(Clone, Copy)]
struct Case {
    stands: bool,
    row: RequestRow,
    group: Option<&'static str>,
    issuers: &'static [&'static str],
}

/// A request without a verdict to an issuer that the rules name.
const OPEN: Case = Case {
    stands: true,
    row: WANTED,
    group: None,
    issuers: &["ca"],
};

/// It judges the requests that have no verdict yet, to the issuers of cert-manager's own group that the rules name.
static CASES: [(Case, &str); 15] = [
    (
        Case {
            stands: false,
            ..OPEN
        },
        "nothing",
    ),
    (OPEN, "judge 9 1"),
    (
        Case {
            row: RequestRow {
                conditions: &[(ConditionKind::Approved, Tri::True, "Script", 0)],
                ..WANTED
            },
            ..OPEN
        },
        "nothing",
    ),
    (
        Case {
            row: RequestRow {
                conditions: &[(ConditionKind::Denied, Tri::True, "Script", 0)],
                ..WANTED
            },
            ..OPEN
        },
        "nothing",
    ),
    (
        Case {
            row: RequestRow {
                conditions: &[(ConditionKind::Approved, Tri::False, "Script", 0)],
                ..WANTED
            },
            ..OPEN
        },
        "judge 9 1",
    ),
    (
        Case {
            row: RequestRow {
                conditions: &[(ConditionKind::Ready, Tri::True, "Issued", 0)],
                ..WANTED
            },
            ..OPEN
        },
        "judge 9 1",
    ),
    (
        Case {
            group: Some("cert-manager.io"),
            ..OPEN
        },
        "judge 9 1",
    ),
    (
        Case {
            group: Some(""),
            ..OPEN
        },
        "nothing",
    ),
    (
        Case {
            group: Some("example.com"),
            ..OPEN
        },
        "nothing",
    ),
    (
        Case {
            issuers: &["*"],
            ..OPEN
        },
        "judge 9 1",
    ),
    (
        Case {
            issuers: &["acme", "ca"],
            ..OPEN
        },
        "judge 9 2",
    ),
    (
        Case {
            issuers: &["ca2", "c"],
            ..OPEN
        },
        "nothing",
    ),
    (
        Case {
            issuers: &["c*"],
            ..OPEN
        },
        "nothing",
    ),
    (
        Case {
            issuers: &[],
            ..OPEN
        },
        "nothing",
    ),
    (
        Case {
            group: Some("example.com"),
            issuers: &["*"],
            ..OPEN
        },
        "nothing",
    ),
];

fn request_of(alloc: Global, case: &Case) -> Result<CertificateRequest, Fail> {
    let mut request = request(alloc, &case.row)?;
    if let Some(group) = case.group {
        ask_group(alloc, &mut request, group)?;
    }
    Ok(request)
}

fn views_of(alloc: Global, case: &Case) -> Result<Views, Fail> {
    let mut views = Views::new(alloc);
    if case.stands {
        views.request = Some(Shared::new(alloc, request_of(alloc, case)?)?);
    }
    Ok(views)
}

fn desk_of(alloc: Global, issuers: &[&str]) -> Result<Desk, Fail> {
    let mut desk = desk(alloc);
    for issuer in issuers {
        desk.rules.issuers.push(text(alloc, issuer)?)?;
    }
    Ok(desk)
}

fn told_on(alloc: Global, views: &Views, desk: &Desk) -> Result<String, AllocError> {
    told_then(alloc, act(alloc, views, 0, desk)?)
}

fn told_by(alloc: Global, case: &Case, desk: &Desk) -> Result<String, Fail> {
    let views = views_of(alloc, case)?;
    Ok(told_on(alloc, &views, desk)?)
}

fn told_of(alloc: Global, case: &Case) -> Result<String, Fail> {
    let desk = desk_of(alloc, case.issuers)?;
    told_by(alloc, case, &desk)
}

#[test]
fn judges_open_requests(rt: HostRuntime) -> Result<(), Fail> {
    is_sound();
    for (number, (case, expected)) in CASES.iter().enumerate() {
        tells_at(&rt, number, told_of(rt.alloc(), case)?.as_str(), expected);
    }
    Ok(())
}

/// A policy for these issuers, the DNS names that it allows and no others, and the longest duration.
type PolicyRow = (&'static str, &'static str, Option<u64>);

/// The request that is judged, the name that is refused, and the policies.
#[derive(Clone, Copy)]
struct Ruled {
    row: RequestRow,
    refuse: &'static str,
    policies: &'static [PolicyRow],
}

const RULED: Ruled = Ruled {
    row: WANTED,
    refuse: "other.example.com",
    policies: &[],
};

const YES: (&str, &str) = (
    "Approved",
    "Certificate request has been approved by cert-manager.io",
);

const REFUSED: (&str, &str) = ("Denied", "Certificate request has a refused name");

/// What is written: Approved, or Denied and why.
static VERDICTS: [(Ruled, (&str, &str)); 12] = [
    (RULED, YES),
    (
        Ruled {
            refuse: "example.com",
            ..RULED
        },
        REFUSED,
    ),
    (
        Ruled {
            row: RequestRow {
                der: OTHER_NAME,
                ..WANTED
            },
            ..RULED
        },
        REFUSED,
    ),
    (
        Ruled {
            row: RequestRow {
                der: OTHER_NAME,
                ..WANTED
            },
            refuse: "example.com",
            ..RULED
        },
        YES,
    ),
    (
        Ruled {
            row: RequestRow {
                der: "3000",
                ..WANTED
            },
            ..RULED
        },
        REFUSED,
    ),
    (
        Ruled {
            policies: &[("*", "*example.com", None)],
            ..RULED
        },
        YES,
    ),
    (
        Ruled {
            policies: &[("*", "*example.com", Some(7_776_000))],
            ..RULED
        },
        YES,
    ),
    (
        Ruled {
            policies: &[("*", "*example.com", Some(7_772_400))],
            ..RULED
        },
        ("Denied", "Policy web does not allow maxDuration"),
    ),
    (
        Ruled {
            policies: &[("*", "*.example.com", None)],
            ..RULED
        },
        ("Denied", "Policy web does not allow dnsNames"),
    ),
    (
        Ruled {
            policies: &[("other", "*example.com", None)],
            ..RULED
        },
        ("Denied", "No policy applies to the request"),
    ),
    (
        Ruled {
            policies: &[("*", "*.example.com", None), ("ca", "*", Some(0))],
            ..RULED
        },
        ("Denied", "Policy web does not allow dnsNames"),
    ),
    (
        Ruled {
            policies: &[("*", "*.example.com", None), ("ca", "*", None)],
            ..RULED
        },
        YES,
    ),
];

fn policy_of(alloc: Global, row: PolicyRow) -> Result<Policy, AllocError> {
    let mut policy = policy(alloc, "web", row.0, row.1)?;
    policy.max = row.2;
    Ok(policy)
}

fn policies(alloc: Global, rows: &[PolicyRow]) -> Result<Policies, AllocError> {
    let mut policies = Policies::new(alloc);
    for row in rows {
        policies.push(policy_of(alloc, *row)?)?;
    }
    Ok(policies)
}

fn rules(alloc: Global, ruled: &Ruled) -> Result<Rules, Fail> {
    let policies = policies(alloc, ruled.policies)?;
    Ok(Rules {
        issuers: texts(alloc, "ca")?,
        refuse: texts(alloc, ruled.refuse)?,
        policies,
    })
}

fn order_of(act: &Act) -> Result<Shared<JudgeOrder>, Fail>
    ensures { IfOk result (λ order. act.now ≡ acts.Ask (orders.Judge order)) }
{
    match act {
        Act::Ask(Order::Judge(order)) => Ok(order.copy()?),
        _ => Err(Fail::from("no question")),
    }
}

fn order_in(act: Act) -> Result<Shared<JudgeOrder>, Fail>
    ensures { IfOk result (λ order. act ≡ acts.Ask (orders.Judge order)) }
{
    let order = order_of(&act);
    let_go(act);
    order
}

fn question(alloc: Global, views: &Views, desk: &Desk) -> Result<Shared<JudgeOrder>, Fail>
    ensures { IfOk result (λ order. approver views.now desk.now ≡ acts.Ask (orders.Judge order)) }
{
    order_in(act(alloc, views, 0, desk)?)
}

/// What is written of the request that is seen, at 2030-01-01T00:01:00Z.
#[tactic(auto, unfolding(cmc_rules::specs::Approver::judged_after))]
fn written_on(
    alloc: Global,
    views: &Views,
    desk: &Desk,
    order: Shared<JudgeOrder>,
) -> Result<String, AllocError>
    requires stands { IsSome views.now.request }
    requires asked { approver views.now desk.now ≡ acts.Ask (orders.Judge order) }
{
    let _desk = desk;
    let given = Given::Judged(judge(alloc, order)?);
    call_told_then(alloc, then(alloc, views, 1_893_456_060, &given)?)
}

fn views_with(alloc: Global, row: &RequestRow) -> Result<Views, Fail>
    ensures { IfOk result (λ v. IsSome v.request) }
{
    let mut views = Views::new(alloc);
    views.request = Some(Shared::new(alloc, request(alloc, row)?)?);
    Ok(views)
}

fn written(alloc: Global, ruled: &Ruled) -> Result<String, Fail> {
    let views = views_with(alloc, &ruled.row)?;
    let mut desk = desk(alloc);
    desk.rules = rules(alloc, ruled)?;
    let order = question(alloc, &views, &desk)?;
    Ok(written_on(alloc, &views, &desk, order)?)
}

fn verdict(alloc: Global, kind: &str, message: &str) -> Result<String, AllocError> {
    format!(in alloc;
        r#"{{"conditions":[{{"lastTransitionTime":"2030-01-01T00:01:00Z","message":"{message}","reason":"cert-manager.io","status":"True","type":"{kind}"}}]}}}}"#
    )
}

#[test]
fn writes_verdicts(rt: HostRuntime) -> Result<(), Fail> {
    let alloc = rt.alloc();
    for (ruled, (kind, message)) in &VERDICTS {
        let written = written(alloc, ruled)?;
        let want = verdict(alloc, kind, message)?;
        let told = written.as_str();
        passes(&rt, told, told.starts_with("status 9 "));
        passes(&rt, told, told.ends_with(want.as_str()));
    }
    Ok(())
}
