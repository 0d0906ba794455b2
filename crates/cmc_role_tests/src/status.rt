//! What no clause says: what the readiness and the revision controllers write, as texts, and that there is an answer
//! where memory is ample.
ghost use Rattle.std.specs.Prelude.{◌≡◌, None};

use crate::checks::{tells, tells_at};
use crate::fixtures::conditions as stated;
use crate::trigger::{Case, NONE, OTHER_NAME, REQUEST, WELL, desk, request, views};
use cmc_meta::{ConditionKind, Tri};
use cmc_objects::{
    Call, CertSpec, CertStatus, Certificate, CertificateRequest, Object, RequestStatus, Shared,
};
use cmc_pass::{Act, Requests, Views};
use cmc_status::{act_readiness, act_revision, is_readiness_sound, is_revision_sound};
use cmc_tests::values::{let_go, name as object_name};
use std::alloc::{AllocError, Global};
use std::test::Fail;

/// When the certificate of the tests begins, ends and is renewed: openssl prints the first two.
const TIMES: &str = "1795748973 1803524973 1800932973";

fn moment(alloc: Global, at: Option<i64>) -> Result<String, AllocError> {
    match at {
        None => String::from_str(alloc, "-"),
        Some(at) => format!(in alloc; "{at}"),
    }
}

fn times_of(alloc: Global, status: &CertStatus) -> Result<String, AllocError> {
    let before = moment(alloc, status.not_before)?;
    let after = moment(alloc, status.not_after)?;
    let renewal = moment(alloc, status.renewal)?;
    format!(in alloc; "{before} {after} {renewal}")
}

fn ready_of(alloc: Global, status: &CertStatus) -> Result<String, AllocError> {
    let Some(condition) = status.conditions.get(ConditionKind::Ready) else {
        return String::from_str(alloc, "no condition");
    };
    let reason = condition.reason.as_str();
    let message = condition.message.as_str();
    let since = condition.since;
    let word = if condition.status.same(Tri::True) {
        "True"
    } else {
        "False"
    };
    format!(in alloc; "{since} {word} {reason}: {message}")
}

/// What the act writes: the version that it names, the condition Ready and the times.
fn status_told(alloc: Global, version: u64, status: &CertStatus) -> Result<String, AllocError> {
    let ready = ready_of(alloc, status)?;
    let times = times_of(alloc, status)?;
    format!(in alloc; "{version} {ready} {times}")
}

fn told(alloc: Global, act: &Act) -> Result<String, AllocError> {
    match act {
        Act::Call(
            Call::UpdateStatus {
                object: Object::Cert(certificate),
                version,
            },
        ) => status_told(alloc, *version, &certificate.status),
        _ => String::from_str(alloc, "nothing"),
    }
}

fn told_then(alloc: Global, act: Act) -> Result<String, AllocError> {
    let told = told(alloc, &act);
    let_go(act);
    told
}

fn told_on(alloc: Global, views: &Views, now: i64) -> Result<String, AllocError> {
    let desk = desk(alloc);
    told_then(alloc, act_readiness(alloc, views, now, &desk)?)
}

fn told_of(alloc: Global, case: &Case) -> Result<String, Fail>
    requires { case.now.failed ≡ None }
{
    let views = views(alloc, case)?;
    Ok(told_on(alloc, &views, case.now)?)
}

const READY: &str = "True Ready: Certificate is up to date and has not expired";

/// What the status says comes from the Secret, the specification and the current request alone: the reason, and the
/// times.
static READINESS: [(Case, &str, &str); 8] = [
    (
        NONE,
        "False DoesNotExist: Certificate is not ready: DoesNotExist",
        "- - -",
    ),
    (WELL, READY, TIMES),
    (
        Case {
            now: 1_803_524_972,
            ..WELL
        },
        READY,
        TIMES,
    ),
    (
        Case {
            now: 1_803_524_973,
            ..WELL
        },
        "False Expired: Certificate is not ready: Expired",
        TIMES,
    ),
    (
        Case {
            mark: ("cert-manager.io/issuer-name", "other"),
            ..WELL
        },
        READY,
        TIMES,
    ),
    (
        Case {
            mark: ("cert-manager.io/temporary-certificate", "true"),
            ..WELL
        },
        "False MissingData: Certificate is not ready: MissingData",
        TIMES,
    ),
    (
        Case {
            algorithm: None,
            ..WELL
        },
        "False SecretMismatch: Certificate is not ready: SecretMismatch",
        TIMES,
    ),
    (
        Case {
            requests: &[("1", OTHER_NAME)],
            ..WELL
        },
        "False RequestChanged: Certificate is not ready: RequestChanged",
        TIMES,
    ),
];

/// What is done where no attempt failed.
fn told_at_first(alloc: Global, case: &Case) -> Result<String, Fail> {
    let never_failed = Case {
        failed: None,
        ..*case
    };
    told_of(alloc, &never_failed)
}

fn expected(alloc: Global, now: i64, reason: &str, times: &str) -> Result<String, AllocError> {
    format!(in alloc; "3 {now} {reason} {times}")
}

#[test]
fn says_whether_a_certificate_is_ready(rt: HostRuntime) -> Result<(), Fail> {
    let alloc = rt.alloc();
    is_readiness_sound();
    for (case, reason, times) in &READINESS {
        let want = expected(alloc, case.now, reason, times)?;
        let told = told_at_first(alloc, case)?;
        tells(&rt, reason, told.as_str(), want.as_str());
    }
    Ok(())
}

/// A request of this name and revision that is Ready as the status says.
fn ready_request(alloc: Global, row: &Row) -> Result<CertificateRequest, Fail> {
    let (name, number, status) = *row;
    let mut request = request(alloc, number, REQUEST)?;
    request.meta.name = object_name(alloc, name)?;
    let mut own = RequestStatus::copy(&request.status)?;
    own.conditions = stated(alloc, &[(ConditionKind::Ready, status, "Issued", 0)])?;
    request.status = Shared::new(alloc, own)?;
    Ok(request)
}

/// The name, the revision and the Ready of a request.
type Row = (&'static str, &'static str, Tri);

fn add(alloc: Global, requests: &mut Requests, row: &Row) -> Result<(), Fail> {
    let request = ready_request(alloc, row)?;
    requests.push(Shared::new(alloc, request)?)?;
    Ok(())
}

/// The Certificate with this limit.
fn with_limit(
    alloc: Global,
    certificate: &Certificate,
    limit: Option<u32>,
) -> Result<Shared<Certificate>, AllocError> {
    let mut certificate = Certificate::copy(certificate)?;
    let mut spec = CertSpec::copy(&certificate.spec)?;
    spec.history_limit = limit;
    certificate.spec = Shared::new(alloc, spec)?;
    Shared::new(alloc, certificate)
}

/// Limits the Certificate that is seen.
fn set_limit(alloc: Global, views: &mut Views, limit: Option<u32>) -> Result<(), AllocError> {
    if let Some(certificate) = &views.certificate {
        let limited = with_limit(alloc, certificate, limit)?;
        views.certificate = Some(limited);
    }
    Ok(())
}

/// What is seen where this is the limit and these are the requests.
fn limited(
    alloc: Global,
    case: &Case,
    limit: Option<u32>,
    first: &Row,
    second: &Row,
) -> Result<Views, Fail>
    requires { case.now.failed ≡ None }
{
    let mut views = views(alloc, case)?;
    add(alloc, &mut views.requests, first)?;
    add(alloc, &mut views.requests, second)?;
    set_limit(alloc, &mut views, limit)?;
    Ok(views)
}

/// The name of the request that goes.
fn gone_by(act: &Act) -> &str {
    match act {
        Act::Call(
            Call::Delete {
                key,
                version: Some(_),
            },
        ) => key.name.as_str(),
        _ => "nothing",
    }
}

fn gone_then(alloc: Global, act: Act) -> Result<String, AllocError> {
    let gone = String::from_str(alloc, gone_by(&act));
    let_go(act);
    gone
}

fn gone_on(alloc: Global, views: &Views) -> Result<String, AllocError> {
    let desk = desk(alloc);
    gone_then(alloc, act_revision(alloc, views, 0, &desk)?)
}

const ISSUING: Case = Case {
    issuing: Some(Tri::True),
    ..NONE
};

/// What is seen, the limit and the requests, and the one that goes.
static KEPT: [(Case, Option<u32>, Row, Row, &str); 8] = [
    (
        NONE,
        Some(1),
        ("b", "1", Tri::True),
        ("c", "2", Tri::True),
        "b",
    ),
    (
        NONE,
        Some(1),
        ("b", "2", Tri::True),
        ("c", "1", Tri::True),
        "c",
    ),
    (
        NONE,
        Some(1),
        ("b", "1", Tri::True),
        ("c", "1", Tri::True),
        "b",
    ),
    (
        NONE,
        Some(2),
        ("b", "1", Tri::True),
        ("c", "2", Tri::True),
        "nothing",
    ),
    (
        NONE,
        Some(1),
        ("b", "1", Tri::False),
        ("c", "2", Tri::True),
        "nothing",
    ),
    (
        NONE,
        Some(1),
        ("b", "x", Tri::True),
        ("c", "2", Tri::True),
        "nothing",
    ),
    (
        NONE,
        None,
        ("b", "1", Tri::True),
        ("c", "2", Tri::True),
        "nothing",
    ),
    (
        ISSUING,
        Some(1),
        ("b", "1", Tri::True),
        ("c", "2", Tri::True),
        "nothing",
    ),
];

/// The name of the request that goes where no attempt failed.
fn gone(
    alloc: Global,
    case: &Case,
    limit: Option<u32>,
    first: &Row,
    second: &Row,
) -> Result<String, Fail> {
    let never_failed = Case {
        failed: None,
        ..*case
    };
    let views = limited(alloc, &never_failed, limit, first, second)?;
    Ok(gone_on(alloc, &views)?)
}

#[test]
fn keeps_as_many_requests_as_the_limit(rt: HostRuntime) -> Result<(), Fail> {
    is_revision_sound();
    for (number, (case, limit, first, second, want)) in KEPT.iter().enumerate() {
        let gone = gone(rt.alloc(), case, *limit, first, second)?;
        tells_at(&rt, number, gone.as_str(), want);
    }
    Ok(())
}
