//! What no clause says: what is written, as texts, and that there is an answer where memory is ample.
ghost use Rattle.std.specs.Prelude.{◌≡◌, [], IfOk};
ghost use Rattle.cmc_rules.specs.Dates.{IsDatedOption, HasDatedFailure};

use crate::checks::{passes, tells};
use crate::fixtures::{bytes, conditions as stated, pairs, put_part, set_pair};
use cmc_meta::{Bytes, Condition, ConditionKind, Conditions, ObjectMeta, Pairs, Texts, Tri};
use cmc_objects::{
    Algorithm, Call, CertSpec, CertStatus, Certificate, CertificateRequest, IssuerRef, Material,
    Object, Parts, RequestSpec, RequestStatus, Rules, Secret, Shared, SigningRequest,
};
use cmc_pass::{Act, Desk, Requests, Views};
use cmc_policy_rules::Policies;
use cmc_tests::values::{least_spec, let_go, new_meta, text};
use cmc_trigger::{act, is_sound};
use std::alloc::{AllocError, Global};
use std::process::Abort;
use std::test::Fail;

/// A key file that `openssl ecparam -genkey` made, a certificate that `openssl req -x509` made of it, and
/// another key file.
pub(crate) const KEY: &str =
    "30770201010420ece4f18ff309bb6d5188d6868bb4a996766d19bbae98fd682dbc6dacac5c682ea00a06082a8648ce3d030107a14403420004c8d4912385d6e2891d6cfabb34b212e66324e6f7093596d65399c3133beba273bf1c4ba284d690d02756f61451a3b3791c0f7f9ef6d9ac371ee1fa5258d67588";

pub(crate) const CERTIFICATE: &str =
    "308201d83082017ea00302010202147e801bb99536364c756b92a2dc3e400a48dd1791300a06082a8648ce3d04030230163114301206035504030c0b6578616d706c652e636f6d301e170d3236313132373033303933335a170d3237303232353033303933335a30163114301206035504030c0b6578616d706c652e636f6d3059301306072a8648ce3d020106082a8648ce3d03010703420004c8d4912385d6e2891d6cfabb34b212e66324e6f7093596d65399c3133beba273bf1c4ba284d690d02756f61451a3b3791c0f7f9ef6d9ac371ee1fa5258d67588a381a93081a6301d0603551d0e04160414fd465a26ce699eea1a6d538564f27a87e4ca1f34301f0603551d23041830168014fd465a26ce699eea1a6d538564f27a87e4ca1f34300f0603551d130101ff040530030101ff30530603551d11044c304a820b6578616d706c652e636f6d820f7777772e6578616d706c652e636f6d87040a000001861568747470733a2f2f6578616d706c652e636f6d2f78810d61406578616d706c652e636f6d300a06082a8648ce3d0403020348003045022100c1fdd54bd7feb7d1794828c4b3415e1652cc32482c1875f1682fa18d0665d63a02205218c4a69a8a3cd882ac5c520bf0d31b79583eac5290679f42a91c6bc813d5aa";

/// Requests that `openssl req -new` made: of that key for the name of the Certificate, of that key for another
/// name, and of the other key for the name.
pub(crate) const REQUEST: &str =
    "3081e530818b02010030003059301306072a8648ce3d020106082a8648ce3d03010703420004c8d4912385d6e2891d6cfabb34b212e66324e6f7093596d65399c3133beba273bf1c4ba284d690d02756f61451a3b3791c0f7f9ef6d9ac371ee1fa5258d67588a029302706092a864886f70d01090e311a301830160603551d11040f300d820b6578616d706c652e636f6d300a06082a8648ce3d0403020349003046022100e553e0951877fe6777405e1651fb6b8127ab59fd3a9b9e14ec8920985b7884730221009f19801692ffff8620f22772810b314d00374857e60baf00f9d3ada0f891f800";

pub(crate) const OTHER_NAME: &str =
    "3081eb30819102010030003059301306072a8648ce3d020106082a8648ce3d03010703420004c8d4912385d6e2891d6cfabb34b212e66324e6f7093596d65399c3133beba273bf1c4ba284d690d02756f61451a3b3791c0f7f9ef6d9ac371ee1fa5258d67588a02f302d06092a864886f70d01090e3120301e301c0603551d110415301382116f746865722e6578616d706c652e636f6d300a06082a8648ce3d040302034900304602210097e19f05a2f2a815e7642d77443080c118bf27b695cc25833fb6fbb1d73391d90221008337014d79b3ccc597861c48302da091dbcd9d5a193951e3541bf38474a44053";

pub(crate) const OTHER_KEY: &str =
    "3081e430818b02010030003059301306072a8648ce3d020106082a8648ce3d0301070342000495ea512d20710eb1467018384a3490769b802ea547fb8b829ceb548ddf16351917edc00c9e811029f6440fdd380aedf01a6c510e38a4fd37b011c05a466d9cefa029302706092a864886f70d01090e311a301830160603551d11040f300d820b6578616d706c652e636f6d300a06082a8648ce3d040302034800304502204e7c6f71d419aad4d7cb7ad69c1d47e894afc4f0b7e1a55d2767429679605182022100d6f659026e8cae3f8fe149dc7adf8aa9ba167f0927a7cf7a5dfa5a586dbf3066";

pub(crate) const OTHER: &str =
    "30770201010420f8df65590a088853c1bd224e84767a1d991e4c3d7380ea42a03412cbeba95be9a00a06082a8648ce3d030107a1440342000495ea512d20710eb1467018384a3490769b802ea547fb8b829ceb548ddf16351917edc00c9e811029f6440fdd380aedf01a6c510e38a4fd37b011c05a466d9cef";

/// 2030-01-01T00:00:00Z.
const NOW: i64 = 1_893_456_000;

/// What the controller sees: the parts of the Secret in hexadecimal and an annotation of it beside those of the
/// issuer, the requests by revision and signing request, the status of Issuing, and the last failure; and when.
#[derive(Clone, Copy)]
pub(crate) struct Case {
    pub(crate) parts: Option<(&'static str, &'static str)>,
    pub(crate) mark: (&'static str, &'static str),
    pub(crate) algorithm: Option<Algorithm>,
    pub(crate) requests: &'static [(&'static str, &'static str)],
    pub(crate) issuing: Option<Tri>,
    pub(crate) failed: Option<i64>,
    pub(crate) attempts: Option<u32>,
    pub(crate) now: i64,
}

/// No Secret and no request; the Certificate was never tried.
pub(crate) const NONE: Case = Case {
    parts: None,
    mark: ("cert-manager.io/issuer-name", "ca"),
    algorithm: Some(Algorithm::Ecdsa),
    requests: &[],
    issuing: None,
    failed: None,
    attempts: None,
    now: NOW,
};

/// All is well, a second before the certificate is to be renewed: 30 of its 90 days before its end.
pub(crate) const WELL: Case = Case {
    parts: Some((KEY, CERTIFICATE)),
    mark: ("cert-manager.io/certificate-name", "web"),
    requests: &[("1", REQUEST)],
    now: 1_800_932_972,
    ..NONE
};

fn conditions(alloc: Global, issuing: Option<Tri>) -> Result<Conditions, Fail> {
    match issuing {
        None => Ok(Conditions::new(alloc)),
        Some(status) => stated(alloc, &[(ConditionKind::Issuing, status, "Failed", 0)]),
    }
}

fn status(alloc: Global, case: &Case, failed: Option<i64>) -> Result<CertStatus, Fail>
    ensures { IfOk result (λ s. s.last_failure ≡ failed) }
{
    let mut status = CertStatus::new(alloc);
    status.conditions = conditions(alloc, case.issuing)?;
    status.last_failure = failed;
    status.attempts = case.attempts;
    status.revision = Some(1);
    Ok(status)
}

fn spec(alloc: Global, algorithm: Option<Algorithm>) -> Result<CertSpec, Fail> {
    let mut spec = least_spec(alloc, "web-tls", "example.com")?;
    spec.key.algorithm = algorithm;
    Ok(spec)
}

fn certificate(alloc: Global, case: &Case, failed: Option<i64>) -> Result<Certificate, Fail>
    ensures { IfOk result (λ c. c.status.last_failure ≡ failed) }
{
    let mut meta = new_meta(alloc, "web")?;
    meta.version = 3;
    let spec = spec(alloc, case.algorithm)?;
    Ok(Certificate {
        meta,
        spec: Shared::new(alloc, spec)?,
        status: Shared::new(alloc, status(alloc, case, failed)?)?,
    })
}

/// The data of the Secret, without the parts that are empty texts.
fn parts(alloc: Global, key: &str, certificate: &str) -> Result<Parts, Fail> {
    let mut parts = Parts::new(alloc);
    put_part(alloc, &mut parts, "tls.key", key)?;
    put_part(alloc, &mut parts, "tls.crt", certificate)?;
    Ok(parts)
}

/// The annotations of the issuer.
static ISSUER: [(&str, &str); 3] = [
    ("cert-manager.io/issuer-name", "ca"),
    ("cert-manager.io/issuer-kind", "Issuer"),
    ("cert-manager.io/issuer-group", "cert-manager.io"),
];

/// The annotations of the issuer, and then the mark, which may change one of them.
fn annotations(alloc: Global, mark: (&str, &str)) -> Result<Pairs, Fail> {
    let mut annotations = pairs(alloc, &ISSUER)?;
    set_pair(alloc, &mut annotations, mark.0, mark.1)?;
    Ok(annotations)
}

fn meta(alloc: Global, name: &str, annotations: Pairs) -> Result<ObjectMeta, Fail> {
    let mut meta = new_meta(alloc, name)?;
    meta.annotations = annotations;
    Ok(meta)
}

fn secret(alloc: Global, key: &str, certificate: &str, mark: (&str, &str)) -> Result<Secret, Fail> {
    let meta = meta(alloc, "web-tls", annotations(alloc, mark)?)?;
    let kind_text = text(alloc, "Opaque")?;
    Ok(Secret {
        meta,
        kind_text,
        parts: parts(alloc, key, certificate)?,
    })
}

fn revision(alloc: Global, number: &str) -> Result<Pairs, Fail> {
    let mut annotations = Pairs::new(alloc);
    let key = "cert-manager.io/certificate-revision";
    set_pair(alloc, &mut annotations, key, number)?;
    Ok(annotations)
}

fn request_spec(alloc: Global, der: &str) -> Result<RequestSpec, Fail> {
    let name = text(alloc, "ca")?;
    Ok(RequestSpec {
        issuer: IssuerRef {
            name,
            kind: None,
            group: None,
        },
        duration: None,
        is_ca: false,
        usages: Texts::new(alloc),
        request: SigningRequest::new(alloc, bytes(alloc, der)?)?,
    })
}

fn no_status(alloc: Global) -> RequestStatus {
    RequestStatus {
        conditions: Conditions::new(alloc),
        certificate: Bytes::new(alloc),
        ca: Bytes::new(alloc),
        failure: None,
    }
}

/// A request of the revision, with this signing request in hexadecimal and else as the Certificate asks.
pub(crate) fn request(alloc: Global, number: &str, der: &str) -> Result<CertificateRequest, Fail> {
    let meta = meta(alloc, "web-1", revision(alloc, number)?)?;
    Ok(CertificateRequest {
        meta,
        spec: Shared::new(alloc, request_spec(alloc, der)?)?,
        status: Shared::new(alloc, no_status(alloc))?,
    })
}

fn requests(alloc: Global, rows: &[(&str, &str)]) -> Result<Requests, Fail> {
    let mut requests = Requests::new(alloc);
    for (revision, der) in rows {
        requests.push(Shared::new(alloc, request(alloc, revision, der)?)?)?;
    }
    Ok(requests)
}

fn condition_told(
    alloc: Global,
    version: u64,
    condition: Option<&Condition>,
) -> Result<String, AllocError> {
    let Some(condition) = condition else {
        return String::from_str(alloc, "no condition");
    };
    let reason = condition.reason.as_str();
    let message = condition.message.as_str();
    let since = condition.since;
    format!(in alloc; "{version} {since} {reason}: {message}")
}

fn told(alloc: Global, act: &Act) -> Result<String, AllocError> {
    match act {
        Act::Call(
            Call::UpdateStatus {
                object: Object::Cert(certificate),
                version,
            },
        ) => {
            let condition = certificate.status.conditions.get(ConditionKind::Issuing);
            condition_told(alloc, *version, condition)
        }
        _ => String::from_str(alloc, "nothing"),
    }
}

fn told_then(alloc: Global, act: Act) -> Result<String, AllocError> {
    let told = told(alloc, &act);
    let_go(act);
    told
}

pub(crate) fn desk(alloc: Global) -> Desk
    ensures { result.material ≡ [] }
{
    Desk {
        material: Material::new(alloc),
        asked: 0,
        rules: Rules {
            issuers: Texts::new(alloc),
            refuse: Texts::new(alloc),
            policies: Policies::new(alloc),
        },
    }
}

fn see_secret(alloc: Global, views: &mut Views, case: &Case) -> Result<(), Fail> {
    if let Some((key, certificate)) = case.parts {
        let secret = secret(alloc, key, certificate, case.mark)?;
        views.secret = Some(Shared::new(alloc, secret)?);
    }
    Ok(())
}

/// The Secret and the requests.
fn belongings(alloc: Global, case: &Case) -> Result<Views, Fail> {
    let mut views = Views::new(alloc);
    see_secret(alloc, &mut views, case)?;
    views.requests = requests(alloc, case.requests)?;
    Ok(views)
}

pub(crate) fn views(alloc: Global, case: &Case) -> Result<Views, Fail>
    requires { IsDatedOption case.now.failed }
    ensures { IfOk result HasDatedFailure }
{
    let mut views = belongings(alloc, case)?;
    let certificate = certificate(alloc, case, case.failed)?;
    views.certificate = Some(Shared::new(alloc, certificate)?);
    Ok(views)
}

fn told_on(alloc: Global, views: &Views, now: i64) -> Result<String, AllocError>
    requires { HasDatedFailure views.now }
{
    let desk = desk(alloc);
    told_then(alloc, act(alloc, views, now, &desk)?)
}

fn told_of(alloc: Global, case: &Case) -> Result<String, Fail>
    requires { IsDatedOption case.now.failed }
{
    let views = views(alloc, case)?;
    Ok(told_on(alloc, &views, case.now)?)
}

/// What is done where no attempt failed.
fn told_at_first(alloc: Global, case: &Case) -> Result<String, Fail> {
    let never_failed = Case {
        failed: None,
        ..*case
    };
    told_of(alloc, &never_failed)
}

const MISSING: &str = "3 1893456000 MissingData: Certificate must be issued: MissingData";

const UNPAIRED: &str = "3 1893456000 InvalidKeyPair: Certificate must be issued: InvalidKeyPair";

/// The parts of the Secret.
static SECRETS: [(Case, &str); 7] = [
    (
        NONE,
        "3 1893456000 DoesNotExist: Certificate must be issued: DoesNotExist",
    ),
    (
        Case {
            parts: Some(("000000", "")),
            ..NONE
        },
        MISSING,
    ),
    (
        Case {
            parts: Some(("", CERTIFICATE)),
            ..NONE
        },
        MISSING,
    ),
    (
        Case {
            parts: Some(("000000", CERTIFICATE)),
            ..NONE
        },
        UNPAIRED,
    ),
    (
        Case {
            parts: Some((OTHER, CERTIFICATE)),
            ..NONE
        },
        UNPAIRED,
    ),
    (
        Case {
            parts: Some((KEY, "000000")),
            ..NONE
        },
        UNPAIRED,
    ),
    (
        Case {
            parts: Some((KEY, CERTIFICATE)),
            ..NONE
        },
        "3 1893456000 SecretMismatch: Certificate must be issued: SecretMismatch",
    ),
];

/// One difference a row from where all is well.
static CHECKS: [(Case, &str); 14] = [
    (WELL, "nothing"),
    (
        Case {
            now: 1_800_932_973,
            ..WELL
        },
        "Renewing",
    ),
    (
        Case {
            mark: ("cert-manager.io/issuer-name", "other"),
            ..WELL
        },
        "IncorrectIssuer",
    ),
    (
        Case {
            mark: ("cert-manager.io/issuer-kind", "ClusterIssuer"),
            ..WELL
        },
        "IncorrectIssuer",
    ),
    (
        Case {
            mark: ("cert-manager.io/issuer-group", "example.com"),
            ..WELL
        },
        "IncorrectIssuer",
    ),
    (
        Case {
            mark: ("cert-manager.io/certificate-name", "api"),
            ..WELL
        },
        "IncorrectCertificate",
    ),
    (
        Case {
            mark: ("cert-manager.io/temporary-certificate", "true"),
            ..WELL
        },
        "MissingData",
    ),
    (
        Case {
            algorithm: None,
            ..WELL
        },
        "SecretMismatch",
    ),
    (
        Case {
            requests: &[],
            ..WELL
        },
        "SecretMismatch",
    ),
    (
        Case {
            requests: &[("2", REQUEST)],
            ..WELL
        },
        "SecretMismatch",
    ),
    (
        Case {
            requests: &[("1", REQUEST), ("1", REQUEST)],
            ..WELL
        },
        "SecretMismatch",
    ),
    (
        Case {
            requests: &[("1", OTHER_KEY)],
            ..WELL
        },
        "SecretMismatch",
    ),
    (
        Case {
            requests: &[("1", "3000")],
            ..WELL
        },
        "SecretMismatch",
    ),
    (
        Case {
            requests: &[("1", OTHER_NAME)],
            ..WELL
        },
        "RequestChanged",
    ),
];

#[test]
fn checks(rt: HostRuntime) -> Result<(), Fail> {
    is_sound();
    for (case, reason) in &CHECKS {
        let told = told_at_first(rt.alloc(), case)?;
        passes(&rt, told.as_str(), told.as_str().ends_with(reason));
    }
    Ok(())
}

#[test]
fn checks_the_parts_of_the_secret(rt: HostRuntime) -> Result<(), Fail> {
    for (case, want) in &SECRETS {
        tells(&rt, want, told_at_first(rt.alloc(), case)?.as_str(), want);
    }
    Ok(())
}

/// What is done where Issuing is so, and the last failure.
fn told_after(
    alloc: Global,
    issuing: Tri,
    failed: Option<i64>,
    attempts: Option<u32>,
) -> Result<String, Fail>
    requires { IsDatedOption failed }
{
    let case = Case {
        issuing: Some(issuing),
        failed,
        attempts,
        ..NONE
    };
    told_of(alloc, &case)
}

static ABSENT: &str = "3 1893456000 DoesNotExist: Certificate must be issued: DoesNotExist";

/// What is told is what is wanted; the text is dropped here, so that the next `?` of a test has none in hand.
fn tells_then(
    rt: &impl Abort,
    row: &str,
    told: Result<String, Fail>,
    want: &str,
) -> Result<(), Fail> {
    tells(rt, row, told?.as_str(), want);
    Ok(())
}

#[test]
fn begins_where_nothing_is_being_issued(rt: HostRuntime) -> Result<(), Fail> {
    let alloc = rt.alloc();
    let told = told_after(alloc, Tri::True, None, None);
    tells_then(&rt, "True", told, "nothing")?;
    let told = told_after(alloc, Tri::False, None, None);
    tells_then(&rt, "False", told, ABSENT)?;
    let told = told_after(alloc, Tri::Unknown, None, None);
    tells_then(&rt, "Unknown", told, ABSENT)
}

#[test]
fn begins_behind_the_back_off(rt: HostRuntime) -> Result<(), Fail> {
    let alloc = rt.alloc();
    let told = told_after(alloc, Tri::False, Some(1_893_452_401), Some(1));
    tells_then(&rt, "one attempt, before", told, "nothing")?;
    let told = told_after(alloc, Tri::False, Some(1_893_452_400), Some(1));
    tells_then(&rt, "one attempt", told, ABSENT)?;
    let told = told_after(alloc, Tri::False, Some(1_893_448_801), Some(2));
    tells_then(&rt, "two attempts, before", told, "nothing")?;
    let told = told_after(alloc, Tri::False, Some(1_893_448_800), Some(2));
    tells_then(&rt, "two attempts", told, ABSENT)
}

/// A first failure a second before the end of back-off: what is done by the next requests that exist.
static BACK_OFFS: [(Case, &str); 6] = [
    (TRIED, "nothing"),
    (
        Case {
            requests: &[("2", REQUEST)],
            ..TRIED
        },
        "nothing",
    ),
    (
        Case {
            requests: &[("1", OTHER_NAME), ("2", OTHER_NAME)],
            ..TRIED
        },
        "DoesNotExist",
    ),
    (
        Case {
            requests: &[("2", OTHER_NAME), ("2", OTHER_NAME)],
            ..TRIED
        },
        "nothing",
    ),
    (
        Case {
            requests: &[("1", OTHER_NAME)],
            ..TRIED
        },
        "nothing",
    ),
    (
        Case {
            requests: &[("3", OTHER_NAME)],
            ..TRIED
        },
        "nothing",
    ),
];

const TRIED: Case = Case {
    attempts: Some(1),
    ..NONE
};

/// What is done where the last attempt failed a second before the end of its back-off.
fn told_in_back_off(alloc: Global, case: &Case) -> Result<String, Fail> {
    let failed = Case {
        failed: Some(1_893_452_401),
        ..*case
    };
    told_of(alloc, &failed)
}

#[test]
fn back_offs(rt: HostRuntime) -> Result<(), Fail> {
    for (case, reason) in &BACK_OFFS {
        let told = told_in_back_off(rt.alloc(), case)?;
        passes(&rt, told.as_str(), told.as_str().ends_with(reason));
    }
    Ok(())
}
