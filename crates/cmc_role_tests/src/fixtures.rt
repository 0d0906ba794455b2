//! Objects as small tables say them, for the tests of the controllers of Certificates.
ghost use Rattle.std.specs.Prelude.{◌<◌, ◌^◌, IfOk, unwrap_or};
ghost use Rattle.cmc_rules.specs.NextRequests.{HasNextRevision};

use crate::trigger;
use cmc_meta::{Bytes, Condition, ConditionKind, Conditions, ObjectMeta, Pairs, Text, Tri};
use cmc_objects::{
    Algorithm, CertSpec, CertStatus, Certificate, CertificateRequest, Parts, RequestSpec,
    RequestStatus, Rotation, Secret, Shared,
};
use cmc_pass::{Requests, Secrets, Views};
use cmc_tests::values::{least_spec, name, new_meta, octets, text};
use std::alloc::{AllocError, Global};
use std::test::Fail;

/// A condition without a message: its kind, its status, its reason and its moment.
pub(crate) type Stated = (ConditionKind, Tri, &'static str, i64);

/// Texts under texts.
pub(crate) type Words = &'static [(&'static str, &'static str)];

/// A Secret of type Opaque. The parts are in hexadecimal.
#[derive(Clone, Copy)]
pub(crate) struct SecretRow {
    pub(crate) name: &'static str,
    pub(crate) version: u64,
    pub(crate) labels: Words,
    pub(crate) marks: Words,
    pub(crate) parts: Words,
}

/// A request of version 9, with the signing request, the certificate and the CA's in hexadecimal.
#[derive(Clone, Copy)]
pub(crate) struct RequestRow {
    pub(crate) name: &'static str,
    pub(crate) revision: &'static str,
    pub(crate) der: &'static str,
    pub(crate) conditions: &'static [Stated],
    pub(crate) failure: Option<i64>,
    pub(crate) certificate: &'static str,
    pub(crate) ca: &'static str,
}

/// What a controller sees of the Certificate `web`, of version 3 and uid 1, where that exists: its conditions, the kind
/// of key and the rotation that it asks for, the name of the next key in its status, its revision, its last failure and
/// how many there were, and its annotations; and of what belongs to it.
#[derive(Clone, Copy)]
pub(crate) struct Case {
    pub(crate) stands: bool,
    pub(crate) conditions: &'static [Stated],
    pub(crate) algorithm: Option<Algorithm>,
    pub(crate) rotation: Option<Rotation>,
    pub(crate) named: &'static str,
    pub(crate) revision: Option<u32>,
    pub(crate) failures: Option<(i64, u32)>,
    pub(crate) marks: Words,
    pub(crate) target: Option<SecretRow>,
    pub(crate) next: &'static [SecretRow],
    pub(crate) requests: &'static [RequestRow],
}

fn condition(alloc: Global, row: &Stated) -> Result<Condition, Fail> {
    let (kind, status, reason, since) = *row;
    Ok(Condition {
        kind,
        status,
        reason: text(alloc, reason)?,
        message: Text::new(alloc),
        since,
    })
}

pub(crate) fn conditions(alloc: Global, rows: &[Stated]) -> Result<Conditions, Fail> {
    let mut conditions = Conditions::new(alloc);
    for row in rows {
        conditions.set(condition(alloc, row)?)?;
    }
    Ok(conditions)
}

pub(crate) fn set_pair(
    alloc: Global,
    pairs: &mut Pairs,
    key: &str,
    value: &str,
) -> Result<(), AllocError> {
    let key = Text::from_str(alloc, key)?;
    pairs.set(key, Text::from_str(alloc, value)?)
}

pub(crate) fn pairs(alloc: Global, rows: &[(&str, &str)]) -> Result<Pairs, Fail> {
    let mut pairs = Pairs::new(alloc);
    for (key, value) in rows {
        set_pair(alloc, &mut pairs, key, value)?;
    }
    Ok(pairs)
}

pub(crate) fn bytes(alloc: Global, file: &str) -> Result<Bytes, AllocError> {
    Bytes::from_slice(alloc, octets(alloc, file)?.as_slice())
}

/// Puts the part, in hexadecimal, where it is no empty text.
pub(crate) fn put_part(
    alloc: Global,
    parts: &mut Parts,
    key: &str,
    file: &str,
) -> Result<(), AllocError> {
    if file.is_empty() {
        return Ok(());
    }
    let key = Text::from_str(alloc, key)?;
    parts.set(key, bytes(alloc, file)?)
}

fn parts(alloc: Global, rows: &[(&str, &str)]) -> Result<Parts, Fail> {
    let mut parts = Parts::new(alloc);
    for (key, file) in rows {
        put_part(alloc, &mut parts, key, file)?;
    }
    Ok(parts)
}

fn secret_meta(alloc: Global, row: &SecretRow) -> Result<ObjectMeta, Fail> {
    let mut meta = new_meta(alloc, row.name)?;
    meta.version = row.version;
    meta.labels = pairs(alloc, row.labels)?;
    meta.annotations = pairs(alloc, row.marks)?;
    Ok(meta)
}

fn secret(alloc: Global, row: &SecretRow) -> Result<Secret, Fail> {
    let meta = secret_meta(alloc, row)?;
    let kind_text = text(alloc, "Opaque")?;
    Ok(Secret {
        meta,
        kind_text,
        parts: parts(alloc, row.parts)?,
    })
}

fn secrets(alloc: Global, rows: &[SecretRow]) -> Result<Secrets, Fail> {
    let mut secrets = Secrets::new(alloc);
    for row in rows {
        secrets.push(Shared::new(alloc, secret(alloc, row)?)?)?;
    }
    Ok(secrets)
}

fn request_status(alloc: Global, row: &RequestRow) -> Result<RequestStatus, Fail> {
    let conditions = conditions(alloc, row.conditions)?;
    let certificate = bytes(alloc, row.certificate)?;
    Ok(RequestStatus {
        conditions,
        certificate,
        ca: bytes(alloc, row.ca)?,
        failure: row.failure,
    })
}

pub(crate) fn request(alloc: Global, row: &RequestRow) -> Result<CertificateRequest, Fail> {
    let mut request = trigger::request(alloc, row.revision, row.der)?;
    request.meta.name = name(alloc, row.name)?;
    request.meta.version = 9;
    request.status = Shared::new(alloc, request_status(alloc, row)?)?;
    Ok(request)
}

/// The request asks an issuer of this group.
pub(crate) fn ask_group(
    alloc: Global,
    request: &mut CertificateRequest,
    group: &str,
) -> Result<(), Fail> {
    let mut spec = RequestSpec::copy(&request.spec)?;
    spec.issuer.group = Some(text(alloc, group)?);
    request.spec = Shared::new(alloc, spec)?;
    Ok(())
}

fn requests(alloc: Global, rows: &[RequestRow]) -> Result<Requests, Fail> {
    let mut requests = Requests::new(alloc);
    for row in rows {
        requests.push(Shared::new(alloc, request(alloc, row)?)?)?;
    }
    Ok(requests)
}

fn wide(revision: Option<u32>) -> Option<u64>
    ensures { unwrap_or result 0 < 2 ^ 63 }
{
    match revision {
        None => None,
        Some(revision) => Some(revision as u64),
    }
}

fn status(alloc: Global, case: &Case) -> Result<CertStatus, Fail>
    ensures { IfOk result (λ s. unwrap_or s.revision 0 < 2 ^ 63) }
{
    let mut status = CertStatus::new(alloc);
    status.conditions = conditions(alloc, case.conditions)?;
    if !case.named.is_empty() {
        status.next_key = Some(name(alloc, case.named)?);
    }
    if let Some((last, attempts)) = case.failures {
        status.last_failure = Some(last);
        status.attempts = Some(attempts);
    }
    status.revision = wide(case.revision);
    Ok(status)
}

fn meta(alloc: Global, marks: Words) -> Result<ObjectMeta, Fail> {
    let mut meta = new_meta(alloc, "web")?;
    meta.uid = 1;
    meta.version = 3;
    meta.annotations = pairs(alloc, marks)?;
    Ok(meta)
}

fn spec(alloc: Global, case: &Case) -> Result<CertSpec, Fail> {
    let mut spec = least_spec(alloc, "web-tls", "example.com")?;
    spec.key.algorithm = case.algorithm;
    spec.key.rotation = case.rotation;
    Ok(spec)
}

pub(crate) fn certificate(alloc: Global, case: &Case) -> Result<Certificate, Fail>
    ensures { IfOk result (λ c. unwrap_or c.status.revision 0 < 2 ^ 63) }
{
    let meta = meta(alloc, case.marks)?;
    let spec = spec(alloc, case)?;
    Ok(Certificate {
        meta,
        spec: Shared::new(alloc, spec)?,
        status: Shared::new(alloc, status(alloc, case)?)?,
    })
}

fn see_target(alloc: Global, views: &mut Views, case: &Case) -> Result<(), Fail> {
    if let Some(row) = &case.target {
        views.secret = Some(Shared::new(alloc, secret(alloc, row)?)?);
    }
    Ok(())
}

fn belongings(alloc: Global, case: &Case) -> Result<Views, Fail> {
    let mut views = Views::new(alloc);
    see_target(alloc, &mut views, case)?;
    views.next = secrets(alloc, case.next)?;
    views.requests = requests(alloc, case.requests)?;
    Ok(views)
}

pub(crate) fn views(alloc: Global, case: &Case) -> Result<Views, Fail>
    ensures { IfOk result (λ v. HasNextRevision v.certificate) }
{
    let mut views = belongings(alloc, case)?;
    views.certificate = None;
    if case.stands {
        views.certificate = Some(Shared::new(alloc, certificate(alloc, case)?)?);
    }
    Ok(views)
}
