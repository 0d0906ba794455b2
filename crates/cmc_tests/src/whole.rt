//! Objects whose every member is given.
use crate::values::{least_spec, name, new_meta, push_text, text, texts};
use cmc_meta::{
    Bytes, Condition, ConditionKind, Conditions, Kind, ObjectMeta, OwnerRef, Owners, Pairs, Tri,
};
use cmc_objects::{
    Algorithm, CertSpec, CertStatus, Certificate, CertificateRequest, Encoding, IssuerRef, KeySpec,
    Parts, RequestSpec, RequestStatus, Rotation, Secret, Shared, SigningRequest,
};
use std::alloc::Global;
use std::test::Fail;

/// Three zeros.
pub fn bytes(alloc: Global) -> Result<Bytes, Fail> {
    Ok(Bytes::from_slice(alloc, &[0, 0, 0])?)
}

fn add_label(alloc: Global, labels: &mut Pairs) -> Result<(), Fail> {
    let key = text(alloc, "app")?;
    labels.set(key, text(alloc, "shop")?)?;
    Ok(())
}

fn add_owner(alloc: Global, owners: &mut Owners) -> Result<(), Fail> {
    let name = name(alloc, "web")?;
    owners.push(OwnerRef {
        kind: Kind::Certificate,
        name,
        uid: 7,
        controller: true,
    })?;
    Ok(())
}

fn meta(alloc: Global, word: &str) -> Result<ObjectMeta, Fail> {
    let mut meta = new_meta(alloc, word)?;
    add_label(alloc, &mut meta.labels)?;
    add_owner(alloc, &mut meta.owners)?;
    meta.uid = 1;
    meta.version = 2;
    meta.generation = 3;
    meta.created = 4;
    Ok(meta)
}

pub fn conditions(alloc: Global) -> Result<Conditions, Fail> {
    let mut conditions = Conditions::new(alloc);
    conditions.set(Condition {
        kind: ConditionKind::Approved,
        status: Tri::True,
        reason: text(alloc, "Script")?,
        message: text(alloc, "approved by the script")?,
        since: 1_893_456_000,
    })?;
    Ok(conditions)
}

fn issuer(alloc: Global) -> Result<IssuerRef, Fail> {
    Ok(IssuerRef {
        name: text(alloc, "ca")?,
        kind: Some(text(alloc, "ClusterIssuer")?),
        group: None,
    })
}

// The lists are filled where they stand: a spec in the making would hold one owned value more at each `?`.
fn add_names(alloc: Global, spec: &mut CertSpec) -> Result<(), Fail> {
    push_text(alloc, &mut spec.ip_addresses, "192.0.2.1")?;
    push_text(alloc, &mut spec.uris, "spiffe://example.com/web")?;
    push_text(alloc, &mut spec.emails, "web@example.com")?;
    push_text(alloc, &mut spec.usages, "server auth")
}

fn add_terms(spec: &mut CertSpec) {
    spec.is_ca = true;
    spec.duration = Some(7_776_000);
    spec.renew_before = Some(300);
    spec.renew_percent = Some(25);
    spec.key = KeySpec {
        algorithm: Some(Algorithm::Ecdsa),
        size: Some(384),
        encoding: Some(Encoding::Pkcs8),
        rotation: Some(Rotation::Never),
    };
    spec.history_limit = Some(1);
}

fn named_spec(alloc: Global) -> Result<CertSpec, Fail> {
    let mut spec = least_spec(alloc, "web-tls", "example.com")?;
    spec.issuer = issuer(alloc)?;
    spec.common_name = text(alloc, "example.com")?;
    Ok(spec)
}

fn cert_spec(alloc: Global) -> Result<CertSpec, Fail> {
    let mut spec = named_spec(alloc)?;
    add_names(alloc, &mut spec)?;
    add_terms(&mut spec);
    Ok(spec)
}

fn cert_status(alloc: Global) -> Result<CertStatus, Fail> {
    let mut status = CertStatus::new(alloc);
    status.conditions = conditions(alloc)?;
    status.next_key = Some(name(alloc, "web-bbbbf")?);
    status.last_failure = Some(0);
    status.attempts = Some(2);
    status.not_before = Some(1_893_456_000);
    status.not_after = Some(1_901_232_000);
    status.renewal = Some(1_898_640_000);
    status.revision = Some(3);
    Ok(status)
}

pub fn certificate(alloc: Global) -> Result<Certificate, Fail> {
    let meta = meta(alloc, "web")?;
    let spec = cert_spec(alloc)?;
    Ok(Certificate {
        meta,
        spec: Shared::new(alloc, spec)?,
        status: Shared::new(alloc, cert_status(alloc)?)?,
    })
}

/// The same, without a percentage, so that each admission rule lets it pass.
pub fn admitted_certificate(alloc: Global) -> Result<Certificate, Fail> {
    let mut certificate = certificate(alloc)?;
    let mut spec = CertSpec::copy(&certificate.spec)?;
    spec.renew_percent = None;
    certificate.spec = Shared::new(alloc, spec)?;
    Ok(certificate)
}

fn request_spec(alloc: Global) -> Result<RequestSpec, Fail> {
    let issuer = issuer(alloc)?;
    let usages = texts(alloc, "server auth")?;
    Ok(RequestSpec {
        issuer,
        duration: Some(3_600),
        is_ca: false,
        usages,
        request: SigningRequest::new(alloc, bytes(alloc)?)?,
    })
}

fn request_status(alloc: Global) -> Result<RequestStatus, Fail> {
    let mut status = RequestStatus::new(alloc);
    status.conditions = conditions(alloc)?;
    status.certificate = bytes(alloc)?;
    status.ca = bytes(alloc)?;
    status.failure = Some(1_893_456_000);
    Ok(status)
}

pub fn request(alloc: Global) -> Result<CertificateRequest, Fail> {
    let meta = meta(alloc, "web-1")?;
    let spec = request_spec(alloc)?;
    Ok(CertificateRequest {
        meta,
        spec: Shared::new(alloc, spec)?,
        status: Shared::new(alloc, request_status(alloc)?)?,
    })
}

fn parts(alloc: Global) -> Result<Parts, Fail> {
    let mut parts = Parts::new(alloc);
    let key = text(alloc, "tls.key")?;
    parts.set(key, bytes(alloc)?)?;
    Ok(parts)
}

pub fn secret(alloc: Global) -> Result<Secret, Fail> {
    let kind_text = text(alloc, "Opaque")?;
    let parts = parts(alloc)?;
    Ok(Secret {
        meta: meta(alloc, "web-tls")?,
        kind_text,
        parts,
    })
}
