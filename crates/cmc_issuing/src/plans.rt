//! The plans of the controller: calls in order, after the live read of the Certificate.
ghost use Rattle.std.specs.Prelude.{◌≡◌, [], IfOk, Some, false, true};
ghost use Rattle.cmc_objects.specs.declared.object.Object.TheVariants.{Cert};
ghost use Rattle.cmc_objects.specs.Objects as objects;
ghost use Rattle.cmc_rules.specs.Issuance as table;
ghost use Rattle.cmc_rules.specs.NextRequests.{HasNextRevision};

use crate::secrets::{Content, secret_call};
use crate::statuses::issued_call;
use cmc_meta::{Bytes, Key, Kind};
use cmc_objects::{Call, Certificate, CertificateRequest, Secret, Shared};
use cmc_pass::{IssuePlan, TemporaryPlan};
use std::alloc::{AllocError, Global};

fn key_of(certificate: &Certificate) -> Result<Key, AllocError>
    ensures { IfOk result (λ k. k ≡ objects.key_of (Cert certificate.now)) }
{
    Ok(Key {
        kind: Kind::Certificate,
        namespace: certificate.meta.namespace.copy()?,
        name: certificate.meta.name.copy()?,
    })
}

/// The write of the Secret at the end of an issuance: the key of the file and the certificate of the request.
pub fn issued_secret(
    alloc: Global,
    certificate: &Certificate,
    file: &Bytes,
    request: &CertificateRequest,
    target: &Option<Shared<Secret>>,
) -> Result<Call, AllocError>
    ensures { IfOk result (λ c. c ≡ table.secret_call false certificate.now file.now request.now.status.certificate request.now.status.ca target.now) }
{
    let content = Content {
        stand_in: false,
        key: file,
        certificate: &request.status.certificate,
        ca: &request.status.ca,
    };
    secret_call(alloc, certificate, &content, target)
}

/// The end of an issuance: the Secret with the key of the file and the certificate of the request, and the status.
#[tactic(auto, unfolding(cmc_rules::specs::Issuance::issue_plan))]
pub fn issue_plan(
    alloc: Global,
    moment: i64,
    certificate: &Certificate,
    file: &Bytes,
    request: &CertificateRequest,
    target: &Option<Shared<Secret>>,
) -> Result<IssuePlan, AllocError>
    requires { HasNextRevision (Some certificate.now) }
    ensures { IfOk result (λ p. p ≡ table.issue_plan moment certificate.now file.now request.now target.now) }
{
    let get = key_of(certificate)?;
    let secret = issued_secret(alloc, certificate, file, request, target)?;
    let status = issued_call(alloc, moment, certificate)?;
    Ok(IssuePlan {
        get,
        version: certificate.meta.version,
        secret,
        status,
    })
}

/// The write of the Secret with the key of the file and a certificate that stands in.
pub fn marked_secret(
    alloc: Global,
    certificate: &Certificate,
    file: &Bytes,
    stand_in: &Bytes,
    target: &Option<Shared<Secret>>,
) -> Result<Call, AllocError>
    ensures { IfOk result (λ c. c ≡ table.secret_call true certificate.now file.now stand_in.now [] target.now) }
{
    let none = Bytes::new(alloc);
    let content = Content {
        stand_in: true,
        key: file,
        certificate: stand_in,
        ca: &none,
    };
    secret_call(alloc, certificate, &content, target)
}

/// The Secret with the key of the file and a certificate that stands in.
#[tactic(auto, unfolding(cmc_rules::specs::Issuance::temporary_plan))]
pub fn temporary_plan(
    alloc: Global,
    certificate: &Certificate,
    file: &Bytes,
    stand_in: &Bytes,
    target: &Option<Shared<Secret>>,
) -> Result<TemporaryPlan, AllocError>
    ensures { IfOk result (λ p. p ≡ table.temporary_plan certificate.now file.now stand_in.now target.now) }
{
    let get = key_of(certificate)?;
    let secret = marked_secret(alloc, certificate, file, stand_in, target)?;
    Ok(TemporaryPlan {
        get,
        version: certificate.meta.version,
        secret,
    })
}
