//! What the controller writes.
ghost use Rattle.std.specs.Prelude.{◌≡◌, ◌<◌, ◌^◌, Some, IfOk, OnOk, OnErr, decimal};
ghost use Rattle.cmc_meta.specs.PairLists.{with_text};
ghost use Rattle.cmc_rules.specs.NextRequests as next;
ghost use Rattle.cmc_rules.specs.RequestManager as table;
ghost use Rattle.cmc_rules.specs.RevisionManager as revising;

use cmc_meta::{Bytes, Key, Kind, Pairs, Text};
use cmc_next::owned_meta;
use cmc_objects::{
    Call, CertSpec, Certificate, CertificateRequest, Object, RequestSpec, RequestStatus, Secret,
    Shared, SigningRequest,
};
use cmc_pass::Act;
use std::alloc::{AllocError, Global};

/// The deletion of the request, at its version.
#[tactic(auto, unfolding(cmc_rules::specs::RevisionManager::delete_call))]
pub fn delete_call(request: &CertificateRequest) -> Result<Act, AllocError>
    ensures { IfOk result (λ a. a ≡ revising.delete_call request.now) }
{
    Ok(Act::Call(Call::Delete {
        key: Key {
            kind: Kind::CertificateRequest,
            namespace: request.meta.namespace.copy()?,
            name: request.meta.name.copy()?,
        },
        version: Some(request.meta.version),
    }))
}

fn revision_text(alloc: Global, certificate: &Certificate) -> Result<Text, AllocError>
    requires { next.HasNextRevision (Some certificate.now) }
    ensures { IfOk result (λ t. t ≡ decimal (next.next_revision certificate.now)) }
{
    let revision = certificate.status.revision.unwrap_or(0) + 1;
    let text = format!(in alloc; "{revision}")?;
    Text::from_str(alloc, text.as_str())
}

fn mark(alloc: Global, marks: Pairs, name: &str, text: Text) -> Result<Pairs, AllocError>
    ensures { IfOk result (λ p. p ≡ with_text marks name.now text) }
{
    let mut marks = marks;
    marks.set(Text::from_str(alloc, name)?, text)?;
    Ok(marks)
}

#[tactic(auto, unfolding(cmc_rules::specs::RequestManager::request_marks))]
fn request_marks(
    alloc: Global,
    certificate: &Certificate,
    secret: &Secret,
) -> Result<Pairs, AllocError>
    requires { next.HasNextRevision (Some certificate.now) }
    ensures { IfOk result (λ p. p ≡ table.request_marks certificate.now secret.now) }
{
    let name = Text::from_str(alloc, certificate.meta.name.as_str())?;
    let revision = revision_text(alloc, certificate)?;
    let key = Text::from_str(alloc, secret.meta.name.as_str())?;
    let named = mark(
        alloc,
        Pairs::new(alloc),
        "cert-manager.io/certificate-name",
        name,
    )?;
    let of_revision = mark(
        alloc,
        named,
        "cert-manager.io/certificate-revision",
        revision,
    )?;
    mark(
        alloc,
        of_revision,
        "cert-manager.io/private-key-secret-name",
        key,
    )
}

#[tactic(auto, unfolding(cmc_rules::specs::RequestManager::request_spec))]
fn request_spec(alloc: Global, spec: &CertSpec, request: Bytes) -> Result<RequestSpec, AllocError>
    ensures { IfOk result (λ s. s ≡ table.request_spec spec.now request) }
{
    let issuer = spec.issuer.copy()?;
    let usages = spec.usages.copy()?;
    Ok(RequestSpec {
        issuer,
        duration: spec.duration,
        is_ca: spec.is_ca,
        usages,
        request: SigningRequest::new(alloc, request)?,
    })
}

#[tactic(auto, unfolding(cmc_rules::specs::RequestManager::new_request))]
fn new_request(
    alloc: Global,
    certificate: &Certificate,
    secret: &Secret,
    request: Bytes,
) -> Result<CertificateRequest, AllocError>
    requires { next.HasNextRevision (Some certificate.now) }
    ensures { IfOk result (λ r. r ≡ table.new_request certificate.now secret.now request) }
{
    let spec = request_spec(alloc, &certificate.spec, request)?;
    let marks = request_marks(alloc, certificate, secret)?;
    let meta = owned_meta(alloc, certificate, Pairs::new(alloc), marks)?;
    Ok(CertificateRequest {
        meta,
        spec: Shared::new(alloc, spec)?,
        status: Shared::new(alloc, RequestStatus::new(alloc))?,
    })
}

/// The create of a request for the next revision of the Certificate with this certification request, under a name that
/// is generated: with the issuer, the duration, the mark of a CA and the usages of the specification, owned by the
/// Certificate, and with annotations that name the Certificate, the revision and the Secret with the key.
#[tactic(auto, unfolding(cmc_rules::specs::RequestManager::make_request))]
pub fn make_request(
    alloc: Global,
    certificate: &Certificate,
    secret: &Secret,
    request: Bytes,
) -> Result<Call, AllocError>
    requires { next.HasNextRevision (Some certificate.now) }
    ensures { IfOk result (λ c. c ≡ table.make_request certificate.now secret.now request) }
{
    let made = new_request(alloc, certificate, secret, request)?;
    let object = Object::of_request(alloc, made)?;
    Ok(Call::Create {
        object,
        generate: true,
    })
}
