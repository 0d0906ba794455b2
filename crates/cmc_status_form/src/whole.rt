// Objects with their status, read from JSON.
ghost use Rattle.std.specs.Prelude.{◌≡◌, codes};
ghost use Rattle.serde_json.specs.Find.{get};
ghost use Rattle.serde_json.specs.View.{view};
ghost use Rattle.cmc_objects.specs.Objects.{no_cert_status, no_request_status};
ghost use Rattle.cmc_cursor.specs.Members.{Gives};
ghost use Rattle.cmc_cursor.specs.Seen.{shown_option};
ghost use Rattle.cmc_codec.specs.Given.{given_or};
ghost use Rattle.cmc_status_form.specs.StatusForm.{cert_status_at, request_status_at};
ghost use Rattle.cmc_status_form.specs.WholeForm as forms;

use crate::request::request_status;
use crate::status::cert_status;
use cmc_codec::object_of;
use cmc_cursor::{BadField, at, path_to};
use cmc_objects::{
    CertStatus, Certificate, CertificateRequest, Object, RequestStatus, Secret, Shared,
};
use serde_json::Value;
use std::alloc::Global;

fn status_of(value: &Value) -> Option<&Value>
    ensures { shown_option result ≡ get (codes "status") (view value.now) }
{
    value.get("status")
}

fn given_cert_status(alloc: Global, given: Option<&Value>) -> Result<CertStatus, BadField>
    ensures { Gives (λ t. t) result (given_or no_cert_status cert_status_at (codes "status") (shown_option given.entry)) }
{
    match given {
        None => Ok(CertStatus::new(alloc)),
        Some(value) => at(alloc, "status", cert_status(alloc, value)),
    }
}

fn given_request_status(alloc: Global, given: Option<&Value>) -> Result<RequestStatus, BadField>
    ensures { Gives (λ t. t) result (given_or no_request_status request_status_at (codes "status") (shown_option given.entry)) }
{
    match given {
        None => Ok(RequestStatus::new(alloc)),
        Some(value) => at(alloc, "status", request_status(alloc, value)),
    }
}

fn certificate(
    alloc: Global,
    certificate: &Certificate,
    given: Option<&Value>,
) -> Result<Object, BadField>
    ensures { Gives (λ t. t) result (forms.cert_with certificate.now (shown_option given.entry)) }
{
    let status = given_cert_status(alloc, given)?;
    Ok(Object::of_certificate(
        alloc,
        Certificate {
            meta: certificate.meta.copy()?,
            spec: certificate.spec.copy()?,
            status: Shared::new(alloc, status)?,
        },
    )?)
}

fn request(
    alloc: Global,
    request: &CertificateRequest,
    given: Option<&Value>,
) -> Result<Object, BadField>
    ensures { Gives (λ t. t) result (forms.request_with request.now (shown_option given.entry)) }
{
    let status = given_request_status(alloc, given)?;
    Ok(Object::of_request(
        alloc,
        CertificateRequest {
            meta: request.meta.copy()?,
            spec: request.spec.copy()?,
            status: Shared::new(alloc, status)?,
        },
    )?)
}

fn secret(alloc: Global, secret: &Shared<Secret>, given: Option<&Value>) -> Result<Object, BadField>
    ensures { Gives (λ t. t) result (forms.secret_with secret.now (shown_option given.entry)) }
{
    match given {
        None => Ok(Object::Secret(secret.copy()?)),
        Some(_) => Err(BadField::Path(path_to(alloc, "status")?)),
    }
}

fn with_status(alloc: Global, object: &Object, given: Option<&Value>) -> Result<Object, BadField>
    ensures { Gives (λ t. t) result (forms.with_status_read (shown_option given.entry) object.now) }
{
    match object {
        Object::Cert(found) => certificate(alloc, found, given),
        Object::Request(found) => request(alloc, found, given),
        Object::Secret(found) => secret(alloc, found, given),
    }
}

/// The object that a JSON value stands for, with its status, as both are printed of it: a Certificate or a
/// CertificateRequest with the member `status`, which is left out where the status is empty, or a Secret, which has none.
/// The rest is read as [`object_of`] reads it; the fields that the store owns are 0.
///
/// Of a status no part may be empty, the conditions are in the order of their kinds, each kind at most once, and moments
/// are written as RFC 3339 writes them in UTC, to the second.
///
/// Fails at the first failing path of the object without its status, and else at that of the status.
#[tactic(auto, unfolding(crate::specs::WholeForm::whole_object_at))]
pub fn whole_object_of(alloc: Global, value: &Value) -> Result<Object, BadField>
    ensures { Gives (λ t. t) result (forms.whole_object_at (view value.now)) }
{
    let object = object_of(alloc, value)?;
    with_status(alloc, &object, status_of(value))
}
