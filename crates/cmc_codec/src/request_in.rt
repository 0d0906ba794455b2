// The spec of a CertificateRequest, read from JSON.
ghost use Rattle.std.specs.Prelude.{◌≡◌};
ghost use Rattle.serde_json.specs.View.{view};
ghost use Rattle.cmc_cursor.specs.Members.{Gives};
ghost use Rattle.cmc_codec.specs.CertificateForm as forms;

use crate::certificate_in::{Api, Signing, read_signing};
use crate::given::{Wording, given_duration, given_list, needed_bytes};
use cmc_cursor::{BadField, check_end, fields};
use cmc_objects::{RequestSpec, SigningRequest};
use serde_json::Value;
use std::alloc::Global;

#[tactic(auto, unfolding(crate::specs::CertificateForm::request_spec_at))]
fn request_spec(alloc: Global, value: &Value) -> Result<RequestSpec, BadField>
    ensures { Gives (λ t. t) result (forms.request_spec_at (view value.now)) }
{
    let members = fields(alloc, value)?;
    let (duration, rest) = given_duration(alloc, &members, "duration")?;
    let (signing, rest) = read_signing(alloc, rest)?;
    let (request, rest) = needed_bytes(alloc, rest, "request")?;
    let (usages, rest) = given_list(alloc, rest, "usages", Wording::Any)?;
    check_end(alloc, rest)?;
    let Signing { is_ca, issuer } = signing;
    Ok(RequestSpec {
        issuer,
        duration,
        is_ca,
        usages,
        request: SigningRequest::new(alloc, request)?,
    })
}

#[tactic(auto, unfolding(crate::specs::CertificateForm::old_request_spec_at))]
fn old_request_spec(alloc: Global, value: &Value) -> Result<RequestSpec, BadField>
    ensures { Gives (λ t. t) result (forms.old_request_spec_at (view value.now)) }
{
    let members = fields(alloc, value)?;
    let (request, rest) = needed_bytes(alloc, &members, "csr")?;
    let (duration, rest) = given_duration(alloc, rest, "duration")?;
    let (signing, rest) = read_signing(alloc, rest)?;
    let (usages, rest) = given_list(alloc, rest, "usages", Wording::Any)?;
    check_end(alloc, rest)?;
    let Signing { is_ca, issuer } = signing;
    Ok(RequestSpec {
        issuer,
        duration,
        is_ca,
        usages,
        request: SigningRequest::new(alloc, request)?,
    })
}

/// The spec of a CertificateRequest (cert-manager.io/v1 `CertificateRequestSpec`, or that of
/// v1alpha2, which names the request `csr`).
pub fn spec(alloc: Global, api: Api, value: &Value) -> Result<RequestSpec, BadField>
    ensures { Gives (λ t. t) result (forms.api_request_spec_at api (view value.now)) }
{
    match api {
        Api::V1 => request_spec(alloc, value),
        Api::V1Alpha2 => old_request_spec(alloc, value),
    }
}
