// The status of a CertificateRequest, read from JSON.
ghost use Rattle.std.specs.Prelude.{◌≡◌, map};
ghost use Rattle.serde_json.specs.View.{view};
ghost use Rattle.cmc_cursor.specs.Members.{Gives};
ghost use Rattle.cmc_cursor.specs.Seen.{shown};
ghost use Rattle.cmc_status_form.specs.StatusForm as forms;

use crate::given::{given_bytes, given_conditions, given_moment, some_fields};
use cmc_cursor::{BadField, Fields, check_end};
use cmc_objects::RequestStatus;
use serde_json::Value;
use std::alloc::Global;

#[tactic(auto, unfolding(crate::specs::StatusForm::request_status_in))]
fn read_status(alloc: Global, rest: Fields<'_, '_>) -> Result<RequestStatus, BadField>
    ensures { Gives (λ t. t) result (forms.request_status_in (map shown rest.now)) }
{
    let (ca, rest) = given_bytes(alloc, rest, "ca")?;
    let (certificate, rest) = given_bytes(alloc, rest, "certificate")?;
    let (conditions, rest) = given_conditions(alloc, rest)?;
    let (failure, rest) = given_moment(alloc, rest, "failureTime")?;
    check_end(alloc, rest)?;
    Ok(RequestStatus {
        conditions,
        certificate,
        ca,
        failure,
    })
}

/// The status of a CertificateRequest (cert-manager.io/v1 `CertificateRequestStatus`) that is not empty.
#[tactic(auto, unfolding(crate::specs::StatusForm::request_status_at))]
pub fn request_status(alloc: Global, value: &Value) -> Result<RequestStatus, BadField>
    ensures { Gives (λ t. t) result (forms.request_status_at (view value.now)) }
{
    let members = some_fields(alloc, value)?;
    read_status(alloc, &members)
}
