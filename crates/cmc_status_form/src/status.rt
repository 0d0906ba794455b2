// The status of a Certificate, read from JSON in parts, as its members come.
ghost use Rattle.std.specs.Prelude.{◌≡◌, map};
ghost use Rattle.serde_json.specs.View.{view};
ghost use Rattle.cmc_cursor.specs.Members.{Gives};
ghost use Rattle.cmc_cursor.specs.Seen.{shown};
ghost use Rattle.cmc_status_form.specs.StatusForm as forms;

use crate::given::{
    given_conditions, given_count, given_moment, given_name, given_small_count, some_fields,
};
use cmc_cursor::{BadField, Fields, check_end};
use cmc_meta::{Conditions, Name};
use cmc_objects::CertStatus;
use serde_json::Value;
use std::alloc::Global;

/// How issuance goes.
#[derive(Drop)]
pub struct Issuance {
    pub conditions: Conditions,
    pub attempts: Option<u32>,
    pub last_failure: Option<i64>,
    pub next_key: Option<Name>,
}

/// The certificate that exists.
#[derive(Clone, Copy)]
pub struct Standing {
    pub not_after: Option<i64>,
    pub not_before: Option<i64>,
    pub renewal: Option<i64>,
    pub revision: Option<u64>,
}

#[tactic(auto, unfolding(crate::specs::StatusForm::issuance_in))]
fn read_issuance<'a, 'b>(
    alloc: Global,
    rest: Fields<'a, 'b>,
) -> Result<(Issuance, Fields<'a, 'b>), BadField>
    ensures { Gives (λ p. (p.0, map shown p.1.now)) result (forms.issuance_in (map shown rest.now)) }
{
    let (conditions, rest) = given_conditions(alloc, rest)?;
    let (attempts, rest) = given_small_count(alloc, rest, "failedIssuanceAttempts")?;
    let (last_failure, rest) = given_moment(alloc, rest, "lastFailureTime")?;
    let (next_key, rest) = given_name(alloc, rest, "nextPrivateKeySecretName")?;
    Ok((
        Issuance {
            conditions,
            attempts,
            last_failure,
            next_key,
        },
        rest,
    ))
}

#[tactic(auto, unfolding(crate::specs::StatusForm::standing_in))]
fn read_standing<'a, 'b>(
    alloc: Global,
    rest: Fields<'a, 'b>,
) -> Result<(Standing, Fields<'a, 'b>), BadField>
    ensures { Gives (λ p. (p.0, map shown p.1.now)) result (forms.standing_in (map shown rest.now)) }
{
    let (not_after, rest) = given_moment(alloc, rest, "notAfter")?;
    let (not_before, rest) = given_moment(alloc, rest, "notBefore")?;
    let (renewal, rest) = given_moment(alloc, rest, "renewalTime")?;
    let (revision, rest) = given_count(alloc, rest, "revision")?;
    Ok((
        Standing {
            not_after,
            not_before,
            renewal,
            revision,
        },
        rest,
    ))
}

#[tactic(auto, unfolding(crate::specs::StatusForm::cert_status_in))]
fn read_status(alloc: Global, rest: Fields<'_, '_>) -> Result<CertStatus, BadField>
    ensures { Gives (λ t. t) result (forms.cert_status_in (map shown rest.now)) }
{
    let (issuance, rest) = read_issuance(alloc, rest)?;
    let (standing, rest) = read_standing(alloc, rest)?;
    check_end(alloc, rest)?;
    let Issuance {
        conditions,
        attempts,
        last_failure,
        next_key,
    } = issuance;
    Ok(CertStatus {
        conditions,
        last_failure,
        attempts,
        not_before: standing.not_before,
        not_after: standing.not_after,
        renewal: standing.renewal,
        revision: standing.revision,
        next_key,
    })
}

/// The status of a Certificate (cert-manager.io/v1 `CertificateStatus`) that is not empty.
#[tactic(auto, unfolding(crate::specs::StatusForm::cert_status_at))]
pub fn cert_status(alloc: Global, value: &Value) -> Result<CertStatus, BadField>
    ensures { Gives (λ t. t) result (forms.cert_status_at (view value.now)) }
{
    let members = some_fields(alloc, value)?;
    read_status(alloc, &members)
}
