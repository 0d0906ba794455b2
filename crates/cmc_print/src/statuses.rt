// The statuses of Certificates and CertificateRequests as JSON.
ghost use Rattle.std.specs.Prelude.{◌≡◌, codes, IfOk, OnOk, OnErr};
ghost use Rattle.serde_json.specs.Data.{string};
ghost use Rattle.cmc_print.specs.Printed.{put_moments, status_members, request_status_members};
ghost use Rattle.cmc_print.specs.Puts.{put_option};
ghost use Rattle.cmc_print.specs.Trees.{members_of};

use crate::metadata::put_conditions;
use crate::puts::{put_count_option, put_moment, put_small_count_option, put_some_bytes, put_text};
use crate::tree::Members;
use cmc_meta::Name;
use cmc_objects::{CertStatus, RequestStatus};
use std::alloc::{AllocError, Global};

#[tactic(auto, unfolding(crate::specs::Printed::put_moments))]
fn add_moments(members: &mut Members, alloc: Global, status: &CertStatus) -> Result<(), AllocError>
    ensures { OnOk result (members_of members.new ≡ put_moments status.now (members_of members.old)) }
{
    put_moment(members, alloc, "lastFailureTime", status.last_failure)?;
    put_moment(members, alloc, "notBefore", status.not_before)?;
    put_moment(members, alloc, "notAfter", status.not_after)?;
    put_moment(members, alloc, "renewalTime", status.renewal)
}

fn put_next_key(members: &mut Members, alloc: Global, name: &Option<Name>) -> Result<(), AllocError>
    ensures ok { OnOk result (members_of members.new ≡ put_option string (codes "nextPrivateKeySecretName") name.now (members_of members.old)) }
    ensures err { OnErr result (members_of members.new ≡ members_of members.old) }
{
    match name {
        None => Ok(()),
        Some(name) => put_text(members, alloc, "nextPrivateKeySecretName", name.as_str()),
    }
}

/// The members of the status of a Certificate.
#[tactic(auto, unfolding(crate::specs::Printed::status_members))]
pub fn cert_status_members(alloc: Global, status: &CertStatus) -> Result<Members, AllocError>
    ensures { IfOk result (λ m. members_of m ≡ status_members status.now) }
{
    let mut members = Members::new(alloc);
    put_conditions(&mut members, alloc, status.conditions.as_slice())?;
    add_moments(&mut members, alloc, status)?;
    put_small_count_option(
        &mut members,
        alloc,
        "failedIssuanceAttempts",
        status.attempts,
    )?;
    put_count_option(&mut members, alloc, "revision", status.revision)?;
    put_next_key(&mut members, alloc, &status.next_key)?;
    Ok(members)
}

/// The members of the status of a CertificateRequest.
#[tactic(auto, unfolding(crate::specs::Printed::request_status_members))]
pub fn request_members(alloc: Global, status: &RequestStatus) -> Result<Members, AllocError>
    ensures { IfOk result (λ m. members_of m ≡ request_status_members status.now) }
{
    let mut members = Members::new(alloc);
    put_conditions(&mut members, alloc, status.conditions.as_slice())?;
    put_some_bytes(
        &mut members,
        alloc,
        "certificate",
        status.certificate.as_slice(),
    )?;
    put_some_bytes(&mut members, alloc, "ca", status.ca.as_slice())?;
    put_moment(&mut members, alloc, "failureTime", status.failure)?;
    Ok(members)
}
