// Steps on the requests of a Certificate, and on its issuance.
ghost use Rattle.std.specs.Prelude.{map};
ghost use Rattle.serde_json.specs.View.{view};
ghost use Rattle.cmc_cursor.specs.Members.{Gives};
ghost use Rattle.cmc_cursor.specs.Seen.{shown};
ghost use Rattle.cmc_scenario.specs.Scripts.{answer_in, approve_in, certificate_member_in, deny_in, renew_in, revision_in};

use cmc_cursor::{BadField, Fields, at, check_end, count, required};
use cmc_material::{certificate, reply_row};
use cmc_meta::Key;
use cmc_objects::Step;
use std::alloc::Global;

#[tactic(auto, unfolding(crate::specs::Scripts::certificate_member_in))]
fn named_certificate<'a, 'b>(
    alloc: Global,
    rest: Fields<'a, 'b>,
) -> Result<(Key, Fields<'a, 'b>), BadField>
    ensures { Gives (λ p. (p.0, map shown p.1.now)) result (certificate_member_in (map shown rest.now)) }
{
    let (given, rest) = required(alloc, rest, "certificate")?;
    let certificate = at(alloc, "certificate", certificate(alloc, given))?;
    let (_, rest) = required(alloc, rest, "do")?;
    Ok((certificate, rest))
}

#[tactic(auto, unfolding(crate::specs::Scripts::revision_in))]
fn named_revision<'a, 'b>(
    alloc: Global,
    rest: Fields<'a, 'b>,
) -> Result<((Key, u64), Fields<'a, 'b>), BadField>
    ensures { Gives (λ p. (p.0, map shown p.1.now)) result (revision_in (map shown rest.now)) }
{
    let (certificate, rest) = named_certificate(alloc, rest)?;
    let (given, rest) = required(alloc, rest, "revision")?;
    let revision = at(alloc, "revision", count(alloc, given))?;
    Ok(((certificate, revision), rest))
}

/// `approve`: approves the request of a revision.
#[tactic(auto, unfolding(crate::specs::Scripts::approve_in))]
pub fn approve(alloc: Global, rest: Fields<'_, '_>) -> Result<Step, BadField>
    ensures { Gives (λ t. t) result (approve_in (map shown rest.now)) }
{
    let ((certificate, revision), rest) = named_revision(alloc, rest)?;
    check_end(alloc, rest)?;
    Ok(Step::Approve {
        certificate,
        revision,
    })
}

/// `deny`: denies the request of a revision.
#[tactic(auto, unfolding(crate::specs::Scripts::deny_in))]
pub fn deny(alloc: Global, rest: Fields<'_, '_>) -> Result<Step, BadField>
    ensures { Gives (λ t. t) result (deny_in (map shown rest.now)) }
{
    let ((certificate, revision), rest) = named_revision(alloc, rest)?;
    check_end(alloc, rest)?;
    Ok(Step::Deny {
        certificate,
        revision,
    })
}

/// `answer`: answers the request of a revision by a row.
#[tactic(auto, unfolding(crate::specs::Scripts::answer_in))]
pub fn answer(alloc: Global, rest: Fields<'_, '_>) -> Result<Step, BadField>
    ensures { Gives (λ t. t) result (answer_in (map shown rest.now)) }
{
    let ((certificate, revision), rest) = named_revision(alloc, rest)?;
    let (given, rest) = required(alloc, rest, "row")?;
    let row = at(alloc, "row", reply_row(alloc, given))?;
    check_end(alloc, rest)?;
    Ok(Step::Answer {
        certificate,
        revision,
        row,
    })
}

/// `renew`: asks for a new issuance of a Certificate.
#[tactic(auto, unfolding(crate::specs::Scripts::renew_in))]
pub fn renew(alloc: Global, rest: Fields<'_, '_>) -> Result<Step, BadField>
    ensures { Gives (λ t. t) result (renew_in (map shown rest.now)) }
{
    let (certificate, rest) = named_certificate(alloc, rest)?;
    check_end(alloc, rest)?;
    Ok(Step::Renew { certificate })
}
