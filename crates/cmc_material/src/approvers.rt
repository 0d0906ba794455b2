// What a scenario says of its approver.
ghost use Rattle.std.specs.Prelude.{◌≡◌, [], codes, IfOk};
ghost use Rattle.serde_json.specs.View.{view};
ghost use Rattle.cmc_cursor.specs.Members.{Gives};
ghost use Rattle.cmc_cursor.specs.Readers.{texts_at};
ghost use Rattle.cmc_cursor.specs.Seen.{shown_option};
ghost use Rattle.cmc_material.specs.Lists.{member_or};
ghost use Rattle.cmc_material.specs.Approvers.{approver_at, every_issuer, default_approver};

use crate::policy::policies;
use cmc_cursor::{BadField, at, check_end, fields, optional, texts};
use cmc_meta::{Text, Texts};
use cmc_objects::Rules;
use cmc_policy_rules::Policies;
use serde_json::Value;
use std::alloc::{AllocError, Global};

fn all_issuers(alloc: Global) -> Result<Texts, AllocError>
    ensures { IfOk result (λ t. t ≡ every_issuer) }
{
    let mut issuers = Texts::new(alloc);
    issuers.push(Text::from_str(alloc, "*")?)?;
    Ok(issuers)
}

fn issuers(alloc: Global, value: Option<&Value>) -> Result<Texts, BadField>
    ensures { Gives (λ t. t) result (member_or every_issuer (codes "issuers") texts_at (shown_option value.entry)) }
{
    match value {
        None => Ok(all_issuers(alloc)?),
        Some(value) => at(alloc, "issuers", texts(alloc, value)),
    }
}

fn refused(alloc: Global, value: Option<&Value>) -> Result<Texts, BadField>
    ensures { Gives (λ t. t) result (member_or [] (codes "refuse") texts_at (shown_option value.entry)) }
{
    match value {
        None => Ok(Texts::new(alloc)),
        Some(value) => at(alloc, "refuse", texts(alloc, value)),
    }
}

#[tactic(auto, unfolding(crate::specs::Approvers::approver_at))]
fn rules(alloc: Global, value: &Value) -> Result<Rules, BadField>
    ensures { Gives (λ t. t) result (approver_at (view value.now)) }
{
    let members = fields(alloc, value)?;
    let (given, rest) = optional(alloc, &members, "issuers")?;
    let issuers = issuers(alloc, given)?;
    let (given, rest) = optional(alloc, rest, "policies")?;
    let policies = policies(alloc, given)?;
    let (given, rest) = optional(alloc, rest, "refuse")?;
    let refuse = refused(alloc, given)?;
    check_end(alloc, rest)?;
    Ok(Rules {
        issuers,
        refuse,
        policies,
    })
}

/// An approver that judges the requests of all issuers, refuses none and has no policies.
pub fn usual_approver(alloc: Global) -> Result<Rules, AllocError>
    ensures { IfOk result (λ r. r ≡ default_approver) }
{
    let issuers = all_issuers(alloc)?;
    Ok(Rules {
        issuers,
        refuse: Texts::new(alloc),
        policies: Policies::new(alloc),
    })
}

/// The member `approver`.
pub fn approver(alloc: Global, value: Option<&Value>) -> Result<Rules, BadField>
    ensures { Gives (λ t. t) result (member_or default_approver (codes "approver") approver_at (shown_option value.entry)) }
{
    match value {
        None => Ok(usual_approver(alloc)?),
        Some(value) => at(alloc, "approver", rules(alloc, value)),
    }
}
