//! The conditions Approved and Denied, with their texts.
ghost use Rattle.std.specs.Prelude.{◌≡◌, ◌++◌, IfOk, codes};
ghost use Rattle.cmc_rules.specs.Approver as table;

use cmc_answers::Denial;
use cmc_meta::{Condition, ConditionKind, Text, Tri};
use cmc_policy_rules::Field;
use std::alloc::{AllocError, Global};

fn field_name(field: Field) -> &'static str
    ensures { result.now ≡ table.field_name field }
{
    match field {
        Field::CommonName => "commonName",
        Field::DnsNames => "dnsNames",
        Field::IpAddresses => "ipAddresses",
        Field::Uris => "uris",
        Field::EmailAddresses => "emailAddresses",
        Field::Usages => "usages",
        Field::IsCA => "isCA",
        Field::MinDuration => "minDuration",
        Field::MaxDuration => "maxDuration",
        Field::Algorithm => "algorithm",
        Field::MinSize => "minSize",
        Field::MaxSize => "maxSize",
    }
}

fn policy_text(alloc: Global, name: &Text, field: Field) -> Result<Text, AllocError>
    ensures { IfOk result (λ t. t ≡ codes "Policy " ++ name.now ++ codes " does not allow " ++ table.field_name field) }
{
    let mut text = String::from_str(alloc, "Policy ")?;
    text.push_str(name.as_str())?;
    text.push_str(" does not allow ")?;
    text.push_str(field_name(field))?;
    Text::from_str(alloc, text.as_str())
}

fn denial_text(alloc: Global, denial: &Denial) -> Result<Text, AllocError>
    ensures { IfOk result (λ t. t ≡ table.denial_text denial.now) }
{
    match denial {
        Denial::Unreadable | Denial::Refused => {
            Text::from_str(alloc, "Certificate request has a refused name")
        }
        Denial::Policy { name, field } => policy_text(alloc, name, *field),
        Denial::Unbound => Text::from_str(alloc, "No policy applies to the request"),
    }
}

#[tactic(auto, unfolding(cmc_rules::specs::Approver::approval))]
fn approval(alloc: Global, moment: i64) -> Result<Condition, AllocError>
    ensures { IfOk result (λ c. c ≡ table.approval moment) }
{
    Ok(Condition {
        kind: ConditionKind::Approved,
        status: Tri::True,
        reason: Text::from_str(alloc, "cert-manager.io")?,
        message: Text::from_str(
            alloc,
            "Certificate request has been approved by cert-manager.io",
        )?,
        since: moment,
    })
}

#[tactic(auto, unfolding(cmc_rules::specs::Approver::denied_for))]
fn denied_for(alloc: Global, moment: i64, denial: &Denial) -> Result<Condition, AllocError>
    ensures { IfOk result (λ c. c ≡ table.denied_for moment denial.now) }
{
    Ok(Condition {
        kind: ConditionKind::Denied,
        status: Tri::True,
        reason: Text::from_str(alloc, "cert-manager.io")?,
        message: denial_text(alloc, denial)?,
        since: moment,
    })
}

/// The condition that says the verdict: Approved on a yes, and on a no Denied, with the reason in words; `None` exactly
/// where a no has no reason.
pub fn verdict_by(
    alloc: Global,
    moment: i64,
    approved: bool,
    denial: &Option<Denial>,
) -> Result<Option<Condition>, AllocError>
    ensures { IfOk result (λ c. c ≡ table.verdict_by moment approved denial.now) }
{
    if approved {
        return Ok(Some(approval(alloc, moment)?));
    }
    match denial {
        None => Ok(None),
        Some(denial) => Ok(Some(denied_for(alloc, moment, denial)?)),
    }
}
