//! Whether a request may be approved.
ghost use Rattle.std.specs.Prelude.{◌≡◌, IfOk, is_none};
ghost use Rattle.std.specs.List.{list_any};
ghost use Rattle.std.specs.Str.{bytes_eq};
ghost use Rattle.cmc_x509.specs.ReadCertificates.{request_fields_at};
ghost use Rattle.cmc_policy_rules.specs.Allowed.{has_entry};
ghost use Rattle.cmc_answers.specs.Denials as spec;

use crate::denial::Denial;
use crate::wanting::wanted_of;
use cmc_meta::Text;
use cmc_objects::{JudgeOrder, Rules};
use cmc_policy_rules::{Decision, Pattern, Policies, Policy, Wanted, decide};
use std::alloc::{AllocError, Global};

fn is_text(text: &Text, name: &[u8]) -> bool
    ensures { result ≡ bytes_eq text.now name.now }
{
    text.as_slice() == name
}

fn stands_in(refuse: &[Text], name: &[u8]) -> bool
    ensures { result ≡ has_entry refuse.now name.now }
{
    refuse.iter().any(|text| is_text(text, name))
}

fn some_stands_in(refuse: &[Text], names: &[Pattern]) -> bool
    ensures { result ≡ list_any (λ name. has_entry refuse.now name) names.now }
{
    names.iter().any(|name| stands_in(refuse, name.as_slice()))
}

fn is_refused(refuse: &[Text], wanted: &Wanted) -> bool
    ensures { result ≡ spec.has_refused_name refuse.now wanted.now }
{
    match &wanted.common {
        Some(common) => {
            stands_in(refuse, common.as_slice()) || some_stands_in(refuse, wanted.dns.as_slice())
        }
        None => some_stands_in(refuse, wanted.dns.as_slice()),
    }
}

fn policy_name(alloc: Global, policies: &[Policy], place: u64) -> Result<Text, AllocError>
    ensures { IfOk result (λ name. name ≡ spec.policy_name policies.now place) }
{
    let name = match policies.get(place as usize) {
        Some(policy) => policy.name.as_slice(),
        None => &[],
    };
    let text = String::from_utf8_lossy(alloc, name)?;
    Text::from_str(alloc, text.as_str())
}

fn denial_by_policies(
    alloc: Global,
    policies: &Policies,
    wanted: &Wanted,
) -> Result<Option<Denial>, AllocError>
    ensures { IfOk result (λ denial. denial ≡ spec.denial_by_policies policies.now wanted.now) }
{
    if policies.as_slice().is_empty() {
        return Ok(None);
    }
    match decide(policies, wanted) {
        Decision::Yes { place: _ } => Ok(None),
        Decision::No { place, field } => Ok(Some(Denial::Policy {
            name: policy_name(alloc, policies.as_slice(), place)?,
            field,
        })),
        Decision::Unbound => Ok(Some(Denial::Unbound)),
    }
}

fn denial_of_wanted(
    alloc: Global,
    rules: &Rules,
    wanted: &Wanted,
) -> Result<Option<Denial>, AllocError>
    ensures { IfOk result (λ denial. denial ≡ spec.denial_of_wanted rules.now wanted.now) }
{
    if is_refused(rules.refuse.as_slice(), wanted) {
        return Ok(Some(Denial::Refused));
    }
    denial_by_policies(alloc, &rules.policies, wanted)
}

/// Why the request of the question may not be approved, by the question's rules; `None` exactly where it may be.
#[tactic(auto, unfolding(crate::specs::Denials::denial_of))]
pub fn denial_of(alloc: Global, order: &JudgeOrder) -> Result<Option<Denial>, AllocError>
    ensures { IfOk result (λ denial. denial ≡ spec.denial_of order.now) }
{
    match order.request.spec.request.fields() {
        Some(csr) => {
            let wanted = wanted_of(alloc, &order.request, &csr)?;
            denial_of_wanted(alloc, &order.rules, &wanted)
        }
        None => Ok(Some(Denial::Unreadable)),
    }
}
