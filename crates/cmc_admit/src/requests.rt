//! The rules on a CertificateRequest's spec and on its conditions Approved and Denied.
ghost use Rattle.std.specs.Option.{option_copied};
ghost use Rattle.std.specs.Prelude.{◌≡◌};
ghost use Rattle.std.specs.List.{list_any};
ghost use Rattle.cmc_model.specs.Admission as rules;
ghost use Rattle.cmc_model.specs.Specs.{keeps_spec, cert_spec_eq, request_spec_eq};

use cmc_meta::{Condition, ConditionKind, Conditions, Tri};
use cmc_objects::{CertSpec, Object, RequestSpec};

fn is_same_cert_spec(old: &CertSpec, new: &CertSpec) -> bool
    ensures { result ≡ cert_spec_eq old.now new.now }
{
    old.same(new)
}

fn is_same_request_spec(old: &RequestSpec, new: &RequestSpec) -> bool
    ensures { result ≡ request_spec_eq old.now new.now }
{
    old.same(new)
}

/// Whether an update leaves the spec as it was; a Secret has none.
pub fn is_spec_kept(old: &Object, new: &Object) -> bool
    ensures { result ≡ keeps_spec old.now new.now }
{
    match (old, new) {
        (Object::Cert(a), Object::Cert(b)) => is_same_cert_spec(&a.spec, &b.spec),
        (Object::Request(a), Object::Request(b)) => is_same_request_spec(&a.spec, &b.spec),
        _ => true,
    }
}

/// The spec is another one than that of the object that exists.
pub fn changes_spec(old: Option<&Object>, new: &Object) -> bool
    ensures { result ≡ rules.changes_spec (option_copied old.entry) new.now }
{
    match old {
        None => false,
        Some(old) => !is_spec_kept(old, new),
    }
}

fn is_of(condition: &Condition, kind: ConditionKind) -> bool
    ensures { result ≡ rules.is_of_condition kind condition.now }
{
    condition.kind.same(kind)
}

fn stands(conditions: &[Condition], kind: ConditionKind) -> bool
    ensures { result ≡ rules.has_condition kind conditions.now }
{
    conditions.iter().any(|condition| is_of(condition, kind))
}

fn is_unsettled(conditions: &[Condition], kind: ConditionKind) -> bool
    ensures { result ≡ rules.is_unsettled kind conditions.now }
{
    conditions.iter().any(|condition| is_of(condition, kind) && !condition.status.same(Tri::True))
}

fn is_same_condition(old: &Condition, new: &Condition) -> bool
    ensures { result ≡ rules.condition_eq old.now new.now }
{
    old.same(new)
}

fn is_lost(old: Option<&Condition>, new: Option<&Condition>) -> bool
    ensures { result ≡ rules.is_lost (option_copied old.entry) (option_copied new.entry) }
{
    match (old, new) {
        (None, _) => false,
        (Some(_), None) => true,
        (Some(old), Some(new)) => !is_same_condition(old, new),
    }
}

fn loses(old: &Conditions, new: &Conditions, kind: ConditionKind) -> bool
    ensures { result ≡ rules.loses kind old.now new.now }
{
    is_lost(old.get(kind), new.get(kind))
}

/// Approved or Denied stands and is not True.
pub fn is_verdict_unsettled(new: &Conditions) -> bool
    ensures { result ≡ rules.is_verdict_unsettled new.now }
{
    is_unsettled(new.as_slice(), ConditionKind::Approved)
        || is_unsettled(new.as_slice(), ConditionKind::Denied)
}

/// Approved and Denied both stand.
pub fn has_both_verdicts(new: &Conditions) -> bool
    ensures { result ≡ rules.has_both_verdicts new.now }
{
    stands(new.as_slice(), ConditionKind::Approved) && stands(new.as_slice(), ConditionKind::Denied)
}

/// Approved or Denied stood and is absent or changed.
pub fn loses_verdict(old: Option<&Object>, new: &Conditions) -> bool
    ensures { result ≡ rules.loses_verdict (rules.conditions_of (option_copied old.entry)) new.now }
{
    match old {
        Some(Object::Request(old)) => {
            loses(&old.status.conditions, new, ConditionKind::Approved)
                || loses(&old.status.conditions, new, ConditionKind::Denied)
        }
        _ => false,
    }
}
