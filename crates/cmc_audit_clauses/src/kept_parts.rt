//! Which parts of an object a write keeps.
ghost use Rattle.std.specs.Prelude.{◌≡◌, ◌↔◌, IfOk, IsTrue};
ghost use Rattle.cmc_meta.specs.declared.conditions.ConditionKind.TheVariants as kinds;
ghost use Rattle.cmc_rules.specs.Rights as rights;
ghost use Rattle.cmc_rules.specs.Rights.{ChangesAnswer, ChangesIssuance, ChangesIssuing, ChangesNextKey, ChangesReadiness, ChangesVerdict, KeepsMeta};

use cmc_meta::{Condition, ConditionKind, Items, Name, ObjectMeta};
use cmc_objects::{CertStatus, RequestStatus};
use std::alloc::{AllocError, Global};

/// Whether the metadata is the old one under another resource version.
pub(crate) fn keeps_meta(old: &ObjectMeta, new: &ObjectMeta) -> bool
    ensures { IsTrue result ↔ KeepsMeta old.now new.now }
{
    old.namespace.same(&new.namespace)
        && old.name.same(&new.name)
        && old.uid == new.uid
        && old.generation == new.generation
        && old.created == new.created
        && old.labels.same(&new.labels)
        && old.annotations.same(&new.annotations)
        && old.owners.same(&new.owners)
}

fn is_other(kind: ConditionKind, condition: &Condition) -> bool
    ensures { result ≡ rights.is_other kind condition.now }
{
    !condition.kind.same(kind)
}

/// The conditions but that of this kind. An error is one of memory.
fn others(
    alloc: Global,
    kind: ConditionKind,
    conditions: &[Condition],
) -> Result<Items<Condition>, AllocError>
    ensures { IfOk result (λ others. others ≡ rights.other_conditions kind conditions.now) }
{
    let mut others = Items::new(alloc);
    for condition in conditions {
        if is_other(kind, condition) {
            others.push(condition.copy()?)?;
        }
    }
    Ok(others)
}

/// Whether both have the same conditions but for this kind. An error is one of memory.
fn same_others(
    alloc: Global,
    kind: ConditionKind,
    old: &[Condition],
    new: &[Condition],
) -> Result<bool, AllocError>
    ensures { IfOk result (λ same. IsTrue same ↔ (rights.other_conditions kind new.now ≡ rights.other_conditions kind old.now)) }
{
    let before = others(alloc, kind, old)?;
    let after = others(alloc, kind, new)?;
    Ok(after.same(&before))
}

/// Whether both have the same conditions but for verdicts. An error is one of memory.
fn same_but_verdicts(
    alloc: Global,
    old: &[Condition],
    new: &[Condition],
) -> Result<bool, AllocError>
    ensures { IfOk result (λ same. IsTrue same ↔ (rights.other_conditions kinds.Approved (rights.other_conditions kinds.Denied new.now) ≡ rights.other_conditions kinds.Approved (rights.other_conditions kinds.Denied old.now))) }
{
    let before = others(alloc, ConditionKind::Denied, old)?;
    let after = others(alloc, ConditionKind::Denied, new)?;
    same_others(
        alloc,
        ConditionKind::Approved,
        before.as_slice(),
        after.as_slice(),
    )
}

fn same_moment(left: Option<i64>, right: Option<i64>) -> bool
    ensures { IsTrue result ↔ (left ≡ right) }
{
    left == right
}

fn same_count(left: Option<u32>, right: Option<u32>) -> bool
    ensures { IsTrue result ↔ (left ≡ right) }
{
    left == right
}

fn same_number(left: Option<u64>, right: Option<u64>) -> bool
    ensures { IsTrue result ↔ (left ≡ right) }
{
    left == right
}

fn same_name(left: &Option<Name>, right: &Option<Name>) -> bool
    ensures { IsTrue result ↔ (left.now ≡ right.now) }
{
    match (left, right) {
        (Some(left), Some(right)) => left.same(right),
        (None, None) => true,
        _ => false,
    }
}

/// Whether the status is the old one but for its conditions.
fn keeps_but_conditions(old: &CertStatus, new: &CertStatus) -> bool
    ensures { IsTrue result ↔ (new.now ≡ record old.now { conditions = new.now.conditions }) }
{
    same_moment(old.last_failure, new.last_failure)
        && same_count(old.attempts, new.attempts)
        && same_moment(old.not_before, new.not_before)
        && same_moment(old.not_after, new.not_after)
        && same_moment(old.renewal, new.renewal)
        && same_number(old.revision, new.revision)
        && same_name(&old.next_key, &new.next_key)
}

/// Whether the status is the old one but for the condition Issuing. An error is one of memory.
pub(crate) fn changes_issuing(
    alloc: Global,
    old: &CertStatus,
    new: &CertStatus,
) -> Result<bool, AllocError>
    ensures { IfOk result (λ changes. IsTrue changes ↔ ChangesIssuing old.now new.now) }
{
    if !keeps_but_conditions(old, new) {
        return Ok(false);
    }
    same_others(
        alloc,
        ConditionKind::Issuing,
        old.conditions.as_slice(),
        new.conditions.as_slice(),
    )
}

/// Whether the status is the old one but for the name of the next private key.
pub(crate) fn changes_next_key(old: &CertStatus, new: &CertStatus) -> bool
    ensures { IsTrue result ↔ ChangesNextKey old.now new.now }
{
    old.conditions.same(&new.conditions)
        && same_moment(old.last_failure, new.last_failure)
        && same_count(old.attempts, new.attempts)
        && same_moment(old.not_before, new.not_before)
        && same_moment(old.not_after, new.not_after)
        && same_moment(old.renewal, new.renewal)
        && same_number(old.revision, new.revision)
}

fn keeps_but_issuance(old: &CertStatus, new: &CertStatus) -> bool
    ensures { IsTrue result ↔ (new.now ≡ record old.now { conditions = new.now.conditions; revision = new.now.revision; last_failure = new.now.last_failure; attempts = new.now.attempts }) }
{
    same_moment(old.not_before, new.not_before)
        && same_moment(old.not_after, new.not_after)
        && same_moment(old.renewal, new.renewal)
        && same_name(&old.next_key, &new.next_key)
}

/// Whether the status is the old one but for what an issuance writes. An error is one of memory.
pub(crate) fn changes_issuance(
    alloc: Global,
    old: &CertStatus,
    new: &CertStatus,
) -> Result<bool, AllocError>
    ensures { IfOk result (λ changes. IsTrue changes ↔ ChangesIssuance old.now new.now) }
{
    if !keeps_but_issuance(old, new) {
        return Ok(false);
    }
    same_others(
        alloc,
        ConditionKind::Issuing,
        old.conditions.as_slice(),
        new.conditions.as_slice(),
    )
}

fn keeps_but_readiness(old: &CertStatus, new: &CertStatus) -> bool
    ensures { IsTrue result ↔ (new.now ≡ record old.now { conditions = new.now.conditions; not_before = new.now.not_before; not_after = new.now.not_after; renewal = new.now.renewal }) }
{
    same_moment(old.last_failure, new.last_failure)
        && same_count(old.attempts, new.attempts)
        && same_number(old.revision, new.revision)
        && same_name(&old.next_key, &new.next_key)
}

/// Whether the status is the old one but for readiness and validity. An error is one of memory.
pub(crate) fn changes_readiness(
    alloc: Global,
    old: &CertStatus,
    new: &CertStatus,
) -> Result<bool, AllocError>
    ensures { IfOk result (λ changes. IsTrue changes ↔ ChangesReadiness old.now new.now) }
{
    if !keeps_but_readiness(old, new) {
        return Ok(false);
    }
    same_others(
        alloc,
        ConditionKind::Ready,
        old.conditions.as_slice(),
        new.conditions.as_slice(),
    )
}

fn keeps_but_verdict(old: &RequestStatus, new: &RequestStatus) -> bool
    ensures { IsTrue result ↔ (new.now ≡ record old.now { conditions = new.now.conditions }) }
{
    old.certificate.same(&new.certificate)
        && old.ca.same(&new.ca)
        && same_moment(old.failure, new.failure)
}

/// Whether the status is the old one but for the verdict. An error is one of memory.
pub(crate) fn changes_verdict(
    alloc: Global,
    old: &RequestStatus,
    new: &RequestStatus,
) -> Result<bool, AllocError>
    ensures { IfOk result (λ changes. IsTrue changes ↔ ChangesVerdict old.now new.now) }
{
    if !keeps_but_verdict(old, new) {
        return Ok(false);
    }
    same_but_verdicts(alloc, old.conditions.as_slice(), new.conditions.as_slice())
}

/// Whether the status is the old one but for what its issuer answered. An error is one of memory.
pub(crate) fn changes_answer(
    alloc: Global,
    old: &RequestStatus,
    new: &RequestStatus,
) -> Result<bool, AllocError>
    ensures { IfOk result (λ changes. IsTrue changes ↔ ChangesAnswer old.now new.now) }
{
    same_others(
        alloc,
        ConditionKind::Ready,
        old.conditions.as_slice(),
        new.conditions.as_slice(),
    )
}
