// Whether two parts of a scenario are equal.
ghost use Rattle.std.specs.Prelude.{◌≡◌, ◌↔◌, IsTrue};
ghost use Rattle.cmc_objects.specs.declared.entry.Step.TheVariants as steps;

use cmc_meta::{Key, Kind};
use cmc_objects::{KeyRow, Material, Object, Role, Rows, SignRow, Step};
use std::collections::BTreeMap;

pub(crate) fn same_roles(left: &[Role], right: &[Role]) -> bool
    ensures { IsTrue result ↔ (left.now ≡ right.now) }
{
    if left.len() != right.len() {
        return false;
    }
    for (i, role) in left.iter().enumerate() {
        if !role.same(right[i]) {
            return false;
        }
    }
    true
}

fn same_key_rows(left: &[KeyRow], right: &[KeyRow]) -> bool
    ensures { IsTrue result ↔ (left.now ≡ right.now) }
{
    if left.len() != right.len() {
        return false;
    }
    for (i, row) in left.iter().enumerate() {
        if !row.same(&right[i]) {
            return false;
        }
    }
    true
}

fn same_sign_rows(left: &[SignRow], right: &[SignRow]) -> bool
    ensures { IsTrue result ↔ (left.now ≡ right.now) }
{
    if left.len() != right.len() {
        return false;
    }
    for (i, row) in left.iter().enumerate() {
        if !row.same(&right[i]) {
            return false;
        }
    }
    true
}

fn same_rows(left: &Rows, right: &Rows) -> bool
    ensures { IsTrue result ↔ (left.now ≡ right.now) }
{
    same_key_rows(left.keys.as_slice(), right.keys.as_slice())
        && same_sign_rows(left.replies.as_slice(), right.replies.as_slice())
}

// Both maps are in order of key, so equal ones have equal entries at each place.
fn same_entries(left: &BTreeMap<Key, Rows>, right: &BTreeMap<Key, Rows>) -> bool
    ensures { IsTrue result ↔ (left.now.entries ≡ right.now.entries) }
{
    let mut others = right.iter();
    for (certificate, rows) in left.iter() {
        let Some((other_certificate, other_rows)) = others.next() else {
            return false;
        };
        if !certificate.same(other_certificate) || !same_rows(rows, other_rows) {
            return false;
        }
    }
    others.next().is_none()
}

pub(crate) fn same_material(left: &Material, right: &Material) -> bool
    ensures { IsTrue result ↔ (left.now ≡ right.now) }
{
    same_entries(left.as_map(), right.as_map())
}

fn same_version(left: Option<u64>, right: Option<u64>) -> bool
    ensures { IsTrue result ↔ (left ≡ right) }
{
    left == right
}

fn is_apply(step: &Step, object: &Object, version: Option<u64>) -> bool
    ensures { IsTrue result ↔ (step.now ≡ steps.Apply object.now version) }
{
    match step {
        Step::Apply {
            object: other,
            version: named,
        } => other.same(object) && same_version(*named, version),
        _ => false,
    }
}

fn is_delete(step: &Step, key: &Key, version: Option<u64>) -> bool
    ensures { IsTrue result ↔ (step.now ≡ steps.Delete key.now version) }
{
    match step {
        Step::Delete {
            key: other,
            version: named,
        } => other.same(key) && same_version(*named, version),
        _ => false,
    }
}

fn is_approve(step: &Step, certificate: &Key, revision: u64) -> bool
    ensures { IsTrue result ↔ (step.now ≡ steps.Approve certificate.now revision) }
{
    match step {
        Step::Approve {
            certificate: other,
            revision: number,
        } => other.same(certificate) && *number == revision,
        _ => false,
    }
}

fn is_deny(step: &Step, certificate: &Key, revision: u64) -> bool
    ensures { IsTrue result ↔ (step.now ≡ steps.Deny certificate.now revision) }
{
    match step {
        Step::Deny {
            certificate: other,
            revision: number,
        } => other.same(certificate) && *number == revision,
        _ => false,
    }
}

fn is_answer(step: &Step, certificate: &Key, revision: u64, row: &SignRow) -> bool
    ensures { IsTrue result ↔ (step.now ≡ steps.Answer certificate.now revision row.now) }
{
    match step {
        Step::Answer {
            certificate: other,
            revision: number,
            row: reply,
        } => other.same(certificate) && *number == revision && reply.same(row),
        _ => false,
    }
}

fn is_renew(step: &Step, certificate: &Key) -> bool
    ensures { IsTrue result ↔ (step.now ≡ steps.Renew certificate.now) }
{
    match step {
        Step::Renew { certificate: other } => other.same(certificate),
        _ => false,
    }
}

fn is_tick(step: &Step, seconds: u64) -> bool
    ensures { IsTrue result ↔ (step.now ≡ steps.Tick seconds) }
{
    match step {
        Step::Tick { seconds: other } => *other == seconds,
        _ => false,
    }
}

fn is_stop(step: &Step, role: Role) -> bool
    ensures { IsTrue result ↔ (step.now ≡ steps.Stop role) }
{
    match step {
        Step::Stop { role: other } => other.same(role),
        _ => false,
    }
}

fn is_start(step: &Step, role: Role, behind: u64) -> bool
    ensures { IsTrue result ↔ (step.now ≡ steps.Start role behind) }
{
    match step {
        Step::Start {
            role: other,
            behind: number,
        } => other.same(role) && *number == behind,
        _ => false,
    }
}

fn is_hold(step: &Step, role: Role, kind: Kind) -> bool
    ensures { IsTrue result ↔ (step.now ≡ steps.Hold role kind) }
{
    match step {
        Step::Hold {
            role: other,
            kind: other_kind,
        } => other.same(role) && other_kind.same(kind),
        _ => false,
    }
}

fn is_release(step: &Step, role: Role, kind: Kind) -> bool
    ensures { IsTrue result ↔ (step.now ≡ steps.Release role kind) }
{
    match step {
        Step::Release {
            role: other,
            kind: other_kind,
        } => other.same(role) && other_kind.same(kind),
        _ => false,
    }
}

fn is_until(step: &Step, role: Role, kind: Kind, writes: u64) -> bool
    ensures { IsTrue result ↔ (step.now ≡ steps.Until role kind writes) }
{
    match step {
        Step::Until {
            role: other,
            kind: other_kind,
            writes: number,
        } => other.same(role) && other_kind.same(kind) && *number == writes,
        _ => false,
    }
}

fn is_settle(step: &Step) -> bool
    ensures { IsTrue result ↔ (step.now ≡ steps.Settle) }
{
    matches!(step, Step::Settle)
}

fn same_step(left: &Step, right: &Step) -> bool
    ensures { IsTrue result ↔ (left.now ≡ right.now) }
{
    match left {
        Step::Apply { object, version } => is_apply(right, object, *version),
        Step::Delete { key, version } => is_delete(right, key, *version),
        Step::Approve {
            certificate,
            revision,
        } => is_approve(right, certificate, *revision),
        Step::Deny {
            certificate,
            revision,
        } => is_deny(right, certificate, *revision),
        Step::Answer {
            certificate,
            revision,
            row,
        } => is_answer(right, certificate, *revision, row),
        Step::Renew { certificate } => is_renew(right, certificate),
        Step::Tick { seconds } => is_tick(right, *seconds),
        Step::Stop { role } => is_stop(right, *role),
        Step::Start { role, behind } => is_start(right, *role, *behind),
        Step::Hold { role, kind } => is_hold(right, *role, *kind),
        Step::Release { role, kind } => is_release(right, *role, *kind),
        Step::Until { role, kind, writes } => is_until(right, *role, *kind, *writes),
        Step::Settle => is_settle(right),
    }
}

pub(crate) fn same_steps(left: &[Step], right: &[Step]) -> bool
    ensures { IsTrue result ↔ (left.now ≡ right.now) }
{
    if left.len() != right.len() {
        return false;
    }
    for (i, step) in left.iter().enumerate() {
        if !same_step(step, &right[i]) {
            return false;
        }
    }
    true
}
