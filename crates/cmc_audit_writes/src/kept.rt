//! What an accepted call and a question have to be, by what is kept.
ghost use Rattle.std.specs.Option.{option_copied};
ghost use Rattle.std.specs.Prelude.{◌≡◌, ◌↔◌, ◌+◌, IfOk, IsTrue, Some, true};
ghost use Rattle.cmc_meta.specs.declared.key.Kind.TheVariants as kinds;
ghost use Rattle.cmc_objects.specs.Objects.{key_of, version_of};
ghost use Rattle.cmc_objects.specs.Requests.{is_run_time};
ghost use Rattle.cmc_rules.specs.Revisions.{RaisesRevision, stated_revision};
ghost use Rattle.cmc_rules.specs.Views.{request_at};
ghost use Rattle.cmc_audit_state.specs.Heard as heard;
ghost use Rattle.cmc_audit_state.specs.Journaled.{cached};
ghost use Rattle.cmc_audit_clauses.specs.Written.{Exists};
ghost use Rattle.cmc_audit_writes.specs.Kept as words;
ghost use Rattle.cmc_audit_writes.specs.Kept.{IsAskFor, IsKeptApproval, IsKeptAsk, IsKeptRaise, IsKeptWrite, KeepsOrRaises, OnBoth, SameRevision};

use crate::issues::is_issue;
use cmc_audit_ledger::request_seen;
use cmc_audit_state::{Journal, Row, is_approved};
use cmc_meta::{Key, Kind};
use cmc_objects::{Call, CertificateRequest, Object, Role, Secret, Shared, works_on_requests};
use std::alloc::{AllocError, Global};

fn is_issuing(role: Role) -> bool
    ensures { result ≡ words.is_issuing_role role }
{
    matches!(role, Role::Issuing)
}

fn is_secret(kind: Kind) -> bool
    ensures { result ≡ words.is_secret kind }
{
    matches!(kind, Kind::Secret)
}

fn secret_in<'a>(object: Option<&'a Object>) -> Option<&'a Shared<Secret>>
    ensures { option_copied result ≡ words.secret_if_any (option_copied object.entry) }
{
    match object {
        Some(Object::Secret(secret)) => Some(secret),
        _ => None,
    }
}

/// Whether what issuing wrote under a key of this kind is an issue; each other role may. An error is one of memory.
pub fn is_write(
    alloc: Global,
    journal: &Journal,
    row: &Row,
    kind: Kind,
    after: Option<&Object>,
) -> Result<bool, AllocError>
    requires { is_run_time row.now.since ≡ true }
    ensures { IfOk result (λ is. IsTrue is ↔ IsKeptWrite journal.now row.now kind (option_copied after.entry)) }
{
    if !is_issuing(row.role) || !is_secret(kind) {
        return Ok(true);
    }
    match secret_in(after) {
        Some(written) => is_issue(alloc, journal, row, written),
        None => Ok(false),
    }
}

fn stated(object: &Object) -> Option<u64>
    ensures { result ≡ stated_revision object.now }
{
    match object {
        Object::Cert(certificate) => certificate.status.revision,
        _ => None,
    }
}

fn same_revision(old: &Object, new: &Object) -> bool
    ensures { IsTrue result ↔ SameRevision old.now new.now }
{
    stated(new) == stated(old)
}

/// Whether a user leaves the revision.
pub fn leaves_revision(old: Option<&Object>, new: Option<&Object>) -> bool
    ensures { IsTrue result ↔ OnBoth SameRevision (option_copied old.entry) (option_copied new.entry) }
{
    match (old, new) {
        (Some(old), Some(new)) => same_revision(old, new),
        _ => true,
    }
}

fn is_status_update(call: &Call) -> bool
    ensures { result ≡ words.is_status_update call.now }
{
    matches!(call, Call::UpdateStatus { .. })
}

fn is_next(old: u64, new: u64) -> bool
    ensures { IsTrue result ↔ (new ≡ old + 1) }
{
    new > 0 && new - 1 == old
}

fn raises(old: &Object, new: &Object) -> bool
    ensures { IsTrue result ↔ RaisesRevision (Some old.now) (Some new.now) }
{
    match stated(new) {
        Some(new) => is_next(stated(old).unwrap_or(0), new),
        None => false,
    }
}

fn is_raise(row: &Row, call: &Call, old: &Object, new: &Object) -> bool
    ensures { IsTrue result ↔ IsKeptRaise row.now call.now old.now new.now }
{
    is_issuing(row.role) && is_status_update(call) && raises(old, new) && row.saved
}

fn keeps_or_raises(row: &Row, call: &Call, old: &Object, new: &Object) -> bool
    ensures { IsTrue result ↔ KeepsOrRaises row.now call.now old.now new.now }
{
    same_revision(old, new) || is_raise(row, call, old, new)
}

/// Whether the pass leaves the revision, or raises it as it may.
pub fn raises_well(row: &Row, call: &Call, old: Option<&Object>, new: Option<&Object>) -> bool
    ensures { IsTrue result ↔ OnBoth (KeepsOrRaises row.now call.now) (option_copied old.entry) (option_copied new.entry) }
{
    match (old, new) {
        (Some(old), Some(new)) => keeps_or_raises(row, call, old, new),
        _ => true,
    }
}

fn is_approver(role: Role) -> bool
    ensures { result ≡ words.is_approver role }
{
    matches!(role, Role::Approver)
}

fn approves(old: &Object, new: &Object) -> bool
    ensures { result ≡ words.approves old.now new.now }
{
    match (old, new) {
        (Object::Request(old), Object::Request(new)) => !is_approved(old) && is_approved(new),
        _ => false,
    }
}

fn number_of(object: &Object) -> u64
    ensures { result ≡ version_of object.now }
{
    object.meta().version
}

fn is_told(row: &Row, old: &Object) -> Result<bool, AllocError>
    ensures { IfOk result (λ is. is ≡ heard.has_yes_on row.now.yeses (record { key = key_of old.now; number = version_of old.now })) }
{
    let key = old.key()?;
    row.yeses.has(&key, number_of(old))
}

fn is_approval(row: &Row, old: &Object, new: &Object) -> Result<bool, AllocError>
    ensures { IfOk result (λ is. IsTrue is ↔ IsKeptApproval row.now old.now new.now) }
{
    if !is_approver(row.role) || !approves(old, new) {
        return Ok(true);
    }
    is_told(row, old)
}

/// Whether the approver approves no version that it was not told yes about. An error is one of memory.
pub fn approves_well(
    row: &Row,
    old: Option<&Object>,
    new: Option<&Object>,
) -> Result<bool, AllocError>
    ensures { IfOk result (λ is. IsTrue is ↔ OnBoth (IsKeptApproval row.now) (option_copied old.entry) (option_copied new.entry)) }
{
    match (old, new) {
        (Some(old), Some(new)) => is_approval(row, old, new),
        _ => Ok(true),
    }
}

fn is_ask_for(journal: &Journal, version: u64, request: &CertificateRequest) -> bool
    ensures { IsTrue result ↔ IsAskFor journal.now version request.now }
{
    request.meta.version == version && is_approved(request) && !journal.is_denied(request.meta.uid)
}

fn sees(journal: &Journal, row: &Row, version: u64) -> bool
    ensures { IsTrue result ↔ Exists (request_at (cached kinds.CertificateRequest journal.now row.now.reach.requests) row.now.key) (IsAskFor journal.now version) }
{
    match request_seen(journal, row) {
        Some(request) => is_ask_for(journal, version, request),
        None => false,
    }
}

/// Whether the pass may ask an issuer about this version of the request under the key.
pub fn may_ask(journal: &Journal, row: &Row, key: &Key, version: u64) -> bool
    ensures { IsTrue result ↔ IsKeptAsk journal.now row.now key.now version }
{
    works_on_requests(row.role) && row.key.same(key) && sees(journal, row, version)
}
