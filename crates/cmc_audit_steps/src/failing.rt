//! What fails at an accepted call.
ghost use Rattle.std.specs.Option.{option_copied};
ghost use Rattle.std.specs.Prelude.{◌≡◌, IfOk, ℕ, Some, true};
ghost use Rattle.cmc_objects.specs.Requests.{is_run_time};
ghost use Rattle.cmc_audit_state.specs.declared.row.Row.{Row as RowValue};
ghost use Rattle.cmc_audit_state.specs.OpenRows.{open_row_at};
ghost use Rattle.cmc_audit_steps.specs.Failures.{CallFails, RowFails, UserFails, WriteFails};

use cmc_audit_clauses::{Clause, may_change};
use cmc_audit_state::{Journal, Passes, Row};
use cmc_audit_writes::{approves_well, is_write, leaves_revision, raises_well};
use cmc_meta::{Key, Kind};
use cmc_objects::{Call, Object, Who};
use std::alloc::{AllocError, Global};

fn row_fails(
    alloc: Global,
    journal: &Journal,
    row: &Row,
    call: &Call,
    kind: Kind,
    before: Option<&Object>,
    after: Option<&Object>,
) -> Result<Option<Clause>, AllocError>
    requires { is_run_time row.now.since ≡ true }
    ensures { IfOk result (λ failed. RowFails journal.now row.now call.now kind (option_copied before.entry) (option_copied after.entry) failed) }
{
    if !is_write(alloc, journal, row, kind, after)? {
        return Ok(Some(Clause::Issue));
    }
    if !raises_well(row, call, before, after) {
        return Ok(Some(Clause::Raise));
    }
    if !may_change(alloc, row.role, before, after)? {
        return Ok(Some(Clause::Rights));
    }
    if !approves_well(row, before, after)? {
        return Ok(Some(Clause::Approval));
    }
    Ok(None)
}

fn user_fails(before: Option<&Object>, after: Option<&Object>) -> Option<Clause>
    ensures { UserFails (option_copied before.entry) (option_copied after.entry) result }
{
    if leaves_revision(before, after) {
        None
    } else {
        Some(Clause::Raise)
    }
}

fn write_fails(
    alloc: Global,
    journal: &Journal,
    passes: &Passes,
    who: Who,
    call: &Call,
    key: &Key,
    after: Option<&Object>,
) -> Result<Option<Clause>, AllocError>
    requires { (pass : ℕ) (row : RowValue) → open_row_at passes.now pass ≡ Some row → is_run_time row.since ≡ true }
    ensures { IfOk result (λ failed. WriteFails journal.now passes.now who call.now key.now (option_copied after.entry) failed) }
{
    let before = journal.standing(key);
    let Who::Pass(pass) = who else {
        return Ok(user_fails(before, after));
    };
    match passes.get(pass) {
        Some(row) => row_fails(alloc, journal, row, call, key.kind, before, after),
        None => Ok(None),
    }
}

/// What fails first of what a call has to be that wrote this under the key, if it wrote. An error is one of memory.
pub(crate) fn call_fails(
    alloc: Global,
    journal: &Journal,
    passes: &Passes,
    who: Who,
    call: &Call,
    key: &Option<Key>,
    after: &Option<Object>,
) -> Result<Option<Clause>, AllocError>
    requires { (pass : ℕ) (row : RowValue) → open_row_at passes.now pass ≡ Some row → is_run_time row.since ≡ true }
    ensures { IfOk result (λ failed. CallFails journal.now passes.now who call.now key.now after.now failed) }
{
    match key {
        Some(key) => write_fails(alloc, journal, passes, who, call, key, after.as_ref()),
        None => Ok(None),
    }
}
