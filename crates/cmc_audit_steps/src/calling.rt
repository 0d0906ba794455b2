//! A call that a line shows.
ghost use Rattle.std.specs.Prelude.{◌≡◌, ◌-◌, ◌<◌, ◌≤◌, ◌^◌, IfOk, ℕ, Some, true};
ghost use Rattle.cmc_objects.specs.Requests.{is_run_time};
ghost use Rattle.cmc_model.specs.Replies.{IsReply};
ghost use Rattle.cmc_lines.specs.declared.line.PrintedLine.TheVariants as lines;
ghost use Rattle.cmc_audit_state.specs.declared.row.Row.{Row as RowValue};
ghost use Rattle.cmc_audit_state.specs.OpenRows.{open_row_at};
ghost use Rattle.cmc_audit_ledger.specs.CallRows.{IsServedBy};
ghost use Rattle.cmc_audit_steps.specs.Steps.{Calls, Steps};

use crate::failing::call_fails;
use cmc_audit_calls::{read_call, shows};
use cmc_audit_clauses::Clause;
use cmc_audit_ledger::Ledger;
use cmc_lines::{CallName, PrintedReply};
use cmc_meta::Text;
use cmc_objects::{Call, Object, Who};
use cmc_store::Replied;
use std::alloc::{AllocError, Global};

/// What the store answers now.
fn answer(alloc: Global, ledger: &mut Ledger, call: &Call) -> Result<Replied, AllocError>
    requires { ledger.old.store.state.calls < 2 ^ 64 - 1 }
    ensures reply { IfOk result (λ r. IsReply ledger.old.store.faults ledger.old.store.state call.now r.reply) }
    ensures served { IfOk result (λ r. IsServedBy ledger.old ledger.new call.now r.reply r.key r.object) }
{
    let now = ledger.moment;
    ledger.store.call(alloc, now, call)
}

fn make(
    alloc: Global,
    ledger: &mut Ledger,
    call: &Call,
    printed: &PrintedReply,
    who: Who,
) -> Result<Option<Clause>, AllocError>
    requires room { ledger.old.entries < 2 ^ 64 - 1 }
    requires calls { ledger.old.store.state.calls ≤ ledger.old.entries }
    requires in_run { (pass : ℕ) (row : RowValue) → open_row_at ledger.old.passes pass ≡ Some row → is_run_time row.since ≡ true }
    ensures { IfOk result (λ failed. Calls ledger.old call.now who printed.now ledger.new failed) }
{
    if !ledger.may_call(who) {
        return Ok(Some(Clause::Place));
    }
    let Replied { reply, key, object } = answer(alloc, ledger, call)?;
    if !shows(call, &reply, printed) {
        return Ok(Some(Clause::Reply));
    }
    let failed = call_fails(
        alloc,
        &ledger.journal,
        &ledger.passes,
        who,
        call,
        &key,
        &object,
    )?;
    if failed.is_some() {
        return Ok(failed);
    }
    ledger.take_in(alloc, who, call, &reply, key, object)?;
    Ok(None)
}

/// The call with its reply. An error is one of memory.
pub(crate) fn called(
    alloc: Global,
    ledger: &mut Ledger,
    name: CallName,
    key: &Text,
    object: &Option<Object>,
    version: Option<u64>,
    printed: &PrintedReply,
    who: Who,
) -> Result<Option<Clause>, AllocError>
    requires room { ledger.old.entries < 2 ^ 64 - 1 }
    requires calls { ledger.old.store.state.calls ≤ ledger.old.entries }
    requires in_run { (pass : ℕ) (row : RowValue) → open_row_at ledger.old.passes pass ≡ Some row → is_run_time row.since ≡ true }
    ensures { IfOk result (λ failed. Steps ledger.old (lines.Call name key.now object.now version printed.now who) ledger.new failed) }
{
    match read_call(alloc, name, key, object, version)? {
        Some(call) => make(alloc, ledger, &call, printed, who),
        None => Ok(Some(Clause::Place)),
    }
}
