//! One line.
ghost use Rattle.std.specs.Prelude.{◌≡◌, ◌-◌, ◌<◌, ◌≤◌, ◌^◌, ℕ, IfOk, Some, true};
ghost use Rattle.cmc_objects.specs.Requests.{is_run_time};
ghost use Rattle.cmc_audit_state.specs.declared.row.Row.{Row as RowValue};
ghost use Rattle.cmc_audit_state.specs.OpenRows.{open_row_at};
ghost use Rattle.cmc_audit_steps.specs.Steps.{Steps};

use crate::asking::ask;
use crate::calling::called;
use crate::placed::{
    approved, begun, delivered, ended, given, listed, scripted, started, stopped, ticked,
};
use cmc_audit_clauses::Clause;
use cmc_audit_ledger::Ledger;
use cmc_lines::PrintedLine;
use std::alloc::{AllocError, Global};

/// The line is taken in, or the clause that fails first at it is said. An error is one of memory.
pub fn step(
    alloc: Global,
    ledger: &mut Ledger,
    line: &PrintedLine,
) -> Result<Option<Clause>, AllocError>
    requires room { ledger.old.entries < 2 ^ 64 - 1 }
    requires begun { ledger.old.passes.begun ≤ ledger.old.entries }
    requires calls { ledger.old.store.state.calls ≤ ledger.old.entries }
    requires in_run { (pass : ℕ) (row : RowValue) → open_row_at ledger.old.passes pass ≡ Some row → is_run_time row.since ≡ true }
    ensures { IfOk result (λ failed. Steps ledger.old line.now ledger.new failed) }
{
    match line {
        PrintedLine::Script { step: _ } => {
            scripted(ledger);
            Ok(None)
        }
        PrintedLine::Call {
            call,
            key,
            object,
            version,
            reply,
            who,
        } => called(alloc, ledger, *call, key, object, *version, reply, *who),
        PrintedLine::Deliver { role, kind, to } => Ok(delivered(ledger, *role, *kind, *to)),
        PrintedLine::List { role, kind, to } => Ok(listed(ledger, *role, *kind, *to)),
        PrintedLine::Begin {
            pass,
            role,
            key,
            at,
            now,
        } => begun(alloc, ledger, *pass, *role, key, *at, *now),
        PrintedLine::Ask { pass, order } => ask(ledger, *pass, order),
        PrintedLine::Made { pass, key: _ } => Ok(given(ledger, *pass)),
        PrintedLine::Signed { pass, signature: _ } => Ok(given(ledger, *pass)),
        PrintedLine::Answered { pass, answer: _ } => Ok(given(ledger, *pass)),
        PrintedLine::Judged { pass, yes: true } => approved(ledger, *pass),
        PrintedLine::Judged { pass, yes: false } => Ok(given(ledger, *pass)),
        PrintedLine::End { pass, cause: _ } => Ok(ended(ledger, *pass)),
        PrintedLine::Stop { role } => {
            stopped(ledger, *role);
            Ok(None)
        }
        PrintedLine::Start { role, at } => {
            started(ledger, *role, *at);
            Ok(None)
        }
        PrintedLine::Tick { now } => Ok(ticked(ledger, *now)),
    }
}
