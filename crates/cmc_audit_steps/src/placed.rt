//! Lines of which only the place is looked at.
ghost use Rattle.std.specs.Prelude.{◌≡◌, ◌-◌, ◌<◌, ◌≤◌, ◌^◌, ℕ, ℤ, List, IfOk, false, true};
ghost use Rattle.cmc_objects.specs.declared.entry.Cause.{Cause as CauseValue};
ghost use Rattle.cmc_objects.specs.declared.orders.Signing.{Signing as SigningValue};
ghost use Rattle.cmc_lines.specs.declared.line.PrintedLine.TheVariants as lines;
ghost use Rattle.cmc_audit_steps.specs.Steps.{Steps};

use cmc_audit_clauses::Clause;
use cmc_audit_ledger::Ledger;
use cmc_meta::{Key, Kind};
use cmc_objects::{Positions, Role};
use std::alloc::{AllocError, Global};

/// A step of the script.
pub(crate) fn scripted(ledger: &mut Ledger)
    requires { ledger.old.entries < 2 ^ 64 - 1 }
    ensures { (step : ℕ) → Steps ledger.old (lines.Script step) ledger.new None }
{
    ledger.count();
}

pub(crate) fn delivered(ledger: &mut Ledger, role: Role, kind: Kind, to: u64) -> Option<Clause>
    requires { ledger.old.entries < 2 ^ 64 - 1 }
    ensures { Steps ledger.old (lines.Deliver role kind to) ledger.new result }
{
    if !ledger.may_deliver(role, kind, to) {
        return Some(Clause::Place);
    }
    ledger.tell(role, kind, to);
    None
}

pub(crate) fn listed(ledger: &mut Ledger, role: Role, kind: Kind, to: u64) -> Option<Clause>
    requires { ledger.old.entries < 2 ^ 64 - 1 }
    ensures { Steps ledger.old (lines.List role kind to) ledger.new result }
{
    if !ledger.may_list(role, kind, to) {
        return Some(Clause::Place);
    }
    ledger.tell(role, kind, to);
    None
}

/// The pass begins. An error is one of memory.
pub(crate) fn begun(
    alloc: Global,
    ledger: &mut Ledger,
    pass: u64,
    role: Role,
    key: &Key,
    at: Positions,
    now: i64,
) -> Result<Option<Clause>, AllocError>
    requires room { ledger.old.entries < 2 ^ 64 - 1 }
    requires begun { ledger.old.passes.begun ≤ ledger.old.entries }
    ensures { IfOk result (λ failed. Steps ledger.old (lines.Begin pass role key.now at now) ledger.new failed) }
{
    if !ledger.may_begin(pass, role, key, at, now)? {
        return Ok(Some(Clause::Place));
    }
    ledger.begin(alloc, role, key)?;
    Ok(None)
}

/// The pass is given something of which nothing is kept.
pub(crate) fn given(ledger: &mut Ledger, pass: u64) -> Option<Clause>
    requires { ledger.old.entries < 2 ^ 64 - 1 }
    ensures made { (key : List ℕ) → Steps ledger.old (lines.Made pass key) ledger.new result }
    ensures signed { (signature : List ℕ) → Steps ledger.old (lines.Signed pass signature) ledger.new result }
    ensures answered { (answer : SigningValue) → Steps ledger.old (lines.Answered pass answer) ledger.new result }
    ensures judged { Steps ledger.old (lines.Judged pass false) ledger.new result }
{
    if !ledger.is_open(pass) {
        return Some(Clause::Place);
    }
    ledger.count();
    None
}

/// The pass is told yes. An error is one of memory.
pub(crate) fn approved(ledger: &mut Ledger, pass: u64) -> Result<Option<Clause>, AllocError>
    requires { ledger.old.entries < 2 ^ 64 - 1 }
    ensures { IfOk result (λ failed. Steps ledger.old (lines.Judged pass true) ledger.new failed) }
{
    if !ledger.is_open(pass) {
        return Ok(Some(Clause::Place));
    }
    ledger.approve(pass)?;
    Ok(None)
}

pub(crate) fn ended(ledger: &mut Ledger, pass: u64) -> Option<Clause>
    requires { ledger.old.entries < 2 ^ 64 - 1 }
    ensures { (cause : CauseValue) → Steps ledger.old (lines.End pass cause) ledger.new result }
{
    if !ledger.is_open(pass) {
        return Some(Clause::Place);
    }
    ledger.end(pass);
    None
}

pub(crate) fn stopped(ledger: &mut Ledger, role: Role)
    requires { ledger.old.entries < 2 ^ 64 - 1 }
    ensures { Steps ledger.old (lines.Stop role) ledger.new None }
{
    ledger.stop(role);
}

pub(crate) fn started(ledger: &mut Ledger, role: Role, at: u64)
    requires { ledger.old.entries < 2 ^ 64 - 1 }
    ensures { Steps ledger.old (lines.Start role at) ledger.new None }
{
    ledger.start(role, at);
}

pub(crate) fn ticked(ledger: &mut Ledger, now: i64) -> Option<Clause>
    requires { ledger.old.entries < 2 ^ 64 - 1 }
    ensures { Steps ledger.old (lines.Tick now) ledger.new result }
{
    if !ledger.may_tick(now) {
        return Some(Clause::Place);
    }
    ledger.tick(now);
    None
}
