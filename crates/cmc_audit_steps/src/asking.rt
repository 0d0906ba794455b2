//! A question that a line shows.
ghost use Rattle.std.specs.Prelude.{◌≡◌, ◌↔◌, ◌-◌, ◌<◌, ◌^◌, IfOk, IsTrue};
ghost use Rattle.cmc_meta.specs.declared.key.Kind.TheVariants as kinds;
ghost use Rattle.cmc_lines.specs.declared.line.PrintedLine.TheVariants as lines;
ghost use Rattle.cmc_audit_state.specs.OpenRows.{open_row_at};
ghost use Rattle.cmc_audit_clauses.specs.Written.{Exists};
ghost use Rattle.cmc_audit_writes.specs.Kept.{IsKeptAsk};
ghost use Rattle.cmc_audit_steps.specs.Failures.{IsOfRequest, MayOrder, asked_version};
ghost use Rattle.cmc_audit_steps.specs.Steps.{Steps};

use cmc_audit_clauses::Clause;
use cmc_audit_ledger::Ledger;
use cmc_audit_state::{Journal, Passes, Version};
use cmc_audit_writes::may_ask;
use cmc_lines::PrintedOrder;
use cmc_meta::{Key, Kind};
use std::alloc::AllocError;

fn is_request(key: &Key) -> bool
    ensures { IsTrue result ↔ (key.now.kind ≡ kinds.CertificateRequest) }
{
    key.kind.same(Kind::CertificateRequest)
}

fn is_of_request(order: &PrintedOrder) -> bool
    ensures { IsTrue result ↔ IsOfRequest order.now }
{
    match order {
        PrintedOrder::Sign { request, .. } => is_request(request),
        PrintedOrder::Judge { request, .. } => is_request(request),
        PrintedOrder::Key { .. } => true,
        PrintedOrder::Csr { .. } => true,
    }
}

fn may_sign(journal: &Journal, passes: &Passes, pass: u64, request: &Key, version: u64) -> bool
    ensures { IsTrue result ↔ Exists (open_row_at passes.now pass) (λ row. IsKeptAsk journal.now row request.now version) }
{
    match passes.get(pass) {
        Some(row) => may_ask(journal, row, request, version),
        None => false,
    }
}

fn may_order(journal: &Journal, passes: &Passes, pass: u64, order: &PrintedOrder) -> bool
    ensures { IsTrue result ↔ MayOrder journal.now (open_row_at passes.now pass) order.now }
{
    match order {
        PrintedOrder::Sign {
            request,
            version,
            ..
        } => may_sign(journal, passes, pass, request, *version),
        PrintedOrder::Judge { .. } => true,
        PrintedOrder::Key { .. } => true,
        PrintedOrder::Csr { .. } => true,
    }
}

fn asked(order: &PrintedOrder) -> Result<Option<Version>, AllocError>
    ensures { IfOk result (λ v. v ≡ asked_version order.now) }
{
    match order {
        PrintedOrder::Judge { request, version } => Ok(Some(Version {
            key: request.copy()?,
            number: *version,
        })),
        _ => Ok(None),
    }
}

/// The pass hands out work. An error is one of memory.
pub(crate) fn ask(
    ledger: &mut Ledger,
    pass: u64,
    order: &PrintedOrder,
) -> Result<Option<Clause>, AllocError>
    requires { ledger.old.entries < 2 ^ 64 - 1 }
    ensures { IfOk result (λ failed. Steps ledger.old (lines.Ask pass order.now) ledger.new failed) }
{
    if !is_of_request(order) {
        return Ok(Some(Clause::Place));
    }
    if !ledger.is_open(pass) {
        return Ok(Some(Clause::Place));
    }
    if !may_order(&ledger.journal, &ledger.passes, pass, order) {
        return Ok(Some(Clause::Ask));
    }
    let asked = asked(order)?;
    ledger.ask(pass, asked);
    Ok(None)
}
