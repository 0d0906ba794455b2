//! The audit of a printed history.
ghost use Rattle.std.specs.Prelude.{◌≡◌, [], IfOk, reverse};
ghost use Rattle.cmc_audit_ledger.specs.Ledgers.{IsLedgerOf, setting_of};
ghost use Rattle.cmc_audit_steps.specs.Steps.{AreKept};
ghost use Rattle.cmc_audit.specs.Verdicts.{CameTo, IsVerdict};

use crate::counts::is_counted;
use cmc_audit_clauses::{Clause, Verdict};
use cmc_audit_ledger::Ledger;
use cmc_audit_steps::step;
use cmc_lines::Printed;
use cmc_seed::HashSeed;
use std::alloc::{AllocError, Global};

/// Takes in the lines, and says at which one a clause fails first, if one fails. An error is one of memory.
fn take_in(
    alloc: Global,
    printed: &Printed,
    ledger: &mut Ledger,
) -> Result<Option<Verdict>, AllocError>
    requires { IsLedgerOf (setting_of printed.now.scenario) [] ledger.old }
    ensures { IfOk result (λ failed. CameTo (setting_of printed.now.scenario) (reverse printed.now.entries) ledger.new failed) }
{
    let mut entry: u64 = 0;
    for line in printed.entries.as_slice() {
        // (no memory holds so many entries)
        if ledger.entries == u64::MAX {
            return Err(AllocError);
        }
        entry += 1;
        if let Some(clause) = step(alloc, ledger, line)? {
            return Ok(Some(Verdict::No { entry, clause }));
        }
    }
    Ok(None)
}

/// The verdict where no line fails.
fn summed(printed: &Printed, ledger: &Ledger) -> Verdict
    requires { AreKept (setting_of printed.now.scenario) (reverse printed.now.entries) ledger.now }
    ensures { IsVerdict (setting_of printed.now.scenario) (reverse printed.now.entries) printed.now.counts result }
{
    let entries = printed.entries.as_slice().len() as u64;
    if is_counted(&ledger.store, printed.counts) {
        Verdict::Yes { entries }
    } else {
        Verdict::No {
            entry: entries + 1,
            clause: Clause::Counts,
        }
    }
}

/// Whether the printed history is one that a right world prints, of this scenario. Where it is not, the verdict has the
/// first entry at which a clause fails, and the first clause that fails there. An error is one of memory.
pub fn audit(alloc: Global, seed: HashSeed, printed: &Printed) -> Result<Verdict, AllocError>
    ensures { IfOk result (λ v. IsVerdict (setting_of printed.now.scenario) (reverse printed.now.entries) printed.now.counts v) }
{
    let mut ledger = Ledger::new(alloc, seed, &printed.scenario)?;
    match take_in(alloc, printed, &mut ledger)? {
        Some(verdict) => Ok(verdict),
        None => Ok(summed(printed, &ledger)),
    }
}
