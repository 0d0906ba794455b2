//! The line that says a verdict.
ghost use Rattle.std.specs.Prelude.{◌≡◌, [], Some, codes, IfOk, OnOk, string_bytes};
ghost use Rattle.cmc_print.specs.Trees.{line_of};
ghost use Rattle.cmc_writer.specs.Additions.{with_row, with_rows, with_value};
ghost use Rattle.cmc_audit.specs.Texts as words;

use cmc_audit_clauses::{Clause, Verdict};
use cmc_report::Lines;
use cmc_writer::Printer;
use std::alloc::{AllocError, Global};

/// The word of the clause, as the verdict's line has it.
pub fn clause_word(clause: Clause) -> &'static str
    ensures { result.now ≡ words.clause_name clause }
{
    match clause {
        Clause::Place => "place",
        Clause::Reply => "reply",
        Clause::Issue => "issue",
        Clause::Ask => "ask",
        Clause::Raise => "raise",
        Clause::Rights => "rights",
        Clause::Approval => "approval",
        Clause::Counts => "counts",
    }
}

fn add_verdict(printer: &mut Printer, verdict: Verdict) -> Result<(), AllocError>
    ensures { OnOk result (printer.new ≡ with_rows printer.old (words.verdict_rows verdict)) }
{
    match verdict {
        Verdict::Yes { entries } => {
            printer.count_row("entries", entries)?;
            printer.flag_row("yes", true)
        }
        Verdict::No { entry, clause } => {
            printer.text_row("clause", clause_word(clause))?;
            printer.count_row("entry", entry)?;
            printer.flag_row("yes", false)
        }
    }
}

#[tactic(auto, using(crate::proofs::PrintLaws::verdict_written))]
fn write_verdict(printer: &mut Printer, verdict: Verdict) -> Result<(), AllocError>
    ensures { OnOk result (printer.new ≡ with_value printer.old (words.verdict_tree verdict)) }
{
    printer.begin_object()?;
    add_verdict(printer, verdict)?;
    printer.end_object()
}

#[tactic(auto, using(cmc_writer::proofs::Written::member_written))]
fn verdict_row(printer: &mut Printer, verdict: Verdict) -> Result<(), AllocError>
    ensures { OnOk result (printer.new ≡ with_row printer.old (codes "audit") (Some (words.verdict_tree verdict))) }
{
    printer.name("audit")?;
    write_verdict(printer, verdict)
}

#[tactic(auto, using(crate::proofs::PrintLaws::audit_written))]
fn write_audit(printer: &mut Printer, verdict: Verdict) -> Result<(), AllocError>
    ensures { OnOk result (printer.new ≡ with_value printer.old (words.audit_tree verdict)) }
{
    printer.begin_object()?;
    verdict_row(printer, verdict)?;
    printer.end_object()
}

#[tactic(auto, using(cmc_report::proofs::CallLaws::line_written))]
fn audit_line(alloc: Global, verdict: Verdict) -> Result<String, AllocError>
    ensures { IfOk result (λ s. string_bytes s ≡ line_of (words.audit_tree verdict)) }
{
    let mut printer = Printer::new(alloc);
    write_audit(&mut printer, verdict)?;
    let (line, _printer) = printer.into_line(alloc)?;
    Ok(line)
}

/// The verdict as one line of compact JSON: `{"audit":{"entries":n,"yes":true}}`, or
/// `{"audit":{"clause":c,"entry":n,"yes":false}}` with the clause in lower-case letters. An error is one of memory.
pub fn verdict_text(alloc: Global, verdict: Verdict) -> Result<Lines, AllocError>
    ensures { IfOk result (λ lines. lines ≡ words.audit_lines verdict) }
{
    let mut lines = Lines::new(alloc);
    lines.push(audit_line(alloc, verdict)?)?;
    Ok(lines)
}
