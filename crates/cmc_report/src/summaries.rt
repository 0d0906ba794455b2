// The scenario and the summary as lines.
ghost use Rattle.std.specs.Prelude.{◌≡◌, codes, false, map, Some, IfOk, OnOk, string_bytes};
ghost use Rattle.serde_json.specs.Data.{array, string};
ghost use Rattle.serde_json.specs.View.{view, items_of};
ghost use Rattle.serde_json.specs.Written.{has_float};
ghost use Rattle.cmc_print.specs.Trees.{line_of};
ghost use Rattle.cmc_print.specs.Words.{name_text};
ghost use Rattle.cmc_report.specs.Trees.{scenario_line_tree, wait_name, waiting_tree, counts_tree, summary_tree};
ghost use Rattle.cmc_writer.specs.Additions.{with_value, with_values, with_row, with_rows};
ghost use Rattle.cmc_report.specs.Rows.{count_rows};

use crate::orders::certificate_row;
use cmc_summary::{Summary, WaitName, Waiting};
use cmc_writer::Printer;
use serde_json::Value;
use std::alloc::{AllocError, Global};

/// The line of the scenario.
#[tactic(auto, using(crate::proofs::SummaryLaws::scenario_text))]
pub fn scenario_line(alloc: Global, scenario: &Value) -> Result<String, AllocError>
    requires { has_float (view scenario.now) ≡ false }
    ensures { IfOk result (λ s. string_bytes s ≡ line_of (scenario_line_tree (view scenario.now))) }
{
    let text = scenario.to_string(alloc)?;
    let mut line = String::with_capacity(alloc, text.len() + 14)?;
    line.push_str("{\"scenario\":")?;
    line.push_str(text.as_str())?;
    line.push_str("}\n")?;
    Ok(line)
}

fn wait_word(wait: WaitName) -> &'static str
    ensures { result.now ≡ wait_name wait }
{
    match wait {
        WaitName::Stopped => "stopped",
        WaitName::Backoff => "backoff",
        WaitName::Key => "key",
        WaitName::Unapproved => "unapproved",
        WaitName::Name => "name",
        WaitName::Pending => "pending",
    }
}

#[tactic(auto, using(crate::proofs::SummaryLaws::waiting_written))]
fn write_waiting(printer: &mut Printer, waiting: &Waiting) -> Result<(), AllocError>
    ensures { OnOk result (printer.new ≡ with_value printer.old (waiting_tree waiting.now)) }
{
    printer.begin_object()?;
    certificate_row(printer, &waiting.certificate)?;
    printer.text_row("wait", wait_word(waiting.wait))?;
    printer.end_object()
}

fn add_waits(printer: &mut Printer, waits: &[Waiting]) -> Result<(), AllocError>
    ensures { OnOk result (printer.new ≡ with_values printer.old (map waiting_tree waits.now)) }
{
    for waiting in waits {
        write_waiting(printer, waiting)?;
    }
    Ok(())
}

#[tactic(auto, using(cmc_writer::proofs::Written::list_written))]
fn write_waits(printer: &mut Printer, waits: &[Waiting]) -> Result<(), AllocError>
    ensures { OnOk result (printer.new ≡ with_value printer.old (array (items_of (map waiting_tree waits.now)))) }
{
    printer.begin_array()?;
    add_waits(printer, waits)?;
    printer.end_array()
}

#[tactic(auto, using(cmc_writer::proofs::Written::member_written))]
fn waits_row(printer: &mut Printer, waits: &[Waiting]) -> Result<(), AllocError>
    ensures { OnOk result (printer.new ≡ with_row printer.old (codes "waiting") (Some (array (items_of (map waiting_tree waits.now))))) }
{
    printer.name("waiting")?;
    write_waits(printer, waits)
}

fn add_counts(printer: &mut Printer, summary: &Summary) -> Result<(), AllocError>
    ensures { OnOk result (printer.new ≡ with_rows printer.old (count_rows summary.now)) }
{
    printer.count_row("certificates", summary.certificates)?;
    printer.count_row("ready", summary.ready)?;
    printer.count_row("secrets", summary.secrets)?;
    waits_row(printer, summary.waiting.as_slice())
}

#[tactic(auto, using(crate::proofs::SummaryLaws::counts_written))]
fn write_counts(printer: &mut Printer, summary: &Summary) -> Result<(), AllocError>
    ensures { OnOk result (printer.new ≡ with_value printer.old (counts_tree summary.now)) }
{
    printer.begin_object()?;
    add_counts(printer, summary)?;
    printer.end_object()
}

#[tactic(auto, using(cmc_writer::proofs::Written::member_written))]
fn counts_row(printer: &mut Printer, summary: &Summary) -> Result<(), AllocError>
    ensures { OnOk result (printer.new ≡ with_row printer.old (codes "summary") (Some (counts_tree summary.now))) }
{
    printer.name("summary")?;
    write_counts(printer, summary)
}

#[tactic(auto, using(crate::proofs::SummaryLaws::summary_written))]
fn write_summary(printer: &mut Printer, summary: &Summary) -> Result<(), AllocError>
    ensures { OnOk result (printer.new ≡ with_value printer.old (summary_tree summary.now)) }
{
    printer.begin_object()?;
    counts_row(printer, summary)?;
    printer.end_object()
}

/// The line of the summary.
#[tactic(auto, using(crate::proofs::CallLaws::line_written))]
pub fn summary_line(alloc: Global, summary: &Summary) -> Result<String, AllocError>
    ensures { IfOk result (λ s. string_bytes s ≡ line_of (summary_tree summary.now)) }
{
    let mut printer = Printer::new(alloc);
    write_summary(&mut printer, summary)?;
    let (line, _printer) = printer.into_line(alloc)?;
    Ok(line)
}
