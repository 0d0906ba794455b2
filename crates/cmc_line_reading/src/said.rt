// What a line after that of the scenario says.
ghost use Rattle.std.specs.Prelude.{◌≡◌, codes, is_some, MatchOption, IfOk, Ok};
ghost use Rattle.serde_json.specs.Find.{get};
ghost use Rattle.serde_json.specs.View.{view};
ghost use Rattle.cmc_line_reading.specs.Bodies.{IsSaid};
ghost use Rattle.cmc_line_reading.specs.Histories.{IsJson, IsSummary, IsSummaryOf};
ghost use Rattle.cmc_summary_form.specs.SummaryForm.{summary_read_at};

use crate::lines::{entry_line, is_text_of, value_of};
use cmc_cursor::BadField;
use cmc_lines::{PrintedLine, tree_of_summary};
use cmc_summary::Summary;
use cmc_summary_form::summary_of;
use serde_json::Value;
use std::alloc::{AllocError, Global};

/// What a line after that of the scenario says.
#[derive(Drop)]
pub enum Said {
    /// It is that of the next entry.
    Entry(PrintedLine),
    /// It is a summary, with its counts of Certificates, those that are Ready, and Secrets.
    Summary([u64; 3]),
    /// It is neither.
    Nothing,
}

#[tactic(auto, using(crate::proofs::Summaries::printed_summary, crate::proofs::Summaries::not_printed))]
fn compared(
    alloc: Global,
    text: &[u8],
    value: &Value,
    summary: &Summary,
) -> Result<Option<[u64; 3]>, AllocError>
    requires json { IsJson text.now (view value.now) }
    requires read { summary_read_at (view value.now) ≡ Ok summary.now }
    ensures { IfOk result (λ o. MatchOption o (IsSummary text.now → ⊥) (IsSummaryOf text.now)) }
{
    let tree = tree_of_summary(alloc, summary)?;
    if is_text_of(alloc, tree, text)? {
        return Ok(Some([summary.certificates, summary.ready, summary.secrets]));
    }
    Ok(None)
}

/// The counts of a summary's line, whose value is at hand. `None` exactly where the text is no such line.
fn summary_line(alloc: Global, text: &[u8], value: &Value) -> Result<Option<[u64; 3]>, AllocError>
    requires { IsJson text.now (view value.now) }
    ensures { IfOk result (λ o. MatchOption o (IsSummary text.now → ⊥) (IsSummaryOf text.now)) }
{
    match summary_of(alloc, value) {
        Ok(summary) => compared(alloc, text, value, &summary),
        Err(BadField::Path(_)) => Ok(None),
        Err(BadField::NoMemory) => Err(AllocError),
    }
}

fn is_summary(value: &Value) -> bool
    ensures { result ≡ is_some (get (codes "summary") (view value.now)) }
{
    value.get("summary").is_some()
}

#[tactic(auto, using(crate::proofs::Summaries::no_entry, crate::proofs::Summaries::no_summary))]
fn said_by(alloc: Global, number: u64, text: &[u8], value: &Value) -> Result<Said, AllocError>
    requires { IsJson text.now (view value.now) }
    ensures { IfOk result (IsSaid number text.now) }
{
    if is_summary(value) {
        return match summary_line(alloc, text, value)? {
            Some(counts) => Ok(Said::Summary(counts)),
            None => Ok(Said::Nothing),
        };
    }
    match entry_line(alloc, number, text, value)? {
        Some(line) => Ok(Said::Entry(line)),
        None => Ok(Said::Nothing),
    }
}

/// What the line says where the entry of this number, or the summary, has to come.
#[tactic(auto, using(crate::proofs::Summaries::no_json_entry, crate::proofs::Summaries::no_json_summary))]
pub fn said_in_place(alloc: Global, number: u64, text: &[u8]) -> Result<Said, AllocError>
    ensures { IfOk result (IsSaid number text.now) }
{
    match value_of(alloc, text)? {
        Some(value) => said_by(alloc, number, text, &value),
        None => Ok(Said::Nothing),
    }
}
