// The text of a run.
ghost use Rattle.std.specs.Prelude.{◌≡◌, ◌++◌, false, reverse, IfOk, OnOk};
ghost use Rattle.serde_json.specs.View.{view};
ghost use Rattle.serde_json.specs.Written.{has_float};
ghost use Rattle.cmc_report.specs.Text.{entry_lines, history_lines, summary_lines};

use crate::entries::entry_line;
use crate::lines::Lines;
use crate::summaries::{scenario_line, summary_line};
use cmc_history::History;
use cmc_objects::Entry;
use cmc_summary::Summary;
use cmc_writer::Printer;
use serde_json::Value;
use std::alloc::{AllocError, Global};

// Adds the lines of the entries, the oldest of which is the first.
fn push_entries(lines: &mut Lines, alloc: Global, entries: &[Entry]) -> Result<(), AllocError>
    ensures { OnOk result (lines.new ≡ lines.old ++ entry_lines (reverse entries.now)) }
{
    let mut printer = Printer::new(alloc);
    for (place, entry) in entries.iter().enumerate() {
        let (line, empty) = entry_line(alloc, printer, place as u64 + 1, entry)?;
        lines.push(line)?;
        printer = empty;
    }
    Ok(())
}

/// The lines of a run: the scenario as it was read, one for each entry of the history from the oldest
/// on, and the summary. Each is compact JSON and a line feed. No number in the scenario may be a float.
#[tactic(auto, unfolding(crate::specs::Text::history_lines))]
pub fn history_text(
    alloc: Global,
    scenario: &Value,
    history: &History,
    summary: &Summary,
) -> Result<Lines, AllocError>
    requires { has_float (view scenario.now) ≡ false }
    ensures { IfOk result (λ lines. lines ≡ history_lines (view scenario.now) history.now.entries summary.now) }
{
    let mut lines = Lines::new(alloc);
    lines.push(scenario_line(alloc, scenario)?)?;
    push_entries(&mut lines, alloc, history.as_slice())?;
    lines.push(summary_line(alloc, summary)?)?;
    Ok(lines)
}

/// The line of the summary alone, as it ends the lines of a run.
pub fn summary_text(alloc: Global, summary: &Summary) -> Result<Lines, AllocError>
    ensures { IfOk result (λ lines. lines ≡ summary_lines summary.now) }
{
    let mut lines = Lines::new(alloc);
    lines.push(summary_line(alloc, summary)?)?;
    Ok(lines)
}
