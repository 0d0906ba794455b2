//! The text of a collection.
ghost use Rattle.std.specs.Prelude.{◌≡◌, ◌++◌, false, reverse, count_by, IfOk, OnOk};
ghost use Rattle.serde_json.specs.View.{view};
ghost use Rattle.serde_json.specs.Written.{has_float};
ghost use Rattle.cmc_collect_run.specs.Printed.{collect_lines, deleted, entry_lines, is_deletion};

use crate::lines::{collect_line, deletes, entry_line};
use cmc_collector::{Collection, Moment};
use cmc_report::{Lines, scenario_line};
use cmc_writer::Printer;
use serde_json::Value;
use std::alloc::{AllocError, Global};

#[tactic(auto, unfolding(crate::specs::Printed::is_deletion))]
fn deletions(moments: &[Moment]) -> u64
    ensures { result ≡ count_by is_deletion moments.now }
{
    let mut count = 0u64;
    for moment in moments {
        if deletes(&moment.entry) {
            count += 1;
        }
    }
    count
}

/// How many objects the collector deleted.
fn deleted(moments: &[Moment]) -> u64
    ensures { result ≡ deleted (reverse moments.now) }
{
    deletions(moments)
}

// Adds the lines of the entries, the oldest of which is the first.
fn push_entries(lines: &mut Lines, alloc: Global, moments: &[Moment]) -> Result<(), AllocError>
    ensures { OnOk result (lines.new ≡ lines.old ++ entry_lines (reverse moments.now)) }
{
    let mut printer = Printer::new(alloc);
    for (place, moment) in moments.iter().enumerate() {
        let (line, empty) = entry_line(alloc, printer, place as u64 + 1, &moment.entry)?;
        lines.push(line)?;
        printer = empty;
    }
    Ok(())
}

/// The lines of a collection: the scenario as it was read, one for each entry from the oldest on, and how many objects the
/// collector deleted and how many exist. Each is compact JSON and a line feed. No number in the scenario may be a float.
#[tactic(auto, unfolding(crate::specs::Printed::collect_lines))]
pub fn collect_text(
    alloc: Global,
    scenario: &Value,
    collection: &Collection,
) -> Result<Lines, AllocError>
    requires { has_float (view scenario.now) ≡ false }
    ensures { IfOk result (λ lines. lines ≡ collect_lines (view scenario.now) collection.now) }
{
    let mut lines = Lines::new(alloc);
    lines.push(scenario_line(alloc, scenario)?)?;
    let moments = collection.entries().as_slice();
    push_entries(&mut lines, alloc, moments)?;
    lines.push(collect_line(alloc, deleted(moments), collection.stored())?)?;
    Ok(lines)
}
