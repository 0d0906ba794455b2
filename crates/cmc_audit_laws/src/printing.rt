// What is printed of a run, read again.
ghost use Rattle.std.specs.Prelude.{◌≡◌, ◌≤◌, ℕ, List, Ok, Some, false, length};
ghost use Rattle.serde_json.specs.Data.{Data};
ghost use Rattle.serde_json.specs.Read.{read};
ghost use Rattle.serde_json.specs.Written.{has_float};
ghost use Rattle.cmc_setup.specs.Setups.{Setup};
ghost use Rattle.cmc_scenario_print.specs.ScenarioTree.{scenario_tree};
ghost use Rattle.cmc_scenario.specs.Loads.{load_setup};
ghost use Rattle.cmc_scenario.specs.Scenarios.{scenario_at};
ghost use Rattle.cmc_report.specs.Text.{history_lines, joined};
ghost use Rattle.cmc_waits.specs.Waits.{summary_at};
ghost use Rattle.cmc_kernel.specs.Kept.{on};
ghost use Rattle.cmc_audit_laws.specs.Printed.{IsPrintedOf, IsRunPrinted, IsTextAuditedYes, IsValueOf};

use crate::counted::entries_are_counted;
use crate::naming::entries_name_their_keys;
use crate::summing::summary_is_typed;
use crate::typed::entries_are_typed;
use cmc_history::History;
use cmc_kernel::Kernel;
use cmc_report::Lines;
use cmc_setup::Scenario;
use cmc_summary::Summary;

/// A law: the value that a scenario was read of, with no float in it, is printed as a text that is read as it.
#[tactic(auto, using(crate::proofs::ValuesRead::value_of))]
pub fn each_value_that_is_read_is_read_again()
    ensures { (text : List ℕ) (value : Data) (scenario : Setup) → read text ≡ Some value → has_float value ≡ false → scenario_at value ≡ Ok scenario → IsValueOf value scenario }
{}

/// A law: the value that a load prints is that of its scenario.
pub fn each_load_is_read_again()
    ensures { (n : ℕ) → 1 ≤ n → n ≤ 200 → IsValueOf (scenario_tree (load_setup n)) (load_setup n) }
{}

/// A law: what is printed of a run is the text of a history, whose lines show the entries of the run, and which has the counts
/// of its summary. The call changes nothing.
pub fn what_is_printed_is_a_history(
    scenario: &Scenario,
    history: &History,
    summary: &Summary,
    lines: &Lines,
)
    ensures { (value : Data) → IsRunPrinted value scenario.now history.now.entries summary.now lines.now → IsPrintedOf (joined lines.now) scenario.now history.now.entries summary.now }
{
    let _events = scenario.events();
    entries_name_their_keys(history);
    entries_are_typed(history);
    entries_are_counted(history);
    summary_is_typed(summary);
    let _strings = lines.as_slice();
}

/// A law: what is printed of a run is audited yes. Whatever is read of the text is a history, unless memory runs out, and whatever
/// verdict is one on its lines is yes, with the number of entries of the run. The call changes nothing.
pub fn what_is_printed_is_audited_yes(
    scenario: &Scenario,
    history: &History,
    summary: &Summary,
    lines: &Lines,
)
    ensures { (value : Data) → IsRunPrinted value scenario.now history.now.entries summary.now lines.now → IsTextAuditedYes (joined lines.now) (length history.now.entries) }
{
    let _events = scenario.events();
    entries_name_their_keys(history);
    entries_are_typed(history);
    entries_are_counted(history);
    summary_is_typed(summary);
    let _strings = lines.as_slice();
}

/// A law: what is printed of a world is audited yes, whichever moves led to it, in one thread or in several. The call changes
/// nothing.
pub fn what_is_printed_of_a_world_is_audited_yes(kernel: &Kernel, summary: &Summary, lines: &Lines)
    ensures { (value : Data) → IsValueOf value kernel.now.scenario → summary.now ≡ on summary_at kernel.now → lines.now ≡ history_lines value kernel.now.history summary.now → IsTextAuditedYes (joined lines.now) (length kernel.now.history) }
{
    kernel.is_run();
    what_is_printed_is_audited_yes(kernel.scenario(), kernel.history(), summary, lines);
}
