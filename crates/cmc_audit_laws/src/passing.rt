// The verdict on what a run prints.
ghost use Rattle.cmc_rules.specs.Runs.{IsRun};
ghost use Rattle.cmc_audit_ledger.specs.Ledgers.{setting_of};
ghost use Rattle.cmc_audit_laws.specs.AuditedYes.{IsAuditedYes};

use crate::naming::entries_name_their_keys;
use cmc_history::History;
use cmc_kernel::Kernel;
use cmc_setup::Scenario;

/// A law: every run is audited yes. Whatever verdict is one on the lines that the history of a run shows, with the right
/// counts after them, it is yes, with the number of entries. The call changes nothing.
pub fn each_run_is_audited_yes(scenario: &Scenario, history: &History)
    ensures { IsRun (setting_of scenario.now) history.now.entries → IsAuditedYes (setting_of scenario.now) history.now.entries }
{
    let _events = scenario.events();
    entries_name_their_keys(history);
}

/// A law: every world is audited yes, whichever moves led to it, in one thread or in several. The call changes nothing.
pub fn each_world_is_audited_yes(kernel: &Kernel)
    ensures { IsAuditedYes (setting_of kernel.now.scenario) kernel.now.history }
{
    kernel.is_run();
    each_run_is_audited_yes(kernel.scenario(), kernel.history());
}
