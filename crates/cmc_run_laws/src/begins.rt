//! No pass begins for nothing.
ghost use Rattle.std.specs.Prelude.{List};
ghost use Rattle.cmc_objects.specs.declared.entry.Entry.{Entry};
ghost use Rattle.cmc_model.specs.Histories.{Setting};
ghost use Rattle.cmc_rules.specs.Runs.{IsRun};
ghost use Rattle.cmc_safety.specs.Formed.{IsFormed};
ghost use Rattle.cmc_run_laws.specs.Begins.{BeginsForSomething, HasReasonsEnough};

use cmc_store_laws::generated_names_are_free;

/// A law: no pass begins for nothing, whatever the interleaving. Of two passes of a role on a key, one after the other
/// since the role started, the second begins for a reason: between the two begins the role was told of a change or listed
/// what exists, time went on, or a call of the first pass was accepted or failed. So on each key a role begins at most one
/// pass more than there are reasons and starts of the role.
pub fn no_pass_begins_for_nothing()
    ensures reason { (s : Setting) (whole : List Entry) → IsFormed s → IsRun s whole → BeginsForSomething whole }
    ensures count { (s : Setting) (whole : List Entry) → IsFormed s → IsRun s whole → HasReasonsEnough whole }
{
    generated_names_are_free();
}
