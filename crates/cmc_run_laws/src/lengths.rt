//! How long a run can be.
ghost use Rattle.std.specs.Prelude.{List};
ghost use Rattle.cmc_objects.specs.declared.entry.Entry.{Entry};
ghost use Rattle.cmc_model.specs.Histories.{Setting};
ghost use Rattle.cmc_rules.specs.Runs.{IsRun};
ghost use Rattle.cmc_safety.specs.Formed.{IsFormed};
ghost use Rattle.cmc_run_laws.specs.Lengths.{HasBoundedLength, HasFewPasses, HasShortPasses, HasFewDeliveries};

use crate::begins::no_pass_begins_for_nothing;
use cmc_kernel::passes_keep_to_their_courses;

/// A law: the length of a run is bounded by its accepted writes, its failed calls and the steps of its script that were
/// made, whatever the interleaving. Where all passes are on given keys, no more of them begin than there are pairs of a
/// role and a key, each pair taken once and once more for each reason for a pass. After its Begin a pass has at most four
/// entries. And a role is told of a kind no more often than there are accepted writes, and so often again after each start.
pub fn length_is_bounded()
    ensures passes { (s : Setting) (whole : List Entry) → IsFormed s → IsRun s whole → HasFewPasses whole }
    ensures entries { (s : Setting) (whole : List Entry) → IsRun s whole → HasShortPasses whole }
    ensures told { (s : Setting) (whole : List Entry) → IsRun s whole → HasFewDeliveries s whole }
    ensures bounded { (s : Setting) (whole : List Entry) → IsFormed s → IsRun s whole → HasBoundedLength s whole }
{
    no_pass_begins_for_nothing();
    passes_keep_to_their_courses();
}
