// What the type of a summary says.
ghost use Rattle.std.specs.Prelude.{All};
ghost use Rattle.cmc_summary_form.specs.SummaryForm.{HasNames};
ghost use Rattle.cmc_audit_laws.specs.Counted.{IsCount};
ghost use Rattle.cmc_audit_laws.specs.Printed.{IsTypedSummary};

use crate::naming::key_has_names;
use cmc_summary::{Summary, Waiting};

fn is_count(number: u64)
    ensures { IsCount number }
{
    let _number = number;
}

fn wait_has_names(waiting: &Waiting)
    ensures { HasNames waiting.now.certificate }
{
    key_has_names(&waiting.certificate);
}

fn waits_have_names(waits: &[Waiting])
    ensures { All (λ w. HasNames w.certificate) waits.now }
{
    for waiting in waits {
        wait_has_names(waiting);
    }
}

/// A law: a summary is what its type says: names are names, and its counts fit 64 bits. The call changes nothing.
pub fn summary_is_typed(summary: &Summary)
    ensures { IsTypedSummary summary.now }
{
    waits_have_names(summary.waiting.as_slice());
    is_count(summary.certificates);
    is_count(summary.ready);
    is_count(summary.secrets);
}
