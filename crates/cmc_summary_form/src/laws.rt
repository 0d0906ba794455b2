// What printing summaries and reading them make of each other.
ghost use Rattle.cmc_summary_form.specs.Laws.{HasFormRead, IsSummaryAgain};

use cmc_summary::Summary;

/// A law: what is printed of a summary of the form is read as that summary. The call changes nothing.
#[tactic(auto, using(crate::proofs::SummaryAgain::summary_again))]
pub fn summary_is_read(summary: &Summary)
    ensures { IsSummaryAgain summary.now }
{
    let _ready = summary.ready;
}

/// A law: a summary that is read is of the form. The call changes nothing.
pub fn read_has_form(summary: &Summary)
    ensures { HasFormRead summary.now }
{
    let _ready = summary.ready;
}
