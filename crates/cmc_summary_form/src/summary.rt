// The summary, read from JSON.
ghost use Rattle.std.specs.Prelude.{◌≡◌, codes, map};
ghost use Rattle.serde_json.specs.View.{view};
ghost use Rattle.cmc_cursor.specs.Members.{Gives};
ghost use Rattle.cmc_cursor.specs.Readers.{count_at};
ghost use Rattle.cmc_cursor.specs.Seen.{shown};
ghost use Rattle.cmc_codec.specs.Given.{needed_at};
ghost use Rattle.cmc_summary_form.specs.SummaryForm as forms;

use crate::waits::waits;
use cmc_cursor::{BadField, Fields, at, check_end, count, fields, required};
use cmc_summary::{Summary, Waits};
use serde_json::Value;
use std::alloc::Global;

fn needed_count<'a, 'b>(
    alloc: Global,
    rest: Fields<'a, 'b>,
    name: &str,
) -> Result<(u64, Fields<'a, 'b>), BadField>
    ensures { Gives (λ p. (p.0, map shown p.1.now)) result (needed_at count_at name.now (map shown rest.now)) }
{
    let (value, rest) = required(alloc, rest, name)?;
    Ok((at(alloc, name, count(alloc, value))?, rest))
}

fn needed_waits<'a, 'b>(
    alloc: Global,
    rest: Fields<'a, 'b>,
) -> Result<(Waits, Fields<'a, 'b>), BadField>
    ensures { Gives (λ p. (p.0, map shown p.1.now)) result (needed_at forms.waits_at (codes "waiting") (map shown rest.now)) }
{
    let (value, rest) = required(alloc, rest, "waiting")?;
    Ok((at(alloc, "waiting", waits(alloc, value))?, rest))
}

#[tactic(auto, unfolding(crate::specs::SummaryForm::counts_in))]
fn read_counts(alloc: Global, rest: Fields<'_, '_>) -> Result<Summary, BadField>
    ensures { Gives (λ t. t) result (forms.counts_in (map shown rest.now)) }
{
    let (certificates, rest) = needed_count(alloc, rest, "certificates")?;
    let (ready, rest) = needed_count(alloc, rest, "ready")?;
    let (secrets, rest) = needed_count(alloc, rest, "secrets")?;
    let (waiting, rest) = needed_waits(alloc, rest)?;
    check_end(alloc, rest)?;
    Ok(Summary {
        certificates,
        ready,
        secrets,
        waiting,
    })
}

#[tactic(auto, unfolding(crate::specs::SummaryForm::counts_at))]
fn counts(alloc: Global, value: &Value) -> Result<Summary, BadField>
    ensures { Gives (λ t. t) result (forms.counts_at (view value.now)) }
{
    let members = fields(alloc, value)?;
    read_counts(alloc, &members)
}

#[tactic(auto, unfolding(crate::specs::SummaryForm::summary_in))]
fn read_summary(alloc: Global, rest: Fields<'_, '_>) -> Result<Summary, BadField>
    ensures { Gives (λ t. t) result (forms.summary_in (map shown rest.now)) }
{
    let (given, rest) = required(alloc, rest, "summary")?;
    let summary = at(alloc, "summary", counts(alloc, given))?;
    check_end(alloc, rest)?;
    Ok(summary)
}

/// The summary that a JSON value stands for, as it is printed: an object with the member `summary` alone, which has how
/// many Certificates exist, how many of them are Ready and how many Secrets exist, and what those that are not Ready wait
/// for, in order of key, each once.
///
/// Fails at the first failing path; a Certificate whose key does not come after the one before it fails as a whole.
#[tactic(auto, unfolding(crate::specs::SummaryForm::summary_read_at))]
pub fn summary_of(alloc: Global, value: &Value) -> Result<Summary, BadField>
    ensures { Gives (λ t. t) result (forms.summary_read_at (view value.now)) }
{
    let members = fields(alloc, value)?;
    read_summary(alloc, &members)
}
