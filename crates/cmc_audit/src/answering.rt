//! From the bytes of a printed history to the line that is written for them.
ghost use Rattle.std.specs.Prelude.{◌≡◌, IfErr, IfOk};
ghost use Rattle.cmc_report.specs.Text.{joined};
ghost use Rattle.cmc_line_reading.specs.Histories.{IsHistoryOf};
ghost use Rattle.cmc_audit.specs.Answers as words;

use crate::auditing::audit;
use crate::text::verdict_text;
use cmc_line_reading::{BadHistory, read_history};
use cmc_lines::Printed;
use cmc_report::Lines;
use cmc_seed::HashSeed;
use std::alloc::{AllocError, Global};

/// Why no verdict is given on some bytes.
#[derive(Clone, Copy, PartialEq, Eq)]
pub enum NotAudited {
    /// The bytes are the text of no history. The line of this number, counted from 1, is the first that fails; where a line
    /// is missing, it is one past the last.
    Line(u64),
    /// Memory ran out.
    NoMemory,
}

impl From<AllocError> for NotAudited {
    ghost use Rattle.cmc_audit.specs.declared.answering.NotAudited.TheVariants.{NoMemory};

    ghost from_gives = { λ _ s. s ≡ NoMemory };

    fn from(_: AllocError) -> Self {
        NotAudited::NoMemory
    }
}

/// The history that the bytes are the text of.
fn history_in(alloc: Global, bytes: &[u8]) -> Result<Printed, NotAudited>
    ensures ok { IfOk result (λ printed. IsHistoryOf bytes.now printed.scenario printed.entries printed.counts) }
    ensures err { IfErr result (λ why. words.Refuses bytes.now why) }
{
    match read_history(alloc, bytes) {
        Ok(printed) => Ok(printed),
        Err(BadHistory::Line(line)) => Err(NotAudited::Line(line)),
        Err(BadHistory::NoMemory) => Err(NotAudited::NoMemory),
    }
}

/// The line that says whether the history whose text the bytes are is legal and safe, and where it is not, the first entry at
/// which a clause fails and the first clause that fails there.
///
/// # Errors
///
/// `Line` exactly where the bytes are the text of no history, with the first line that fails.
pub fn audit_bytes(alloc: Global, seed: HashSeed, bytes: &[u8]) -> Result<Lines, NotAudited>
    ensures ok { IfOk result (λ lines. words.AnswersAudit bytes.now (joined lines)) }
    ensures err { IfErr result (λ why. words.Refuses bytes.now why) }
{
    let printed = history_in(alloc, bytes)?;
    let verdict = audit(alloc, seed, &printed)?;
    let lines = verdict_text(alloc, verdict)?;
    Ok(lines)
}
