//! From a value to the lines that are written for it.
ghost use Rattle.std.specs.Prelude.{◌≡◌, IfErr, IfOk};
ghost use Rattle.serde_json.specs.View.{view};
ghost use Rattle.cmc_report.specs.Text.{joined};
ghost use Rattle.cmc_collect_run.specs.Answers.{AnswersCollect, Refuses};

use crate::running::{Ran, run_script};
use crate::text::collect_text;
use cmc_collect_form::{BadCollection, read};
use cmc_meta::Text;
use cmc_report::Lines;
use cmc_seed::HashSeed;
use serde_json::Value;
use std::alloc::{AllocError, Global};

/// Why no lines are made for a value.
#[derive(Drop)]
pub enum NotCollected {
    /// The value is no script of owner collection: it fails at this path first.
    Path(Text),
    /// A step of the script comes to an entry for which there is no room.
    Spent,
    /// Memory ran out.
    NoMemory,
}

impl From<AllocError> for NotCollected {
    ghost use Rattle.cmc_collect_run.specs.declared.answering.NotCollected.TheVariants.{NoMemory};

    ghost from_gives = { λ _ s. s ≡ NoMemory };

    fn from(_: AllocError) -> Self {
        NotCollected::NoMemory
    }
}

/// The lines of what the script of owner collection makes that a value describes: the script runs on an empty store, and
/// each entry is a line.
///
/// # Errors
///
/// `Path` exactly where the value is no such script, with the first failing path; `Spent` where a step comes to an entry for
/// which there is no room.
pub fn collect(alloc: Global, seed: HashSeed, value: &Value) -> Result<Lines, NotCollected>
    ensures ok { IfOk result (λ lines. AnswersCollect (view value.now) (joined lines)) }
    ensures err { IfErr result (λ why. Refuses (view value.now) why) }
{
    let script = match read(alloc, value) {
        Ok(script) => script,
        Err(BadCollection::Path(path)) => return Err(NotCollected::Path(path)),
        Err(BadCollection::NoMemory) => return Err(NotCollected::NoMemory),
    };
    match run_script(alloc, seed, script)? {
        Ran::Finished(collection) => {
            collection.collects_well();
            let lines = collect_text(alloc, value, &collection)?;
            Ok(lines)
        }
        Ran::Spent => Err(NotCollected::Spent),
    }
}
