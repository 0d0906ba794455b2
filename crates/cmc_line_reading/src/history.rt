// The text of a history.
ghost use Rattle.std.specs.Prelude.{◌≡◌, MatchOption};
ghost use Rattle.cmc_line_reading.specs.Bodies.{IsBodyReading, IsCut, IsRestReading};
ghost use Rattle.cmc_line_reading.specs.Histories.{IsOneLine, IsReading};

use crate::said::{Said, said_in_place};
use crate::scenarios::scenario_line;
use cmc_lines::{Printed, Records};
use cmc_setup::Scenario;
use std::alloc::{AllocError, AllocFailed, Global};

/// Why a text is not that of a history.
#[derive(Drop)]
pub enum BadHistory {
    /// The line of this number, counted from 1, is the first that fails; where a line is missing, one past the last.
    Line(u64),
    /// Memory ran out.
    NoMemory,
}

impl From<AllocError> for BadHistory {
    ghost use Rattle.std.specs.Prelude.{◌≡◌};
    ghost use Rattle.cmc_line_reading.specs.declared.history.BadHistory.TheVariants.{NoMemory};

    ghost from_gives = { λ _ e. e ≡ NoMemory };

    fn from(_: AllocError) -> Self {
        BadHistory::NoMemory
    }
}

/// What comes after the line of the scenario: the entries, and the counts of the summary.
#[derive(Drop)]
pub struct Body {
    pub entries: Records,
    pub counts: [u64; 3],
}

// The first line, without its line feed, and what comes after it; None where there is no line feed.
fn cut(text: &[u8]) -> Option<(&[u8], &[u8])>
    ensures { MatchOption result (IsOneLine text.now) (λ parts. IsCut text.now parts.0.now parts.1.now) }
{
    let at = text.iter().position(|byte| *byte == b'\n')?;
    Some((&text[..at], &text[at + 1..]))
}

// The entries and the summary, of which the line in place `place` is the first.
fn read_body(alloc: Global, text: &[u8]) -> Result<Body, BadHistory>
    ensures { IsBodyReading text.now result }
{
    let mut entries = Records::new(alloc);
    let mut left = text;
    while let Some((line, later)) = cut(left) {
        let number = entries.as_slice().len() as u64 + 1;
        match said_in_place(alloc, number, line)? {
            Said::Entry(entry) => entries.push(entry)?,
            Said::Summary(counts) if later.is_empty() => return Ok(Body { entries, counts }),
            Said::Summary(_) => return Err(BadHistory::Line(number + 2)),
            Said::Nothing => return Err(BadHistory::Line(number + 1)),
        }
        left = later;
    }
    Err(BadHistory::Line(entries.as_slice().len() as u64 + 2))
}

// The history with this scenario, whose entries and summary stand in the text.
fn with_scenario(alloc: Global, scenario: Scenario, text: &[u8]) -> Result<Printed, BadHistory>
    ensures { IsRestReading scenario text.now result }
{
    let Body { entries, counts } = read_body(alloc, text)?;
    Ok(Printed {
        scenario,
        entries,
        counts,
    })
}

/// The history that the text is: a line for the scenario, one for each entry, and one for the summary.
///
/// Line 1 is `{"scenario":TEXT}`, where TEXT is the compact text of a scenario. Then comes one line for each entry, with
/// its number from 1 on, and last the summary with what Certificates wait for in order of key. Each line is compact JSON
/// with members in byte order, and has its line feed.
///
/// # Errors
///
/// `Line` exactly where the text is not of this form, with the number of the first line that is wrong or missing.
#[tactic(auto, using(crate::proofs::Texts::none_fails, crate::proofs::Texts::whole_reading))]
pub fn read_history(alloc: Global, text: &[u8]) -> Result<Printed, BadHistory>
    ensures { IsReading text.now result }
{
    let Some((line, later)) = cut(text) else {
        return Err(BadHistory::Line(1));
    };
    match scenario_line(alloc, line)? {
        Some(scenario) => with_scenario(alloc, scenario, later),
        None => Err(BadHistory::Line(1)),
    }
}
