// The lines of entries.
ghost use Rattle.std.specs.Prelude.{◌≡◌};
ghost use Rattle.serde_json.specs.View.{view};
ghost use Rattle.cmc_cursor.specs.Members.{Gives};
ghost use Rattle.cmc_entry_form.specs.LineForm.{deliver_line_in, line_at, line_in, list_in, script_in, start_line_in, stop_line_in, tick_line_in};

use crate::calls::call;
use crate::members::{count_of, kind_of, moment_of, role_of, text_of};
use crate::passes::pass;
use cmc_cursor::BadField;
use cmc_lines::PrintedLine;
use serde_json::Value;
use std::alloc::Global;

#[tactic(auto, unfolding(crate::specs::LineForm::script_in))]
fn script(alloc: Global, value: &Value) -> Result<PrintedLine, BadField>
    ensures { Gives (λ t. t) result (script_in (view value.now)) }
{
    let step = count_of(alloc, value, "step")?;
    Ok(PrintedLine::Script { step })
}

#[tactic(auto, unfolding(crate::specs::LineForm::deliver_line_in))]
fn deliver(alloc: Global, value: &Value) -> Result<PrintedLine, BadField>
    ensures { Gives (λ t. t) result (deliver_line_in (view value.now)) }
{
    let role = role_of(alloc, value, "role")?;
    let kind = kind_of(alloc, value, "kind")?;
    let to = count_of(alloc, value, "to")?;
    Ok(PrintedLine::Deliver { role, kind, to })
}

#[tactic(auto, unfolding(crate::specs::LineForm::list_in))]
fn list(alloc: Global, value: &Value) -> Result<PrintedLine, BadField>
    ensures { Gives (λ t. t) result (list_in (view value.now)) }
{
    let role = role_of(alloc, value, "role")?;
    let kind = kind_of(alloc, value, "kind")?;
    let to = count_of(alloc, value, "to")?;
    Ok(PrintedLine::List { role, kind, to })
}

#[tactic(auto, unfolding(crate::specs::LineForm::stop_line_in))]
fn stop(alloc: Global, value: &Value) -> Result<PrintedLine, BadField>
    ensures { Gives (λ t. t) result (stop_line_in (view value.now)) }
{
    let role = role_of(alloc, value, "role")?;
    Ok(PrintedLine::Stop { role })
}

#[tactic(auto, unfolding(crate::specs::LineForm::start_line_in))]
fn start(alloc: Global, value: &Value) -> Result<PrintedLine, BadField>
    ensures { Gives (λ t. t) result (start_line_in (view value.now)) }
{
    let role = role_of(alloc, value, "role")?;
    let at = count_of(alloc, value, "at")?;
    Ok(PrintedLine::Start { role, at })
}

#[tactic(auto, unfolding(crate::specs::LineForm::tick_line_in))]
fn tick(alloc: Global, value: &Value) -> Result<PrintedLine, BadField>
    ensures { Gives (λ t. t) result (tick_line_in (view value.now)) }
{
    let now = moment_of(alloc, value, "now")?;
    Ok(PrintedLine::Tick { now })
}

fn entry_named(alloc: Global, value: &Value, word: &str) -> Result<PrintedLine, BadField>
    ensures { Gives (λ t. t) result (line_in (view value.now) word.now) }
{
    match word {
        "script" => script(alloc, value),
        "call" => call(alloc, value),
        "deliver" => deliver(alloc, value),
        "list" => list(alloc, value),
        "stop" => stop(alloc, value),
        "start" => start(alloc, value),
        "tick" => tick(alloc, value),
        _ => pass(alloc, value, word),
    }
}

/// What the line of an entry says. Whether the value has other members, and which number it has, is
/// not looked at.
///
/// Fails where a part is missing or is not of its form.
#[tactic(auto, unfolding(crate::specs::LineForm::line_at))]
pub fn entry_of(alloc: Global, value: &Value) -> Result<PrintedLine, BadField>
    ensures { Gives (λ t. t) result (line_at (view value.now)) }
{
    let word = text_of(alloc, value, "is")?;
    entry_named(alloc, value, word)
}
