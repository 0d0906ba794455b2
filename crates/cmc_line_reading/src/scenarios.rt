// The line of the scenario.
ghost use Rattle.std.specs.Prelude.{◌≡◌, ◌≢◌, ◌↔◌, ◌++◌, ℕ, List, codes, false, MatchOption, IfOk, IsTrue, Ok};
ghost use Rattle.serde_json.specs.View.{view};
ghost use Rattle.serde_json.specs.Written.{has_float, compact_text};
ghost use Rattle.cmc_scenario.specs.Scenarios.{scenario_at};
ghost use Rattle.cmc_line_reading.specs.Histories.{IsJson, IsScenario, IsScenarioOf};
ghost use Rattle.cmc_line_reading.specs.Scenarios.{IsInside, IsInsideOf};

use crate::lines::value_of;
use cmc_scenario::{BadScenario, read};
use cmc_setup::Scenario;
use serde_json::Value;
use std::alloc::{AllocError, Global};

const NAME: &[u8] = b"{\"scenario\":";

const BRACKET: &[u8] = b"}";

fn behind_name(line: &[u8]) -> Option<&[u8]>
    ensures { MatchOption result ((rest : List ℕ) → line.now ≢ codes "{\"scenario\":" ++ rest) (λ rest. line.now ≡ codes "{\"scenario\":" ++ rest.now) }
{
    line.strip_prefix(NAME)
}

fn before_bracket(text: &[u8]) -> Option<&[u8]>
    ensures { MatchOption result ((front : List ℕ) → text.now ≢ front ++ codes "}") (λ front. text.now ≡ front.now ++ codes "}") }
{
    text.strip_suffix(BRACKET)
}

// What stands in the line between the member's name and the last bracket.
#[tactic(auto, using(crate::proofs::ScenarioLine::no_bracket, crate::proofs::ScenarioLine::between))]
fn inside(line: &[u8]) -> Option<&[u8]>
    ensures { MatchOption result (IsInside line.now → ⊥) (λ text. IsInsideOf line.now text.now) }
{
    match behind_name(line) {
        Some(rest) => before_bracket(rest),
        None => None,
    }
}

// Whether the text is the compact text of the value, in which no number is a float.
fn is_compact(alloc: Global, value: &Value, text: &[u8]) -> Result<bool, AllocError>
    requires { has_float (view value.now) ≡ false }
    ensures { IfOk result (λ b. IsTrue b ↔ (text.now ≡ compact_text (view value.now))) }
{
    let printed = value.to_string(alloc)?;
    Ok(printed.as_bytes() == text)
}

#[tactic(auto, using(crate::proofs::ScenarioLine::not_compact, crate::proofs::ScenarioLine::compact))]
fn compared(
    alloc: Global,
    line: &[u8],
    text: &[u8],
    value: &Value,
    scenario: Scenario,
) -> Result<Option<Scenario>, AllocError>
    requires inside { IsInsideOf line.now text.now }
    requires json { IsJson text.now (view value.now) }
    requires read { scenario_at (view value.now) ≡ Ok scenario }
    requires whole { has_float (view value.now) ≡ false }
    ensures { IfOk result (λ o. MatchOption o (IsScenario line.now → ⊥) (IsScenarioOf line.now)) }
{
    if is_compact(alloc, value, text)? {
        return Ok(Some(scenario));
    }
    Ok(None)
}

#[tactic(auto, using(crate::proofs::ScenarioLine::not_read))]
fn scenario_of(
    alloc: Global,
    line: &[u8],
    text: &[u8],
    value: &Value,
) -> Result<Option<Scenario>, AllocError>
    requires inside { IsInsideOf line.now text.now }
    requires json { IsJson text.now (view value.now) }
    ensures { IfOk result (λ o. MatchOption o (IsScenario line.now → ⊥) (IsScenarioOf line.now)) }
{
    match read(alloc, value) {
        Ok(scenario) => compared(alloc, line, text, value, scenario),
        Err(BadScenario::Path(_)) => Ok(None),
        Err(BadScenario::NoMemory) => Err(AllocError),
    }
}

/// The scenario whose line this is. `None` exactly where it is the line of no scenario.
#[tactic(auto, using(crate::proofs::ScenarioLine::not_inside, crate::proofs::ScenarioLine::no_json))]
pub fn scenario_line(alloc: Global, line: &[u8]) -> Result<Option<Scenario>, AllocError>
    ensures { IfOk result (λ o. MatchOption o (IsScenario line.now → ⊥) (IsScenarioOf line.now)) }
{
    let Some(text) = inside(line) else {
        return Ok(None);
    };
    match value_of(alloc, text)? {
        Some(value) => scenario_of(alloc, line, text, &value),
        None => Ok(None),
    }
}
