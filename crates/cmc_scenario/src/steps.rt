// The steps of a script.
ghost use Rattle.std.specs.Prelude.{IfOk};
ghost use Rattle.serde_json.specs.View.{view, items_view};
ghost use Rattle.cmc_setup.specs.Stages.{Stage as StageValue, IsStage, first_stage};
ghost use Rattle.cmc_cursor.specs.Members.{Gives};
ghost use Rattle.cmc_cursor.specs.Seen.{shown_option};
ghost use Rattle.cmc_scenario.specs.Scripts.{GivesStep, numbered_step_at, steps_from, steps_at, script_at};

use crate::step::step;
use cmc_cursor::{BadField, at, at_place, path_to_place};
use cmc_meta::Texts;
use cmc_objects::{Role, Step};
use cmc_setup::{Stage, Steps};
use serde_json::Value;
use std::alloc::Global;

const MOST_STEPS: usize = 10_000;

#[tactic(auto, unfolding(crate::specs::Scripts::numbered_step_at))]
fn numbered_step(
    alloc: Global,
    place: usize,
    stage: Stage,
    value: &Value,
) -> Result<(Step, Stage), BadField>
    ensures { (before : StageValue) → IsStage stage before → GivesStep before result (numbered_step_at place before (view value.now)) }
{
    if place >= MOST_STEPS {
        return Err(BadField::Path(path_to_place(alloc, place)?));
    }
    let step = at_place(alloc, place, step(alloc, value))?;
    match stage.after(&step) {
        Some(next) => Ok((step, next)),
        None => Err(BadField::Path(path_to_place(alloc, place)?)),
    }
}

fn steps_of(alloc: Global, roles: &[Role], now: i64, items: &[Value]) -> Result<Steps, BadField>
    ensures { Gives (λ t. t) result (steps_from 0 (first_stage roles.now now) (items_view items.now)) }
{
    let mut steps = Steps::new(alloc);
    let mut stage = Stage::first(roles, now);
    for (place, item) in items.iter().enumerate() {
        match numbered_step(alloc, place, stage, item) {
            Ok((step, next)) => {
                steps.push(step)?;
                stage = next;
            }
            Err(error) => return Err(error),
        }
    }
    Ok(steps)
}

fn listed(alloc: Global, roles: &[Role], now: i64, value: &Value) -> Result<Steps, BadField>
    ensures { Gives (λ t. t) result (steps_at (first_stage roles.now now) (view value.now)) }
{
    match value {
        Value::Array(items) => steps_of(alloc, roles, now, items.as_slice()),
        _ => Err(BadField::Path(Texts::new(alloc))),
    }
}

/// The steps of the member `script`, where these roles run at first and the run begins at `now`.
pub fn script(
    alloc: Global,
    roles: &[Role],
    now: i64,
    value: Option<&Value>,
) -> Result<Steps, BadField>
    ensures { Gives (λ t. t) result (script_at (first_stage roles.now now) (shown_option value.entry)) }
{
    match value {
        None => Ok(Steps::new(alloc)),
        Some(value) => at(alloc, "script", listed(alloc, roles, now, value)),
    }
}
