// The steps of a script of owner collection.
ghost use Rattle.std.specs.Prelude.{◌≡◌, ◌∷◌, [], Err, IfOk, decimal, int_le, true};
ghost use Rattle.serde_json.specs.View.{view, items_view};
ghost use Rattle.cmc_cursor.specs.Members.{Gives};
ghost use Rattle.cmc_cursor.specs.Seen.{shown_option};
ghost use Rattle.cmc_setup.specs.Setups.{last_moment};
ghost use Rattle.cmc_collect_form.specs.Steps as spec;

use crate::script::{CollectStep, CollectSteps};
use crate::step::step;
use cmc_cursor::{BadField, at, at_place, path_to_place};
use cmc_meta::Texts;
use serde_json::Value;
use std::alloc::Global;

const MOST_STEPS: usize = 10_000;

/// The failure of the step at that place as a whole.
fn failing_step(alloc: Global, place: usize) -> Result<(CollectStep, i64), BadField>
    ensures { Gives (λ p. p.0) result (Err (decimal place ∷ [])) }
{
    Err(BadField::Path(path_to_place(alloc, place)?))
}

#[tactic(auto, unfolding(crate::specs::Steps::numbered_step_at))]
fn numbered_step(
    alloc: Global,
    place: usize,
    now: i64,
    value: &Value,
) -> Result<(CollectStep, i64), BadField>
    ensures step { Gives (λ p. p.0) result (spec.numbered_step_at place now (view value.now)) }
    ensures next { IfOk result (λ p. (int_le (spec.moment_after now p.0) last_moment ≡ true) × (p.1 ≡ spec.moment_after now p.0)) }
{
    if place >= MOST_STEPS {
        return failing_step(alloc, place);
    }
    let step = at_place(alloc, place, step(alloc, value))?;
    match step.after(now) {
        Some(next) => Ok((step, next)),
        None => failing_step(alloc, place),
    }
}

fn steps_of(alloc: Global, now: i64, items: &[Value]) -> Result<CollectSteps, BadField>
    ensures steps { Gives (λ t. t) result (spec.steps_from 0 now (items_view items.now)) }
    ensures in_time { IfOk result (spec.AreInTime now) }
{
    let mut steps = CollectSteps::new(alloc);
    let mut moment = now;
    for (place, item) in items.iter().enumerate() {
        match numbered_step(alloc, place, moment, item) {
            Ok((step, next)) => {
                steps.push(step)?;
                moment = next;
            }
            Err(error) => return Err(error),
        }
    }
    Ok(steps)
}

fn listed(alloc: Global, now: i64, value: &Value) -> Result<CollectSteps, BadField>
    ensures steps { Gives (λ t. t) result (spec.steps_at now (view value.now)) }
    ensures in_time { IfOk result (spec.AreInTime now) }
{
    match value {
        Value::Array(items) => steps_of(alloc, now, items.as_slice()),
        _ => Err(BadField::Path(Texts::new(alloc))),
    }
}

/// The steps of the member `script`, where the collection begins at `now`.
pub(crate) fn script(
    alloc: Global,
    now: i64,
    value: Option<&Value>,
) -> Result<CollectSteps, BadField>
    ensures steps { Gives (λ t. t) result (spec.script_at now (shown_option value.entry)) }
    ensures in_time { IfOk result (spec.AreInTime now) }
{
    match value {
        None => Ok(CollectSteps::new(alloc)),
        Some(value) => at(alloc, "script", listed(alloc, now, value)),
    }
}
