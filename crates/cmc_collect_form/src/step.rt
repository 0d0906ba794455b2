// One step of owner collection.
ghost use Rattle.std.specs.Prelude.{◌≡◌, map, option_map};
ghost use Rattle.serde_json.specs.View.{view};
ghost use Rattle.cmc_cursor.specs.Members.{Gives, Read};
ghost use Rattle.cmc_cursor.specs.Seen.{shown};
ghost use Rattle.cmc_collect_form.specs.Steps.{after_word, at_last, collect_apply_at, apply_in, delete_in, deliver_in, examine_in, settle_in, collect_step_at, step_in, stray_in, tick_in};

use crate::script::CollectStep;
use cmc_codec::{Applied, applied_of};
use cmc_cursor::{
    BadField, Fields, at, check_end, count, fields, member, optional, path_to, required,
};
use cmc_material::{bounded, count_option, key};
use cmc_scenario::kind;
use serde_json::Value;
use std::alloc::Global;

const LONGEST_TICK: u64 = 1_000_000_000;

fn applied(alloc: Global, value: &Value) -> Result<CollectStep, BadField>
    ensures { Gives (λ t. t) result (collect_apply_at (view value.now)) }
{
    let Applied { object, version } = applied_of(alloc, value)?;
    Ok(CollectStep::Apply { object, version })
}

/// The member of that name, which has to come next after `do`, and the members after it.
#[tactic(auto, unfolding(crate::specs::Steps::after_word))]
fn after_word<'a, 'b>(
    alloc: Global,
    rest: Fields<'a, 'b>,
    name: &str,
) -> Result<(&'a Value, Fields<'a, 'b>), BadField>
    ensures { Gives (λ p. (view p.0.now, map shown p.1.now)) result (after_word name.now (map shown rest.now)) }
{
    let (_, rest) = required(alloc, rest, "do")?;
    required(alloc, rest, name)
}

/// What was read, where no member is left.
#[tactic(auto, unfolding(crate::specs::Steps::at_last))]
fn last<T: Drop>(
    alloc: Global,
    rest: Fields<'_, '_>,
    found: Result<T, BadField>,
) -> Result<T, BadField>
    ensures { (read : Read T) → Gives (λ t. t) found read → Gives (λ t. t) result (at_last (map shown rest.now) read) }
{
    let value = found?;
    check_end(alloc, rest)?;
    Ok(value)
}

#[tactic(auto, unfolding(crate::specs::Steps::apply_in))]
fn apply(alloc: Global, rest: Fields<'_, '_>) -> Result<CollectStep, BadField>
    ensures { Gives (λ t. t) result (apply_in (map shown rest.now)) }
{
    let (given, rest) = after_word(alloc, rest, "object")?;
    last(alloc, rest, at(alloc, "object", applied(alloc, given)))
}

#[tactic(auto, unfolding(crate::specs::Steps::delete_in))]
fn delete(alloc: Global, rest: Fields<'_, '_>) -> Result<CollectStep, BadField>
    ensures { Gives (λ t. t) result (delete_in (map shown rest.now)) }
{
    let (given, rest) = after_word(alloc, rest, "key")?;
    let key = at(alloc, "key", key(alloc, given))?;
    let (given, rest) = optional(alloc, rest, "version")?;
    let version = last(alloc, rest, count_option(alloc, "version", given))?;
    Ok(CollectStep::Delete { key, version })
}

#[tactic(auto, unfolding(crate::specs::Steps::tick_in))]
fn tick(alloc: Global, rest: Fields<'_, '_>) -> Result<CollectStep, BadField>
    ensures { Gives (λ t. t) result (tick_in (map shown rest.now)) }
{
    let (given, rest) = after_word(alloc, rest, "seconds")?;
    let found = at(alloc, "seconds", bounded(alloc, given, 1, LONGEST_TICK));
    let seconds = last(alloc, rest, found)?;
    Ok(CollectStep::Tick { seconds })
}

#[tactic(auto, unfolding(crate::specs::Steps::deliver_in))]
fn deliver(alloc: Global, rest: Fields<'_, '_>) -> Result<CollectStep, BadField>
    ensures { Gives (λ t. t) result (deliver_in (map shown rest.now)) }
{
    let (given, rest) = after_word(alloc, rest, "kind")?;
    let kind = at(alloc, "kind", kind(alloc, given))?;
    let (given, rest) = required(alloc, rest, "to")?;
    let to = last(alloc, rest, at(alloc, "to", count(alloc, given)))?;
    Ok(CollectStep::Deliver { kind, to })
}

#[tactic(auto, unfolding(crate::specs::Steps::examine_in))]
fn examine(alloc: Global, rest: Fields<'_, '_>) -> Result<CollectStep, BadField>
    ensures { Gives (λ t. t) result (examine_in (map shown rest.now)) }
{
    let (given, rest) = after_word(alloc, rest, "key")?;
    let key = last(alloc, rest, at(alloc, "key", key(alloc, given)))?;
    Ok(CollectStep::Examine { key })
}

#[tactic(auto, unfolding(crate::specs::Steps::settle_in))]
fn settle(alloc: Global, rest: Fields<'_, '_>) -> Result<CollectStep, BadField>
    ensures { Gives (λ t. t) result (settle_in (map shown rest.now)) }
{
    let (_, rest) = required(alloc, rest, "do")?;
    check_end(alloc, rest)?;
    Ok(CollectStep::Settle)
}

#[tactic(auto, unfolding(crate::specs::Steps::stray_in))]
fn stray(alloc: Global, rest: Fields<'_, '_>) -> Result<CollectStep, BadField>
    ensures { Gives (λ t. t) result (stray_in (map shown rest.now)) }
{
    required(alloc, rest, "do")?;
    Err(BadField::Path(path_to(alloc, "do")?))
}

fn form(alloc: Global, word: Option<&str>, rest: Fields<'_, '_>) -> Result<CollectStep, BadField>
    ensures { Gives (λ t. t) result (step_in (option_map (λ t. t.now) word.entry) (map shown rest.now)) }
{
    match word {
        Some("apply") => apply(alloc, rest),
        Some("delete") => delete(alloc, rest),
        Some("tick") => tick(alloc, rest),
        Some("deliver") => deliver(alloc, rest),
        Some("examine") => examine(alloc, rest),
        Some("settle") => settle(alloc, rest),
        _ => stray(alloc, rest),
    }
}

/// One step.
#[tactic(auto, unfolding(crate::specs::Steps::collect_step_at))]
pub(crate) fn step(alloc: Global, value: &Value) -> Result<CollectStep, BadField>
    ensures { Gives (λ t. t) result (collect_step_at (view value.now)) }
{
    let members = fields(alloc, value)?;
    form(alloc, member(value, "do"), &members)
}
