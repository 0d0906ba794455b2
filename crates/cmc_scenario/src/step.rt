// One step of a script.
ghost use Rattle.std.specs.Prelude.{◌≡◌, map, option_map};
ghost use Rattle.serde_json.specs.View.{view};
ghost use Rattle.cmc_cursor.specs.Members.{Gives};
ghost use Rattle.cmc_cursor.specs.Seen.{shown};
ghost use Rattle.cmc_scenario.specs.Scripts.{apply_in, delete_in, stray_in, step_in, script_step_at, running_in, waiting_step_in};

use crate::applied::{applied, member, pass};
use crate::certificate_steps::{answer, approve, deny, renew};
use crate::role_steps::{hold, release, settle, start, stop, tick, until};
use cmc_cursor::{BadField, Fields, at, check_end, fields, optional, path_to, required};
use cmc_material::{count_option, key};
use cmc_objects::Step;
use serde_json::Value;
use std::alloc::Global;

#[tactic(auto, unfolding(crate::specs::Scripts::apply_in))]
fn apply(alloc: Global, rest: Fields<'_, '_>) -> Result<Step, BadField>
    ensures { Gives (λ t. t) result (apply_in (map shown rest.now)) }
{
    let (_, rest) = required(alloc, rest, "do")?;
    let (given, rest) = required(alloc, rest, "object")?;
    let step = at(alloc, "object", applied(alloc, given))?;
    check_end(alloc, rest)?;
    Ok(step)
}

#[tactic(auto, unfolding(crate::specs::Scripts::delete_in))]
fn delete(alloc: Global, rest: Fields<'_, '_>) -> Result<Step, BadField>
    ensures { Gives (λ t. t) result (delete_in (map shown rest.now)) }
{
    let (_, rest) = required(alloc, rest, "do")?;
    let (given, rest) = required(alloc, rest, "key")?;
    let key = at(alloc, "key", key(alloc, given))?;
    let (given, rest) = optional(alloc, rest, "version")?;
    let version = count_option(alloc, "version", given)?;
    check_end(alloc, rest)?;
    Ok(Step::Delete { key, version })
}

#[tactic(auto, unfolding(crate::specs::Scripts::stray_in))]
fn stray(alloc: Global, rest: Fields<'_, '_>) -> Result<Step, BadField>
    ensures { Gives (λ t. t) result (stray_in (map shown rest.now)) }
{
    let (given, rest) = optional(alloc, rest, "behind")?;
    pass(alloc, "behind", given)?;
    let (given, rest) = optional(alloc, rest, "certificate")?;
    pass(alloc, "certificate", given)?;
    required(alloc, rest, "do")?;
    Err(BadField::Path(path_to(alloc, "do")?))
}

fn waiting(alloc: Global, word: &str, rest: Fields<'_, '_>) -> Result<Step, BadField>
    ensures { Gives (λ t. t) result (waiting_step_in word.now (map shown rest.now)) }
{
    match word {
        "hold" => hold(alloc, rest),
        "release" => release(alloc, rest),
        "until" => until(alloc, rest),
        "settle" => settle(alloc, rest),
        _ => stray(alloc, rest),
    }
}

fn running(alloc: Global, word: &str, rest: Fields<'_, '_>) -> Result<Step, BadField>
    ensures { Gives (λ t. t) result (running_in word.now (map shown rest.now)) }
{
    match word {
        "tick" => tick(alloc, rest),
        "stop" => stop(alloc, rest),
        "start" => start(alloc, rest),
        _ => waiting(alloc, word, rest),
    }
}

fn form(alloc: Global, word: Option<&str>, rest: Fields<'_, '_>) -> Result<Step, BadField>
    ensures { Gives (λ t. t) result (step_in (option_map (λ t. t.now) word.entry) (map shown rest.now)) }
{
    match word {
        Some("apply") => apply(alloc, rest),
        Some("delete") => delete(alloc, rest),
        Some("approve") => approve(alloc, rest),
        Some("deny") => deny(alloc, rest),
        Some("answer") => answer(alloc, rest),
        Some("renew") => renew(alloc, rest),
        Some(word) => running(alloc, word, rest),
        None => stray(alloc, rest),
    }
}

/// One step.
#[tactic(auto, unfolding(crate::specs::Scripts::script_step_at))]
pub fn step(alloc: Global, value: &Value) -> Result<Step, BadField>
    ensures { Gives (λ t. t) result (script_step_at (view value.now)) }
{
    let members = fields(alloc, value)?;
    form(alloc, member(value, "do"), &members)
}
