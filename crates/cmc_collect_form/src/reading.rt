// Reads scripts of owner collection.
ghost use Rattle.std.specs.Prelude.{◌≡◌, false, IfOk, OnOk, map};
ghost use Rattle.serde_json.specs.View.{view};
ghost use Rattle.serde_json.specs.Written.{has_float};
ghost use Rattle.cmc_cursor.specs.Members.{Gives};
ghost use Rattle.cmc_cursor.specs.Seen.{shown};
ghost use Rattle.cmc_collect_form.specs.Collections.{CollectionFailsAt, IsInTime, IsReading, collect_at, collection_in, ending_in, size_in, members_at, collection_whole_at};
ghost use Rattle.cmc_collect_form.specs.Steps.{AreInTime};

use crate::script::{CollectScript, CollectSteps};
use crate::steps::script;
use cmc_cursor::{BadField, Fields, check_end, check_floats, fields, optional, path_text};
use cmc_material::bounded_or;
use cmc_meta::{Text, Texts};
use cmc_scenario::{LARGEST_SIZE, faults, now};
use serde_json::Value;
use std::alloc::Global;

/// Why a value is no script of owner collection.
#[derive(Drop)]
pub enum BadCollection {
    /// The value fails at this path first: member names and places in lists (from 0), joined by
    /// dots. The empty text is the value itself, or a member of it whose name is empty.
    Path(Text),
    /// Memory ran out.
    NoMemory,
}

/// A size, `usual` where it is left out, and the members after it.
#[tactic(auto, unfolding(crate::specs::Collections::size_in))]
fn size<'a, 'b>(
    alloc: Global,
    rest: Fields<'a, 'b>,
    name: &str,
    usual: u64,
) -> Result<(u64, Fields<'a, 'b>), BadField>
    ensures { Gives (λ p. (p.0, map shown p.1.now)) result (size_in name.now usual (map shown rest.now)) }
{
    let (given, rest) = optional(alloc, rest, name)?;
    let size = bounded_or(alloc, name, given, usual, 1, LARGEST_SIZE)?;
    Ok((size, rest))
}

#[tactic(auto, unfolding(crate::specs::Collections::ending_in))]
fn ending(alloc: Global, now: i64, rest: Fields<'_, '_>) -> Result<(CollectSteps, u64), BadField>
    ensures ending { Gives (λ p. (p.0, p.1)) result (ending_in now (map shown rest.now)) }
    ensures in_time { IfOk result (λ p. AreInTime now p.0) }
{
    let (given, rest) = optional(alloc, rest, "script")?;
    let steps = script(alloc, now, given)?;
    let (window, rest) = size(alloc, rest, "window", 1_000)?;
    check_end(alloc, rest)?;
    Ok((steps, window))
}

#[tactic(auto, unfolding(crate::specs::Collections::collection_in))]
fn collection(alloc: Global, rest: Fields<'_, '_>) -> Result<CollectScript, BadField>
    ensures script { Gives (λ t. t) result (collection_in (map shown rest.now)) }
    ensures in_time { IfOk result IsInTime }
{
    let (events, rest) = size(alloc, rest, "events", 100_000)?;
    let (given, rest) = optional(alloc, rest, "faults")?;
    let faults = faults(alloc, given)?;
    let (given, rest) = optional(alloc, rest, "now")?;
    let now = now(alloc, given)?;
    let (steps, window) = ending(alloc, now, rest)?;
    Ok(CollectScript {
        events,
        faults,
        now,
        steps,
        window,
    })
}

#[tactic(auto, unfolding(crate::specs::Collections::members_at))]
fn members(alloc: Global, value: &Value) -> Result<CollectScript, BadField>
    ensures script { Gives (λ t. t) result (members_at (view value.now)) }
    ensures in_time { IfOk result IsInTime }
{
    let members = fields(alloc, value)?;
    collection(alloc, &members)
}

#[tactic(auto, unfolding(crate::specs::Collections::collection_whole_at))]
fn whole(alloc: Global, value: &Value) -> Result<CollectScript, BadField>
    ensures script { Gives (λ t. t) result (collection_whole_at (view value.now)) }
    ensures in_time { IfOk result IsInTime }
    ensures none { OnOk result (has_float (view value.now) ≡ false) }
{
    let script = members(alloc, value)?;
    check_floats(alloc, value)?;
    Ok(script)
}

fn failing_at(alloc: Global, path: &Texts) -> BadCollection
    ensures { CollectionFailsAt path.now result }
{
    match path_text(alloc, path) {
        Ok(text) => BadCollection::Path(text),
        Err(_) => BadCollection::NoMemory,
    }
}

/// The script of owner collection that a value describes.
///
/// It is an object with the members `events`, `faults`, `now`, `script` and `window`, none of which has to stand, each
/// as a scenario has it. The steps are `apply`, `delete`, `tick` and `settle`, as a scenario has them, `deliver` with a
/// `kind` and a version `to`, and `examine` with a `key`. No other member may stand, and no number may be a float. A step
/// that lets more time pass than there is fails as a whole.
///
/// # Errors
///
/// `Path` exactly where the value is not of this form, with the first failing path.
#[tactic(auto, unfolding(crate::specs::Collections::collect_at))]
pub fn read(alloc: Global, value: &Value) -> Result<CollectScript, BadCollection>
    ensures form { IsReading (collect_at (view value.now)) result }
    ensures in_time { IfOk result IsInTime }
    ensures whole { OnOk result (has_float (view value.now) ≡ false) }
{
    match whole(alloc, value) {
        Ok(script) => Ok(script),
        Err(BadField::Path(path)) => Err(failing_at(alloc, &path)),
        Err(BadField::NoMemory) => Err(BadCollection::NoMemory),
    }
}
