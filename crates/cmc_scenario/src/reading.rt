// Reads scenarios.
ghost use Rattle.std.specs.Prelude.{◌≡◌, false, OnOk, map};
ghost use Rattle.serde_json.specs.View.{view};
ghost use Rattle.serde_json.specs.Written.{has_float};
ghost use Rattle.cmc_setup.specs.Setups.{IsSetup};
ghost use Rattle.cmc_cursor.specs.Members.{Gives};
ghost use Rattle.cmc_cursor.specs.Seen.{shown};
ghost use Rattle.cmc_scenario.specs.Scenarios.{setup_of, setup_in, members_at, scenario_whole_at, scenario_at, ScenarioFailsAt, IsReading};

use crate::members::{Beginning, LARGEST_SIZE, World, beginning_members, world_members};
use crate::steps::script;
use cmc_cursor::{BadField, Fields, check_end, check_floats, fields, optional, path_text};
use cmc_material::bounded_or;
use cmc_meta::{Text, Texts};
use cmc_setup::{Scenario, Steps};
use serde_json::Value;
use std::alloc::Global;

/// Why a value is no scenario.
#[derive(Drop)]
pub enum BadScenario {
    /// The value fails at this path first: member names and places in lists (from 0), joined by dots. The empty text
    /// is the value itself, or a member of it whose name is empty.
    Path(Text),
    /// Memory ran out.
    NoMemory,
}

fn put_together(world: World, beginning: Beginning, script: Steps, window: u64) -> Scenario
    requires { IsSetup (setup_of world beginning script window) }
    ensures { result ≡ setup_of world beginning script window }
{
    let World {
        approver,
        events,
        faults,
        material,
    } = world;
    let Beginning { moment, roles } = beginning;
    Scenario::new(
        events, window, moment, roles, faults, approver, material, script,
    )
}

#[tactic(auto, unfolding(crate::specs::Scenarios::setup_in))]
fn setup(alloc: Global, rest: Fields<'_, '_>) -> Result<Scenario, BadField>
    ensures { Gives (λ t. t) result (setup_in (map shown rest.now)) }
{
    let (world, rest) = world_members(alloc, rest)?;
    let (beginning, rest) = beginning_members(alloc, rest)?;
    let (given, rest) = optional(alloc, rest, "script")?;
    let script = script(alloc, beginning.roles.as_slice(), beginning.moment, given)?;
    let (given, rest) = optional(alloc, rest, "window")?;
    let window = bounded_or(alloc, "window", given, 1_000, 1, LARGEST_SIZE)?;
    check_end(alloc, rest)?;
    Ok(put_together(world, beginning, script, window))
}

#[tactic(auto, unfolding(crate::specs::Scenarios::members_at))]
fn members(alloc: Global, value: &Value) -> Result<Scenario, BadField>
    ensures { Gives (λ t. t) result (members_at (view value.now)) }
{
    let members = fields(alloc, value)?;
    setup(alloc, &members)
}

#[tactic(auto, unfolding(crate::specs::Scenarios::scenario_whole_at))]
fn whole(alloc: Global, value: &Value) -> Result<Scenario, BadField>
    ensures first { Gives (λ t. t) result (scenario_whole_at (view value.now)) }
    ensures none { OnOk result (has_float (view value.now) ≡ false) }
{
    let scenario = members(alloc, value)?;
    check_floats(alloc, value)?;
    Ok(scenario)
}

fn failing_at(alloc: Global, path: &Texts) -> BadScenario
    ensures { ScenarioFailsAt path.now result }
{
    match path_text(alloc, path) {
        Ok(text) => BadScenario::Path(text),
        Err(_) => BadScenario::NoMemory,
    }
}

/// The scenario that a value describes.
///
/// It is an object with these members, none of which has to be there:
/// - `events` and `window`, 1 to 250,000 (100,000 and 1,000 where left out);
/// - `now`, a moment of RFC 3339 from 1951-01-01T00:00:00Z to 9900-01-01T00:00:00Z
///   (2030-01-01T00:00:00Z where left out);
/// - `roles`, the names of the roles that run from the beginning on (all eight where left out); one that
///   is named again counts once;
/// - `faults`, the numbers of the store calls that fail, from 1, each above the one before;
/// - `approver`, `issuers` (all where left out), `policies` and `refuse`;
/// - `material`, the key rows and reply rows of Certificates, by `namespace/name`;
/// - `script`, a list of at most 10,000 steps.
///
/// No other member may stand, and no number may be a float. A step that stops a role that does not
/// run, starts one that runs, holds an informer that is held or that the role has not, releases one
/// that is not held, or lets more time pass than there is fails as a whole.
///
/// # Errors
///
/// `Path` exactly where the value is not of this form, with the first failing path.
#[tactic(auto, unfolding(crate::specs::Scenarios::scenario_at))]
pub fn read(alloc: Global, value: &Value) -> Result<Scenario, BadScenario>
    ensures form { IsReading (scenario_at (view value.now)) result }
    ensures whole { OnOk result (has_float (view value.now) ≡ false) }
{
    match whole(alloc, value) {
        Ok(scenario) => Ok(scenario),
        Err(BadField::Path(path)) => Err(failing_at(alloc, &path)),
        Err(BadField::NoMemory) => Err(BadScenario::NoMemory),
    }
}
