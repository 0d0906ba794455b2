// The members of a scenario but the script.
ghost use Rattle.std.specs.Prelude.{◌≡◌, [], codes, decimal, map};
ghost use Rattle.serde_json.specs.View.{view, items_view};
ghost use Rattle.cmc_time.specs.TimeTexts.{rfc3339_seconds};
ghost use Rattle.cmc_cursor.specs.Members.{Gives, under};
ghost use Rattle.cmc_cursor.specs.Readers.{found};
ghost use Rattle.cmc_cursor.specs.Seen.{shown, shown_option};
ghost use Rattle.cmc_material.specs.Lists.{member_or};
ghost use Rattle.cmc_scenario.specs.Scenarios.{beginning_in, faults_at, in_run, start_moment_at, moment_in, rising_at, rising_from, usual_moment, world_in};

use crate::roles::given_roles;
use cmc_cursor::{BadField, Fields, at, at_place, count, optional};
use cmc_material::{approver, bounded_or, material};
use cmc_meta::{Numbers, Texts};
use cmc_objects::{Material, Rules};
use cmc_setup::Roles;
use cmc_time::read_rfc3339;
use serde_json::Value;
use std::alloc::Global;

// 1951-01-01T00:00:00Z and 9900-01-01T00:00:00Z
const FIRST_MOMENT: i64 = -599_616_000;

const LAST_MOMENT: i64 = 250_246_627_200;

/// 2030-01-01T00:00:00Z, in seconds since 1970-01-01T00:00:00Z.
pub const USUAL_MOMENT: i64 = 1_893_456_000;

/// The most entries of a history, and the most writes that a watch reaches back over.
pub const LARGEST_SIZE: u64 = 250_000;

/// The members up to the material.
#[derive(Drop)]
pub struct World {
    pub approver: Rules,
    pub events: u64,
    pub faults: Numbers,
    pub material: Material,
}

/// The moment and the roles.
#[derive(Drop)]
pub struct Beginning {
    pub moment: i64,
    pub roles: Roles,
}

fn rising(alloc: Global, last: u64, value: &Value) -> Result<u64, BadField>
    ensures { Gives (λ t. t) result (rising_at last (view value.now)) }
{
    let number = count(alloc, value)?;
    if last < number {
        return Ok(number);
    }
    Err(BadField::Path(Texts::new(alloc)))
}

fn numbered_fault(alloc: Global, place: usize, last: u64, value: &Value) -> Result<u64, BadField>
    ensures { Gives (λ t. t) result (under (decimal place) (rising_at last (view value.now))) }
{
    at_place(alloc, place, rising(alloc, last, value))
}

fn faults_of(alloc: Global, items: &[Value]) -> Result<Numbers, BadField>
    ensures { Gives (λ t. t) result (rising_from 0 0 (items_view items.now)) }
{
    let mut numbers = Numbers::new(alloc);
    let mut last = 0;
    for (place, item) in items.iter().enumerate() {
        match numbered_fault(alloc, place, last, item) {
            Ok(number) => {
                numbers.push(number)?;
                last = number;
            }
            Err(error) => return Err(error),
        }
    }
    Ok(numbers)
}

fn listed(alloc: Global, value: &Value) -> Result<Numbers, BadField>
    ensures { Gives (λ t. t) result (faults_at (view value.now)) }
{
    match value {
        Value::Array(items) => faults_of(alloc, items.as_slice()),
        _ => Err(BadField::Path(Texts::new(alloc))),
    }
}

/// The numbers of the store calls that fail, of the member `faults`; none where it is left out.
pub fn faults(alloc: Global, value: Option<&Value>) -> Result<Numbers, BadField>
    ensures { Gives (λ t. t) result (member_or [] (codes "faults") faults_at (shown_option value.entry)) }
{
    match value {
        None => Ok(Numbers::new(alloc)),
        Some(value) => at(alloc, "faults", listed(alloc, value)),
    }
}

fn within(alloc: Global, at: i64) -> Result<i64, BadField>
    ensures { Gives (λ t. t) result (in_run at) }
{
    if FIRST_MOMENT <= at && at <= LAST_MOMENT {
        return Ok(at);
    }
    Err(BadField::Path(Texts::new(alloc)))
}

fn second_of(alloc: Global, text: &str) -> Result<i64, BadField>
    ensures { Gives (λ t. t) result (found (rfc3339_seconds text.now)) }
{
    match read_rfc3339(text) {
        Ok(at) => Ok(at),
        Err(_) => Err(BadField::Path(Texts::new(alloc))),
    }
}

fn moment_of(alloc: Global, text: &str) -> Result<i64, BadField>
    ensures { Gives (λ t. t) result (moment_in text.now) }
{
    let at = second_of(alloc, text)?;
    within(alloc, at)
}

fn moment(alloc: Global, value: &Value) -> Result<i64, BadField>
    ensures { Gives (λ t. t) result (start_moment_at (view value.now)) }
{
    match value.as_str() {
        Some(text) => moment_of(alloc, text),
        None => Err(BadField::Path(Texts::new(alloc))),
    }
}

/// The moment of the member `now`; the usual one where it is left out.
pub fn now(alloc: Global, value: Option<&Value>) -> Result<i64, BadField>
    ensures { Gives (λ t. t) result (member_or usual_moment (codes "now") start_moment_at (shown_option value.entry)) }
{
    match value {
        None => Ok(USUAL_MOMENT),
        Some(value) => at(alloc, "now", moment(alloc, value)),
    }
}

/// The members up to the material, and the members after them.
#[tactic(auto, unfolding(crate::specs::Scenarios::world_in))]
pub fn world_members<'a, 'b>(
    alloc: Global,
    rest: Fields<'a, 'b>,
) -> Result<(World, Fields<'a, 'b>), BadField>
    ensures { Gives (λ p. (p.0, map shown p.1.now)) result (world_in (map shown rest.now)) }
{
    let (given, rest) = optional(alloc, rest, "approver")?;
    let approver = approver(alloc, given)?;
    let (given, rest) = optional(alloc, rest, "events")?;
    let events = bounded_or(alloc, "events", given, 100_000, 1, LARGEST_SIZE)?;
    let (given, rest) = optional(alloc, rest, "faults")?;
    let faults = faults(alloc, given)?;
    let (given, rest) = optional(alloc, rest, "material")?;
    let material = material(alloc, given)?;
    let world = World {
        approver,
        events,
        faults,
        material,
    };
    Ok((world, rest))
}

/// The moment and the roles, and the members after them.
#[tactic(auto, unfolding(crate::specs::Scenarios::beginning_in))]
pub fn beginning_members<'a, 'b>(
    alloc: Global,
    rest: Fields<'a, 'b>,
) -> Result<(Beginning, Fields<'a, 'b>), BadField>
    ensures { Gives (λ p. (p.0, map shown p.1.now)) result (beginning_in (map shown rest.now)) }
{
    let (given, rest) = optional(alloc, rest, "now")?;
    let moment = now(alloc, given)?;
    let (given, rest) = optional(alloc, rest, "roles")?;
    let roles = given_roles(alloc, given)?;
    Ok((Beginning { moment, roles }, rest))
}
