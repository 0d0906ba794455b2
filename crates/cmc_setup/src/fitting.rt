// Whether parts make a scenario.
ghost use Rattle.std.specs.Prelude.{◌≡◌, ◌↔◌, ℕ, pos, ◌+ℤ◌, ◌≤◌, ◌≤ℤ◌, IsTrue, List, All, length};
ghost use Rattle.cmc_setup.specs.Setups.{IsSetup, IsTickForm, RiseFrom, first_moment, last_moment, step_seconds, seconds_ticked};

use crate::forms::{are_steps, is_approver, is_material};
use crate::holding::are_held_in_turn;
use crate::roles::Roles;
use crate::running::are_orderly;
use crate::steps::Steps;
use cmc_meta::Numbers;
use cmc_objects::{Material, Rules, Step};

// 1951-01-01T00:00:00Z
const FIRST_MOMENT: i64 = -599_616_000;

/// 9900-01-01T00:00:00Z, in seconds since 1970-01-01T00:00:00Z.
pub const LAST_MOMENT: i64 = 250_246_627_200;

// The most entries of a history, and the most accepted writes that a watch reaches back over.
const LARGEST_SIZE: u64 = 250_000;

const MOST_STEPS: usize = 10_000;

const LONGEST_TICK: u64 = 1_000_000_000;

fn is_size(size: u64) -> bool
    ensures { IsTrue result ↔ ((1 ≤ size) × (size ≤ 250000)) }
{
    1 <= size && size <= LARGEST_SIZE
}

fn is_beginning(now: i64) -> bool
    ensures { IsTrue result ↔ (first_moment ≤ℤ now) }
{
    FIRST_MOMENT <= now
}

fn rise(numbers: &[u64]) -> bool
    ensures { IsTrue result ↔ RiseFrom 0 numbers.now }
{
    let mut last = 0;
    for number in numbers {
        if *number <= last {
            return false;
        }
        last = *number;
    }
    true
}

fn is_tick_form(step: &Step) -> bool
    ensures { IsTrue result ↔ IsTickForm step.now }
{
    match step {
        Step::Tick { seconds } => 1 <= *seconds && *seconds <= LONGEST_TICK,
        Step::Apply { .. }
        | Step::Delete { .. }
        | Step::Approve { .. }
        | Step::Deny { .. }
        | Step::Answer { .. }
        | Step::Renew { .. }
        | Step::Stop { .. }
        | Step::Start { .. }
        | Step::Hold { .. }
        | Step::Release { .. }
        | Step::Until { .. }
        | Step::Settle => true,
    }
}

fn have_tick_form(steps: &[Step]) -> bool
    ensures { IsTrue result ↔ All IsTickForm steps.now }
{
    for step in steps {
        if !is_tick_form(step) {
            return false;
        }
    }
    true
}

/// How many seconds the step lets pass.
pub fn seconds_in(step: &Step) -> u64
    ensures { result ≡ step_seconds step.now }
{
    match step {
        Step::Tick { seconds } => *seconds,
        Step::Apply { .. }
        | Step::Delete { .. }
        | Step::Approve { .. }
        | Step::Deny { .. }
        | Step::Answer { .. }
        | Step::Renew { .. }
        | Step::Stop { .. }
        | Step::Start { .. }
        | Step::Hold { .. }
        | Step::Release { .. }
        | Step::Until { .. }
        | Step::Settle => 0,
    }
}

fn seconds_in_all(steps: &[Step]) -> u64
    requires short { length steps.now ≤ 10000 }
    requires ticks { All IsTickForm steps.now }
    ensures value { result ≡ seconds_ticked steps.now }
    ensures most { result ≤ 10000000000000 }
{
    let mut sum = 0;
    for step in steps {
        sum += seconds_in(step);
    }
    sum
}

fn end_in_time(now: i64, steps: &[Step]) -> bool
    requires begins { first_moment ≤ℤ now }
    requires short { length steps.now ≤ 10000 }
    requires ticks { All IsTickForm steps.now }
    ensures { IsTrue result ↔ ((now +ℤ pos (seconds_ticked steps.now)) ≤ℤ last_moment) }
{
    now <= LAST_MOMENT && seconds_in_all(steps) as i64 <= LAST_MOMENT - now
}

fn fit(now: i64, steps: &[Step]) -> bool
    ensures { IsTrue result ↔ ((first_moment ≤ℤ now) × (length steps.now ≤ 10000) × All IsTickForm steps.now × ((now +ℤ pos (seconds_ticked steps.now)) ≤ℤ last_moment)) }
{
    is_beginning(now)
        && steps.len() <= MOST_STEPS
        && have_tick_form(steps)
        && end_in_time(now, steps)
}

/// Whether these parts make a scenario: `events` and `window` are 1 to 250,000, the beginning `now`
/// is not before 1951-01-01T00:00:00Z, all ticks end by 9900-01-01T00:00:00Z, `faults` ascend from 1,
/// and `script` has at most 10,000 steps, whose ticks have 1 to 1,000,000,000 seconds each, and which
/// stop a role only where it runs and start it only where it does not, `roles` running at first, and
/// hold an informer only where the role has it and it is not held, and release it only where it is.
///
/// The approver has at most 100 policies, whose lists have at most 100 patterns of 1 to 253 bytes each
/// (of addresses: four or sixteen octets, or `*`) and whose durations are at most 999,999,999 hours.
/// The material has rows of Certificates, none of them a `KeyRow::Default`, with lifetimes of 1 to
/// 3,153,600,000 seconds that begin at most 86,400 seconds early; so has each step that answers, which
/// has no free row. Steps that approve, deny, answer or renew name a Certificate. `Roles` are always in
/// their order.
///
/// An object that is applied names its issuer by texts of at most 253 bytes, and each of its durations is
/// at most 999,999,999 hours. A Certificate's common name has no control character, its DNS names, URIs
/// and emails have 1 to 253 printable characters of ASCII, and its IP addresses are texts of addresses.
pub fn is_setup(
    events: u64,
    window: u64,
    now: i64,
    roles: &Roles,
    faults: &Numbers,
    approver: &Rules,
    material: &Material,
    script: &Steps,
) -> bool
    ensures { IsTrue result ↔ IsSetup (record { events = events; window = window; moment = now; roles = roles.now; faults = faults.now; approver = approver.now; material = material.now; script = script.now }) }
{
    is_size(events)
        && is_size(window)
        && rise(faults.as_slice())
        && fit(now, script.as_slice())
        && are_orderly(roles.as_slice(), script.as_slice())
        && are_held_in_turn(script.as_slice())
        && is_approver(approver)
        && is_material(material)
        && are_steps(script.as_slice())
}
