// Steps on the time, on roles and on informers, and those that wait.
ghost use Rattle.std.specs.Prelude.{map};
ghost use Rattle.serde_json.specs.View.{view};
ghost use Rattle.cmc_cursor.specs.Members.{Gives};
ghost use Rattle.cmc_cursor.specs.Seen.{shown};
ghost use Rattle.cmc_scenario.specs.Scripts.{hold_in, informer_in, release_in, settle_in, start_in, stop_in, tick_in, until_in};

use crate::roles::{kind, role};
use cmc_cursor::{BadField, Fields, at, check_end, count, required};
use cmc_material::bounded;
use cmc_meta::Kind;
use cmc_objects::{Role, Step};
use std::alloc::Global;

const LONGEST_TICK: u64 = 1_000_000_000;

/// `tick`: lets 1 to 1,000,000,000 seconds pass.
#[tactic(auto, unfolding(crate::specs::Scripts::tick_in))]
pub fn tick(alloc: Global, rest: Fields<'_, '_>) -> Result<Step, BadField>
    ensures { Gives (λ t. t) result (tick_in (map shown rest.now)) }
{
    let (_, rest) = required(alloc, rest, "do")?;
    let (given, rest) = required(alloc, rest, "seconds")?;
    let seconds = at(alloc, "seconds", bounded(alloc, given, 1, LONGEST_TICK))?;
    check_end(alloc, rest)?;
    Ok(Step::Tick { seconds })
}

/// `stop`: stops a role.
#[tactic(auto, unfolding(crate::specs::Scripts::stop_in))]
pub fn stop(alloc: Global, rest: Fields<'_, '_>) -> Result<Step, BadField>
    ensures { Gives (λ t. t) result (stop_in (map shown rest.now)) }
{
    let (_, rest) = required(alloc, rest, "do")?;
    let (given, rest) = required(alloc, rest, "role")?;
    let role = at(alloc, "role", role(alloc, given))?;
    check_end(alloc, rest)?;
    Ok(Step::Stop { role })
}

/// `start`: starts a role, so many accepted writes behind.
#[tactic(auto, unfolding(crate::specs::Scripts::start_in))]
pub fn start(alloc: Global, rest: Fields<'_, '_>) -> Result<Step, BadField>
    ensures { Gives (λ t. t) result (start_in (map shown rest.now)) }
{
    let (given, rest) = required(alloc, rest, "behind")?;
    let behind = at(alloc, "behind", count(alloc, given))?;
    let (_, rest) = required(alloc, rest, "do")?;
    let (given, rest) = required(alloc, rest, "role")?;
    let role = at(alloc, "role", role(alloc, given))?;
    check_end(alloc, rest)?;
    Ok(Step::Start { role, behind })
}

#[tactic(auto, unfolding(crate::specs::Scripts::informer_in))]
fn informer<'a, 'b>(
    alloc: Global,
    rest: Fields<'a, 'b>,
) -> Result<((Role, Kind), Fields<'a, 'b>), BadField>
    ensures { Gives (λ p. (p.0, map shown p.1.now)) result (informer_in (map shown rest.now)) }
{
    let (_, rest) = required(alloc, rest, "do")?;
    let (given, rest) = required(alloc, rest, "kind")?;
    let kind = at(alloc, "kind", kind(alloc, given))?;
    let (given, rest) = required(alloc, rest, "role")?;
    let role = at(alloc, "role", role(alloc, given))?;
    Ok(((role, kind), rest))
}

/// `hold`: keeps a role from being told of a kind.
#[tactic(auto, unfolding(crate::specs::Scripts::hold_in))]
pub fn hold(alloc: Global, rest: Fields<'_, '_>) -> Result<Step, BadField>
    ensures { Gives (λ t. t) result (hold_in (map shown rest.now)) }
{
    let ((role, kind), rest) = informer(alloc, rest)?;
    check_end(alloc, rest)?;
    Ok(Step::Hold { role, kind })
}

/// `release`: lets a role be told of a kind again.
#[tactic(auto, unfolding(crate::specs::Scripts::release_in))]
pub fn release(alloc: Global, rest: Fields<'_, '_>) -> Result<Step, BadField>
    ensures { Gives (λ t. t) result (release_in (map shown rest.now)) }
{
    let ((role, kind), rest) = informer(alloc, rest)?;
    check_end(alloc, rest)?;
    Ok(Step::Release { role, kind })
}

/// `until`: waits for so many accepted writes of a role and a kind, or for rest.
#[tactic(auto, unfolding(crate::specs::Scripts::until_in))]
pub fn until(alloc: Global, rest: Fields<'_, '_>) -> Result<Step, BadField>
    ensures { Gives (λ t. t) result (until_in (map shown rest.now)) }
{
    let ((role, kind), rest) = informer(alloc, rest)?;
    let (given, rest) = required(alloc, rest, "writes")?;
    let writes = at(alloc, "writes", count(alloc, given))?;
    check_end(alloc, rest)?;
    Ok(Step::Until { role, kind, writes })
}

/// `settle`: waits until all is at rest.
#[tactic(auto, unfolding(crate::specs::Scripts::settle_in))]
pub fn settle(alloc: Global, rest: Fields<'_, '_>) -> Result<Step, BadField>
    ensures { Gives (λ t. t) result (settle_in (map shown rest.now)) }
{
    let (_, rest) = required(alloc, rest, "do")?;
    check_end(alloc, rest)?;
    Ok(Step::Settle)
}
