//! Looks at keys: whether a pass may begin there, and whether its role has something to do.
//!
//! A look makes what the role sees of the key, and its act, once. What it found is kept in the key's row until something
//! changes.
ghost use Rattle.std.specs.Prelude.{◌≡◌, ◌+◌, IfOk, OnOk, None, true};
ghost use Rattle.cmc_model.specs.Histories.{moment, runs};
ghost use Rattle.cmc_queue.specs.Queues.{fresh_count};
ghost use Rattle.cmc_queue.specs.Rows.{is_fresh};
ghost use Rattle.cmc_rules.specs.Memory.{past};
ghost use Rattle.cmc_rules.specs.Positions.{positions};
ghost use Rattle.cmc_rules.specs.Rest.{IsIdle};
ghost use Rattle.cmc_rules.specs.Sameness.{IsDue, own_above};
ghost use Rattle.cmc_rules.specs.Views.{views};
ghost use Rattle.cmc_waking.specs.Queues.{queue_in, row_at};
ghost use Rattle.cmc_kernel.specs.Kept.{on};
ghost use Rattle.cmc_world.specs.DueMoments.{HasDatedMoments};
ghost use Rattle.cmc_world.specs.Fed.{IsFed};
ghost use Rattle.cmc_world.specs.KeptLooks.{IsKeptRight};
ghost use Rattle.cmc_world.specs.Looks.{IsLook};
ghost use Rattle.cmc_world.specs.Searches.{IsFree, IsWorkOn};

use crate::fed_begins::{dated_views, next_due, place_at};
use crate::fed_passes::own_of;
use crate::kept::Kept;
use crate::openings::Opening;
use cmc_kernel::{Kernel, Prospect};
use cmc_meta::Key;
use cmc_moves::let_go;
use cmc_objects::{Role, Shared};
use cmc_pass::{Act, Views};
use cmc_queue::Parked;
use cmc_rules::Ending;
use cmc_waking::{Queues, parked_after, parked_until};
use std::alloc::{AllocError, Global};

/// What a look at a key found.
#[derive(Drop)]
pub(crate) enum Look {
    /// This pass may begin, and has something to do.
    Busy(Opening),
    /// This pass may begin, has nothing to do and sees something new; and the next due moment of what it sees.
    Idle(Opening, Option<i64>),
    /// There is nothing to do, and nothing new to see; and the next due moment of what is seen.
    Quiet(Option<i64>),
    /// No pass may begin before the role is told of this version.
    Held(Parked),
}

/// A pass of the role on the key, which sees this.
pub(crate) fn opening(
    role: Role,
    key: &Key,
    seen: Shared<Views>,
    does: Option<Act>,
) -> Result<Opening, AllocError>
    ensures { IfOk result (λ o. o ≡ record { role = role; key = key.now; seen = seen; does = does }) }
{
    match key.copy() {
        Ok(key) => Ok(Opening {
            role,
            key,
            seen,
            does,
        }),
        Err(lack) => {
            let_go(does);
            Err(lack)
        }
    }
}

/// What is found where no pass is due, though the role was told of its own writes.
fn undue(
    alloc: Global,
    kernel: &Kernel,
    role: Role,
    key: &Key,
    seen: &Shared<Views>,
) -> Result<Look, AllocError>
    requires sees { seen.now ≡ on views kernel.now role key.now }
    requires dated { HasDatedMoments seen.now }
    requires told { own_above (on past kernel.now role key.now).own (positions kernel.now.history role) ≡ None }
    requires undue { IsDue (on past kernel.now role key.now) seen.now (on moment kernel.now) (positions kernel.now.history role) → ⊥ }
    ensures { IfOk result (λ look. on IsLook kernel.now role key.now look) }
{
    kernel.is_run();
    if let Some(parked) = parked_until(kernel.past(role, key), seen, kernel.told(role)) {
        return Ok(Look::Held(parked));
    }
    if !kernel.is_quiet(alloc, role, key, seen)? {
        unreachable!()
    }
    Ok(Look::Quiet(next_due(kernel, role, seen)))
}

/// What is found where a pass is due and has nothing to do.
fn nothing_to_do(
    alloc: Global,
    kernel: &Kernel,
    role: Role,
    key: &Key,
    seen: Shared<Views>,
) -> Result<Look, AllocError>
    requires sees { seen ≡ on views kernel.now role key.now }
    requires dated { HasDatedMoments seen }
    requires due { IsDue (on past kernel.now role key.now) seen (on moment kernel.now) (positions kernel.now.history role) }
    requires idle { on IsIdle kernel.now role (on views kernel.now role key.now) }
    ensures { IfOk result (λ look. on IsLook kernel.now role key.now look) }
{
    let next = next_due(kernel, role, &seen);
    if kernel.saw_last(alloc, role, key, &seen) {
        return Ok(Look::Quiet(next));
    }
    Ok(Look::Idle(opening(role, key, seen, Some(Act::Nothing))?, next))
}

/// What is found where a pass is due.
fn due(
    alloc: Global,
    kernel: &Kernel,
    role: Role,
    key: &Key,
    seen: Shared<Views>,
) -> Result<Look, AllocError>
    requires running { on runs kernel.now role ≡ true }
    requires free { on IsFree kernel.now role key.now }
    requires sees { seen ≡ on views kernel.now role key.now }
    requires dated { HasDatedMoments seen }
    requires due { IsDue (on past kernel.now role key.now) seen (on moment kernel.now) (positions kernel.now.history role) }
    ensures { IfOk result (λ look. on IsLook kernel.now role key.now look) }
{
    kernel.is_run();
    match kernel.prospect(alloc, role, key, &seen)? {
        Prospect::Nothing => nothing_to_do(alloc, kernel, role, key, seen),
        Prospect::Does(does) => Ok(Look::Busy(opening(role, key, seen, Some(does))?)),
        Prospect::Something => Ok(Look::Busy(opening(role, key, seen, None)?)),
    }
}

/// Looks at the key, on which the role, which runs, works in no pass.
fn see(alloc: Global, kernel: &Kernel, role: Role, key: &Key) -> Result<Look, AllocError>
    requires running { on runs kernel.now role ≡ true }
    requires free { on IsFree kernel.now role key.now }
    ensures { IfOk result (λ look. on IsLook kernel.now role key.now look) }
{
    let own = own_of(kernel.past(role, key));
    if let Some(parked) = parked_after(Ending::Wrote, own, kernel.told(role)) {
        return Ok(Look::Held(parked));
    }
    let seen = dated_views(alloc, kernel, role, key)?;
    if !kernel.is_due(role, key, &seen) {
        return undue(alloc, kernel, role, key, &seen);
    }
    due(alloc, kernel, role, key, seen)
}

/// Keeps in the key's row what the look found, and beside the rows the pass that may begin and has nothing to do; the pass that
/// may begin and has something to do, if it found one.
fn note(
    kernel: &Kernel,
    queues: &mut Queues,
    kept: &mut Kept,
    role: Role,
    key: &Key,
    look: Look,
) -> Result<Option<Opening>, AllocError>
    requires fed { on IsFed kernel.now queues.old }
    requires kept { on IsKeptRight kernel.now kept.old }
    requires fresh { is_fresh (row_at queues.old role key.now) ≡ true }
    requires found { on IsLook kernel.now role key.now look }
    ensures fed { on IsFed kernel.now queues.new }
    ensures kept { on IsKeptRight kernel.now kept.new }
    ensures work { IfOk result (λ o. on IsWorkOn kernel.now role key.now o) }
    ensures fewer { OnOk result (fresh_count (queue_in queues.old role).rows ≡ fresh_count (queue_in queues.new role).rows + 1) }
{
    match look {
        Look::Busy(opening) => {
            queues.found_busy(role, key);
            Ok(Some(opening))
        }
        Look::Idle(opening, next) => {
            place_at(queues, role, key, next)?;
            queues.found_idle(role, key, next);
            kept.note(opening);
            Ok(None)
        }
        Look::Quiet(next) => {
            place_at(queues, role, key, next)?;
            queues.found_quiet(role, key, next);
            Ok(None)
        }
        Look::Held(parked) => {
            queues.place_for(role, key, parked)?;
            queues.found_held(role, key, parked);
            Ok(None)
        }
    }
}

/// Looks at the key, which is to be looked at, and keeps what it found; a pass on it, where one may begin and the role, which
/// runs, has something to do there.
pub(crate) fn look_at(
    alloc: Global,
    kernel: &Kernel,
    queues: &mut Queues,
    kept: &mut Kept,
    role: Role,
    key: &Key,
) -> Result<Option<Opening>, AllocError>
    requires fed { on IsFed kernel.now queues.old }
    requires kept { on IsKeptRight kernel.now kept.old }
    requires running { on runs kernel.now role ≡ true }
    requires fresh { is_fresh (row_at queues.old role key.now) ≡ true }
    ensures fed { on IsFed kernel.now queues.new }
    ensures kept { on IsKeptRight kernel.now kept.new }
    ensures work { IfOk result (λ o. on IsWorkOn kernel.now role key.now o) }
    ensures fewer { OnOk result (fresh_count (queue_in queues.old role).rows ≡ fresh_count (queue_in queues.new role).rows + 1) }
{
    let found = see(alloc, kernel, role, key)?;
    note(kernel, queues, kept, role, key, found)
}
