//! The next key on which a role has something to do.
ghost use Rattle.std.specs.Option.{option_copied};
ghost use Rattle.std.specs.Prelude.{◌≡◌, ◌&&◌, IfOk, IfSome, option_map, true};
ghost use Rattle.cmc_model.specs.Histories.{runs};
ghost use Rattle.cmc_queue.specs.Queues.{is_above, FindsFirst};
ghost use Rattle.cmc_queue.specs.Rows.{is_pending, is_unknown};
ghost use Rattle.cmc_waking.specs.Queues.{row_at};
ghost use Rattle.cmc_kernel.specs.Kept.{on};
ghost use Rattle.cmc_world.specs.Fed.{IsFed};
ghost use Rattle.cmc_world.specs.KeptLooks.{IsKeptRight};
ghost use Rattle.cmc_world.specs.Searches.{above_looked, FindsPending};

use crate::kept::Kept;
use crate::looks::look_at;
use crate::openings::Opening;
use cmc_kernel::Kernel;
use cmc_meta::Key;
use cmc_objects::Role;
use cmc_waking::Queues;
use std::alloc::{AllocError, Global};

/// The first key on which a role has something to do.
#[derive(Drop)]
pub(crate) enum Pending {
    /// There is none.
    None,
    /// This key; a look found it before.
    Key(Key),
    /// The key of this pass, which a look has just found.
    Pass(Opening),
}

/// A key, and whether it is to be looked at.
#[derive(Drop)]
struct Candidate {
    key: Key,
    unknown: bool,
}

/// The first key above this one, if there is one, that can be given and on which there may be something to do.
fn next_candidate(
    queues: &Queues,
    role: Role,
    below: Option<&Key>,
) -> Result<Option<Candidate>, AllocError>
    ensures finds { IfOk result (λ c. FindsFirst (λ k. is_above (option_copied below.entry) k && is_pending (row_at queues.now role k)) (option_map (λ c. c.key) c)) }
    ensures unknown { IfOk result (λ c. IfSome c (λ c. c.unknown ≡ is_unknown (row_at queues.now role c.key).work)) }
{
    match queues.queue(role).next_pending_row(below) {
        Some((key, row)) => Ok(Some(Candidate {
            key: key.copy()?,
            unknown: row.work.is_unknown(),
        })),
        None => Ok(None),
    }
}

/// The first key that can be given and on which there may be something to do.
pub(crate) fn first_pending(queues: &Queues, role: Role) -> Option<&Key>
    ensures { FindsFirst (λ k. is_pending (row_at queues.now role k)) (option_copied result) }
{
    queues.queue(role).next_pending(None)
}

/// Where a search above the one key goes on that has looked at the other.
fn reached<'a>(below: Option<&'a Key>, looked: &'a Option<Key>) -> Option<&'a Key>
    ensures { option_copied result ≡ above_looked (option_copied below.entry) looked.now }
{
    match looked {
        Some(key) => Some(key),
        None => below,
    }
}

/// The first key above this one, if there is one, on which the role, which runs, may begin a pass and has something to do.
/// Keys are looked at up to there.
pub(crate) fn next_pending(
    alloc: Global,
    kernel: &Kernel,
    queues: &mut Queues,
    kept: &mut Kept,
    role: Role,
    below: Option<&Key>,
) -> Result<Pending, AllocError>
    requires fed { on IsFed kernel.now queues.old }
    requires kept { on IsKeptRight kernel.now kept.old }
    requires running { on runs kernel.now role ≡ true }
    ensures fed { on IsFed kernel.now queues.new }
    ensures kept { on IsKeptRight kernel.now kept.new }
    ensures finds { IfOk result (λ p. on FindsPending kernel.now role (option_copied below.entry) p) }
{
    kernel.is_run();
    let mut looked = None;
    while let Some(candidate) = next_candidate(queues, role, reached(below, &looked))? {
        if !candidate.unknown {
            return Ok(Pending::Key(candidate.key));
        }
        if let Some(opening) = look_at(alloc, kernel, queues, kept, role, &candidate.key)? {
            return Ok(Pending::Pass(opening));
        }
        // (the first of all pending keys is known, and the first above a key is searched for)
        if below.is_some() {
            looked = Some(candidate.key);
        }
    }
    Ok(Pending::None)
}
