//! The first begin that is worth it.
ghost use Rattle.std.specs.Prelude.{◌≡◌, IfOk, true};
ghost use Rattle.cmc_model.specs.Histories.{runs};
ghost use Rattle.cmc_queue.specs.Queues.{FindsFirst};
ghost use Rattle.cmc_queue.specs.Rows.{is_free};
ghost use Rattle.cmc_waking.specs.Queues.{row_at};
ghost use Rattle.cmc_kernel.specs.Kept.{on};
ghost use Rattle.cmc_world.specs.Fed.{IsFed};
ghost use Rattle.cmc_world.specs.KeptLooks.{IsKeptRight};
ghost use Rattle.cmc_world.specs.Searches.{FindsBegin, FindsKey};

use crate::kept::Kept;
use crate::looks::look_at;
use crate::roles::role_in;
use cmc_kernel::Kernel;
use cmc_meta::Key;
use cmc_objects::Role;
use cmc_waking::Queues;
use std::alloc::{AllocError, Global};

/// A role that begins a pass on a key.
#[derive(Drop)]
pub(crate) struct Beginning {
    pub role: Role,
    pub key: Key,
}

/// The first key of the role's queue that can be given.
fn free_key(queues: &Queues, role: Role) -> Result<Option<Key>, AllocError>
    ensures { IfOk result (FindsFirst (λ k. is_free (row_at queues.now role k))) }
{
    match queues.queue(role).first() {
        Some(key) => Ok(Some(key.copy()?)),
        None => Ok(None),
    }
}

/// The first key that fits the role, which runs. Keys are looked at up to there.
fn first_fit(
    alloc: Global,
    kernel: &Kernel,
    queues: &mut Queues,
    kept: &mut Kept,
    role: Role,
) -> Result<Option<Key>, AllocError>
    requires fed { on IsFed kernel.now queues.old }
    requires kept { on IsKeptRight kernel.now kept.old }
    requires running { on runs kernel.now role ≡ true }
    ensures fed { on IsFed kernel.now queues.new }
    ensures kept { on IsKeptRight kernel.now kept.new }
    ensures finds { IfOk result (λ k. on FindsKey kernel.now role k) }
{
    kernel.is_run();
    while let Some(key) = free_key(queues, role)? {
        if !queues.queue(role).row(&key).work.is_unknown() {
            return Ok(Some(key));
        }
        look_at(alloc, kernel, queues, kept, role, &key)?;
    }
    Ok(None)
}

/// The first key that fits the role.
fn first_key(
    alloc: Global,
    kernel: &Kernel,
    queues: &mut Queues,
    kept: &mut Kept,
    role: Role,
) -> Result<Option<Key>, AllocError>
    requires fed { on IsFed kernel.now queues.old }
    requires kept { on IsKeptRight kernel.now kept.old }
    ensures fed { on IsFed kernel.now queues.new }
    ensures kept { on IsKeptRight kernel.now kept.new }
    ensures finds { IfOk result (λ k. on FindsKey kernel.now role k) }
{
    if !kernel.runs(role) {
        return Ok(None);
    }
    first_fit(alloc, kernel, queues, kept, role)
}

/// The first role that a key fits, with the first such key; `None` exactly where there is none.
pub(crate) fn first_begin(
    alloc: Global,
    kernel: &Kernel,
    queues: &mut Queues,
    kept: &mut Kept,
) -> Result<Option<Beginning>, AllocError>
    requires fed { on IsFed kernel.now queues.old }
    requires kept { on IsKeptRight kernel.now kept.old }
    ensures fed { on IsFed kernel.now queues.new }
    ensures kept { on IsKeptRight kernel.now kept.new }
    ensures finds { IfOk result (λ b. on FindsBegin kernel.now b) }
{
    for place in 0..8 {
        let role = role_in(place);
        if let Some(key) = first_key(alloc, kernel, queues, kept, role)? {
            return Ok(Some(Beginning { role, key }));
        }
    }
    Ok(None)
}
