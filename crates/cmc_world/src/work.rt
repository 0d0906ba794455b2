//! The next pass that has something to do.
//!
//! A pass that sees something new and has nothing to do is no work: it changes nothing, and whether a run is at rest does
//! not hang on it. The plain order begins such passes too; many hands that look for work alone leave them out.
ghost use Rattle.std.specs.Option.{option_copied};
ghost use Rattle.std.specs.Prelude.{IfOk};
ghost use Rattle.cmc_kernel.specs.Kept.{on};
ghost use Rattle.cmc_world.specs.Fed.{IsFed};
ghost use Rattle.cmc_world.specs.KeptLooks.{IsKeptRight};
ghost use Rattle.cmc_world.specs.Searches.{FindsWork, HasWork, IsWork};

use crate::fed_begins::dated_views;
use crate::kept::Kept;
use crate::looks::opening;
use crate::openings::Opening;
use crate::pending::{Pending, next_pending};
use cmc_kernel::{Kernel, Prospect};
use cmc_meta::Key;
use cmc_objects::Role;
use cmc_waking::Queues;
use std::alloc::{AllocError, Global};

/// The pass of the role on the key, on which there is something to do.
fn opening_on(alloc: Global, kernel: &Kernel, role: Role, key: &Key) -> Result<Opening, AllocError>
    requires { on HasWork kernel.now role key.now }
    ensures { IfOk result (on IsWork kernel.now role key.now) }
{
    let seen = dated_views(alloc, kernel, role, key)?;
    match kernel.prospect(alloc, role, key, &seen)? {
        Prospect::Nothing => unreachable!(),
        Prospect::Does(does) => opening(role, key, seen, Some(does)),
        Prospect::Something => opening(role, key, seen, None),
    }
}

/// A pass on the first key on which one of the role may begin and has something to do, above this key if there is one; `None`
/// exactly where there is none. Keys are looked at up to there.
pub(crate) fn next_work(
    alloc: Global,
    kernel: &Kernel,
    queues: &mut Queues,
    kept: &mut Kept,
    role: Role,
    below: Option<&Key>,
) -> Result<Option<Opening>, AllocError>
    requires fed { on IsFed kernel.now queues.old }
    requires kept { on IsKeptRight kernel.now kept.old }
    ensures fed { on IsFed kernel.now queues.new }
    ensures kept { on IsKeptRight kernel.now kept.new }
    ensures work { IfOk result (λ o. on FindsWork kernel.now role (option_copied below.entry) o) }
{
    if !kernel.runs(role) {
        return Ok(None);
    }
    match next_pending(alloc, kernel, queues, kept, role, below)? {
        Pending::None => Ok(None),
        Pending::Key(key) => match kept.take_pass(role, &key) {
            Some(opening) => Ok(Some(opening)),
            None => Ok(Some(opening_on(alloc, kernel, role, &key)?)),
        },
        Pending::Pass(opening) => Ok(Some(opening)),
    }
}
