//! A role is told, and its work queue with it.
ghost use Rattle.std.specs.Prelude.{◌≡◌, IfOk, OnErr};
ghost use Rattle.cmc_rules.specs.Runs.{IsRun};
ghost use Rattle.cmc_moves.specs.Answers.{Answers, Leaves};
ghost use Rattle.cmc_moves.specs.declared.moves.Move.TheVariants as moves;
ghost use Rattle.cmc_kernel.specs.Kept.{on};
ghost use Rattle.cmc_world.specs.Fed.{AreAffected, IsFed, IsReach, IsDeliveredTo};

use cmc_held::at_kind;
use cmc_kernel::{Kernel, Stepped};
use cmc_meta::{Key, Kind};
use cmc_objects::{Role, has_informer};
use cmc_waking::Queues;
use std::alloc::{AllocError, Global};

/// Up to where the delivery tells the role: that far, or all that was accepted where the watch no longer reaches back. `None`
/// where it is refused.
fn reach(kernel: &Kernel, role: Role, kind: Kind, to: u64) -> Option<u64>
    ensures { on IsReach kernel.now role kind to result }
{
    if !has_informer(role, kind) {
        return None;
    }
    let from = at_kind(kernel.told(role), kind);
    let accepted = kernel.log().accepted();
    if to <= from || accepted < to {
        return None;
    }
    if accepted - from <= kernel.scenario().window() {
        Some(to)
    } else {
        Some(accepted)
    }
}

/// The keys of which the role may see something new once it is told up to `upto`.
fn affected(
    alloc: Global,
    kernel: &Kernel,
    role: Role,
    kind: Kind,
    to: u64,
    upto: u64,
) -> Result<Vec<Key>, AllocError>
    requires { on IsDeliveredTo kernel.now role kind to upto }
    ensures { IfOk result (λ keys. on AreAffected kernel.now role kind to keys.items) }
{
    kernel.is_run();
    kernel.caches().affected(alloc, role, kind, upto)
}

/// Makes the delivery. Each key of which the role may see something new then is ready.
pub(crate) fn deliver(
    alloc: Global,
    kernel: &mut Kernel,
    queues: &mut Queues,
    role: Role,
    kind: Kind,
    to: u64,
) -> Result<Stepped, AllocError>
    requires { on IsFed kernel.old queues.old }
    ensures answer { IfOk result (λ r. on Answers kernel.old (moves.Deliver role kind to) r) }
    ensures leaves { IfOk result (λ r. on Leaves kernel.old (moves.Deliver role kind to) r kernel.new.history) }
    ensures scenario { kernel.new.scenario ≡ kernel.old.scenario }
    ensures run { on IsRun kernel.new }
    ensures err { OnErr result (kernel.new ≡ kernel.old) }
    ensures fed { on IsFed kernel.new queues.new }
{
    kernel.is_run();
    let Some(upto) = reach(kernel, role, kind, to) else {
        return kernel.step_deliver(alloc, role, kind, to);
    };
    let keys = affected(alloc, kernel, role, kind, to, upto)?;
    queues.wake(role, &keys)?;
    let answer = kernel.step_deliver(alloc, role, kind, to)?;
    if !answer.is_done() {
        return Ok(answer);
    }
    queues.told(role, kind, upto, &[]);
    Ok(answer)
}
