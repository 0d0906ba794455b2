//! The move that a run by one hand makes next.
ghost use Rattle.std.specs.Prelude.{◌≡◌, IfOk, Some, None, if◌then◌else◌};
ghost use Rattle.cmc_kernel.specs.Kept.{on};
ghost use Rattle.cmc_world.specs.declared.plain_move.PlainMove.TheVariants.{Script};
ghost use Rattle.cmc_kernel.specs.Plain.{HasNoDelivery, HasNoPass};
ghost use Rattle.cmc_world.specs.PlainMoves.{IsNextPlain};
ghost use Rattle.cmc_world.specs.Fed.{IsFed};
ghost use Rattle.cmc_world.specs.KeptLooks.{IsKeptRight};
ghost use Rattle.cmc_world.specs.Searches.{IsLeft};

use crate::begins::{Beginning, first_begin};
use crate::deliveries::next_delivery;
use crate::kept::Kept;
use crate::passes::first_pass;
use crate::plain_move::PlainMove;
use crate::rest::rests_in_each;
use crate::scripts::{Awaits, awaited};
use cmc_kernel::Kernel;
use cmc_waking::Queues;
use std::alloc::{AllocError, Global};

/// What is done once all is at rest: the step of the script that waits for it, if one is left.
fn at_rest(left: bool) -> Option<PlainMove>
    ensures { result ≡ (if left then Some Script else None) }
{
    if left { Some(PlainMove::Script) } else { None }
}

/// The next move where no pass is open, no role is behind and a step that is left waits for rest.
fn first_to_begin(
    alloc: Global,
    kernel: &Kernel,
    left: bool,
    queues: &mut Queues,
    kept: &mut Kept,
) -> Result<Option<PlainMove>, AllocError>
    requires left { on IsLeft kernel.now left }
    requires closed { on HasNoPass kernel.now }
    requires told { on HasNoDelivery kernel.now }
    requires fed { on IsFed kernel.now queues.old }
    requires kept { on IsKeptRight kernel.now kept.old }
    ensures plain { IfOk result (λ m. on IsNextPlain kernel.now m) }
    ensures fed { on IsFed kernel.now queues.new }
    ensures kept { on IsKeptRight kernel.now kept.new }
{
    kernel.is_run();
    kernel.is_settled();
    if rests_in_each(alloc, kernel, queues, kept)? {
        return Ok(at_rest(left));
    }
    match first_begin(alloc, kernel, queues, kept)? {
        Some(Beginning { role, key }) => Ok(Some(PlainMove::Begin(Beginning { role, key }))),
        None => unreachable!(),
    }
}

/// The next move where a step that is left waits for rest.
fn first_of_roles(
    alloc: Global,
    kernel: &Kernel,
    left: bool,
    queues: &mut Queues,
    kept: &mut Kept,
) -> Result<Option<PlainMove>, AllocError>
    requires left { on IsLeft kernel.now left }
    requires fed { on IsFed kernel.now queues.old }
    requires kept { on IsKeptRight kernel.now kept.old }
    ensures plain { IfOk result (λ m. on IsNextPlain kernel.now m) }
    ensures fed { on IsFed kernel.now queues.new }
    ensures kept { on IsKeptRight kernel.now kept.new }
{
    if let Some(going) = first_pass(kernel) {
        return Ok(Some(PlainMove::Next(going)));
    }
    if let Some(delivery) = next_delivery(kernel, kept) {
        return Ok(Some(PlainMove::Deliver {
            role: delivery.role,
            kind: delivery.kind,
            to: kernel.log().last_of_kind(delivery.kind),
        }));
    }
    first_to_begin(alloc, kernel, left, queues, kept)
}

/// The move that a run by one hand makes next, as `plain` has it, by the work queues. Each search is
/// made once: what the step of the script waits for tells where rest is asked at all, and it is asked only where nothing else
/// is found that says that it is not so.
pub(crate) fn plain_by(
    alloc: Global,
    kernel: &Kernel,
    queues: &mut Queues,
    kept: &mut Kept,
) -> Result<Option<PlainMove>, AllocError>
    requires fed { on IsFed kernel.now queues.old }
    requires kept { on IsKeptRight kernel.now kept.old }
    ensures plain { IfOk result (λ m. on IsNextPlain kernel.now m) }
    ensures fed { on IsFed kernel.now queues.new }
    ensures kept { on IsKeptRight kernel.now kept.new }
{
    match awaited(kernel) {
        Awaits::Nothing => Ok(Some(PlainMove::Script)),
        Awaits::Rest => first_of_roles(alloc, kernel, true, queues, kept),
        Awaits::Never => first_of_roles(alloc, kernel, false, queues, kept),
    }
}
