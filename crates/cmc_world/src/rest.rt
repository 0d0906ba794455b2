//! Whether all is at rest, by the work queues.
ghost use Rattle.std.specs.Prelude.{◌↔◌, IsTrue, IfOk, true};
ghost use Rattle.cmc_objects.specs.declared.role.Role.{Role as RoleValue};
ghost use Rattle.cmc_rules.specs.Rest.{IsAtRest};
ghost use Rattle.cmc_rules.specs.Runs.{IsFinished};
ghost use Rattle.cmc_kernel.specs.Kept.{on};
ghost use Rattle.cmc_world.specs.Fed.{IsFed};
ghost use Rattle.cmc_world.specs.KeptLooks.{IsKeptRight};
ghost use Rattle.cmc_kernel.specs.Plain.{HasNoDelivery, HasNoPass, IsStepReady};
ghost use Rattle.cmc_world.specs.Searches.{RestsWhereRunning};

use crate::deliveries::next_delivery;
use crate::kept::Kept;
use crate::passes::first_pass;
use crate::pending::{Pending, first_pending, next_pending};
use crate::roles::role_in;
use crate::scripts::{Awaits, awaited};
use cmc_kernel::Kernel;
use cmc_objects::Role;
use cmc_waking::Queues;
use std::alloc::{AllocError, Global};

/// Whether the role has nothing to do on any key, if it runs. No pass is open, and no role is behind.
fn rests_in(
    alloc: Global,
    kernel: &Kernel,
    queues: &mut Queues,
    kept: &mut Kept,
    role: Role,
) -> Result<bool, AllocError>
    requires fed { on IsFed kernel.now queues.old }
    requires kept { on IsKeptRight kernel.now kept.old }
    requires closed { on HasNoPass kernel.now }
    requires told { on HasNoDelivery kernel.now }
    ensures fed { on IsFed kernel.now queues.new }
    ensures kept { on IsKeptRight kernel.now kept.new }
    ensures test { IfOk result (λ b. IsTrue b ↔ on RestsWhereRunning kernel.now role) }
{
    if !kernel.runs(role) {
        return Ok(true);
    }
    kernel.is_run();
    if first_pending(queues, role).is_none() {
        return Ok(true);
    }
    match next_pending(alloc, kernel, queues, kept, role, None)? {
        Pending::None => Ok(true),
        Pending::Key(_key) => Ok(false),
        Pending::Pass(opening) => {
            kept.note(opening);
            Ok(false)
        }
    }
}

/// Whether each role has nothing to do on any key, if it runs. No pass is open, and no role is behind.
pub(crate) fn rests_in_each(
    alloc: Global,
    kernel: &Kernel,
    queues: &mut Queues,
    kept: &mut Kept,
) -> Result<bool, AllocError>
    requires fed { on IsFed kernel.now queues.old }
    requires kept { on IsKeptRight kernel.now kept.old }
    requires closed { on HasNoPass kernel.now }
    requires told { on HasNoDelivery kernel.now }
    ensures fed { on IsFed kernel.now queues.new }
    ensures kept { on IsKeptRight kernel.now kept.new }
    ensures test { IfOk result (λ b. IsTrue b ↔ ((role : RoleValue) → on RestsWhereRunning kernel.now role)) }
{
    for place in 0..8 {
        if !rests_in(alloc, kernel, queues, kept, role_in(place))? {
            return Ok(false);
        }
    }
    Ok(true)
}

/// Whether nothing is left to do.
fn is_at_rest(
    alloc: Global,
    kernel: &Kernel,
    queues: &mut Queues,
    kept: &mut Kept,
) -> Result<bool, AllocError>
    requires fed { on IsFed kernel.now queues.old }
    requires kept { on IsKeptRight kernel.now kept.old }
    ensures fed { on IsFed kernel.now queues.new }
    ensures kept { on IsKeptRight kernel.now kept.new }
    ensures test { IfOk result (λ b. IsTrue b ↔ on IsAtRest kernel.now) }
{
    if first_pass(kernel).is_some() {
        return Ok(false);
    }
    if next_delivery(kernel, kept).is_some() {
        return Ok(false);
    }
    rests_in_each(alloc, kernel, queues, kept)
}

/// Whether a step of the script is left, and does not wait.
pub(crate) fn is_step_ready(
    alloc: Global,
    kernel: &Kernel,
    queues: &mut Queues,
    kept: &mut Kept,
) -> Result<bool, AllocError>
    requires fed { on IsFed kernel.now queues.old }
    requires kept { on IsKeptRight kernel.now kept.old }
    ensures fed { on IsFed kernel.now queues.new }
    ensures kept { on IsKeptRight kernel.now kept.new }
    ensures test { IfOk result (λ b. IsTrue b ↔ on IsStepReady kernel.now) }
{
    match awaited(kernel) {
        Awaits::Nothing => Ok(true),
        Awaits::Rest => is_at_rest(alloc, kernel, queues, kept),
        Awaits::Never => Ok(false),
    }
}

/// Whether the run is finished: all steps of the script were made, with all that they have happen, and nothing is left
/// to do.
pub(crate) fn is_finished(
    alloc: Global,
    kernel: &Kernel,
    queues: &mut Queues,
    kept: &mut Kept,
) -> Result<bool, AllocError>
    requires fed { on IsFed kernel.now queues.old }
    requires kept { on IsKeptRight kernel.now kept.old }
    ensures fed { on IsFed kernel.now queues.new }
    ensures kept { on IsKeptRight kernel.now kept.new }
    ensures test { IfOk result (λ b. IsTrue b ↔ on IsFinished kernel.now) }
{
    if !kernel.has_made_all() {
        return Ok(false);
    }
    is_at_rest(alloc, kernel, queues, kept)
}
