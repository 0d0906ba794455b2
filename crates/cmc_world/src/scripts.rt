//! What the next step of the script waits for, and which answers say that a move is possible.
ghost use Rattle.std.specs.Prelude.{◌≡◌};
ghost use Rattle.cmc_kernel.specs.Kept.{on};
ghost use Rattle.cmc_world.specs.Searches as words;
ghost use Rattle.cmc_world.specs.Searches.{IsAwaitedBy, IsAwaiting};

use cmc_kernel::{Kernel, Stepped};
use cmc_objects::Step;

/// Whether a step answers so to a move that is possible: it was made, or there is no room for it.
pub(crate) fn is_accepted(answer: Stepped) -> bool
    ensures { result ≡ words.is_possible answer }
{
    matches!(&answer, Stepped::Done | Stepped::Spent { .. })
}

/// What the next step of the script waits for.
#[derive(Clone, Copy)]
pub(crate) enum Awaits {
    /// Nothing: it is ready.
    Nothing,
    /// That all is at rest.
    Rest,
    /// No step is left.
    Never,
}

/// What the step waits for.
fn awaited_by(kernel: &Kernel, step: &Step) -> Awaits
    ensures { on IsAwaitedBy kernel.now step.now result }
{
    match step {
        Step::Apply { .. }
        | Step::Delete { .. }
        | Step::Approve { .. }
        | Step::Deny { .. }
        | Step::Answer { .. }
        | Step::Renew { .. }
        | Step::Tick { .. }
        | Step::Stop { .. }
        | Step::Start { .. }
        | Step::Hold { .. }
        | Step::Release { .. } => Awaits::Nothing,
        Step::Until { role, kind, writes } => {
            if kernel.has_written(*role, *kind, *writes) {
                Awaits::Nothing
            } else {
                Awaits::Rest
            }
        }
        Step::Settle => Awaits::Rest,
    }
}

/// What the next step of the script waits for. Whether all is at rest is not asked.
pub(crate) fn awaited(kernel: &Kernel) -> Awaits
    ensures { on IsAwaiting kernel.now result }
{
    match kernel.next_step() {
        Some(step) => awaited_by(kernel, step),
        None => Awaits::Never,
    }
}
