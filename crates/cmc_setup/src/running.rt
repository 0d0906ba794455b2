// Which roles run, from one step of a script to the next.
ghost use Rattle.std.specs.Prelude.{◌≡◌, ◌↔◌, IsTrue, List, MatchOption, true, false};
ghost use Rattle.cmc_objects.specs.declared.role.Role.{Role as RoleValue};
ghost use Rattle.cmc_setup.specs.Setups.{IsOrderlyFrom, running_after, switch_of};
ghost use Rattle.cmc_setup.specs.Stages.{may_switch};
ghost use Rattle.cmc_setup.specs.Flags.{Tells, flag_of};

use crate::flags::RoleFlags;
use cmc_objects::{Role, Step};

fn switch(step: &Step) -> Option<(Role, bool)>
    ensures { result ≡ switch_of step.now }
{
    match step {
        Step::Stop { role } => Some((*role, false)),
        Step::Start { role, .. } => Some((*role, true)),
        Step::Apply { .. }
        | Step::Delete { .. }
        | Step::Approve { .. }
        | Step::Deny { .. }
        | Step::Answer { .. }
        | Step::Renew { .. }
        | Step::Tick { .. }
        | Step::Hold { .. }
        | Step::Release { .. }
        | Step::Until { .. }
        | Step::Settle => None,
    }
}

/// The roles that run after the step, where it is in turn.
pub fn switched(running: RoleFlags, step: &Step) -> Option<RoleFlags>
    ensures { (before : List RoleValue) → Tells (flag_of running) before → MatchOption result (may_switch before (switch_of step.now) ≡ false) (λ next. (may_switch before (switch_of step.now) ≡ true) × Tells (flag_of next) (running_after before (switch_of step.now))) }
{
    match switch(step) {
        None => Some(running),
        Some((role, on)) if running.has(role) == on => None,
        Some((role, on)) => Some(running.with(role, on)),
    }
}

/// Whether each stop is of a role that runs when its turn comes, and each start of one that does not,
/// where these roles run at first.
pub fn are_orderly(roles: &[Role], steps: &[Step]) -> bool
    ensures { IsTrue result ↔ IsOrderlyFrom roles.now steps.now }
{
    let mut running = RoleFlags::of(roles);
    for step in steps {
        match switched(running, step) {
            Some(next) => running = next,
            None => return false,
        }
    }
    true
}
