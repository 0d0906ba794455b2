// What runs, what is held and the moment, from one step of a script to the next.
ghost use Rattle.std.specs.Prelude.{◌≡◌, ◌+ℤ◌, int_le, pos, MatchOption, true, false};
ghost use Rattle.cmc_setup.specs.Setups.{last_moment};
ghost use Rattle.cmc_setup.specs.Stages.{Stage as StageValue, IsStage, first_stage, is_in_turn, stage_after_step};

use crate::fitting::{LAST_MOMENT, seconds_in};
use crate::flags::RoleFlags;
use crate::holding::{Holding, gripped};
use crate::running::switched;
use cmc_objects::{Role, Step};

/// How far a script has come, as much as decides whether its next step may be made: which roles run,
/// which informers are held, and the moment.
#[derive(Clone, Copy)]
pub struct Stage {
    running: RoleFlags,
    held: Holding,
    moment: i64,
}

fn later(moment: i64, seconds: u64) -> Option<i64>
    ensures { MatchOption result (int_le (moment +ℤ pos seconds) last_moment ≡ false) (λ m. (int_le (moment +ℤ pos seconds) last_moment ≡ true) × (m ≡ moment +ℤ pos seconds)) }
{
    let sum = moment as i128 + seconds as i128;
    if sum <= LAST_MOMENT as i128 {
        return Some(sum as i64);
    }
    None
}

impl Stage {
    /// Before the first step, at the moment `now`, these roles run and no informer is held.
    pub fn first(roles: &[Role], now: i64) -> Stage
        ensures { IsStage result (first_stage roles.now now) }
    {
        Stage {
            running: RoleFlags::of(roles),
            held: Holding::none(),
            moment: now,
        }
    }

    /// The stage after the step. `None` exactly where the step may not be made: it stops a role that
    /// does not run, starts one that runs, holds an informer that is held or that the role has not,
    /// releases one that is not held, or its seconds end after 9900-01-01T00:00:00Z.
    pub fn after(self, step: &Step) -> Option<Stage>
        ensures { (before : StageValue) → IsStage self before → MatchOption result (is_in_turn before step.now ≡ false) (λ next. (is_in_turn before step.now ≡ true) × IsStage next (stage_after_step before step.now)) }
    {
        let running = switched(self.running, step)?;
        let held = gripped(self.held, step)?;
        let moment = later(self.moment, seconds_in(step))?;
        Some(Stage {
            running,
            held,
            moment,
        })
    }
}
