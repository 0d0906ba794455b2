//! Whether a role may begin a pass on a key, and what it would do there.
ghost use Rattle.std.specs.Option.{option_copied};
ghost use Rattle.std.specs.Prelude.{◌≡◌, ◌↔◌, IsTrue, IfOk};
ghost use Rattle.cmc_model.specs.Histories.{moment};
ghost use Rattle.cmc_rules.specs.Sameness.{IsDue};
ghost use Rattle.cmc_rules.specs.Rest as spec;
ghost use Rattle.cmc_rules.specs.Desks.{desk as desk_at};
ghost use Rattle.cmc_safety.specs.MayAct.{MayAct};
ghost use Rattle.cmc_rules.specs.Views.{views};
ghost use Rattle.cmc_held.specs.OneRun.{IsOfOneRun};
ghost use Rattle.cmc_held.specs.Remembered.{past_or_new};
ghost use Rattle.cmc_rules.specs.Acts.{act};
ghost use Rattle.cmc_moves.specs.Prospects.{IsProspect};
ghost use Rattle.cmc_kernel.specs.Kept.{on};

use crate::kernel::Kernel;
use cmc_held::{is_same, own_above};
use cmc_meta::Key;
use cmc_moves::{Prospect, is_idle_of, prospect_of};
use cmc_objects::{Positions, Role};
use cmc_pass::{Desk, Views};
use cmc_rules::Past;
use std::alloc::{AllocError, Global};

/// Whether a role that has done this on the key may begin a pass on it that sees this.
fn is_due_after(past: &Past, seen: &Views, now: i64, at: Positions) -> bool
    requires { IsOfOneRun past.now.last seen.now }
    ensures { IsTrue result ↔ IsDue past.now seen.now now at }
{
    own_above(past.own, at).is_none() && !is_same(&past.last, seen, now, at)
}

/// Whether the role may begin a pass on the key that sees this.
pub(crate) fn is_due(past: Option<&Past>, seen: &Views, now: i64, at: Positions) -> bool
    requires { IsOfOneRun (past_or_new (option_copied past)).last seen.now }
    ensures { IsTrue result ↔ IsDue (past_or_new (option_copied past.entry)) seen.now now at }
{
    match past {
        Some(past) => is_due_after(past, seen, now, at),
        None => true,
    }
}

impl Kernel {
    /// Whether the role has nothing to do where it sees this.
    pub fn is_idle(&self, alloc: Global, role: Role, seen: &Views) -> Result<bool, AllocError>
        requires { MayAct seen.now (on moment self.now) (on desk_at self.now role seen.now) }
        ensures { IfOk result (λ b. IsTrue b ↔ on spec.IsIdle self.now role seen.now) }
    {
        is_idle_of(alloc, role, seen, self.moment, &self.desk)
    }

    /// Whether the role, which sees this of the key, has something to do there, and its act where that had to be built to find
    /// out.
    pub fn prospect(
        &self,
        alloc: Global,
        role: Role,
        key: &Key,
        seen: &Views,
    ) -> Result<Prospect, AllocError>
        requires { seen.now ≡ on views self.now role key.now }
        ensures { IfOk result (λ p. IsProspect role (act role seen.now (on moment self.now) (on desk_at self.now role seen.now)) p) }
    {
        self.can_act();
        let asked = self.questions.asked_for(role, seen)?;
        if asked == 0 {
            return prospect_of(alloc, role, seen, self.moment, &self.desk);
        }
        let desk = Desk {
            material: self.desk.material.copy()?,
            asked,
            rules: self.desk.rules.copy()?,
        };
        prospect_of(alloc, role, seen, self.moment, &desk)
    }
}
