//! The keys on which a role has nothing to do, and sees nothing new: all others are in its work queue.
ghost use Rattle.std.specs.Option.{option_copied};
ghost use Rattle.std.specs.Prelude.{◌≡◌, ◌↔◌, IsTrue, IfOk};
ghost use Rattle.cmc_held.specs.OneRun.{IsOfOneRun};
ghost use Rattle.cmc_held.specs.Remembered.{past_or_new};
ghost use Rattle.cmc_rules.specs.Memory.{past};
ghost use Rattle.cmc_rules.specs.Views.{views};
ghost use Rattle.cmc_kernel.specs.Kept.{on};
ghost use Rattle.cmc_moves.specs.Quiet as spec;

use crate::kernel::Kernel;
use cmc_held::same_seen;
use cmc_meta::Key;
use cmc_objects::Role;
use cmc_pass::Views;
use cmc_rules::{LastPass, Past};
use std::alloc::{AllocError, Global};

/// Whether this is no object.
fn is_nothing(alloc: Global, seen: &Views) -> bool
    ensures { IsTrue result ↔ (seen.now ≡ spec.no_views) }
{
    seen.same(&Views::new(alloc))
}

/// Whether a last pass saw `seen`; where there was none, whether `seen` shows no object.
fn saw(alloc: Global, last: &Option<LastPass>, seen: &Views) -> bool
    requires { IsOfOneRun last.now seen.now }
    ensures { IsTrue result ↔ (seen.now ≡ spec.seen_last last.now) }
{
    match last {
        Some(last) => same_seen(&last.seen, seen),
        None => is_nothing(alloc, seen),
    }
}

/// Whether the role saw this as it last began on the key.
fn saw_before(alloc: Global, before: Option<&Past>, seen: &Views) -> bool
    requires { IsOfOneRun (past_or_new (option_copied before)).last seen.now }
    ensures { IsTrue result ↔ (seen.now ≡ spec.seen_last (past_or_new (option_copied before.entry)).last) }
{
    match before {
        Some(past) => saw(alloc, &past.last, seen),
        None => is_nothing(alloc, seen),
    }
}

impl Kernel {
    /// Whether the role, which sees `seen` of the key, saw the same as it last began a pass there since it started; where it
    /// began none, whether `seen` shows no object. It takes no memory.
    pub fn saw_last(&self, alloc: Global, role: Role, key: &Key, seen: &Views) -> bool
        requires { seen.now ≡ on views self.now role key.now }
        ensures { IsTrue result ↔ (seen.now ≡ spec.seen_last (on past self.now role key.now).last) }
    {
        self.saw_one_run(role, key);
        saw_before(alloc, self.past(role, key), seen)
    }

    /// Whether the role, which sees this of the key, has nothing to do there and sees what it saw as it last began a pass on
    /// it: the key is not in its work queue.
    pub fn is_quiet(
        &self,
        alloc: Global,
        role: Role,
        key: &Key,
        seen: &Views,
    ) -> Result<bool, AllocError>
        requires { seen.now ≡ on views self.now role key.now }
        ensures { IfOk result (λ b. IsTrue b ↔ on spec.IsQuiet self.now role key.now) }
    {
        if !self.saw_last(alloc, role, key, seen) {
            return Ok(false);
        }
        self.can_act();
        self.is_idle(alloc, role, seen)
    }
}
