//! What a world holds, and what it would answer: all that chooses a move reads.
ghost use Rattle.std.specs.Option.{option_copied};
ghost use Rattle.std.specs.Prelude.{◌≡◌, ◌↔◌, ℕ, None, IsTrue, IfOk};
ghost use Rattle.cmc_objects.specs.declared.role.Role.{Role as RoleValue};
ghost use Rattle.cmc_rules.specs.UserSteps.{owed};
ghost use Rattle.cmc_model.specs.Histories as spec;
ghost use Rattle.cmc_rules.specs.Passes.{open_pass};
ghost use Rattle.cmc_held.specs.OneRun.{IsOfOneRun};
ghost use Rattle.cmc_rules.specs.Memory.{past};
ghost use Rattle.cmc_rules.specs.Origins.{begun};
ghost use Rattle.cmc_rules.specs.Sameness.{IsDue};
ghost use Rattle.cmc_rules.specs.Positions.{positions};
ghost use Rattle.cmc_rules.specs.Scripts.{held};
ghost use Rattle.cmc_rules.specs.Views.{views};
ghost use Rattle.cmc_model.specs.Writes.{writes};
ghost use Rattle.cmc_caches.specs.Posted.{told_of};
ghost use Rattle.cmc_held.specs.Open.{pass_at};
ghost use Rattle.cmc_held.specs.Remembered.{past_or_new};
ghost use Rattle.cmc_kernel.specs.Kept.{on};

use crate::due;
use crate::kernel::Kernel;
use cmc_caches::Caches;
use cmc_held::{Log, Passes, is_held, shown_positions};
use cmc_meta::{Key, Kind};
use cmc_objects::{Positions, Role, Shared};
use cmc_pass::Views;
use cmc_rules::Past;
use std::alloc::{AllocError, Global};

impl Kernel {
    /// A law: all that the steps that were made have happen has happened.
    pub fn is_settled(&self)
        ensures { on owed self.now ≡ None }
    {
        let _entries = self.history.len();
    }

    /// The accepted writes.
    pub fn log(&self) -> &Log
        ensures { result.now.writes ≡ on writes self.now }
    {
        self.caches.log()
    }

    /// The passes that are open.
    pub fn passes(&self) -> &Passes
        ensures { (n : ℕ) → pass_at result.now n ≡ on open_pass self.now n }
    {
        &self.passes
    }

    /// How many passes have begun: the number of the newest of them.
    pub fn passes_begun(&self) -> u64
        ensures { result ≡ on begun self.now }
    {
        self.origins.len()
    }

    /// What the role remembers of the key; `None` only where it did nothing on it since it started.
    pub fn past(&self, role: Role, key: &Key) -> Option<&Past>
        ensures { past_or_new (option_copied result) ≡ on past self.now role key.now }
    {
        self.memories.get(role, key)
    }

    /// The newest write of each kind that the role is told of, 0 of each other kind.
    pub fn told(&self, role: Role) -> Positions
        ensures { result ≡ positions self.now.history role }
    {
        shown_positions(role, self.role_states.get(role).told)
    }

    fn own_views(&self, alloc: Global, role: Role, key: &Key) -> Result<Views, AllocError>
        ensures { IfOk result (λ seen. seen ≡ on views self.now role key.now) }
    {
        self.caches.views(alloc, role, key)
    }

    /// What the role sees of the key, by what it was told of. A pass that begins on it and what the role remembers share it.
    pub fn views(&self, alloc: Global, role: Role, key: &Key) -> Result<Shared<Views>, AllocError>
        ensures { IfOk result (λ seen. seen ≡ on views self.now role key.now) }
    {
        let seen = self.own_views(alloc, role, key)?;
        Shared::new(alloc, seen)
    }

    /// The accepted writes, and how far each role was told of each kind.
    pub fn caches(&self) -> &Caches
        ensures writes { result.now.writes ≡ on writes self.now }
        ensures told { (role : RoleValue) → told_of result.now.told role ≡ positions self.now.history role }
    {
        &self.caches
    }

    /// Whether the role runs.
    pub fn runs(&self, role: Role) -> bool
        ensures { result ≡ on spec.runs self.now role }
    {
        self.role_states.get(role).running
    }

    /// Whether deliveries of the kind are held back from the role.
    pub fn is_held(&self, role: Role, kind: Kind) -> bool
        ensures { result ≡ on held self.now role kind }
    {
        is_held(self.role_states.get(role), kind)
    }

    /// The present moment, in seconds since the beginning of 1970.
    pub fn moment(&self) -> i64
        ensures { result ≡ on spec.moment self.now }
    {
        self.moment
    }

    /// A law: what the role saw as it last began a pass on the key, and what it sees of the key, are views of one run: no
    /// version was given twice.
    pub(crate) fn saw_one_run(&self, role: Role, key: &Key)
        ensures { IsOfOneRun (on past self.now role key.now).last (on views self.now role key.now) }
    {
        self.is_run();
    }

    /// Whether a pass of the role on the key, of which it sees `seen`, would be due: the role was told of its own writes, and
    /// the pass would not be the last one again.
    pub fn is_due(&self, role: Role, key: &Key, seen: &Views) -> bool
        requires { seen.now ≡ on views self.now role key.now }
        ensures { IsTrue result ↔ IsDue (on past self.now role key.now) seen.now (on spec.moment self.now) (positions self.now.history role) }
    {
        self.saw_one_run(role, key);
        due::is_due(self.past(role, key), seen, self.moment(), self.told(role))
    }
}
