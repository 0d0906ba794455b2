//! Passes that begin with what was found of them as they were looked for.
ghost use Rattle.std.specs.Prelude.{◌≡◌, IfOk, IfSome, true};
ghost use Rattle.cmc_rules.specs.Origins as spec;
ghost use Rattle.cmc_rules.specs.Runs.{IsRun};
ghost use Rattle.cmc_moves.specs.Prospects.{IsFirstAct};
ghost use Rattle.cmc_kernel.specs.Kept.{on};
ghost use Rattle.cmc_world.specs.Fed.{IsFed};
ghost use Rattle.cmc_world.specs.KeptLooks.{IsMine};
ghost use Rattle.cmc_world.specs.Openings.{LeavesNext, LeavesOpened};
ghost use Rattle.cmc_world.specs.Searches.{IsWork};

use crate::fed_begins::begin_due;
use crate::fed_passes::act_first;
use cmc_kernel::{Kernel, Stepped};
use cmc_meta::Key;
use cmc_moves::let_go;
use cmc_objects::{Role, Shared};
use cmc_pass::{Act, Views};
use cmc_waking::Queues;
use std::alloc::{AllocError, Global};

/// A pass that may begin, and has something to do.
pub struct Opening {
    pub role: Role,
    pub key: Key,
    /// What the role sees of the key.
    pub seen: Shared<Views>,
    /// What it does; `None` of a role that decides by what it sees alone, whose act is not yet made out.
    pub does: Option<Act>,
}

impl Drop for Opening {
    fn drop(self) {
        let Opening {
            role: _role,
            key: _key,
            seen: _seen,
            does,
        } = self;
        let_go(does);
    }
}

impl Opening {
    /// Whether this is of the role and the key.
    pub(crate) fn is_on(&self, role: Role, key: &Key) -> bool
        ensures { result ≡ true → IsMine role key.now self.now }
    {
        self.role.rank() == role.rank() && self.key.same(key)
    }

    /// This, where it is of the role and the key.
    pub(crate) fn only_on(self, role: Role, key: &Key) -> Option<Opening>
        ensures { IfSome result (λ o. (o ≡ self) × IsMine role key.now o) }
    {
        if self.is_on(role, key) {
            return Some(self);
        }
        let_go(self);
        None
    }

    pub(crate) fn into_parts(self) -> (Role, Key, Shared<Views>, Option<Act>)
        ensures { result ≡ (self.role, self.key, self.seen, self.does) }
    {
        let Opening {
            role,
            key,
            seen,
            does,
        } = self;
        (role, key, seen, does)
    }
}

/// What came of the begin of a pass.
pub struct Opened {
    /// What the begin is answered.
    pub begin: Stepped,
    /// What the first move of the pass is answered, where it was made with the begin.
    pub first: Option<Stepped>,
}

impl Drop for Opened {
    fn drop(self) {
        let Opened {
            begin: _begin,
            first: _first,
        } = self;
    }
}

impl Opened {
    /// Both answers.
    pub fn into_parts(self) -> (Stepped, Option<Stepped>)
        ensures { result ≡ (self.begin, self.first) }
    {
        let Opened { begin, first } = self;
        (begin, first)
    }
}

/// Has the pass, which was begun so, go on by its act, where that is known and the begin was made.
fn act_if(
    alloc: Global,
    kernel: &mut Kernel,
    queues: &mut Queues,
    begun: bool,
    does: Option<Act>,
) -> Result<Option<Stepped>, AllocError>
    requires fed { on IsFed kernel.old queues.old }
    requires first { begun ≡ true → IfSome does (on IsFirstAct kernel.old (on spec.begun kernel.old)) }
    requires run { on IsRun kernel.old }
    ensures fed { on IsFed kernel.new queues.new }
    ensures scenario { kernel.new.scenario ≡ kernel.old.scenario }
    ensures leaves { IfOk result (λ first. on LeavesNext kernel.old begun does first kernel.new.history) }
    ensures run { on IsRun kernel.new }
{
    let Some(does) = does else {
        return Ok(None);
    };
    if !begun {
        let_go(does);
        return Ok(None);
    }
    let pass = kernel.passes_begun();
    Ok(Some(act_first(alloc, kernel, queues, pass, does)?))
}

/// Begins the pass, and has it go on by its act, where that is known.
pub(crate) fn open(
    alloc: Global,
    kernel: &mut Kernel,
    queues: &mut Queues,
    opening: Opening,
) -> Result<Opened, AllocError>
    requires fed { on IsFed kernel.old queues.old }
    requires work { on IsWork kernel.old opening.role opening.key opening }
    ensures fed { on IsFed kernel.new queues.new }
    ensures leaves { IfOk result (λ o. on LeavesOpened kernel.old opening o kernel.new.history) }
    ensures scenario { kernel.new.scenario ≡ kernel.old.scenario }
    ensures run { on IsRun kernel.new }
{
    kernel.is_run();
    kernel.is_formed();
    kernel.can_act();
    let (role, key, seen, does) = opening.into_parts();
    let begin = match begin_due(kernel, queues, role, key, seen) {
        Ok(begin) => begin,
        Err(lack) => {
            let_go(does);
            return Err(lack);
        }
    };
    match act_if(alloc, kernel, queues, begin.is_done(), does) {
        Ok(first) => Ok(Opened { begin, first }),
        Err(lack) => Err(lack),
    }
}
