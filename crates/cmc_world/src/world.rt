//! A world and the work queues of its controllers.
//!
//! Each move of the world feeds the queues: what may give a controller something to do makes the key ready in its queue. So
//! the next move of each sort is found by the queues, and without a look at all keys.
ghost use Rattle.std.specs.Option.{option_copied};
ghost use Rattle.std.specs.Prelude.{◌≡◌, ◌↔◌, IsTrue, IfOk, OnErr, [], true};
ghost use Rattle.cmc_meta.specs.declared.key.Key.{Key as KeyValue};
ghost use Rattle.cmc_objects.specs.Informers.{kind_of_work};
ghost use Rattle.std.specs.FinMap as finite;
ghost use Rattle.cmc_model.specs.Histories.{objects, runs};
ghost use Rattle.cmc_queue.specs.Queues.{row_of};
ghost use Rattle.cmc_queue.specs.Rows.{no_row};
ghost use Rattle.cmc_rules.specs.Passes.{IsWorking};
ghost use Rattle.cmc_rules.specs.Rights.{KeepsRights};
ghost use Rattle.cmc_rules.specs.Runs.{IsRun, IsFinished};
ghost use Rattle.cmc_rules.specs.Safety.{IsSafe};
ghost use Rattle.cmc_safety.specs.Completion.{CompletesIssuing};
ghost use Rattle.cmc_safety.specs.Invariants.{KeepsInvariants};
ghost use Rattle.cmc_safety.specs.MayAct.{IsNeverInvalid};
ghost use Rattle.cmc_moves.specs.Answers.{Answers, Leaves};
ghost use Rattle.cmc_moves.specs.declared.moves.Move.TheVariants as moves;
ghost use Rattle.cmc_waking.specs.WakeUps.{IsSearched, LosesNoWakeUp};
ghost use Rattle.cmc_kernel.specs.Kept.{on};
ghost use Rattle.cmc_world.specs.Next.{IsNextDelivery, IsNextDeliveryTo, IsNextScript};
ghost use Rattle.cmc_world.specs.Openings.{LeavesOpened};
ghost use Rattle.cmc_kernel.specs.Plain.{IsPlainMove};
ghost use Rattle.cmc_world.specs.PlainMoves.{IsNextPlain, move_of};
ghost use Rattle.cmc_waits.specs.Waits.{summary_at};
ghost use Rattle.cmc_world.specs.Searches.{FindsWork, IsWork};

use crate::begins::Beginning;
use crate::deliveries::{Delivery, first_delivery, first_kind_of};
use crate::fed_begins::begin_kept;
use crate::fed_deliveries::deliver;
use crate::fed_passes::{go_kept, go_on, is_newest};
use crate::fed_scripts::script;
use crate::kept::{Kept, is_idle, only_if};
use crate::next_move::plain_by;
use crate::openings::{Opened, Opening, open};
use crate::passes::Going;
use crate::plain_move::{PlainMove, as_move};
use crate::rest::{is_finished, is_step_ready};
use crate::work::next_work;
use cmc_history::History;
use cmc_kernel::{Kernel, Move, Stepped};
use cmc_meta::{Key, Kind};
use cmc_moves::let_go;
use cmc_objects::{Object, Role};
use cmc_queue::Queue;
use cmc_seed::HashSeed;
use cmc_setup::Scenario;
use cmc_summary::Summary;
use cmc_waits::summary;
use cmc_waking::Queues;
use std::alloc::{AllocError, Global};
use std::collections::BTreeMap;
use std::marker::Model;

/// A world, and for each role its work queue. Contracts see the world alone: the queues lose no wake-up of a role that runs,
/// whatever moves were made and whatever was looked at.
pub struct World {
    kernel: Kernel,
    queues: Queues,
    /// What was found of the newest pass, and of the next ones as long as it is so.
    kept: Kept,
}

impl Drop for World {
    fn drop(self) {
        let World {
            kernel: _kernel,
            queues: _queues,
            kept: _kept,
        } = self;
    }
}

impl Model for World {
    ghost use Rattle.cmc_kernel.specs.Kept.{Seen, on};
    ghost use Rattle.cmc_world.specs.Fed.{IsFed};
    ghost use Rattle.cmc_world.specs.KeptLooks.{IsKeptRight};

    ghost Value = { Seen };

    ghost view = { λ w. w.kernel };

    ghost invariant = { λ w. on IsFed w.kernel w.queues × on IsKeptRight w.kernel w.kept };
}

impl World {
    /// The world of the scenario before its first step.
    pub fn new(alloc: Global, scenario: Scenario) -> Result<World, AllocError>
        ensures { IfOk result (λ w. w ≡ record { scenario = scenario; history = [] }) }
    {
        World::seeded(alloc, HashSeed::fixed(), scenario)
    }

    /// The same, where all that is hashed is hashed by the seed.
    pub fn seeded(alloc: Global, seed: HashSeed, scenario: Scenario) -> Result<World, AllocError>
        ensures { IfOk result (λ w. w ≡ record { scenario = scenario; history = [] }) }
    {
        let kernel = Kernel::seeded(alloc, seed, scenario)?;
        let queues = Queues::new(alloc, seed)?;
        Ok(World {
            kernel,
            queues,
            kept: Kept::new(alloc),
        })
    }

    /// The store, the history, the caches and the passes: all but the work queues.
    pub fn kernel(&self) -> &Kernel
        ensures { result.now ≡ self.now }
    {
        &self.kernel
    }

    /// The scenario that the run goes by.
    pub fn scenario(&self) -> &Scenario
        ensures { result.now ≡ self.now.scenario }
    {
        self.kernel.scenario()
    }

    /// What was done so far.
    pub fn history(&self) -> &History
        ensures { result.now.entries ≡ self.now.history }
    {
        self.kernel.history()
    }

    /// The map of the objects that exist, to go over them in order of key.
    pub fn objects(&self) -> &BTreeMap<Key, Object>
        ensures { finite.entries (on objects self.now) ≡ result.now.entries }
    {
        self.kernel.objects()
    }

    /// The summary of what exists: how many Certificates exist, how many of them are Ready, how many Secrets exist, and
    /// what each Certificate waits for that is not Ready, in order of key. Where some role does not run, or some informer
    /// is held, that is what each waits for. Else it is the first of these that is so: its last issuance failed and the
    /// moment lies in the back-off; it is being issued and there is no next key; its one next request is neither approved
    /// nor denied; that is issued, and the Secret of the Certificate's name for it holds a next key itself; that is
    /// approved, and its issuer has not answered or was not ready. Where a run is at rest one of these is so of each
    /// (`each_wait_is_named`); before that a Certificate of which none is so has no item.
    pub fn summary(&self, alloc: Global) -> Result<Summary, AllocError>
        ensures { IfOk result (λ s. s ≡ on summary_at self.now) }
    {
        summary(alloc, &self.kernel)
    }

    /// A law: whatever moves led to this world, its history is legal, caused, and follows the script with at most as many
    /// entries as the scenario allows; each accepted write of a pass changes only what its role may change; and the history is
    /// safe: each Secret that issuing wrote is a good issue, no issuer was asked about a request that was not approved, and
    /// revisions rose by one after their Secret alone.
    pub fn is_run(&self)
        ensures run { on IsRun self.now }
        ensures rights { on KeepsRights self.now }
        ensures safe { on IsSafe self.now }
    {
        self.kernel.is_run();
    }

    /// A law: no rule refused a call of a pass; a pass of issuing that has a plan and is left undisturbed carries it out
    /// whole; and each object that exists has its form, a revision that was counted, and moments that have passed.
    pub fn is_orderly(&self)
        ensures valid { IsNeverInvalid self.now.history }
        ensures complete { on CompletesIssuing self.now }
        ensures order { on KeepsInvariants self.now }
    {
        self.kernel.is_run();
    }

    /// The work queue of the role as it stands. Of a role that runs it loses no wake-up, and says what searches have to find.
    pub fn queue(&self, role: Role) -> &Queue
        ensures wakes { on runs self.now role ≡ true → on LosesNoWakeUp self.now role (row_of result.now) }
        ensures finds { on runs self.now role ≡ true → (k : KeyValue) → k.kind ≡ kind_of_work role → on IsSearched self.now role k (row_of result.now k) }
        ensures working { (k : KeyValue) → k.kind ≡ kind_of_work role → IsTrue (row_of result.now k).working ↔ on IsWorking self.now role k }
        ensures work { (k : KeyValue) → (k.kind ≡ kind_of_work role → ⊥) → row_of result.now k ≡ no_row }
    {
        self.queues.queue(role)
    }

    /// The move that a run by one hand makes next; `None` exactly where the run is finished. Nothing of the world changes.
    ///
    /// It is the first of: the next step of the script, where it does not wait; the next phase of the first open pass, which of
    /// one that waits for a value is that it is given one; a delivery to the newest accepted write of a kind, by role, then by
    /// kind; and the begin of the first role with a key on which it has something to do or sees something new, the first such
    /// key.
    pub fn plain(&mut self, alloc: Global) -> Result<Option<Move>, AllocError>
        ensures plain { IfOk result (λ m. on IsPlainMove self.old m) }
        ensures same { self.new ≡ self.old }
    {
        let next = self.next_plain(alloc)?;
        Ok(as_move(next))
    }

    /// The same, as the search tells it.
    pub(crate) fn next_plain(&mut self, alloc: Global) -> Result<Option<PlainMove>, AllocError>
        ensures plain { IfOk result (λ m. on IsNextPlain self.old m) }
        ensures same { self.new ≡ self.old }
    {
        plain_by(alloc, &self.kernel, &mut self.queues, &mut self.kept)
    }

    /// The next step of the script, where one is left and does not wait; `None` exactly where it is not so. Nothing of the
    /// world changes.
    pub fn next_script(&mut self, alloc: Global) -> Result<Option<Move>, AllocError>
        ensures next { IfOk result (λ m. on IsNextScript self.old m) }
        ensures same { self.new ≡ self.old }
    {
        if is_step_ready(alloc, &self.kernel, &mut self.queues, &mut self.kept)? {
            return Ok(Some(Move::Script));
        }
        Ok(None)
    }

    /// The delivery to the newest accepted write of a kind of which a role was not told, by role, then by kind; `None`
    /// exactly where each role that runs was told of all that is not held from it.
    pub fn next_delivery(&self) -> Option<Move>
        ensures { on IsNextDelivery self.now result }
    {
        let Delivery { role, kind } = first_delivery(&self.kernel, self.kept.told)?;
        let to = self.kernel.log().last_of_kind(kind);
        Some(Move::Deliver { role, kind, to })
    }

    /// The delivery to the role of the newest accepted write of the first kind of which it was not told; `None` exactly where
    /// it does not run, or was told of all that is not held from it.
    pub fn next_delivery_to(&self, role: Role) -> Option<Move>
        ensures { on IsNextDeliveryTo self.now role result }
    {
        let kind = first_kind_of(&self.kernel, role)?;
        let to = self.kernel.log().last_of_kind(kind);
        Some(Move::Deliver { role, kind, to })
    }

    /// A pass on the first key on which one of the role may begin, and the role has something to do by what it sees; where a key
    /// is given, on the first such key above it. `None` exactly where there is none. Who begins passes of one role on one key
    /// after another does not look at the same keys again. Nothing of the world changes.
    pub fn next_work(
        &mut self,
        alloc: Global,
        role: Role,
        below: Option<&Key>,
    ) -> Result<Option<Opening>, AllocError>
        ensures work { IfOk result (λ o. on FindsWork self.old role (option_copied below.entry) o) }
        ensures same { self.new ≡ self.old }
    {
        next_work(
            alloc,
            &self.kernel,
            &mut self.queues,
            &mut self.kept,
            role,
            below,
        )
    }

    /// Begins the pass, and has it do what it does first, where that is known. All that was found out of
    /// it as it was looked for goes along, and is not asked for again.
    ///
    /// # Errors
    ///
    /// Memory runs out. The pass may have begun then.
    pub fn begin(&mut self, alloc: Global, opening: Opening) -> Result<Opened, AllocError>
        requires { on IsWork self.old opening.role opening.key opening }
        ensures leaves { IfOk result (λ o. on LeavesOpened self.old opening o self.new.history) }
        ensures scenario { self.new.scenario ≡ self.old.scenario }
        ensures run { on IsRun self.new }
    {
        self.kept.forget();
        open(alloc, &mut self.kernel, &mut self.queues, opening)
    }

    /// Whether the run is finished: all steps of the script were made, with all that they have happen, and nothing is left
    /// to do. Nothing of the world changes.
    pub fn finished(&mut self, alloc: Global) -> Result<bool, AllocError>
        ensures finished { IfOk result (λ b. IsTrue b ↔ on IsFinished self.old) }
        ensures same { self.new ≡ self.old }
    {
        is_finished(alloc, &self.kernel, &mut self.queues, &mut self.kept)
    }

    /// Makes the next step of the script.
    fn step_script(&mut self, alloc: Global) -> Result<Stepped, AllocError>
        ensures answer { IfOk result (λ r. on Answers self.old moves.Script r) }
        ensures leaves { IfOk result (λ r. on Leaves self.old moves.Script r self.new.history) }
        ensures scenario { self.new.scenario ≡ self.old.scenario }
        ensures run { on IsRun self.new }
        ensures err { OnErr result (self.new ≡ self.old) }
    {
        self.kernel.is_run();
        let (kernel, queues) = (&mut self.kernel, &mut self.queues);
        let ready = is_step_ready(alloc, kernel, queues, &mut self.kept)?;
        self.kept.forget();
        script(alloc, &mut self.kernel, &mut self.queues, ready)
    }

    /// Tells the role of the accepted writes of the kind up to the version `to`.
    fn step_deliver(
        &mut self,
        alloc: Global,
        role: Role,
        kind: Kind,
        to: u64,
    ) -> Result<Stepped, AllocError>
        ensures answer { IfOk result (λ r. on Answers self.old (moves.Deliver role kind to) r) }
        ensures leaves { IfOk result (λ r. on Leaves self.old (moves.Deliver role kind to) r self.new.history) }
        ensures scenario { self.new.scenario ≡ self.old.scenario }
        ensures run { on IsRun self.new }
        ensures err { OnErr result (self.new ≡ self.old) }
    {
        self.kept.forget_told(role);
        deliver(alloc, &mut self.kernel, &mut self.queues, role, kind, to)
    }

    /// Begins a pass of the role on the key.
    fn step_begin(&mut self, alloc: Global, role: Role, key: Key) -> Result<Stepped, AllocError>
        ensures answer { IfOk result (λ r. on Answers self.old (moves.Begin role key) r) }
        ensures leaves { IfOk result (λ r. on Leaves self.old (moves.Begin role key) r self.new.history) }
        ensures scenario { self.new.scenario ≡ self.old.scenario }
        ensures run { on IsRun self.new }
        ensures err { OnErr result (self.new ≡ self.old) }
    {
        let opening = self.kept.take_pass(role, &key);
        let_go(self.kept.take_act());
        let (answer, does) = begin_kept(
            alloc,
            &mut self.kernel,
            &mut self.queues,
            role,
            key,
            opening,
        )?;
        self.kept.begun(does);
        Ok(answer)
    }

    /// Has the pass go on, where that is possible: the step of the move `Next`.
    ///
    /// # Errors
    ///
    /// Memory runs out. Nothing has changed then.
    pub fn step_next(
        &mut self,
        alloc: Global,
        pass: u64,
        incarnation: u64,
    ) -> Result<Stepped, AllocError>
        ensures answer { IfOk result (λ r. on Answers self.old (moves.Next pass incarnation) r) }
        ensures leaves { IfOk result (λ r. on Leaves self.old (moves.Next pass incarnation) r self.new.history) }
        ensures scenario { self.new.scenario ≡ self.old.scenario }
        ensures run { on IsRun self.new }
        ensures err { OnErr result (self.new ≡ self.old) }
    {
        self.kernel.is_run();
        let newest = is_newest(&self.kernel, pass, incarnation);
        let does = only_if(newest, self.kept.take_act());
        let idle = is_idle(&does);
        let answer = go_kept(
            alloc,
            &mut self.kernel,
            &mut self.queues,
            pass,
            incarnation,
            does,
        )?;
        self.kept.forget_gone(idle, &answer);
        Ok(answer)
    }

    /// Makes the move of the plain order, as `step` does.
    pub(crate) fn make_plain(
        &mut self,
        alloc: Global,
        next: PlainMove,
    ) -> Result<Stepped, AllocError>
        ensures answer { IfOk result (λ r. on Answers self.old (move_of next) r) }
        ensures leaves { IfOk result (λ r. on Leaves self.old (move_of next) r self.new.history) }
        ensures scenario { self.new.scenario ≡ self.old.scenario }
        ensures run { on IsRun self.new }
        ensures err { OnErr result (self.new ≡ self.old) }
    {
        match next {
            PlainMove::Script => self.step_script(alloc),
            PlainMove::Deliver { role, kind, to } => self.step_deliver(alloc, role, kind, to),
            PlainMove::Begin(Beginning { role, key }) => self.step_begin(alloc, role, key),
            PlainMove::Next(Going { pass, incarnation }) => {
                self.step_next(alloc, pass, incarnation)
            }
        }
    }

    fn make(&mut self, alloc: Global, step: Move) -> Result<Stepped, AllocError>
        ensures answer { IfOk result (λ r. on Answers self.old step r) }
        ensures leaves { IfOk result (λ r. on Leaves self.old step r self.new.history) }
        ensures scenario { self.new.scenario ≡ self.old.scenario }
        ensures err { OnErr result (self.new ≡ self.old) }
    {
        match step {
            Move::Script => self.step_script(alloc),
            Move::Deliver { role, kind, to } => self.step_deliver(alloc, role, kind, to),
            Move::Begin { role, key } => self.step_begin(alloc, role, key),
            Move::Next { pass, incarnation } => self.step_next(alloc, pass, incarnation),
            Move::Give { pass, .. } | Move::Decide { pass, .. } => {
                self.kept.forget();
                go_on(alloc, &mut self.kernel, &mut self.queues, pass, step)
            }
        }
    }

    /// Makes one move, and answers whether it was made, or what kept it from being made: of all that does, the first in the
    /// order of the move's table (`Answers`). What the move may give a controller to do is put into its work queue.
    ///
    /// A move that is made adds one or two entries to the history, those of its kind (`Grows`): a step of the script its own
    /// and that of what it brings about, a delivery that of the delivery or of a list, a begin its own, a pass that goes on,
    /// by itself or by a decision, its call or its end, and a value that is given its own. A question that is told for the
    /// first time adds its entry (`LeavesAsked`). Any other answer leaves the world as it was.
    ///
    /// # Errors
    ///
    /// Where memory runs out, the world is as it was.
    pub fn step(&mut self, alloc: Global, step: Move) -> Result<Stepped, AllocError>
        ensures answer { IfOk result (λ r. on Answers self.old step r) }
        ensures leaves { IfOk result (λ r. on Leaves self.old step r self.new.history) }
        ensures scenario { self.new.scenario ≡ self.old.scenario }
        ensures run { on IsRun self.new }
        ensures rights { on KeepsRights self.new }
        ensures safe { on IsSafe self.new }
        ensures err { OnErr result (self.new ≡ self.old) }
    {
        self.is_run();
        let answer = self.make(alloc, step)?;
        self.is_run();
        Ok(answer)
    }
}
