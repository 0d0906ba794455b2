//! What lies under the lock, and what a thread does while it holds it.
//!
//! Each change is a step of the world, so whatever the threads do, the history is one of a run: the world's type keeps
//! that.
//!
//! While all other workers are away with questions, the one that is left would be the last to go, and nobody would use the
//! lock. So it turns to roles first that ask nobody and that what comes back is for, and takes a question along only where
//! these have nothing to do.
ghost use Rattle.std.specs.Prelude.{◌≡◌, ◌+◌, IfOk, IfSome, length, false};
ghost use Rattle.cmc_rules.specs.Scripts.{scripted, step_at};
ghost use Rattle.cmc_kernel.specs.Plain.{HasNoDelivery};
ghost use Rattle.cmc_kernel.specs.Kept.{on};
ghost use Rattle.cmc_workers.specs.Drives as spec;
ghost use Rattle.cmc_workers.specs.Drives.{IsErrand};
ghost use Rattle.cmc_workers.specs.Findings.{IsFound, IsWorkOpening};

use crate::crew::Crew;
use crate::errands::{Answer, Errand, Outcome, Taken, Task};
use crate::rounds::{ASKING_NOBODY, Found, ROUND, Round};
use cmc_kernel::{Decided, Move, Stepped, decides_alone};
use cmc_moves::let_go;
use cmc_objects::{Role, Step};
use cmc_pass::Given;
use cmc_world::{Opening, Point, Work, World, point_of, question};
use std::alloc::{AllocError, Global};

/// What lies under the lock.
#[derive(Drop)]
pub(crate) struct Shared {
    /// The world and its work queues.
    pub world: World,
    /// Whose turn it is.
    round: Round,
    /// Whose turn it is for a worker that is left alone.
    aside: Round,
    /// Which role is to be told next of what it was not told.
    wanted: Role,
    /// Where the workers are.
    crew: Crew,
    /// Whether all is over for the threads.
    pub over: bool,
}

/// What came of a move.
#[derive(Clone, Copy)]
enum Went {
    /// It was made.
    On,
    /// The pass asks, and waits for the value.
    Asks,
    /// It was not made.
    Not,
}

/// An errand with which a worker goes away, and whether another worker has to be called.
pub(crate) struct Departure {
    pub errand: Errand,
    pub calls: bool,
}

impl Drop for Departure {
    fn drop(self) {
        let Departure {
            errand: _errand,
            calls: _calls,
        } = self;
    }
}

impl Departure {
    pub(crate) fn into_parts(self) -> (Errand, bool)
        ensures { result ≡ (self.errand, self.calls) }
    {
        let Departure { errand, calls } = self;
        (errand, calls)
    }
}

/// A pass that has just begun, and what came of its first move, if that was made with the begin.
#[derive(Clone, Copy)]
struct Started {
    taken: Taken,
    first: Option<Went>,
}

/// An answer of the world has many shapes, and which of them it was is all that is needed.
fn told(answer: Stepped) -> Went {
    match &answer {
        Stepped::Done => Went::On,
        Stepped::Order { .. } => Went::Asks,
        _ => Went::Not,
    }
}

impl Shared {
    /// The world at its beginning, with all of its work to do.
    pub(crate) fn new(world: World, workers: u32) -> Shared
        ensures { result.world ≡ world }
    {
        Shared {
            world,
            round: Round::new(),
            aside: Round::new(),
            wanted: Role::Trigger,
            crew: Crew::new(workers),
            over: false,
        }
    }

    /// How many entries the history has.
    pub(crate) fn entries(&self) -> u64
        ensures { result ≡ length self.now.world.history }
    {
        self.world.history().len()
    }

    /// How many moves can be made at most.
    fn limit(&self) -> u64
        ensures { result ≡ self.now.world.scenario.events }
    {
        self.world.scenario().events()
    }

    /// What came of a move that is answered so. Where its entries do not fit, all is over.
    fn went(&mut self, answer: Stepped) -> Went
        ensures { self.new.world ≡ self.old.world }
    {
        if matches!(answer, Stepped::Spent { .. }) {
            self.over = true;
        }
        told(answer)
    }

    /// Makes a move.
    fn make(&mut self, alloc: Global, step: Move) -> Result<Went, AllocError>
        ensures { self.new.world.scenario ≡ self.old.world.scenario }
    {
        let answer = self.world.step(alloc, step)?;
        Ok(self.went(answer))
    }

    /// The question at which the pass waits, if it waits at one.
    fn question_of(&self, taken: Taken) -> Result<Option<Errand>, AllocError>
        ensures { IfOk result (λ e. IfSome e (λ errand. IsErrand self.now.world errand)) }
    {
        let kernel = self.world.kernel();
        match question(kernel, taken.pass)? {
            Some(order) => {
                let point = point_of(kernel.history(), taken.pass, &order);
                Ok(Some(Errand::new(taken, point, Task::Value(order))))
            }
            None => Ok(None),
        }
    }

    /// Goes away with the question at which the pass waits, if it waits at one.
    fn ask(&mut self, taken: Taken) -> Result<Option<Errand>, AllocError>
        ensures errand { IfOk result (λ e. IfSome e (λ errand. IsErrand self.new.world errand)) }
        ensures same { self.new.world ≡ self.old.world }
    {
        let errand = self.question_of(taken)?;
        if errand.is_some() {
            self.crew.ask();
        }
        Ok(errand)
    }

    /// Has the pass go on, up to a question or to its end. A pass whose role was stopped meanwhile is dropped.
    fn go_on(&mut self, alloc: Global, taken: Taken) -> Result<Option<Errand>, AllocError>
        ensures errand { IfOk result (λ e. IfSome e (λ errand. IsErrand self.new.world errand)) }
        ensures scenario { self.new.world.scenario ≡ self.old.world.scenario }
    {
        for _move in 0..=self.limit() {
            let answer = self.world.step_next(alloc, taken.pass, taken.incarnation)?;
            match self.went(answer) {
                Went::On => {}
                Went::Asks => return self.ask(taken),
                Went::Not => return Ok(None),
            }
        }
        Ok(None)
    }

    /// Gives a value to the pass that asked for it, and has it go on. The value is dropped where the role of the pass was
    /// stopped meanwhile.
    fn give(
        &mut self,
        alloc: Global,
        taken: Taken,
        given: Given,
    ) -> Result<Option<Errand>, AllocError>
        ensures errand { IfOk result (λ e. IfSome e (λ errand. IsErrand self.new.world errand)) }
        ensures scenario { self.new.world.scenario ≡ self.old.world.scenario }
    {
        let step = Move::Give {
            pass: taken.pass,
            incarnation: taken.incarnation,
            given,
        };
        match self.make(alloc, step)? {
            Went::On => self.go_on(alloc, taken),
            Went::Asks | Went::Not => Ok(None),
        }
    }

    /// Hands a decision in for the pass, and has it go on. It is dropped where the role of the pass was stopped meanwhile.
    fn decide(
        &mut self,
        alloc: Global,
        taken: Taken,
        decided: Decided,
    ) -> Result<Option<Errand>, AllocError>
        ensures errand { IfOk result (λ e. IfSome e (λ errand. IsErrand self.new.world errand)) }
        ensures scenario { self.new.world.scenario ≡ self.old.world.scenario }
    {
        let step = Move::Decide {
            pass: taken.pass,
            incarnation: taken.incarnation,
            decided,
        };
        match self.make(alloc, step)? {
            Went::On => self.go_on(alloc, taken),
            Went::Asks => self.ask(taken),
            Went::Not => Ok(None),
        }
    }

    /// Goes on with the pass for which a thread comes back, up to a question or to its end.
    fn go_back(&mut self, alloc: Global, outcome: Outcome) -> Result<Option<Errand>, AllocError>
        ensures errand { IfOk result (λ e. IfSome e (λ errand. IsErrand self.new.world errand)) }
        ensures scenario { self.new.world.scenario ≡ self.old.world.scenario }
    {
        let (taken, answer) = outcome.into_parts();
        self.crew.come_back();
        match answer {
            Answer::Value(given) => {
                self.crew.answer();
                self.give(alloc, taken, given)
            }
            Answer::Decision(decided) => self.decide(alloc, taken, decided),
            Answer::Nothing => self.go_on(alloc, taken),
        }
    }

    /// What the pass saw, which has just begun, where its role decides by that alone.
    fn undecided(&self, taken: Taken) -> Result<Option<Errand>, AllocError>
        ensures { IfOk result (λ e. IfSome e (λ errand. IsErrand self.now.world errand)) }
    {
        let kernel = self.world.kernel();
        match kernel.passes().get(taken.pass) {
            Some(open) if decides_alone(open.role) => {}
            _ => return Ok(None),
        }
        let point = Point {
            work: Work::Decide,
            entry: self.entries(),
        };
        match kernel.begun(taken.pass)? {
            Some(begun) => Ok(Some(Errand::new(taken, point, Task::Decision(begun)))),
            None => Ok(None),
        }
    }

    /// Has the pass, which has just begun, go on, by what came of its first move, if that was made; or outside of the lock, where
    /// its role decides there.
    fn start(&mut self, alloc: Global, started: Started) -> Result<Option<Errand>, AllocError>
        ensures errand { IfOk result (λ e. IfSome e (λ errand. IsErrand self.new.world errand)) }
        ensures scenario { self.new.world.scenario ≡ self.old.world.scenario }
    {
        let Started { taken, first } = started;
        match first {
            Some(Went::On) => self.go_on(alloc, taken),
            Some(Went::Asks) => self.ask(taken),
            Some(Went::Not) => Ok(None),
            None => match self.undecided(taken)? {
                Some(errand) => Ok(Some(errand)),
                None => self.go_on(alloc, taken),
            },
        }
    }

    /// Whether the next step of the script waits for a count of writes, which each move may reach.
    pub(crate) fn waits_for_count(&self) -> bool
        ensures { result ≡ spec.waits_for_count (step_at self.now.world.scenario.script (scripted self.now.world.history + 1)) }
    {
        matches!(self.world.kernel().next_step(), Some(Step::Until { .. }))
    }

    /// Whether a role is to be told of something.
    pub(crate) fn is_to_deliver(&self, alloc: Global) -> Result<bool, AllocError>
        ensures { IfOk result (λ b. b ≡ false → on HasNoDelivery self.now.world) }
    {
        match self.world.next_delivery() {
            Some(step) => {
                let_go(step);
                Ok(true)
            }
            None => Ok(false),
        }
    }

    /// Where the next pass may begin, or who has to be told of something first.
    fn next_turn(&mut self, alloc: Global) -> Result<Found, AllocError>
        ensures found { IfOk result (IsFound self.new.world) }
        ensures same { self.new.world ≡ self.old.world }
    {
        if self.crew.is_alone() {
            match self.aside.next(alloc, &mut self.world, &ASKING_NOBODY)? {
                Found::Nothing => {}
                found => return Ok(found),
            }
        }
        self.round.next(alloc, &mut self.world, &ROUND)
    }

    /// Begins the pass; `None` where it is not begun.
    fn begin_on(&mut self, alloc: Global, opening: Opening) -> Result<Option<Started>, AllocError>
        requires { IsWorkOpening self.old.world opening }
        ensures { self.new.world.scenario ≡ self.old.world.scenario }
    {
        let incarnation = self.world.kernel().incarnation(opening.role);
        let (begin, first) = self.world.begin(alloc, opening)?.into_parts();
        let begun = self.went(begin);
        let first = match first {
            Some(answer) => Some(self.went(answer)),
            None => None,
        };
        match begun {
            Went::On => Ok(Some(Started {
                taken: Taken {
                    pass: self.world.kernel().passes_begun(),
                    incarnation,
                },
                first,
            })),
            Went::Asks | Went::Not => Ok(None),
        }
    }

    /// Begins the next pass; `None` where none can begin, or not before something is delivered.
    fn begin(&mut self, alloc: Global) -> Result<Option<Started>, AllocError>
        ensures { self.new.world.scenario ≡ self.old.world.scenario }
    {
        match self.next_turn(alloc)? {
            Found::Work(opening) => self.begin_on(alloc, opening),
            Found::Behind(role) => {
                self.wanted = role;
                Ok(None)
            }
            Found::Nothing => Ok(None),
        }
    }

    /// Begins passes, one after another, and has each go on, up to the first that asks or has to decide. `None` where no
    /// pass can begin before something is delivered, or all is over.
    fn begin_passes(&mut self, alloc: Global) -> Result<Option<Errand>, AllocError>
        ensures errand { IfOk result (λ e. IfSome e (λ errand. IsErrand self.new.world errand)) }
        ensures scenario { self.new.world.scenario ≡ self.old.world.scenario }
    {
        for _pass in 0..=self.limit() {
            if self.over {
                return Ok(None);
            }
            let Some(started) = self.begin(alloc)? else {
                return Ok(None);
            };
            if let Some(errand) = self.start(alloc, started)? {
                return Ok(Some(errand));
            }
        }
        Ok(None)
    }

    /// Goes on with the pass for which a thread comes back, and then with others, up to the first that asks or has to
    /// decide. `None` where no pass can go on, or begin before something is delivered.
    fn go_on_with_passes(
        &mut self,
        alloc: Global,
        outcome: Outcome,
    ) -> Result<Option<Errand>, AllocError>
        ensures errand { IfOk result (λ e. IfSome e (λ errand. IsErrand self.new.world errand)) }
        ensures scenario { self.new.world.scenario ≡ self.old.world.scenario }
    {
        if let Some(errand) = self.go_back(alloc, outcome)? {
            return Ok(Some(errand));
        }
        self.begin_passes(alloc)
    }

    /// Notes that the worker goes away with the errand.
    fn leave(&mut self, errand: Errand) -> Departure
        ensures errand { result.errand ≡ errand }
        ensures same { self.new.world ≡ self.old.world }
    {
        let calls = self.crew.leave();
        Departure { errand, calls }
    }

    /// Has a worker, which was called or comes anew, take the next errand. `None` where there is none without waiting for it:
    /// the worker counts as asleep then.
    pub(crate) fn take(&mut self, alloc: Global) -> Result<Option<Departure>, AllocError>
        ensures errand { IfOk result (λ d. IfSome d (λ d. IsErrand self.new.world d.errand)) }
        ensures scenario { self.new.world.scenario ≡ self.old.world.scenario }
    {
        self.crew.wake();
        match self.begin_passes(alloc)? {
            Some(errand) => Ok(Some(self.leave(errand))),
            None => {
                self.crew.fall_asleep();
                Ok(None)
            }
        }
    }

    /// Has a worker, which comes back from an errand, take the next one. `None` where there is none without waiting for it: the
    /// worker counts as called then.
    pub(crate) fn come_back(
        &mut self,
        alloc: Global,
        outcome: Outcome,
    ) -> Result<Option<Departure>, AllocError>
        ensures errand { IfOk result (λ d. IfSome d (λ d. IsErrand self.new.world d.errand)) }
        ensures scenario { self.new.world.scenario ≡ self.old.world.scenario }
    {
        match self.go_on_with_passes(alloc, outcome)? {
            Some(errand) => Ok(Some(self.leave(errand))),
            None => {
                self.crew.stand_by();
                Ok(None)
            }
        }
    }

    /// Tells the role that is wanted of all that it was not told of and that is not held from it.
    fn tell_wanted(&mut self, alloc: Global) -> Result<(), AllocError>
        ensures { self.new.world.scenario ≡ self.old.world.scenario }
    {
        for _delivery in 0..=self.limit() {
            let Some(step) = self.world.next_delivery_to(self.wanted) else {
                return Ok(());
            };
            if !matches!(self.make(alloc, step)?, Went::On) {
                return Ok(());
            }
        }
        Ok(())
    }

    /// Tells the role that is wanted of all that it was not told of and that is not held from it, and says whether a worker has to
    /// be called, which may find more to do then.
    pub(crate) fn deliver(&mut self, alloc: Global) -> Result<bool, AllocError>
        ensures { self.new.world.scenario ≡ self.old.world.scenario }
    {
        self.tell_wanted(alloc)?;
        Ok(self.crew.call())
    }

    /// Performs the steps of the script that do not wait. All is over where the run is finished.
    pub(crate) fn perform(&mut self, alloc: Global) -> Result<(), AllocError>
        ensures { self.new.world.scenario ≡ self.old.world.scenario }
    {
        for _step in 0..=self.limit() {
            let Some(step) = self.world.next_script(alloc)? else {
                break;
            };
            if !matches!(self.make(alloc, step)?, Went::On) {
                break;
            }
        }
        if self.world.finished(alloc)? {
            self.over = true;
        }
        Ok(())
    }
}
