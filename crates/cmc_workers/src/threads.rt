//! The threads: workers that take passes, one that delivers, and one that performs the script.
//!
//! They meet at one lock, and each sort sleeps at a condition variable of its own, so that whoever moved wakes one thread
//! that may go on with it, and not all. They wake each other in a ring: a worker or the script that moved wakes the thread
//! that delivers, this wakes a worker, and a worker that finds nothing to do wakes the script. The script wakes nobody
//! unless it moved, so idle threads do not wake each other for ever. A worker that goes away wakes another one where all the
//! others sleep or are away too. What is handed out (keys, signatures, issuers'
//! answers, judgements) is made outside the lock, after the gate, and there issuing and the request manager decide, which
//! read certificates and keys for it.
ghost use Rattle.std.specs.Prelude.{◌≡◌, IfOk, IfSome};
ghost use Rattle.cmc_workers.specs.Drives.{CanBeDone};

use crate::errands::{Answer, Errand, Outcome, Task};
use crate::shared::{Departure, Shared};
use cmc_answers::Signer;
use cmc_kernel::{Begun, decide};
use cmc_keys::KeyMaker;
use cmc_world::{Gate, World, value_for};
use std::alloc::{AllocError, Global};
use std::sync::{Condvar, Mutex, Wait};
use std::thread;
use std::thread::Threads;

/// Has the role of the pass decide on what the pass saw.
fn decided(alloc: Global, begun: Begun) -> Result<Answer, AllocError> {
    match decide(alloc, begun)? {
        Some(decided) => Ok(Answer::Decision(decided)),
        None => Ok(Answer::Nothing),
    }
}

/// Makes what the pass waits for.
fn made<M: KeyMaker, N: Signer>(
    alloc: Global,
    task: Task,
    keys: &M,
    signer: &N,
) -> Result<Answer, AllocError>
    requires { CanBeDone task }
{
    match task {
        Task::Value(order) => Ok(Answer::Value(value_for(alloc, &order, keys, signer)?)),
        Task::Decision(begun) => decided(alloc, begun),
    }
}

/// Does the errand, after the gate.
fn done<M: KeyMaker, N: Signer, G: Gate>(
    alloc: Global,
    errand: Errand,
    keys: &M,
    signer: &N,
    gate: &G,
) -> Result<Outcome, AllocError>
    requires { CanBeDone errand.task }
{
    let (taken, point, task) = errand.into_parts();
    gate.at(point);
    let answer = made(alloc, task, keys, signer)?;
    Ok(Outcome::new(taken, answer))
}

/// What the threads share.
struct Hall {
    shared: Mutex<Shared>,
    /// Where workers sleep while no pass can go on or begin.
    to_work: Condvar,
    /// Where the thread that delivers sleeps.
    to_deliver: Condvar,
    /// Where the thread that performs the script sleeps.
    to_perform: Condvar,
}

impl Hall {
    /// Wakes all threads.
    fn wake_all(&self) {
        self.to_work.notify_all();
        self.to_deliver.notify_all();
        self.to_perform.notify_all();
    }

    /// Wakes a worker, where one is called.
    fn call(&self, calls: bool) {
        if calls {
            self.to_work.notify_one();
        }
    }

    /// Goes away with the errand. This thread may stay away for long, and another one may find more to do.
    fn leave(&self, departure: Departure) -> Errand
        ensures { result ≡ departure.errand }
    {
        let (errand, calls) = departure.into_parts();
        self.call(calls);
        errand
    }

    /// Ends the work of all threads.
    fn stop<R: Wait>(&self, rt: &R) {
        self.shared.lock(rt).over = true;
        self.wake_all();
    }

    /// Wakes the thread that has to go on where a worker finds nothing more to do: that of the script where all is
    /// delivered, or where what the worker did may be what the script waits for.
    fn pass_on(&self, alloc: Global, shared: &Shared, moved: bool) -> Result<(), AllocError> {
        let delivers = shared.is_to_deliver(alloc)?;
        if moved || delivers {
            self.to_deliver.notify_one();
        }
        if !moved && !delivers || shared.waits_for_count() {
            self.to_perform.notify_one();
        }
        Ok(())
    }

    /// The next errand of a worker. Waits while no pass can begin. `None` where all is over.
    fn next<R: Wait>(&self, rt: &R, alloc: Global) -> Result<Option<Errand>, AllocError>
        ensures { IfOk result (λ e. IfSome e (λ errand. CanBeDone errand.task)) }
    {
        let mut shared = self.shared.lock(rt);
        for _ in rt.forever() {
            if shared.over {
                self.wake_all();
                return Ok(None);
            }
            let before = shared.entries();
            if let Some(departure) = shared.take(alloc)? {
                drop(shared);
                return Ok(Some(self.leave(departure)));
            }
            if !shared.over {
                self.pass_on(alloc, &shared, before < shared.entries())?;
                shared = self.to_work.wait(rt, shared);
            }
        }
        unreachable!()
    }

    /// Goes on with the pass for which the worker comes back, and then with others, up to the next errand; `None` where there
    /// is none without waiting for it.
    fn come_back<R: Wait>(
        &self,
        rt: &R,
        alloc: Global,
        outcome: Outcome,
    ) -> Result<Option<Errand>, AllocError>
        ensures { IfOk result (λ e. IfSome e (λ errand. CanBeDone errand.task)) }
    {
        let mut shared = self.shared.lock(rt);
        if let Some(departure) = shared.come_back(alloc, outcome)? {
            drop(shared);
            return Ok(Some(self.leave(departure)));
        }
        self.pass_on(alloc, &shared, true)?;
        Ok(None)
    }

    /// Does errands one after another until none is left without waiting for it.
    fn do_errands<R: Wait, M: KeyMaker, N: Signer, G: Gate>(
        &self,
        rt: &R,
        alloc: Global,
        first: Errand,
        keys: &M,
        signer: &N,
        gate: &G,
    ) -> Result<(), AllocError>
        requires { CanBeDone first.task }
    {
        let mut errand = first;
        for _round in rt.forever() {
            let outcome = done(alloc, errand, keys, signer, gate)?;
            match self.come_back(rt, alloc, outcome)? {
                Some(next) => errand = next,
                None => return Ok(()),
            }
        }
        unreachable!()
    }

    /// Takes passes until all is over.
    fn take_passes<R: Wait, M: KeyMaker, N: Signer, G: Gate>(
        &self,
        rt: &R,
        alloc: Global,
        keys: &M,
        signer: &N,
        gate: &G,
    ) -> Result<(), AllocError> {
        for _ in rt.forever() {
            let Some(errand) = self.next(rt, alloc)? else {
                return Ok(());
            };
            self.do_errands(rt, alloc, errand, keys, signer, gate)?;
        }
        unreachable!()
    }

    /// The work of one worker. Where memory is wanting, all is over.
    fn work<R: Wait, M: KeyMaker, N: Signer, G: Gate>(
        &self,
        rt: &R,
        alloc: Global,
        keys: &M,
        signer: &N,
        gate: &G,
    ) {
        if self.take_passes(rt, alloc, keys, signer, gate).is_err() {
            self.stop(rt);
        }
    }

    /// Delivers until all is over, and wakes a worker each time.
    fn deliver_all<R: Wait>(&self, rt: &R, alloc: Global) -> Result<(), AllocError> {
        let mut shared = self.shared.lock(rt);
        for _ in rt.forever() {
            let calls = shared.deliver(alloc)?;
            if shared.over {
                self.wake_all();
                return Ok(());
            }
            self.call(calls);
            shared = self.to_deliver.wait(rt, shared);
        }
        unreachable!()
    }

    /// The work of the thread that delivers. Where memory is wanting, all is over.
    fn deliver<R: Wait>(&self, rt: &R, alloc: Global) {
        if self.deliver_all(rt, alloc).is_err() {
            self.stop(rt);
        }
    }

    /// Performs the script until all is over, and wakes the thread that delivers where it moved.
    fn perform_all<R: Wait>(&self, rt: &R, alloc: Global) -> Result<(), AllocError> {
        let mut shared = self.shared.lock(rt);
        for _ in rt.forever() {
            let before = shared.entries();
            shared.perform(alloc)?;
            if shared.over {
                self.wake_all();
                return Ok(());
            }
            if before < shared.entries() {
                self.to_deliver.notify_one();
            }
            shared = self.to_perform.wait(rt, shared);
        }
        unreachable!()
    }

    /// The work of the thread that performs the script. Where memory is wanting, all is over.
    fn perform<R: Wait>(&self, rt: &R, alloc: Global) {
        if self.perform_all(rt, alloc).is_err() {
            self.stop(rt);
        }
    }
}

/// The world as the threads leave it: finished, or where one of them wanted memory or room, or could not be started.
pub(crate) fn in_threads<R: Threads + Wait + Sync, M: KeyMaker, N: Signer, G: Gate>(
    rt: &R,
    alloc: Global,
    world: World,
    keys: &M,
    signer: &N,
    gate: &G,
    workers: u32,
) -> World {
    let hall = Hall {
        shared: Mutex::new(Shared::new(world, workers)),
        to_work: Condvar::new(),
        to_deliver: Condvar::new(),
        to_perform: Condvar::new(),
    };
    let at = &hall;
    thread::scope(thread::scope_env(), rt, |scope| {
        for _worker in 0..workers {
            if scope
                .spawn(move || at.work(rt, alloc, keys, signer, gate))
                .is_err()
            {
                at.stop(rt);
            }
        }
        if scope.spawn(move || at.perform(rt, alloc)).is_err() {
            at.stop(rt);
        }
        if scope.spawn(move || at.deliver(rt, alloc)).is_err() {
            at.stop(rt);
        }
    });
    let Hall {
        shared,
        to_work: _,
        to_deliver: _,
        to_perform: _,
    } = hall;
    shared.into_inner().world
}
