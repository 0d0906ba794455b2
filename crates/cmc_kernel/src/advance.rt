//! Passes go on: they ask, make their calls, and end.
ghost use Rattle.std.specs.Prelude.{◌≡◌, ◌+◌, ◌<◌, ◌∷◌, ℕ, IfOk, OnOk, OnErr, None, Some, length};
ghost use Rattle.cmc_pass.specs.GivenValues.{order_of, value_of};
ghost use Rattle.cmc_rules.specs.Acts.{act, call_after};
ghost use Rattle.cmc_rules.specs.Causes.{MayCall, MayAsk, MayEnd};
ghost use Rattle.cmc_rules.specs.Legality.{IsOpen};
ghost use Rattle.cmc_rules.specs.Runs.{IsRun};
ghost use Rattle.cmc_rules.specs.Desks.{desk as desk_at};
ghost use Rattle.cmc_model.specs.Replies as replies;
ghost use Rattle.cmc_rules.specs.Passes as spec;
ghost use Rattle.cmc_moves.specs.PassActions.{IsDoingBy, IsDoing, MayGoOn, IsGoingOn, IsJudged};
ghost use Rattle.cmc_kernel.specs.Advances.{IsCalling, IsClosing, MadeCall, AddsDoneEntry};
ghost use Rattle.cmc_moves.specs.Answers.{AnswersGive, AnswersGiven, AnswersNext, Leaves, is_done, kept_of, next_answer, outdated, value_entry};
ghost use Rattle.cmc_moves.specs.PassActions.{asked_in};
ghost use Rattle.cmc_kernel.specs.Kept.{on};
ghost use Rattle.cmc_moves.specs.declared.moves.Move.TheVariants as moves;

use crate::carriers::{PassEnd, PendingCall, PendingQuestion, ReceivedValue};
use crate::kernel::{Kernel, has_room};
use crate::notes::{kind_written, log_write, note_write, stage_of, writes_stand_in};
use cmc_moves::{
    Doing, Judged, Lack, Stepped, answer_of, answer_value, doing_of, ending_at, hangs_on_act,
    let_go, outdated_of,
};
use cmc_objects::{Call, Cause, Entry, Order, Who};
use cmc_pass::{Desk, Given};
use cmc_rules::{OpenPass, Origin, Stage};
use cmc_store::Replied;
use std::alloc::{AllocError, Global};

/// The call of the open pass, with what it needs to know of that. An error is one of memory.
fn calling_of(current: &OpenPass, call: Call) -> Result<PendingCall, AllocError>
    ensures role { IfOk result (λ c. c.role ≡ current.now.role) }
    ensures key { IfOk result (λ c. c.key ≡ current.now.key) }
    ensures named { IfOk result (λ c. c.named ≡ replies.key_of_call c.call) }
    ensures stand_in { IfOk result (λ c. c.stand_in ≡ spec.writes_temporary c.call) }
    ensures call { IfOk result (λ c. c.call ≡ call) }
{
    Ok(PendingCall {
        role: current.role,
        key: current.key.copy()?,
        named: call.key()?,
        stand_in: writes_stand_in(&call),
        call,
    })
}

impl Kernel {
    pub(crate) fn outdated_origin(&self, origin: Option<Origin>, named: u64) -> Option<u64>
        ensures { result ≡ on outdated self.now named origin }
    {
        match origin {
            None => None,
            Some(origin) => outdated_of(
                self.role_states.get(origin.role).incarnation,
                origin.incarnation,
                named,
            ),
        }
    }

    /// What the pass, which waits for no value, does next.
    fn doing(&self, alloc: Global, pass: u64, current: &OpenPass) -> Result<Doing, AllocError>
        requires opened { on spec.open_pass self.now pass ≡ Some current.now }
        requires free { kept_of (Some current.now) ≡ None }
        ensures { IfOk result (λ d. IsDoingBy current.now.stage (act current.now.role current.now.seen current.now.since (on desk_at self.now current.now.role current.now.seen)) (call_after current.now.role current.now.seen current.now.since) d) }
    {
        // Questions are counted for its act alone.
        if !hangs_on_act(&current.stage) {
            return doing_of(alloc, current, &self.desk);
        }
        let asked = self.questions.asked_for(current.role, &current.seen)?;
        if asked == 0 {
            return doing_of(alloc, current, &self.desk);
        }
        let desk = Desk {
            material: self.desk.material.copy()?,
            asked,
            rules: self.desk.rules.copy()?,
        };
        doing_of(alloc, current, &desk)
    }

    /// What the next move of the pass, which waits for no value, comes to.
    fn judge_doing(
        &self,
        alloc: Global,
        pass: u64,
        current: &OpenPass,
    ) -> Result<Judged, AllocError>
        requires opened { on spec.open_pass self.now pass ≡ Some current.now }
        requires free { kept_of (Some current.now) ≡ None }
        ensures { IfOk result (λ j. on IsGoingOn self.now pass j) }
    {
        let doing = self.doing(alloc, pass, current)?;
        let entries = self.history.len();
        if !has_room(entries, self.scenario.events(), 1) {
            let_go(doing);
            return Ok(Judged::Answer(Stepped::Spent { entries }));
        }
        Ok(Judged::Does(doing))
    }

    /// What the next move of the open pass comes to.
    fn judge_open(&self, alloc: Global, pass: u64, current: &OpenPass) -> Result<Judged, AllocError>
        requires { on spec.open_pass self.now pass ≡ Some current.now }
        ensures { IfOk result (λ j. on IsGoingOn self.now pass j) }
    {
        match &current.stage {
            Stage::Asked { order } => Ok(Judged::Answer(Stepped::Order {
                pass,
                order: order.copy()?,
            })),
            _ => self.judge_doing(alloc, pass, current),
        }
    }

    /// What the next move of the pass of this number comes to.
    fn judge_next(&self, alloc: Global, pass: u64, named: u64) -> Result<Judged, AllocError>
        ensures { IfOk result (λ j. on IsJudged self.now pass named j) }
    {
        if let Some(incarnation) = self.outdated_origin(self.origins.get(pass), named) {
            return Ok(Judged::Answer(Stepped::Ended { incarnation }));
        }
        match self.passes.get(pass) {
            Some(open) => self.judge_open(alloc, pass, open),
            None => Ok(Judged::Answer(Stepped::NotNow(Lack::NoPass { pass }))),
        }
    }

    /// What a value for the question of the open pass is answered.
    fn judge_value(&self, current: &OpenPass, given: &Given) -> Result<Stepped, AllocError>
        ensures { IfOk result (λ a. on AnswersGiven self.now (kept_of (Some current.now)) (order_of given.now) a) }
    {
        let Stage::Asked { order } = &current.stage else {
            return Ok(Stepped::NotNow(Lack::NotAsked));
        };
        let entries = self.history.len();
        let room = has_room(entries, self.scenario.events(), 1);
        answer_value(order, given, entries, room)
    }

    /// What the pass of this number is answered where it is given this.
    pub(crate) fn judge_give(
        &self,
        pass: u64,
        named: u64,
        given: &Given,
    ) -> Result<Stepped, AllocError>
        ensures { IfOk result (λ a. on AnswersGive self.now pass named given.now a) }
    {
        if let Some(incarnation) = self.outdated_origin(self.origins.get(pass), named) {
            return Ok(Stepped::Ended { incarnation });
        }
        match self.passes.get(pass) {
            Some(open) => self.judge_value(open, given),
            None => Ok(Stepped::NotNow(Lack::NoPass { pass })),
        }
    }

    fn calling(&self, pass: u64, call: Call) -> Result<PendingCall, AllocError>
        requires { IsOpen (on spec.open_pass self.now pass) }
        ensures calling { IfOk result (λ c. on IsCalling self.now pass c.call c) }
        ensures call { IfOk result (λ c. c.call ≡ call) }
    {
        match self.passes.get(pass) {
            Some(open) => calling_of(open, call),
            None => unreachable!(),
        }
    }

    /// Makes the call of an open pass.
    fn call(&mut self, alloc: Global, pass: u64, call: Call) -> Result<(), AllocError>
        requires may { on MayCall self.old (on spec.open_pass self.old pass) call }
        requires room { length self.old.history < self.old.scenario.events }
        ensures ok { OnOk result (MadeCall (Who.Pass pass) call self.old self.new) }
        ensures err { OnErr result (self.new ≡ self.old) }
    {
        self.is_short();
        let calling = self.calling(pass, call)?;
        self.history.reserve(1)?;
        self.caches.reserve(1)?;
        self.memories.ready(calling.role, &calling.key)?;
        let replied = self.store.call(alloc, self.moment, &calling.call)?;
        let entry = self.history.len() + 1;
        let stage = stage_of(
            &self.passes,
            pass,
            calling.stand_in,
            entry,
            &self.caches,
            &calling.named,
            &replied.reply,
        );
        let version = self.caches.log().accepted() + 1;
        let written = kind_written(&replied.key);
        note_write(
            &mut self.role_states,
            &mut self.memories,
            calling.role,
            &calling.key,
            written,
            version,
        );
        self.passes.advance(pass, stage);
        let Replied { reply, key, object } = replied;
        log_write(&mut self.caches, key, object);
        self.history.push(Entry::Call {
            who: Who::Pass(pass),
            call: calling.into_call(),
            reply,
        });
        Ok(())
    }

    fn closing(&self, pass: u64) -> Result<PassEnd, AllocError>
        requires { IsOpen (on spec.open_pass self.now pass) }
        ensures { IfOk result (λ c. on IsClosing self.now pass c) }
    {
        match self.passes.get(pass) {
            Some(open) => Ok(PassEnd {
                role: open.role,
                key: open.key.copy()?,
                ending: ending_at(&open.stage),
            }),
            None => unreachable!(),
        }
    }

    /// Ends an open pass.
    fn end(&mut self, pass: u64, cause: Cause) -> Result<(), AllocError>
        requires may { on MayEnd self.old (on spec.open_pass self.old pass) cause }
        requires room { length self.old.history < self.old.scenario.events }
        ensures ok { OnOk result (self.new ≡ record { scenario = self.old.scenario; history = Entry.End pass cause ∷ self.old.history }) }
        ensures err { OnErr result (self.new ≡ self.old) }
    {
        let closing = self.closing(pass)?;
        self.history.reserve(1)?;
        self.passes.close(pass);
        self.memories
            .ended(closing.role, &closing.key, closing.ending);
        self.history.push(Entry::End { pass, cause });
        Ok(())
    }

    /// Has an open pass ask its question.
    fn ask(&mut self, pass: u64, order: Order) -> Result<(), AllocError>
        requires stands { IsOpen (on spec.open_pass self.old pass) }
        requires may { on MayAsk self.old (on spec.open_pass self.old pass) order }
        requires room { length self.old.history < self.old.scenario.events }
        ensures ok { OnOk result (self.new ≡ record { scenario = self.old.scenario; history = Entry.Ask pass order ∷ self.old.history }) }
        ensures err { OnErr result (self.new ≡ self.old) }
    {
        self.is_short();
        let asking = PendingQuestion::of(order)?;
        self.history.reserve(1)?;
        self.questions.note(&asking.order)?;
        let (order, kept) = asking.into_parts();
        self.passes.advance(pass, Stage::Asked { order: kept });
        self.history.push(Entry::Ask { pass, order });
        Ok(())
    }

    /// Gives an open pass the value of its question.
    fn take(&mut self, pass: u64, given: Given) -> Result<(), AllocError>
        requires kept { kept_of (on spec.open_pass self.old pass) ≡ Some (order_of given) }
        requires room { length self.old.history < self.old.scenario.events }
        ensures ok { OnOk result (self.new ≡ record { scenario = self.old.scenario; history = value_entry pass (value_of given) ∷ self.old.history }) }
        ensures err { OnErr result (self.new ≡ self.old) }
    {
        let taking = ReceivedValue::of(pass, given)?;
        self.history.reserve(1)?;
        let (order, value, entry) = taking.into_parts();
        self.passes.advance(pass, Stage::Given { order, value });
        self.history.push(entry);
        Ok(())
    }

    /// Has an open pass do what comes next of it.
    fn go_on(&mut self, alloc: Global, pass: u64, doing: Doing) -> Result<(), AllocError>
        requires stands { IsOpen (on spec.open_pass self.old pass) }
        requires does { on IsDoing self.old pass doing }
        requires room { length self.old.history < self.old.scenario.events }
        ensures ok { OnOk result (AddsDoneEntry pass doing self.old self.new) }
        ensures err { OnErr result (self.new ≡ self.old) }
    {
        match doing {
            Doing::Call(call) => self.call(alloc, pass, call),
            Doing::Ask(order) => self.ask(pass, order),
            Doing::End(cause) => self.end(pass, cause),
        }
    }

    /// Has an open pass do what comes next of it, and answers the move.
    pub(crate) fn make_next(
        &mut self,
        alloc: Global,
        pass: u64,
        doing: Doing,
    ) -> Result<Stepped, AllocError>
        requires stands { IsOpen (on spec.open_pass self.old pass) }
        requires goes { on MayGoOn self.old pass doing }
        ensures answer { IfOk result (λ r. r ≡ next_answer pass (asked_in doing)) }
        ensures scenario { self.new.scenario ≡ self.old.scenario }
        ensures leaves { IfOk result (λ r. (named : ℕ) → on Leaves self.old (moves.Next pass named) r self.new.history) }
        ensures err { OnErr result (self.new ≡ self.old) }
    {
        let answer = match answer_of(pass, &doing) {
            Ok(answer) => answer,
            Err(lack) => {
                let_go(doing);
                return Err(lack);
            }
        };
        self.go_on(alloc, pass, doing)?;
        Ok(answer)
    }

    /// Has the pass of this number, begun while its role had the incarnation `named`, go on, by the move `Next`.
    ///
    /// # Errors
    ///
    /// Where memory runs out, the world is as it was.
    pub fn step_next(&mut self, alloc: Global, pass: u64, named: u64) -> Result<Stepped, AllocError>
        ensures answer { IfOk result (λ r. on AnswersNext self.old pass named r) }
        ensures scenario { self.new.scenario ≡ self.old.scenario }
        ensures leaves { IfOk result (λ r. on Leaves self.old (moves.Next pass named) r self.new.history) }
        ensures run { on IsRun self.new }
        ensures err { OnErr result (self.new ≡ self.old) }
    {
        self.is_run();
        match self.judge_next(alloc, pass, named)? {
            Judged::Answer(answer) => Ok(answer),
            Judged::Does(doing) => {
                let answer = self.make_next(alloc, pass, doing)?;
                self.is_run();
                Ok(answer)
            }
        }
    }

    /// Gives the pass of this number, begun while its role had the incarnation `named`, a value, by the move `Give`.
    ///
    /// # Errors
    ///
    /// Where memory runs out, the world is as it was.
    pub fn step_give(&mut self, pass: u64, named: u64, given: Given) -> Result<Stepped, AllocError>
        ensures answer { IfOk result (λ r. on AnswersGive self.old pass named given r) }
        ensures scenario { self.new.scenario ≡ self.old.scenario }
        ensures leaves { IfOk result (λ r. on Leaves self.old (moves.Give pass named given) r self.new.history) }
        ensures run { on IsRun self.new }
        ensures err { OnErr result (self.new ≡ self.old) }
    {
        self.is_run();
        let answer = self.judge_give(pass, named, &given)?;
        if !answer.is_done() {
            return Ok(answer);
        }
        self.take(pass, given)?;
        self.is_run();
        Ok(Stepped::Done)
    }
}
