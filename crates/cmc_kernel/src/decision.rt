//! Decisions that are made elsewhere: what a pass saw is taken out of the world, its role decides on it, and the decision is
//! handed in. So what takes long holds up nothing else.
ghost use Rattle.std.specs.Prelude.{◌≡◌, ℕ, IfOk, OnErr, None, Some, option_map, true};
ghost use Rattle.cmc_rules.specs.Passes.{open_pass};
ghost use Rattle.cmc_safety.specs.MayAct.{MayAct};
ghost use Rattle.cmc_moves.specs.PassActions.{IsGoingOn, IsTaken, IsTaking};
ghost use Rattle.cmc_rules.specs.Runs.{IsRun};
ghost use Rattle.cmc_moves.specs.Answers.{AnswersDecide, AnswersGoing, Leaves, asked_by};
ghost use Rattle.cmc_moves.specs.Prospects.{IsFirstAct};
ghost use Rattle.cmc_moves.specs.Decisions as spec;
ghost use Rattle.cmc_moves.specs.Decisions.{SawSame, begun_of};
ghost use Rattle.cmc_kernel.specs.Kept.{on};
ghost use Rattle.cmc_moves.specs.declared.moves.Move.TheVariants as moves;

use crate::kernel::{Kernel, has_room};
use cmc_moves::{Begun, Decided, Judged, Lack, Stepped, first_doing, is_undecided, let_go};
use cmc_pass::Act;
use cmc_rules::OpenPass;
use std::alloc::{AllocError, Global};

impl Kernel {
    /// A law: what an open pass saw meets all that its controller takes for granted, at a desk with nothing on it too.
    fn can_decide(&self, pass: u64, current: &OpenPass)
        requires { on open_pass self.now pass ≡ Some current.now }
        ensures { MayAct current.now.seen current.now.since spec.bare_desk }
    {
        self.is_run();
        self.is_formed();
    }

    fn begun_by(&self, pass: u64, current: &OpenPass) -> Result<Begun, AllocError>
        requires { on open_pass self.now pass ≡ Some current.now }
        ensures { IfOk result (λ b. b ≡ begun_of current.now) }
    {
        self.can_decide(pass, current);
        let seen = current.seen.copy()?;
        Ok(Begun::new(current.role, seen, current.since))
    }

    /// What the pass of this number saw as it began; `None` exactly where no such pass is open.
    pub fn begun(&self, pass: u64) -> Result<Option<Begun>, AllocError>
        ensures { IfOk result (λ b. b ≡ option_map begun_of (on open_pass self.now pass)) }
    {
        match self.passes.get(pass) {
            Some(open) => Ok(Some(self.begun_by(pass, open)?)),
            None => Ok(None),
        }
    }

    /// What comes next of the pass, which has only begun, by a decision on what it saw.
    fn judge_act(
        &self,
        pass: u64,
        current: &OpenPass,
        decided: &Decided,
    ) -> Result<Judged, AllocError>
        requires opened { on open_pass self.now pass ≡ Some current.now }
        requires undecided { spec.is_undecided current.now ≡ true }
        requires same { SawSame decided.now (Some current.now) }
        ensures { IfOk result (λ j. on IsGoingOn self.now pass j) }
    {
        let doing = first_doing(decided.act().copy()?)?;
        let entries = self.history.len();
        if !has_room(entries, self.scenario.events(), 1) {
            let_go(doing);
            return Ok(Judged::Answer(Stepped::Spent { entries }));
        }
        Ok(Judged::Does(doing))
    }

    /// What a decision for the open pass comes to.
    fn judge_decided(
        &self,
        pass: u64,
        current: &OpenPass,
        decided: &Decided,
    ) -> Result<Judged, AllocError>
        requires { on open_pass self.now pass ≡ Some current.now }
        ensures { IfOk result (λ j. on IsTaking self.now pass decided.now j) }
    {
        if !is_undecided(current) {
            return Ok(Judged::Answer(Stepped::NotNow(Lack::Settled)));
        }
        if !decided.is_for(current) {
            return Ok(Judged::Answer(Stepped::OtherViews { pass }));
        }
        self.judge_act(pass, current, decided)
    }

    /// What a decision for the pass of this number comes to.
    fn judge_decide(&self, pass: u64, named: u64, decided: &Decided) -> Result<Judged, AllocError>
        ensures { IfOk result (λ j. on IsTaken self.now pass named decided.now j) }
    {
        if let Some(incarnation) = self.outdated_origin(self.origins.get(pass), named) {
            return Ok(Judged::Answer(Stepped::Ended { incarnation }));
        }
        match self.passes.get(pass) {
            Some(open) => self.judge_decided(pass, open, decided),
            None => Ok(Judged::Answer(Stepped::NotNow(Lack::NoPass { pass }))),
        }
    }

    /// Has the pass of this number, begun while its role had the incarnation `named`, go on by a decision that is handed in for
    /// it, by the move `Decide`.
    ///
    /// # Errors
    ///
    /// Where memory runs out, the world is as it was.
    pub fn step_decide(
        &mut self,
        alloc: Global,
        pass: u64,
        named: u64,
        decided: Decided,
    ) -> Result<Stepped, AllocError>
        ensures answer { IfOk result (λ r. on AnswersDecide self.old pass named decided r) }
        ensures scenario { self.new.scenario ≡ self.old.scenario }
        ensures leaves { IfOk result (λ r. on Leaves self.old (moves.Decide pass named decided) r self.new.history) }
        ensures run { on IsRun self.new }
        ensures err { OnErr result (self.new ≡ self.old) }
    {
        self.is_run();
        let judged = self.judge_decide(pass, named, &decided);
        let_go(decided);
        match judged? {
            Judged::Answer(answer) => Ok(answer),
            Judged::Does(doing) => {
                let answer = self.make_next(alloc, pass, doing)?;
                self.is_run();
                Ok(answer)
            }
        }
    }

    /// Has an open pass that has done nothing yet go on by its act, as the next move of the pass would. Who has just found the
    /// act need not ask the role again.
    ///
    /// # Errors
    ///
    /// Where memory runs out, the world is as it was.
    pub fn act_first(&mut self, alloc: Global, pass: u64, does: Act) -> Result<Stepped, AllocError>
        requires { on IsFirstAct self.old pass does }
        ensures answer { IfOk result (λ r. on AnswersGoing self.old pass None (asked_by does) r) }
        ensures scenario { self.new.scenario ≡ self.old.scenario }
        ensures leaves { IfOk result (λ r. (named : ℕ) → on Leaves self.old (moves.Next pass named) r self.new.history) }
        ensures run { on IsRun self.new }
        ensures err { OnErr result (self.new ≡ self.old) }
    {
        self.is_run();
        let entries = self.history.len();
        if !has_room(entries, self.scenario.events(), 1) {
            let_go(does);
            return Ok(Stepped::Spent { entries });
        }
        let doing = first_doing(does)?;
        let answer = self.make_next(alloc, pass, doing)?;
        self.is_run();
        Ok(answer)
    }
}
