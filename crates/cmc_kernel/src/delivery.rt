//! Roles are told of accepted writes.
ghost use Rattle.std.specs.Prelude.{◌≡◌, ◌↔◌, ◌<◌, ◌≤◌, ◌+◌, ◌∷◌, IsTrue, IfOk, OnOk, OnErr, false, length};
ghost use Rattle.cmc_model.specs.Histories.{accepted};
ghost use Rattle.cmc_rules.specs.Legality.{IsOfKind, IsDelivery, IsListing};
ghost use Rattle.cmc_rules.specs.Positions.{position};
ghost use Rattle.cmc_rules.specs.Runs.{IsRun};
ghost use Rattle.cmc_rules.specs.Scripts as spec;
ghost use Rattle.cmc_model.specs.Writes.{write_at};
ghost use Rattle.cmc_moves.specs.Answers.{AnswersDelivery, Leaves, delivered};
ghost use Rattle.cmc_kernel.specs.Kept.{on};
ghost use Rattle.cmc_moves.specs.declared.moves.Move.TheVariants as moves;
ghost use Rattle.cmc_moves.specs.declared.moves.Stepped.TheVariants as answers;

use crate::kernel::{Kernel, has_room};
use cmc_held::{Log, is_held, told_of, with_told};
use cmc_meta::Kind;
use cmc_moves::{Stepped, answer_delivery};
use cmc_objects::{Entry, Role, has_informer};
use std::alloc::{AllocError, Global};

fn is_news(log: &Log, position: u64, to: u64, kind: Kind) -> bool
    ensures { IsTrue result ↔ ((position < to) × IsOfKind kind (write_at to log.now.writes)) }
{
    position < to && log.is_of_kind(to, kind)
}

/// Whether a watch over so many accepted writes reaches back to the position.
fn reaches(accepted: u64, position: u64, window: u64) -> bool
    ensures { IsTrue result ↔ (accepted ≤ position + window) }
{
    if accepted <= position {
        return true;
    }
    accepted - position <= window
}

impl Kernel {
    /// What `step` would answer to a delivery of the kind to the role up to the version `to`: the first refusal of the table,
    /// or that it would be made.
    pub fn judge_delivery(&self, role: Role, kind: Kind, to: u64) -> Stepped
        ensures { on AnswersDelivery self.now role kind to result }
    {
        let standing = self.role_states.get(role);
        let position = told_of(standing, kind);
        let log = self.caches.log();
        let newest = log.last_of_kind(kind);
        let news = is_news(log, position, to, kind);
        let entries = self.history.len();
        let room = has_room(entries, self.scenario.events(), 1);
        answer_delivery(
            standing.running,
            has_informer(role, kind),
            is_held(standing, kind),
            position,
            newest,
            to,
            news,
            entries,
            room,
        )
    }

    /// Whether the watch reaches back to the role's position.
    fn reaches_back(&self, role: Role, kind: Kind) -> bool
        ensures { IsTrue result ↔ (on accepted self.now ≤ position self.now.history role kind + self.now.scenario.window) }
    {
        let position = told_of(self.role_states.get(role), kind);
        reaches(
            self.caches.log().accepted(),
            position,
            self.scenario.window(),
        )
    }

    fn deliver(&mut self, alloc: Global, role: Role, kind: Kind, to: u64) -> Result<(), AllocError>
        requires may { on IsDelivery self.old role kind to }
        requires free { on spec.held self.old role kind ≡ false }
        requires room { length self.old.history < self.old.scenario.events }
        ensures ok { OnOk result (self.new ≡ record { scenario = self.old.scenario; history = Entry.Deliver role kind to ∷ self.old.history }) }
        ensures err { OnErr result (self.new ≡ self.old) }
    {
        self.history.reserve(1)?;
        self.caches.tell(alloc, role, kind, to)?;
        let standing = self.role_states.get(role);
        self.role_states.set(role, with_told(standing, kind, to));
        self.history.push(Entry::Deliver { role, kind, to });
        Ok(())
    }

    fn list(&mut self, alloc: Global, role: Role, kind: Kind, to: u64) -> Result<(), AllocError>
        requires may { on IsListing self.old role kind to }
        requires free { on spec.held self.old role kind ≡ false }
        requires room { length self.old.history < self.old.scenario.events }
        ensures ok { OnOk result (self.new ≡ record { scenario = self.old.scenario; history = Entry.List role kind to ∷ self.old.history }) }
        ensures err { OnErr result (self.new ≡ self.old) }
    {
        self.history.reserve(1)?;
        self.caches.tell(alloc, role, kind, to)?;
        let standing = self.role_states.get(role);
        self.role_states.set(role, with_told(standing, kind, to));
        self.history.push(Entry::List { role, kind, to });
        Ok(())
    }

    /// Tells the role so far, or lists what stands where the watch no longer reaches back.
    fn tell(&mut self, alloc: Global, role: Role, kind: Kind, to: u64) -> Result<(), AllocError>
        requires { on AnswersDelivery self.old role kind to answers.Done }
        ensures ok { OnOk result (self.new ≡ record { scenario = self.old.scenario; history = on delivered self.old role kind to ∷ self.old.history }) }
        ensures err { OnErr result (self.new ≡ self.old) }
    {
        if self.reaches_back(role, kind) {
            return self.deliver(alloc, role, kind, to);
        }
        let newest = self.caches.log().accepted();
        self.list(alloc, role, kind, newest)
    }

    /// Tells the role of the accepted writes of the kind up to the version `to`, as `step` does by the move `Deliver`.
    ///
    /// # Errors
    ///
    /// Where memory runs out, the world is as it was.
    pub fn step_deliver(
        &mut self,
        alloc: Global,
        role: Role,
        kind: Kind,
        to: u64,
    ) -> Result<Stepped, AllocError>
        ensures answer { IfOk result (λ r. on AnswersDelivery self.old role kind to r) }
        ensures scenario { self.new.scenario ≡ self.old.scenario }
        ensures leaves { IfOk result (λ r. on Leaves self.old (moves.Deliver role kind to) r self.new.history) }
        ensures run { on IsRun self.new }
        ensures err { OnErr result (self.new ≡ self.old) }
    {
        self.is_run();
        let answer = self.judge_delivery(role, kind, to);
        if !answer.is_done() {
            return Ok(answer);
        }
        self.tell(alloc, role, kind, to)?;
        self.is_run();
        Ok(Stepped::Done)
    }
}
