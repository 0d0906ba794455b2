//! Roles begin passes.
ghost use Rattle.std.specs.Option.{option_copied};
ghost use Rattle.std.specs.Prelude.{◌≡◌, ◌↔◌, ◌<◌, ◌∷◌, ◌&&◌, not, IsTrue, IfOk, OnOk, OnErr, true};
ghost use Rattle.cmc_rules.specs.Sameness as sameness;
ghost use Rattle.cmc_held.specs.OneRun.{IsOfOneRun};
ghost use Rattle.cmc_held.specs.Remembered.{past_or_new};
ghost use Rattle.cmc_rules.specs.Memory.{past};
ghost use Rattle.cmc_rules.specs.Passes.{IsWorking, new_pass};
ghost use Rattle.cmc_rules.specs.Positions.{positions};
ghost use Rattle.cmc_rules.specs.Runs.{IsRun};
ghost use Rattle.cmc_model.specs.Histories.{moment, runs};
ghost use Rattle.cmc_rules.specs.Views.{views};
ghost use Rattle.cmc_rules.specs.Sameness.{IsDue, IsSame};
ghost use Rattle.cmc_objects.specs.Informers as spec;
ghost use Rattle.cmc_model.specs.Writes.{is_known};
ghost use Rattle.cmc_moves.specs.Answers.{AnswersBegin, IsQueued, Leaves, beginning};
ghost use Rattle.cmc_kernel.specs.Kept.{on};
ghost use Rattle.cmc_kernel.specs.Prepared.{IsPrepared};
ghost use Rattle.cmc_moves.specs.declared.moves.Move.TheVariants as moves;
ghost use Rattle.cmc_moves.specs.declared.moves.Stepped.TheVariants as answers;

use crate::kernel::{Kernel, has_room};
use cmc_caches::Caches;
use cmc_held::{is_same, own_above, shown_positions};
use cmc_meta::Key;
use cmc_moves::{Stepped, answer_begin};
use cmc_objects::{Entry, Positions, Role, Shared, kind_of_work};
use cmc_pass::Views;
use cmc_rules::{OpenPass, Origin, Past, Stage};
use std::alloc::{AllocError, Global};

/// A pass that is ready to begin.
#[derive(Drop)]
pub(crate) struct Prepared {
    pub number: u64,
    pub origin: Origin,
    pub pass: OpenPass,
    pub seen: Shared<Views>,
    pub key: Key,
    pub at: Positions,
}

/// The first own write of which the role was not told.
fn own_write(past: Option<&Past>, at: Positions) -> Option<u64>
    ensures { result ≡ sameness.own_above (past_or_new (option_copied past.entry)).own at }
{
    let none = Positions {
        certificates: 0,
        requests: 0,
        secrets: 0,
    };
    match past {
        Some(past) => own_above(past.own, at),
        None => own_above(none, at),
    }
}

/// Whether a pass that sees this would be the last one again.
fn is_again(past: Option<&Past>, seen: &Views, now: i64, at: Positions) -> bool
    requires { IsOfOneRun (past_or_new (option_copied past)).last seen.now }
    ensures { IsTrue result ↔ IsSame (past_or_new (option_copied past.entry)).last seen.now now at }
{
    match past {
        Some(past) => is_same(&past.last, seen, now, at),
        None => false,
    }
}

/// Whether the key is one of the role's kind of work, and an accepted write named it.
fn is_of_work(caches: &Caches, role: Role, key: &Key) -> bool
    ensures { IsTrue result ↔ ((key.now.kind ≡ spec.kind_of_work role) × (is_known key.now caches.now.writes ≡ true)) }
{
    key.kind.same(kind_of_work(role)) && caches.knows(key)
}

/// Whether a key of the role's work is in its queue.
fn is_queued(of_work: bool, quiet: bool) -> bool
    ensures { result ≡ (of_work && not quiet) }
{
    of_work && !quiet
}

/// A pass of the role that begins on the key, of which it sees this. An error is one of memory.
fn opened(role: Role, key: &Key, seen: &Shared<Views>, since: i64) -> Result<OpenPass, AllocError>
    ensures { IfOk result (λ pass. pass ≡ new_pass role key.now seen.now since) }
{
    Ok(OpenPass {
        role,
        key: key.copy()?,
        seen: seen.copy()?,
        since,
        stage: Stage::Fresh,
    })
}

impl Kernel {
    /// What a begin is answered of a role that sees this of the key.
    fn judge_seen(
        &self,
        alloc: Global,
        role: Role,
        key: &Key,
        seen: &Views,
    ) -> Result<Stepped, AllocError>
        requires { seen.now ≡ on views self.now role key.now }
        ensures { IfOk result (λ a. on AnswersBegin self.now role key.now a) }
    {
        let standing = self.role_states.get(role);
        let at = shown_positions(role, standing.told);
        let working = self.passes.is_on(role, key);
        let past = self.memories.get(role, key);
        let own = own_write(past, at);
        self.saw_one_run(role, key);
        let same = is_again(past, seen, self.moment, at);
        let of_work = is_of_work(&self.caches, role, key);
        let quiet = self.is_quiet(alloc, role, key, seen)?;
        let queued = is_queued(of_work, quiet);
        let entries = self.history.len();
        let room = has_room(entries, self.scenario.events(), 1);
        Ok(answer_begin(standing.running, working, own, same, queued, entries, room))
    }

    /// The pass that is to begin on the key, of which the role sees this.
    fn prepare(&self, role: Role, key: Key, seen: Shared<Views>) -> Result<Prepared, AllocError>
        requires { seen ≡ on views self.now role key }
        ensures { IfOk result (λ p. on IsPrepared self.now role key p) }
    {
        self.is_short();
        let standing = self.role_states.get(role);
        let at = shown_positions(role, standing.told);
        let pass = opened(role, &key, &seen, self.moment)?;
        Ok(Prepared {
            number: self.origins.len() + 1,
            origin: Origin {
                role,
                incarnation: standing.incarnation,
            },
            pass,
            seen,
            key,
            at,
        })
    }

    fn open(&mut self, role: Role, prepared: Prepared) -> Result<(), AllocError>
        requires may { on AnswersBegin self.old role prepared.key answers.Done }
        requires right { on IsPrepared self.old role prepared.key prepared }
        ensures ok { OnOk result (self.new ≡ record { scenario = self.old.scenario; history = on beginning self.old role prepared.key ∷ self.old.history }) }
        ensures err { OnErr result (self.new ≡ self.old) }
    {
        self.history.reserve(1)?;
        self.origins.reserve(1)?;
        self.memories.ready(role, &prepared.key)?;
        let Prepared {
            number,
            origin,
            pass,
            seen,
            key,
            at,
        } = prepared;
        let since = self.moment;
        self.passes.open(number, pass)?;
        self.memories.begin(role, &key, seen, since);
        self.origins.push(origin);
        self.history.push(Entry::Begin {
            pass: number,
            role,
            key,
            at,
            now: since,
        });
        Ok(())
    }

    /// Begins a pass of the role on the key, by the move `Begin`.
    ///
    /// # Errors
    ///
    /// Where memory runs out, the world is as it was.
    pub fn step_begin(&mut self, alloc: Global, role: Role, key: Key) -> Result<Stepped, AllocError>
        ensures answer { IfOk result (λ r. on AnswersBegin self.old role key r) }
        ensures scenario { self.new.scenario ≡ self.old.scenario }
        ensures leaves { IfOk result (λ r. on Leaves self.old (moves.Begin role key) r self.new.history) }
        ensures run { on IsRun self.new }
        ensures err { OnErr result (self.new ≡ self.old) }
    {
        self.is_run();
        let seen = self.views(alloc, role, &key)?;
        let answer = self.judge_seen(alloc, role, &key, &seen)?;
        if !answer.is_done() {
            return Ok(answer);
        }
        let prepared = self.prepare(role, key, seen)?;
        self.open(role, prepared)?;
        self.is_run();
        Ok(Stepped::Done)
    }

    /// Begins a pass of the role on the key, of which it sees this, as `step_begin` does; it is known that it may, and that the key is
    /// in its queue. Who has just found that need not ask again, and room alone is looked for.
    ///
    /// # Errors
    ///
    /// Where memory runs out, the world is as it was.
    pub fn begin_due(
        &mut self,
        role: Role,
        key: Key,
        seen: Shared<Views>,
    ) -> Result<Stepped, AllocError>
        requires running { on runs self.old role ≡ true }
        requires free { on IsWorking self.old role key → ⊥ }
        requires due { IsDue (on past self.old role key) seen (on moment self.old) (positions self.old.history role) }
        requires queued { on IsQueued self.old role key }
        requires sees { seen ≡ on views self.old role key }
        ensures answer { IfOk result (λ r. on AnswersBegin self.old role key r) }
        ensures scenario { self.new.scenario ≡ self.old.scenario }
        ensures leaves { IfOk result (λ r. on Leaves self.old (moves.Begin role key) r self.new.history) }
        ensures run { on IsRun self.new }
        ensures err { OnErr result (self.new ≡ self.old) }
    {
        self.is_run();
        let entries = self.history.len();
        if !has_room(entries, self.scenario.events(), 1) {
            return Ok(Stepped::Spent { entries });
        }
        let prepared = self.prepare(role, key, seen)?;
        self.open(role, prepared)?;
        self.is_run();
        Ok(Stepped::Done)
    }
}
