//! The next step of the script is made, with what it brings about.
ghost use Rattle.std.specs.List.{All, list_all};
ghost use Rattle.std.specs.Option.{option_copied};
ghost use Rattle.std.specs.Prelude.{◌≡◌, ◌↔◌, IsTrue, ◌+◌, ◌-◌, ◌<◌, ◌≤◌, ◌^◌, ◌∷◌, ◌+ℤ◌, pos, IfOk, OnOk, OnErr, None, Some, length, slice_get, true, if◌then◌else◌};
ghost use Rattle.cmc_objects.specs.declared.entry.Who.TheVariants as who;
ghost use Rattle.cmc_objects.specs.declared.role.Role.{Role as RoleValue};
ghost use Rattle.cmc_objects.specs.Objects.{key_of};
ghost use Rattle.cmc_objects.specs.Requests.{is_run_time};
ghost use Rattle.cmc_rules.specs.declared.effect.Effect.TheVariants as effects;
ghost use Rattle.cmc_rules.specs.Rights.{KeepsRights};
ghost use Rattle.cmc_rules.specs.Runs.{IsRun};
ghost use Rattle.cmc_rules.specs.Safety.{IsSafe};
ghost use Rattle.cmc_rules.specs.UserSteps as following;
ghost use Rattle.cmc_rules.specs.UserSteps.{IsReady, apply_call, call_of};
ghost use Rattle.cmc_model.specs.Histories.{role_eq};
ghost use Rattle.cmc_model.specs.Objects.{object_at};
ghost use Rattle.cmc_rules.specs.Scripts as scripting;
ghost use Rattle.cmc_rules.specs.Scripts.{scripted, step_at};
ghost use Rattle.cmc_held.specs.RoleStates.{role_state_of};
ghost use Rattle.cmc_setup.specs.Forms.{is_step_form};
ghost use Rattle.cmc_setup.specs.Setups.{IsSetup, IsTickForm, step_seconds};
ghost use Rattle.cmc_kernel.specs.Advances.{MadeCall};
ghost use Rattle.cmc_moves.specs.Answers as spec;
ghost use Rattle.cmc_kernel.specs.Changes.{each_at, keeping, scripted_standing, starting, stopping};
ghost use Rattle.cmc_kernel.specs.Kept.{on};
ghost use Rattle.cmc_kernel.specs.Scripted.{effect_in, role_state_after};
ghost use Rattle.cmc_rules.specs.UserSteps.{effect_besides, effect_on};
ghost use Rattle.cmc_moves.specs.declared.moves.Move.TheVariants as moves;
ghost use Rattle.cmc_moves.specs.declared.moves.Stepped.TheVariants as answers;

use crate::kernel::{Kernel, has_room};
use crate::notes::log_write;
use cmc_held::{RoleState, RoleStates, shown_positions, with_held, written_of};
use cmc_meta::Kind;
use cmc_moves::{Lack, Stepped, answer, answer_script, approve, deny, renew, request_for};
use cmc_objects::{Call, Entry, Object, Positions, Role, Step, Who};
use cmc_rules::Effect;
use cmc_setup::Scenario;
use cmc_store::{Replied, Store};
use std::alloc::{AllocError, Global};

/// The call that applies the object to what the store has.
fn call_of_apply(store: &Store, object: &Object, version: Option<u64>) -> Result<Call, AllocError>
    ensures { IfOk result (λ c. c ≡ apply_call object.now version (object_at store.now.state.objects (key_of object.now))) }
{
    let object = object.copy()?;
    if let Some(version) = version {
        return Ok(Call::Update { object, version });
    }
    let key = object.key()?;
    match store.peek(&key) {
        None => Ok(Call::Create {
            object,
            generate: false,
        }),
        Some(old) => {
            let version = old.meta().version;
            Ok(Call::Update { object, version })
        }
    }
}

/// The user call that the step makes at this moment on what the store has; none where it makes none.
#[tactic(auto, unfolding(cmc_rules::specs::UserSteps::call_of))]
fn call_for(
    store: &Store,
    alloc: Global,
    moment: i64,
    step: &Step,
) -> Result<Option<Call>, AllocError>
    requires moment { is_run_time moment ≡ true }
    requires form { is_step_form step.now ≡ true }
    ensures { IfOk result (λ c. c ≡ call_of moment store.now.state.objects step.now) }
{
    match step {
        Step::Apply { object, version } => Ok(Some(call_of_apply(store, object, *version)?)),
        Step::Delete { key, version } => Ok(Some(Call::Delete {
            key: key.copy()?,
            version: *version,
        })),
        Step::Approve {
            certificate,
            revision,
        } => approve(alloc, moment, request_for(store, certificate, *revision)),
        Step::Deny {
            certificate,
            revision,
        } => deny(alloc, moment, request_for(store, certificate, *revision)),
        Step::Answer {
            certificate,
            revision,
            row,
        } => answer(
            alloc,
            row,
            moment,
            request_for(store, certificate, *revision),
        ),
        Step::Renew { certificate } => renew(alloc, moment, store.peek(certificate)),
        _ => Ok(None),
    }
}

/// The moment so many seconds later.
fn later(moment: i64, seconds: u64) -> i64
    requires moment { is_run_time moment ≡ true }
    requires short { seconds ≤ 1000000000 }
    ensures { result ≡ moment +ℤ pos seconds }
{
    moment + seconds as i64
}

/// What a step that makes no call brings about.
fn effect_besides(accepted: u64, moment: i64, step: &Step) -> Option<Effect>
    requires moment { is_run_time moment ≡ true }
    requires short { step_seconds step.now ≤ 1000000000 }
    ensures { result ≡ effect_besides accepted moment step.now }
{
    match step {
        Step::Tick { seconds } => Some(Effect::Tick {
            now: later(moment, *seconds),
        }),
        Step::Stop { role } => Some(Effect::Stop { role: *role }),
        Step::Start { role, behind } => Some(Effect::Start {
            role: *role,
            at: accepted.saturating_sub(*behind),
        }),
        _ => None,
    }
}

/// What a step brings about directly after it.
fn effect_on(
    store: &Store,
    alloc: Global,
    moment: i64,
    step: &Step,
) -> Result<Option<Effect>, AllocError>
    requires moment { is_run_time moment ≡ true }
    requires short { step_seconds step.now ≤ 1000000000 }
    requires form { is_step_form step.now ≡ true }
    ensures { IfOk result (λ e. e ≡ effect_on store.now.state.objects store.now.state.accepted moment step.now) }
{
    match call_for(store, alloc, moment, step)? {
        Some(call) => Ok(Some(Effect::Call(call))),
        None => Ok(effect_besides(store.accepted(), moment, step)),
    }
}

/// The steps of the scenario, and what is true of each scenario.
fn script_of(scenario: &Scenario) -> &[Step]
    ensures value { result.now ≡ scenario.now.script }
    ensures setup { IsSetup scenario.now }
{
    // Contracts learn by this call alone what is true of each scenario.
    let _events = scenario.events();
    scenario.script()
}

fn step_in(script: &[Step], place: u64) -> Option<&Step>
    ensures { option_copied result ≡ slice_get script.now place }
{
    script.get(place as usize)
}

/// What the step in this place of the script brings about.
fn effect_in(
    store: &Store,
    alloc: Global,
    moment: i64,
    script: &[Step],
    place: u64,
) -> Result<Option<Effect>, AllocError>
    requires moment { is_run_time moment ≡ true }
    requires ticks { All IsTickForm script.now }
    requires forms { list_all is_step_form script.now ≡ true }
    ensures { IfOk result (λ e. e ≡ effect_in store.now.state.objects store.now.state.accepted moment script.now place) }
{
    match step_in(script, place) {
        Some(step) => effect_on(store, alloc, moment, step),
        None => Ok(None),
    }
}

/// Holds deliveries of the kind back from the role, or no longer.
fn set_held(role_states: &mut RoleStates, role: Role, kind: Kind, held: bool)
    ensures { (r : RoleValue) → role_state_of role_states.new r ≡ (if role_eq role r then keeping kind held (role_state_of role_states.old r) else role_state_of role_states.old r) }
{
    let standing = role_states.get(role);
    role_states.set(role, with_held(standing, kind, held));
}

/// Lets the roles stand as the step leaves them.
fn note_step(role_states: &mut RoleStates, step: &Step)
    ensures { (r : RoleValue) → role_state_of role_states.new r ≡ scripted_standing step.now r (role_state_of role_states.old r) }
{
    match step {
        Step::Hold { role, kind } => set_held(role_states, *role, *kind, true),
        Step::Release { role, kind } => set_held(role_states, *role, *kind, false),
        _ => {}
    }
}

/// Lets the roles stand as the step in this place of the script leaves them.
fn note_step_in(role_states: &mut RoleStates, script: &[Step], place: u64)
    ensures { (r : RoleValue) → role_state_of role_states.new r ≡ role_state_after (slice_get script.now place) r (role_state_of role_states.old r) }
{
    if let Some(step) = step_in(script, place) {
        note_step(role_states, step);
    }
}

/// Lets the role be stopped.
fn note_stop(role_states: &mut RoleStates, role: Role)
    ensures { (r : RoleValue) → role_state_of role_states.new r ≡ (if role_eq role r then stopping (role_state_of role_states.old role) else role_state_of role_states.old r) }
{
    let standing = role_states.get(role);
    role_states.set(
        role,
        RoleState {
            running: false,
            ..standing
        },
    );
}

/// The same position for each kind.
fn all_at(at: u64) -> Positions
    ensures { result ≡ each_at at }
{
    Positions {
        certificates: at,
        requests: at,
        secrets: at,
    }
}

fn started(standing: RoleState, at: u64) -> RoleState
    requires { standing.incarnation < 2 ^ 64 - 1 }
    ensures { result ≡ starting at standing }
{
    RoleState {
        running: true,
        incarnation: standing.incarnation + 1,
        told: all_at(at),
        ..standing
    }
}

/// Lets the role run, having begun once more and been told of the first `at` writes.
fn note_start(role_states: &mut RoleStates, role: Role, at: u64)
    requires { (role_state_of role_states.old role).incarnation < 2 ^ 64 - 1 }
    ensures { (r : RoleValue) → role_state_of role_states.new r ≡ (if role_eq role r then starting at (role_state_of role_states.old role) else role_state_of role_states.old r) }
{
    let standing = role_states.get(role);
    role_states.set(role, started(standing, at));
}

/// How many entries a step adds that has this happen: its own, and one for that.
fn entries_for(effect: &Option<Effect>) -> u64
    ensures { result ≡ spec.entries_of effect.now }
{
    match effect {
        Some(_effect) => 2,
        None => 1,
    }
}

impl Kernel {
    /// What the next step of the script brings about; none where it has nothing happen or no step is left.
    pub(crate) fn next_effect(&self, alloc: Global) -> Result<Option<Effect>, AllocError>
        ensures effect { IfOk result (λ e. e ≡ on spec.next_effect self.now) }
        ensures setup { IsSetup self.now.scenario }
    {
        effect_in(
            &self.store,
            alloc,
            self.moment,
            script_of(&self.scenario),
            self.made,
        )
    }

    /// Makes a step that has nothing happen: it may hold deliveries back, or no longer.
    fn make_quiet(&mut self) -> Result<(), AllocError>
        requires may { on spec.AnswersScript self.old answers.Done }
        requires setup { IsSetup self.old.scenario }
        requires effect { on spec.next_effect self.old ≡ None }
        ensures ok { OnOk result (self.new ≡ record { scenario = self.old.scenario; history = Entry.Script (scripted self.old.history + 1) ∷ self.old.history }) }
        ensures err { OnErr result (self.new ≡ self.old) }
    {
        self.history.reserve(1)?;
        let script = self.scenario.script();
        note_step_in(&mut self.role_states, script, self.made);
        self.made += 1;
        self.history.push(Entry::Script { step: self.made });
        Ok(())
    }

    /// Makes a step that has a user make this call.
    fn make_call(&mut self, alloc: Global, call: Call) -> Result<(), AllocError>
        requires may { on spec.AnswersScript self.old answers.Done }
        requires setup { IsSetup self.old.scenario }
        requires effect { on spec.next_effect self.old ≡ Some (effects.Call call) }
        ensures ok { OnOk result (MadeCall who.User call (record { scenario = self.old.scenario; history = Entry.Script (scripted self.old.history + 1) ∷ self.old.history }) self.new) }
        ensures err { OnErr result (self.new ≡ self.old) }
    {
        self.history.reserve(2)?;
        self.caches.reserve(1)?;
        let Replied { reply, key, object } = self.store.call(alloc, self.moment, &call)?;
        log_write(&mut self.caches, key, object);
        self.made += 1;
        self.history.push(Entry::Script { step: self.made });
        self.history.push(Entry::Call {
            who: Who::User,
            call,
            reply,
        });
        Ok(())
    }

    /// Makes a step that lets the moment rise to this one.
    fn make_tick(&mut self, now: i64) -> Result<(), AllocError>
        requires may { on spec.AnswersScript self.old answers.Done }
        requires setup { IsSetup self.old.scenario }
        requires effect { on spec.next_effect self.old ≡ Some (effects.Tick now) }
        ensures ok { OnOk result (self.new ≡ record { scenario = self.old.scenario; history = Entry.Tick now ∷ Entry.Script (scripted self.old.history + 1) ∷ self.old.history }) }
        ensures err { OnErr result (self.new ≡ self.old) }
    {
        self.history.reserve(2)?;
        self.moment = now;
        self.made += 1;
        self.history.push(Entry::Script { step: self.made });
        self.history.push(Entry::Tick { now });
        Ok(())
    }

    /// Makes a step that stops the role: its passes are no longer open.
    fn make_stop(&mut self, role: Role) -> Result<(), AllocError>
        requires may { on spec.AnswersScript self.old answers.Done }
        requires setup { IsSetup self.old.scenario }
        requires effect { on spec.next_effect self.old ≡ Some (effects.Stop role) }
        ensures ok { OnOk result (self.new ≡ record { scenario = self.old.scenario; history = Entry.Stop role ∷ Entry.Script (scripted self.old.history + 1) ∷ self.old.history }) }
        ensures err { OnErr result (self.new ≡ self.old) }
    {
        self.history.reserve(2)?;
        self.passes.stop(role);
        note_stop(&mut self.role_states, role);
        self.made += 1;
        self.history.push(Entry::Script { step: self.made });
        self.history.push(Entry::Stop { role });
        Ok(())
    }

    /// Makes a step that starts the role, told of the first `at` accepted writes: it remembers nothing.
    fn make_start(&mut self, alloc: Global, role: Role, at: u64) -> Result<(), AllocError>
        requires may { on spec.AnswersScript self.old answers.Done }
        requires setup { IsSetup self.old.scenario }
        requires effect { on spec.next_effect self.old ≡ Some (effects.Start role at) }
        ensures ok { OnOk result (self.new ≡ record { scenario = self.old.scenario; history = Entry.Start role at ∷ Entry.Script (scripted self.old.history + 1) ∷ self.old.history }) }
        ensures err { OnErr result (self.new ≡ self.old) }
    {
        self.history.reserve(2)?;
        let told = shown_positions(role, all_at(at));
        self.caches.start(alloc, role, told)?;
        self.memories.start(role);
        note_start(&mut self.role_states, role, at);
        self.made += 1;
        self.history.push(Entry::Script { step: self.made });
        self.history.push(Entry::Start { role, at });
        Ok(())
    }

    /// Makes the next step of the script, which has this happen.
    fn make_step(&mut self, alloc: Global, effect: Option<Effect>) -> Result<(), AllocError>
        requires may { on spec.AnswersScript self.old answers.Done }
        requires setup { IsSetup self.old.scenario }
        requires effect { effect ≡ on spec.next_effect self.old }
        ensures ok { OnOk result (on spec.GrowsByScript self.old self.new.history) }
        ensures scenario { self.new.scenario ≡ self.old.scenario }
        ensures err { OnErr result (self.new ≡ self.old) }
    {
        match effect {
            None => self.make_quiet(),
            Some(Effect::Call(call)) => self.make_call(alloc, call),
            Some(Effect::Tick { now }) => self.make_tick(now),
            Some(Effect::Stop { role }) => self.make_stop(role),
            Some(Effect::Start { role, at }) => self.make_start(alloc, role, at),
        }
    }

    /// What the next step of the script, which has this happen, is answered, where one is left.
    fn judge_left(&self, ready: bool, effect: &Option<Effect>) -> Stepped
        requires left { scripted self.now.history < length self.now.scenario.script }
        requires ready { IsTrue ready ↔ on IsReady self.now (step_at self.now.scenario.script (scripted self.now.history + 1)) }
        requires effect { effect.now ≡ on spec.next_effect self.now }
        ensures { on spec.AnswersScript self.now result }
    {
        let entries = self.history.len();
        let room = has_room(entries, self.scenario.events(), entries_for(effect));
        answer_script(true, ready, entries, room)
    }

    /// What the next step of the script, which has this happen, is answered.
    fn judge_script(&self, ready: bool, effect: &Option<Effect>) -> Stepped
        requires ready { IsTrue ready ↔ on IsReady self.now (step_at self.now.scenario.script (scripted self.now.history + 1)) }
        requires effect { effect.now ≡ on spec.next_effect self.now }
        ensures { on spec.AnswersScript self.now result }
    {
        match self.next_step() {
            Some(_step) => self.judge_left(ready, effect),
            None => Stepped::NotNow(Lack::ScriptOver),
        }
    }

    /// Makes the next step of the script, with what it has happen, where one is left, waits no longer, and fits; else it
    /// answers the first of these that is not so. Whether it waits no longer (`ready`) takes a look at the work of each role,
    /// and so whoever keeps that tells it.
    ///
    /// # Errors
    ///
    /// Where memory runs out, the world is as it was.
    pub fn perform(&mut self, alloc: Global, ready: bool) -> Result<Stepped, AllocError>
        requires { IsTrue ready ↔ on IsReady self.old (step_at self.old.scenario.script (scripted self.old.history + 1)) }
        ensures answer { IfOk result (λ r. on spec.AnswersScript self.old r) }
        ensures leaves { IfOk result (λ r. on spec.Leaves self.old moves.Script r self.new.history) }
        ensures scenario { self.new.scenario ≡ self.old.scenario }
        ensures run { on IsRun self.new }
        ensures rights { on KeepsRights self.new }
        ensures safe { on IsSafe self.new }
        ensures err { OnErr result (self.new ≡ self.old) }
    {
        self.is_run();
        let effect = self.next_effect(alloc)?;
        let answer = self.judge_script(ready, &effect);
        if !answer.is_done() {
            return Ok(answer);
        }
        self.make_step(alloc, effect)?;
        self.is_run();
        Ok(Stepped::Done)
    }

    /// Whether all steps of the script were made, with all that they have happen.
    pub fn has_made_all(&self) -> bool
        ensures made { IsTrue result ↔ (scripting.scripted self.now.history ≡ length self.now.scenario.script) }
        ensures settled { on following.owed self.now ≡ None }
    {
        self.made == self.scenario.script().len() as u64
    }

    /// Whether the role's passes made so many writes of the kind.
    pub fn has_written(&self, role: Role, kind: Kind, writes: u64) -> bool
        ensures { IsTrue result ↔ (writes ≤ on following.written self.now role kind) }
    {
        writes <= written_of(self.role_states.get(role), kind)
    }

    /// The next step of the script; `None` exactly where all are made.
    pub fn next_step(&self) -> Option<&Step>
        ensures { option_copied result ≡ scripting.step_at self.now.scenario.script (scripting.scripted self.now.history + 1) }
    {
        self.scenario.script().get(self.made as usize)
    }
}
