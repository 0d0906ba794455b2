//! The world and its parts.
ghost use Rattle.std.specs.FinMap as finite;
ghost use Rattle.std.specs.Prelude.{◌≡◌, ◌↔◌, ◌+◌, ◌≤◌, [], List, IsTrue, IfOk, length};
ghost use Rattle.cmc_objects.specs.declared.entry.Entry.{Entry};
ghost use Rattle.cmc_model.specs.Histories as spec;
ghost use Rattle.cmc_rules.specs.Rights.{KeepsRights};
ghost use Rattle.cmc_rules.specs.Runs.{IsRun};
ghost use Rattle.cmc_model.specs.Histories.{Setting};
ghost use Rattle.cmc_meta.specs.declared.key.Key.{Key as KeyValue};
ghost use Rattle.cmc_objects.specs.declared.role.Role.{Role as RoleValue};
ghost use Rattle.cmc_rules.specs.Desks.{desk as desk_at};
ghost use Rattle.cmc_rules.specs.Safety.{IsSafe};
ghost use Rattle.cmc_rules.specs.Views.{views};
ghost use Rattle.cmc_safety.specs.MayAct.{MayAct, IsNeverInvalid};
ghost use Rattle.cmc_safety.specs.Begins.{IsDueExactly};
ghost use Rattle.cmc_safety.specs.Completion.{CompletesIssuing};
ghost use Rattle.cmc_safety.specs.Courses.{HaveCourses, PlansAreDone};
ghost use Rattle.cmc_safety.specs.Formed.{IsFormed};
ghost use Rattle.cmc_safety.specs.Invariants.{KeepsInvariants};
ghost use Rattle.cmc_kernel.specs.Kept.{on, setting_of};
ghost use Rattle.cmc_kernel.specs.Leads.{Lead, Extends};
ghost use Rattle.cmc_moves.specs.declared.moves.Move.{Move as MoveValue};

use cmc_caches::Caches;
use cmc_held::{Origins, Passes, Questions, RoleMemories, RoleStates};
use cmc_history::History;
use cmc_meta::{Key, Numbers};
use cmc_objects::{Object, Role};
use cmc_pass::Desk;
use cmc_seed::HashSeed;
use cmc_setup::Scenario;
use cmc_store::Store;
use std::alloc::{AllocError, Global};
use std::collections::BTreeMap;
use std::marker::Model;

/// The store, the history of all that was done on it, and the roles that work on it.
///
/// Contracts see the scenario and the entries of the history, the newest first.
pub struct Kernel {
    /// What the run was given; it never changes.
    pub(crate) scenario: Scenario,
    /// The objects after all calls of the history, the accepted writes and the calls counted, and the calls that
    /// fail.
    pub(crate) store: Store,
    /// All that was done. Every other field is what this says, and is kept so that nothing has to read it again.
    pub(crate) history: History,
    /// The scenario's moment, or that of the last tick.
    pub(crate) moment: i64,
    /// How many steps of the script were made; nothing that they have happen is owed.
    pub(crate) made: u64,
    /// Of each role whether it runs and in which incarnation, how far it was told of each kind, and which of its
    /// informers are held.
    pub(crate) role_states: RoleStates,
    /// The accepted writes of the history, and how far each role was told of them.
    pub(crate) caches: Caches,
    /// Of each pass that was begun its role and the incarnation in which it began.
    pub(crate) origins: Origins,
    /// The open passes under their numbers, each with what it saw and how far it has come.
    pub(crate) passes: Passes,
    /// Of each role and key the last pass and the own writes since the role's last start.
    pub(crate) memories: RoleMemories,
    /// How many questions were asked for each Certificate's name.
    pub(crate) questions: Questions,
    /// The rows and the approver's rules of the scenario, with no question asked.
    pub(crate) desk: Desk,
}

impl Model for Kernel {
    ghost use Rattle.cmc_caches.specs.Posted.{told_of};
    ghost use Rattle.cmc_held.specs.Open.{pass_at};
    ghost use Rattle.cmc_held.specs.Questioned.{count_under};
    ghost use Rattle.cmc_held.specs.Remembered.{past_at};
    ghost use Rattle.cmc_held.specs.RoleStates.{role_state_of};
    ghost use Rattle.cmc_kernel.specs.Kept.{IsKept, Seen, on, setting_of};

    ghost Value = { Seen };

    ghost view = { λ w. record { scenario = w.scenario; history = w.history.entries } };

    ghost invariant = { λ w. IsKept (setting_of w.scenario) w.history.entries (record { faults = w.store.faults; state = w.store.state; log = w.caches.writes; moment = w.moment; made = w.made; role_state = λ role. role_state_of w.role_states role; told = λ role. told_of w.caches.told role; origins = w.origins.origins; opened = λ n. pass_at w.passes n; past = λ role key. past_at w.memories role key; keys_asked = count_under w.questions.keys; answers_asked = count_under w.questions.answers; desk = w.desk }) };
}

impl Drop for Kernel {
    fn drop(self) {
        let Kernel {
            scenario: _scenario,
            store: _store,
            history: _history,
            moment: _moment,
            made: _made,
            role_states: _role_states,
            caches: _caches,
            origins: _origins,
            passes: _passes,
            memories: _memories,
            questions: _questions,
            desk: _desk,
        } = self;
    }
}

fn numbers_of(alloc: Global, items: &[u64]) -> Result<Numbers, AllocError>
    ensures { IfOk result (λ n. n ≡ items.now) }
{
    let mut numbers = Numbers::new(alloc);
    for item in items {
        numbers.push(*item)?;
    }
    Ok(numbers)
}

/// Whether so many entries more fit.
pub(crate) fn has_room(entries: u64, events: u64, more: u64) -> bool
    ensures { IsTrue result ↔ (entries + more ≤ events) }
{
    if events < entries {
        return false;
    }
    more <= events - entries
}

impl Kernel {
    /// The world of the scenario before its first step: no object exists, nothing was done, and the
    /// scenario's roles run, told of nothing.
    pub fn new(alloc: Global, scenario: Scenario) -> Result<Kernel, AllocError>
        ensures { IfOk result (λ w. w ≡ record { scenario = scenario; history = [] }) }
    {
        Kernel::seeded(alloc, HashSeed::fixed(), scenario)
    }

    /// The same, where all that is hashed is hashed by the seed.
    pub fn seeded(alloc: Global, seed: HashSeed, scenario: Scenario) -> Result<Kernel, AllocError>
        ensures { IfOk result (λ w. w ≡ record { scenario = scenario; history = [] }) }
    {
        let faults = numbers_of(alloc, scenario.faults())?;
        let role_states = RoleStates::new(alloc, scenario.roles())?;
        let memories = RoleMemories::new(alloc, seed)?;
        let caches = Caches::seeded(alloc, seed)?;
        let moment = scenario.now();
        let material = scenario.material().copy()?;
        let rules = scenario.approver().copy()?;
        let desk = Desk {
            material,
            asked: 0,
            rules,
        };
        let _events = scenario.events();
        Ok(Kernel {
            scenario,
            store: Store::seeded(alloc, seed, faults),
            history: History::new(alloc),
            moment,
            made: 0,
            role_states,
            caches,
            origins: Origins::new(alloc),
            passes: Passes::new(alloc),
            memories,
            questions: Questions::new(alloc, seed),
            desk,
        })
    }

    /// What all is hashed by.
    pub fn seed(&self) -> HashSeed {
        self.caches.seed()
    }

    /// A law: the history has at most 250,000 entries.
    pub(crate) fn is_short(&self)
        ensures { length self.now.history ≤ 250000 }
    {
        let _events = self.scenario.events();
        let _entries = self.history.len();
    }

    /// The scenario that the world was made of.
    pub fn scenario(&self) -> &Scenario
        ensures { result.now ≡ self.now.scenario }
    {
        &self.scenario
    }

    /// What was done so far.
    pub fn history(&self) -> &History
        ensures { result.now.entries ≡ self.now.history }
    {
        &self.history
    }

    /// The map of the objects that exist, to go over them in order of key.
    pub fn objects(&self) -> &BTreeMap<Key, Object>
        ensures { finite.entries (on spec.objects self.now) ≡ result.now.entries }
    {
        self.store.objects()
    }

    /// How many times the role has begun: once where it runs from the beginning on, and once for each
    /// start of the script.
    pub fn incarnation(&self, role: Role) -> u64
        ensures { result ≡ on spec.incarnation self.now role }
    {
        self.role_states.get(role).incarnation
    }

    /// A law: whatever moves led to this world, its history is legal, caused, and follows the script with
    /// at most as many entries as the scenario allows; each accepted write of a pass changes only what its role may
    /// change; the history is safe, so that each Secret that issuing wrote is a good issue, no issuer was asked about a
    /// request that was not approved, and revisions rose by one after their Secret alone; no rule refused a call of a
    /// pass; a pass of issuing that has a plan and is left undisturbed carries it out whole; and each object that exists has
    /// its form, a revision that was counted, and moments that have passed.
    pub fn is_run(&self)
        ensures run { on IsRun self.now }
        ensures rights { on KeepsRights self.now }
        ensures safe { on IsSafe self.now }
        ensures valid { IsNeverInvalid self.now.history }
        ensures complete { on CompletesIssuing self.now }
        ensures order { on KeepsInvariants self.now }
    {
        let _entries = self.history.len();
    }

    /// A law: the setting of the run is one that a scenario has, so that all moments that its ticks can come to lie in the
    /// time of a run, and the objects that users apply have their form.
    pub fn is_formed(&self)
        ensures { IsFormed (setting_of self.now.scenario) }
    {
        let _entries = self.history.len();
    }

    /// A law: what a role sees of a key, and what it would see if it was told of all, meets all that its controller takes
    /// for granted.
    pub fn can_act(&self)
        ensures { (role : RoleValue) → (key : KeyValue) → MayAct (on views self.now role key) (on spec.moment self.now) (on desk_at self.now role (on views self.now role key)) }
    {
        self.is_run();
        self.is_formed();
    }
}

/// A law: whatever list of moves is made, one after another, on a new world, the history that they lead to is
/// legal, caused, and follows the script, keeps the rights of the roles, and is safe; and no move changes what
/// stood in the history before. What each move is answered, and what it leaves, is all that is asked, and that the
/// setting is one that a scenario has.
pub fn every_list_of_moves()
    ensures keeps { (s : Setting) (moves : List MoveValue) (h : List Entry) → IsFormed s → Lead s moves [] h → IsRun s h × (KeepsRights s h × IsSafe s h) }
    ensures grows { (s : Setting) (moves : List MoveValue) (h k : List Entry) → Lead s moves h k → Extends h k }
{}

/// A law of every run, in the words of its entries. Each pass that has begun keeps to the course of its act: nothing; its
/// call; its question, a right value and the call that follows; or the live read, the Secret and the status of an
/// issuance, of which a stand-in certificate has no status. A call that does not let it go on is what it ends with. Each
/// pass of issuing that has its End, and whose act is a plan, wrote its Secret or found it so, or names the own call that
/// was refused. And a pass is due exactly where its role was told of each own write on the key since its last start, and
/// would not repeat the last pass there.
pub fn passes_keep_to_their_courses()
    ensures courses { (s : Setting) (h : List Entry) → IsRun s h → HaveCourses s h }
    ensures plans { (s : Setting) (h : List Entry) → IsRun s h → PlansAreDone s h }
    ensures due { (s : Setting) (h : List Entry) → IsRun s h → IsDueExactly s h }
{}
