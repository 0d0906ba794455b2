//! A step of the script is made, and changes the work queues: by a tick, a stop or a start.
ghost use Rattle.std.specs.Prelude.{◌≡◌, ◌+◌, ◌++◌, ◌↔◌, ◌∷◌, [], IsTrue, IfOk, OnOk, OnErr, None, Some, if◌then◌else◌};
ghost use Rattle.cmc_model.specs.Writes.{kind_eq};
ghost use Rattle.cmc_objects.specs.Informers.{kind_of_work};
ghost use Rattle.cmc_rules.specs.Runs.{IsRun};
ghost use Rattle.cmc_rules.specs.Scripts.{scripted, step_at};
ghost use Rattle.cmc_moves.specs.Answers.{Answers, Leaves};
ghost use Rattle.cmc_moves.specs.declared.moves.Move.TheVariants as moves;
ghost use Rattle.cmc_kernel.specs.Kept.{on};
ghost use Rattle.cmc_kernel.specs.Plain.{IsStepReady};
ghost use Rattle.cmc_world.specs.Fed.{AreDeletedOf, AreKnownKeys, IsAhead, IsFed, IsToTurn, work_among};

use cmc_kernel::{Kernel, Stepped};
use cmc_meta::Key;
use cmc_model::Write;
use cmc_objects::{Object, Role, Step, kind_of_work};
use cmc_queue::Queue;
use cmc_waking::{Queues, starting_queue};
use std::alloc::{AllocError, Global};
use std::collections::BTreeMap;

/// What a step of the script does to the work queues.
#[derive(Drop)]
pub(crate) enum Ahead {
    /// Nothing.
    Same,
    /// Another moment comes.
    Tick,
    /// The role stops.
    Stop(Role),
    /// The role starts with this queue.
    Start(Role, Queue),
}

/// Adds the key of the write, where it is one of the role's work and the write deletes what was under it.
fn put_deleted(keys: &mut Vec<Key>, role: Role, write: &Write) -> Result<(), AllocError>
    ensures work { OnOk result (write.now.key.kind ≡ kind_of_work role → write.now.object ≡ None → keys.new.items ≡ keys.old.items ++ write.now.key ∷ []) }
    ensures other { OnOk result ((write.now.key.kind ≡ kind_of_work role → write.now.object ≡ None → ⊥) → keys.new.items ≡ keys.old.items) }
{
    if write.object.is_none() && write.key.kind.same(kind_of_work(role)) {
        keys.push(write.key.copy()?)?;
    }
    Ok(())
}

/// The keys of the role's work under which one of the writes deleted an object.
fn deleted_of(alloc: Global, role: Role, writes: &[Write]) -> Result<Vec<Key>, AllocError>
    ensures { IfOk result (λ keys. AreDeletedOf role writes.now keys.items) }
{
    let mut keys = Vec::new(alloc);
    for write in writes {
        put_deleted(&mut keys, role, write)?;
    }
    Ok(keys)
}

/// Adds the key, where it is one of the role's work.
fn put_present(keys: &mut Vec<Key>, role: Role, key: &Key) -> Result<(), AllocError>
    ensures { OnOk result (keys.new.items ≡ (if kind_eq key.now.kind (kind_of_work role) then keys.old.items ++ key.now ∷ [] else keys.old.items)) }
{
    if key.kind.same(kind_of_work(role)) {
        keys.push(key.copy()?)?;
    }
    Ok(())
}

/// Adds the keys of the role's work under which an object exists.
fn add_present(
    keys: &mut Vec<Key>,
    role: Role,
    objects: &BTreeMap<Key, Object>,
) -> Result<(), AllocError>
    ensures { OnOk result (keys.new.items ≡ keys.old.items ++ work_among role objects.now.entries) }
{
    for (key, _) in objects.iter() {
        put_present(keys, role, key)?;
    }
    Ok(())
}

/// The keys of the role's work that an accepted write named: those under which one deleted an object, and those under
/// which an object exists.
pub(crate) fn known_keys(alloc: Global, kernel: &Kernel, role: Role) -> Result<Vec<Key>, AllocError>
    ensures { IfOk result (λ keys. on AreKnownKeys kernel.now role keys.items) }
{
    let mut keys = deleted_of(alloc, role, kernel.log().as_slice())?;
    add_present(&mut keys, role, kernel.objects())?;
    Ok(keys)
}

/// What the step, which comes next, does to the work queues.
fn ahead_of(alloc: Global, kernel: &Kernel, step: &Step) -> Result<Ahead, AllocError>
    requires { step_at kernel.now.scenario.script (scripted kernel.now.history + 1) ≡ Some step.now }
    ensures { IfOk result (λ a. on IsAhead kernel.now a) }
{
    match step {
        Step::Tick { .. } => Ok(Ahead::Tick),
        Step::Stop { role } => Ok(Ahead::Stop(*role)),
        Step::Start { role, .. } => {
            let keys = known_keys(alloc, kernel, *role)?;
            Ok(Ahead::Start(*role, starting_queue(alloc, kernel.seed(), &keys)?))
        }
        Step::Apply { .. }
        | Step::Delete { .. }
        | Step::Approve { .. }
        | Step::Deny { .. }
        | Step::Answer { .. }
        | Step::Renew { .. }
        | Step::Hold { .. }
        | Step::Release { .. }
        | Step::Until { .. }
        | Step::Settle => Ok(Ahead::Same),
    }
}

/// What the next step of the script does to the work queues.
fn next_ahead(alloc: Global, kernel: &Kernel) -> Result<Ahead, AllocError>
    ensures { IfOk result (λ a. on IsAhead kernel.now a) }
{
    match kernel.next_step() {
        Some(step) => ahead_of(alloc, kernel, step),
        None => Ok(Ahead::Same),
    }
}

/// After a step of the script that was made: the queues are as it leaves them.
fn turn(alloc: Global, kernel: &Kernel, queues: &mut Queues, ahead: Ahead)
    requires { on IsToTurn kernel.now ahead queues.old }
    ensures { on IsFed kernel.now queues.new }
{
    match ahead {
        Ahead::Same => {}
        Ahead::Tick => queues.ticked(kernel.moment()),
        Ahead::Stop(role) => queues.stopped(alloc, role),
        Ahead::Start(role, queue) => queues.started(role, queue),
    }
}

/// Makes the next step of the script, which is ready or not, and feeds the work queues.
pub(crate) fn script(
    alloc: Global,
    kernel: &mut Kernel,
    queues: &mut Queues,
    ready: bool,
) -> Result<Stepped, AllocError>
    requires fed { on IsFed kernel.old queues.old }
    requires ready { IsTrue ready ↔ on IsStepReady kernel.old }
    ensures answer { IfOk result (λ r. on Answers kernel.old moves.Script r) }
    ensures leaves { IfOk result (λ r. on Leaves kernel.old moves.Script r kernel.new.history) }
    ensures scenario { kernel.new.scenario ≡ kernel.old.scenario }
    ensures run { on IsRun kernel.new }
    ensures err { OnErr result (kernel.new ≡ kernel.old) }
    ensures fed { on IsFed kernel.new queues.new }
{
    kernel.is_run();
    let _events = kernel.scenario().events();
    let ahead = next_ahead(alloc, kernel)?;
    let answer = kernel.perform(alloc, ready)?;
    if !answer.is_done() {
        return Ok(answer);
    }
    turn(alloc, kernel, queues, ahead);
    Ok(answer)
}
