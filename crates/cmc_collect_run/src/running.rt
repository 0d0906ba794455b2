//! The steps of a script are made in order.
ghost use Rattle.std.specs.Prelude.{◌≡◌, IfOk};
ghost use Rattle.cmc_objects.specs.Objects.{key_of};
ghost use Rattle.cmc_model.specs.Objects.{object_at};
ghost use Rattle.cmc_rules.specs.UserSteps.{apply_call};
ghost use Rattle.cmc_collect_form.specs.Collections.{IsInTime};
ghost use Rattle.cmc_collect_form.specs.Steps.{AreInTime};
ghost use Rattle.cmc_collect_run.specs.Answers.{IsCollectionOf};
ghost use Rattle.cmc_collect_run.specs.Runs.{AreMade, IsMoved, IsStepped, collect_goes_on};
ghost use Rattle.cmc_collect_form.specs.declared.script.CollectStep.TheVariants.{Settle};

use cmc_collect_form::{CollectScript, CollectStep};
use cmc_collector::{CollectMove, Collected, Collection};
use cmc_objects::{Call, Object};
use cmc_seed::HashSeed;
use cmc_store::Store;
use std::alloc::{AllocError, Global};

/// How a script ended.
#[derive(Drop)]
pub enum Ran {
    /// Each step was made.
    Finished(Collection),
    /// A step came to an entry for which there is no room.
    Spent,
}

/// The call that applies the object to what the store has.
fn call_of_apply(store: &Store, object: &Object, version: Option<u64>) -> Result<Call, AllocError>
    ensures { IfOk result (λ c. c ≡ apply_call object.now version (object_at store.now.state.objects (key_of object.now))) }
{
    if let Some(version) = version {
        return Ok(Call::Update {
            object: object.copy()?,
            version,
        });
    }
    let key = object.key()?;
    match store.peek(&key) {
        None => Ok(Call::Create {
            object: object.copy()?,
            generate: false,
        }),
        Some(old) => {
            let version = old.meta().version;
            Ok(Call::Update {
                object: object.copy()?,
                version,
            })
        }
    }
}

/// Whether the script goes on after this answer: there was room for the entry, where there is one.
fn goes_on(answer: Collected) -> bool
    ensures { result ≡ collect_goes_on answer }
{
    match answer {
        Collected::Done | Collected::NotNow(_) => true,
        Collected::Spent { .. } => false,
    }
}

/// Makes the move where it is possible now. `false` exactly where there is no room for its entry.
#[tactic(auto, using(crate::proofs::Moves::moved))]
fn make(
    collection: &mut Collection,
    alloc: Global,
    now: i64,
    step: CollectMove,
) -> Result<bool, AllocError>
    ensures { IfOk result (λ made. IsMoved made now step collection.old collection.new) }
{
    let answer = collection.step(alloc, now, step)?;
    Ok(goes_on(answer))
}

/// Settles. `false` exactly where it comes to an entry for which there is no room.
#[tactic(auto, using(crate::proofs::Moves::settled))]
fn settle(collection: &mut Collection, alloc: Global, now: i64) -> Result<bool, AllocError>
    ensures { IfOk result (λ made. IsStepped made now Settle collection.old collection.new) }
{
    let end = collection.settle(alloc, now)?;
    Ok(goes_on(end))
}

/// Makes the step. `false` exactly where it comes to an entry for which there is no room.
fn make_step(
    collection: &mut Collection,
    alloc: Global,
    now: i64,
    step: &CollectStep,
) -> Result<bool, AllocError>
    ensures { IfOk result (λ made. IsStepped made now step.now collection.old collection.new) }
{
    match step {
        CollectStep::Apply { object, version } => {
            let call = call_of_apply(collection.store(), object, *version)?;
            make(collection, alloc, now, CollectMove::User(call))
        }
        CollectStep::Delete { key, version } => {
            let call = Call::Delete {
                key: key.copy()?,
                version: *version,
            };
            make(collection, alloc, now, CollectMove::User(call))
        }
        CollectStep::Tick { .. } => Ok(true),
        CollectStep::Deliver { kind, to } => {
            let step = CollectMove::Deliver {
                kind: *kind,
                to: *to,
            };
            make(collection, alloc, now, step)
        }
        CollectStep::Examine { key } => {
            let step = CollectMove::Examine { key: key.copy()? };
            make(collection, alloc, now, step)
        }
        CollectStep::Settle => settle(collection, alloc, now),
    }
}

/// Makes the steps in order, the first of which comes at `now`. `false` exactly where one of them comes to an entry for which
/// there is no room.
fn make_steps(
    collection: &mut Collection,
    alloc: Global,
    now: i64,
    steps: &[CollectStep],
) -> Result<bool, AllocError>
    requires { AreInTime now steps.now }
    ensures { IfOk result (λ made. AreMade made now steps.now collection.old collection.new) }
{
    let mut moment = now;
    for step in steps {
        if !make_step(collection, alloc, moment, step)? {
            return Ok(false);
        }
        let Some(next) = step.after(moment) else {
            unreachable!()
        };
        moment = next;
    }
    Ok(true)
}

/// Makes the steps of the script in order, on an empty store. A step that is not possible when its turn comes makes no
/// entry. It ends at the first entry for which there is no room.
pub fn run_script(alloc: Global, seed: HashSeed, script: CollectScript) -> Result<Ran, AllocError>
    requires { IsInTime script }
    ensures { IfOk result (IsCollectionOf script) }
{
    let CollectScript {
        events,
        faults,
        now,
        steps,
        window,
    } = script;
    let mut collection = Collection::seeded(alloc, seed, window, faults, events);
    if make_steps(&mut collection, alloc, now, steps.as_slice())? {
        return Ok(Ran::Finished(collection));
    }
    Ok(Ran::Spent)
}
