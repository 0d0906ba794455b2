//! Runs that meet all that the laws of runs take for granted, and do what these say.
use crate::begins::begun_again;
use crate::checks::passes;
use crate::fixtures::{denied_scenario, put};
use crate::restarts::{applied, finish, is_issued_once, make, scenario};
use cmc_history::History;
use cmc_objects::{Entry, Reply, Step, Who};
use cmc_setup::{Scenario, Steps};
use cmc_world::{Move, World};
use std::alloc::Global;
use std::test::Fail;

/// The pass that the entry is of, after its begin; `None` where it is of none.
fn pass_of(entry: &Entry) -> Option<u64> {
    match entry {
        Entry::Ask { pass, .. } => Some(*pass),
        Entry::Made { pass, .. } => Some(*pass),
        Entry::Signed { pass, .. } => Some(*pass),
        Entry::Answered { pass, .. } => Some(*pass),
        Entry::Judged { pass, .. } => Some(*pass),
        Entry::End { pass, .. } => Some(*pass),
        Entry::Call {
            who: Who::Pass(pass),
            ..
        } => Some(*pass),
        _ => None,
    }
}

/// The pass that is open after the entry, by the one that was open before.
fn open_after(open: Option<u64>, entry: &Entry) -> Option<u64> {
    match entry {
        Entry::Begin { pass, .. } => Some(*pass),
        Entry::End { .. } => None,
        _ => open,
    }
}

/// Whether each entry between the begin and the end of a pass is its own.
fn run_alone(history: &History) -> bool {
    let mut open = None;
    let mut alone = true;
    for entry in history.as_slice() {
        alone = alone && pass_of(entry) == open;
        open = open_after(open, entry);
    }
    alone && open.is_none()
}

/// Whether the entry is a call of a pass that was refused by what exists.
fn is_refused(entry: &Entry) -> bool {
    match entry {
        Entry::Call {
            who: Who::Pass(_),
            reply,
            ..
        } => match reply {
            Reply::Conflict { .. } | Reply::NotFound { .. } => true,
            Reply::AlreadyExists { .. } | Reply::Invalid { .. } => true,
            _ => false,
        },
        _ => false,
    }
}

/// The scenario in which one Certificate is applied, and time passes once all is at rest.
fn issued_scenario(alloc: Global) -> Result<Scenario, Fail> {
    let mut script = Steps::new(alloc);
    put(&mut script, applied(alloc))?;
    script.push(Step::Settle)?;
    script.push(Step::Tick { seconds: 60 })?;
    scenario(alloc, script)
}

/// The world of the scenario after its plain run.
fn plain_world(alloc: Global, scenario: Scenario) -> Result<World, Fail> {
    let mut world = World::new(alloc, scenario)?;
    make(alloc, &mut world, Move::Script)?;
    finish(alloc, &mut world)?;
    Ok(world)
}

/// What the laws say of a plain run, whatever its scenario.
fn is_calm(alloc: Global, world: &mut World) -> Result<bool, Fail> {
    let entries = world.history().as_slice();
    let refused = entries.iter().any(is_refused);
    Ok(run_alone(world.history()) && !refused && world.finished(alloc)?)
}

#[test]
fn passes_of_an_issuance_run_alone(rt: HostRuntime) -> Result<(), Fail> {
    let alloc = rt.alloc();
    let mut world = plain_world(alloc, issued_scenario(alloc)?)?;
    let calm = is_calm(alloc, &mut world)?;
    passes(&rt, "calm", calm);
    let again = begun_again(world.history())?;
    passes(&rt, "again", again > 0);
    let issued = is_issued_once(alloc, &mut world)?;
    passes(&rt, "issued once", issued);
    Ok(())
}

#[test]
fn passes_of_a_denied_issuance_run_alone(rt: HostRuntime) -> Result<(), Fail> {
    let alloc = rt.alloc();
    let mut world = plain_world(alloc, denied_scenario(alloc)?)?;
    let calm = is_calm(alloc, &mut world)?;
    passes(&rt, "calm", calm);
    let issued = is_issued_once(alloc, &mut world)?;
    passes(&rt, "not issued", !issued);
    Ok(())
}
