//! A controller that stops after any move of a run and starts again: the run still ends, and with one issuance.
use crate::audit::{audit, raises, stands_true};
use crate::begins::begun_again;
use crate::fixtures::{ROLES, apply, certificate, is_done, put, value_then, whole_scenario};
use cmc_history::History;
use cmc_meta::{ConditionKind, Kind, Numbers};
use cmc_objects::{
    Algorithm, CertSpec, Entry, KeyRow, KeyRows, Material, Object, Order, Role, Rows, Shared,
    SignRows, Step, Who,
};
use cmc_setup::{Scenario, Steps};
use cmc_tests::values::{key, let_go};
use cmc_world::{Move, Stepped, World};
use std::alloc::{AllocError, Global};
use std::process::Abort;
use std::test::Fail;

static KINDS: [Kind; 3] = [Kind::Certificate, Kind::CertificateRequest, Kind::Secret];

/// The step that applies the Certificate.
pub(crate) fn applied(alloc: Global) -> Result<Step, Fail> {
    let mut certificate = certificate(alloc, "web", "web-tls", "example.com")?;
    let mut spec = CertSpec::copy(&certificate.spec)?;
    spec.key.algorithm = Some(Algorithm::Ecdsa);
    certificate.spec = Shared::new(alloc, spec)?;
    apply(alloc, certificate)
}

fn rows(alloc: Global) -> Result<Rows, AllocError> {
    let mut keys = KeyRows::new(alloc);
    keys.push(KeyRow::Synthetic(1))?;
    Ok(Rows {
        keys,
        replies: SignRows::new(alloc),
    })
}

/// The stand-in key 1 for the Certificate.
fn material(alloc: Global) -> Result<Material, Fail> {
    let mut material = Material::new(alloc);
    let web = key(alloc, Kind::Certificate, "web")?;
    material.set(web, rows(alloc)?)?;
    Ok(material)
}

/// The scenario of this script, with all roles and no faults.
pub(crate) fn scenario(alloc: Global, script: Steps) -> Result<Scenario, Fail> {
    let material = material(alloc)?;
    whole_scenario(alloc, 100_000, 1000, Numbers::new(alloc), material, script)
}

/// Gives the pass the value of its question.
fn give(
    alloc: Global,
    world: &mut World,
    pass: u64,
    incarnation: u64,
    order: &Order,
) -> Result<(), Fail> {
    let given = value_then(alloc, order.copy()?)?;
    let step = Move::Give {
        pass,
        incarnation,
        given,
    };
    if is_done(world.step(alloc, step)?) {
        return Ok(());
    }
    Err(Fail::from("not given"))
}

/// The incarnation of the pass that the move begins or goes on with; 0 where it is of none.
fn incarnation_of(world: &World, step: &Move) -> u64 {
    match step {
        Move::Next { incarnation, .. } => *incarnation,
        Move::Begin { role, .. } => world.kernel().incarnation(*role),
        _ => 0,
    }
}

/// Makes the move. A pass that has asked is told its question once more by the next move, which adds no entry, and is
/// then given the value.
pub(crate) fn make(alloc: Global, world: &mut World, step: Move) -> Result<(), Fail> {
    let incarnation = incarnation_of(world, &step);
    let before = world.history().as_slice().len();
    let answer = world.step(alloc, step)?;
    if answer.is_done() {
        return Ok(());
    }
    match answer.into_order() {
        Some((pass, order)) if world.history().as_slice().len() == before => {
            give(alloc, world, pass, incarnation, &order)
        }
        Some(_) => Ok(()),
        None => Err(Fail::from("not made")),
    }
}

/// An equal move. Moves of the plain order give no values and hand in no decisions.
fn again(step: &Move) -> Result<Move, Fail> {
    match step {
        Move::Script => Ok(Move::Script),
        Move::Deliver { role, kind, to } => Ok(Move::Deliver {
            role: *role,
            kind: *kind,
            to: *to,
        }),
        Move::Begin { role, key } => Ok(Move::Begin {
            role: *role,
            key: key.copy()?,
        }),
        Move::Next { pass, incarnation } => Ok(Move::Next {
            pass: *pass,
            incarnation: *incarnation,
        }),
        Move::Give { .. } | Move::Decide { .. } => Err(Fail::from("handed in")),
    }
}

/// Keeps an equal move.
fn keep(moves: &mut Vec<Move>, step: &Move) -> Result<(), Fail> {
    moves.push(again(step)?)?;
    Ok(())
}

/// Keeps the move, and makes it.
fn keep_and_make(
    alloc: Global,
    world: &mut World,
    moves: &mut Vec<Move>,
    step: Move,
) -> Result<(), Fail> {
    match keep(moves, &step) {
        Ok(()) => make(alloc, world, step),
        Err(fail) => {
            let_go(step);
            Err(fail)
        }
    }
}

/// Makes the plain moves to the end, and keeps them.
fn keep_all(alloc: Global, world: &mut World, moves: &mut Vec<Move>) -> Result<(), Fail> {
    for _ in 0..1000 {
        match world.plain(alloc)? {
            None => return Ok(()),
            Some(step) => keep_and_make(alloc, world, moves, step)?,
        }
    }
    Err(Fail::from("no end"))
}

/// The plain moves to the end, which it makes.
fn plain_moves(alloc: Global, world: &mut World) -> Result<Vec<Move>, Fail> {
    let mut moves = Vec::new(alloc);
    match keep_all(alloc, world, &mut moves) {
        Ok(()) => Ok(moves),
        Err(fail) => {
            let_go(moves);
            Err(fail)
        }
    }
}

/// The open pass that the newest entry is of; `None` where it is of none, or ends one.
pub(crate) fn open_pass(history: &History) -> Option<u64> {
    match history.as_slice().last() {
        Some(Entry::Begin { pass, .. }) => Some(*pass),
        Some(Entry::Ask { pass, .. }) => Some(*pass),
        Some(Entry::Made { pass, .. }) => Some(*pass),
        Some(Entry::Signed { pass, .. }) => Some(*pass),
        Some(Entry::Answered { pass, .. }) => Some(*pass),
        Some(Entry::Judged { pass, .. }) => Some(*pass),
        Some(
            Entry::Call {
                who: Who::Pass(pass),
                ..
            },
        ) => Some(*pass),
        _ => None,
    }
}

/// Makes the move. Where a pass is open then, it goes on to its end, as the plain order has it.
pub(crate) fn make_whole(alloc: Global, world: &mut World, step: Move) -> Result<(), Fail> {
    let incarnation = incarnation_of(world, &step);
    make(alloc, world, step)?;
    for _ in 0..20 {
        match open_pass(world.history()) {
            Some(pass) => make(alloc, world, Move::Next { pass, incarnation })?,
            None => return Ok(()),
        }
    }
    Err(Fail::from("no end of a pass"))
}

/// Tells the role of the newest write of the kind; false where it is not behind.
fn is_told(alloc: Global, world: &mut World, role: Role, kind: Kind) -> Result<bool, Fail> {
    let to = world.kernel().log().last_of_kind(kind);
    let answer = world.step(alloc, Move::Deliver { role, kind, to })?;
    Ok(is_done(answer))
}

/// Tells the first role that is behind in a kind of its newest write, as the plain order has it where no pass is open;
/// false where no role is behind.
fn deliver(alloc: Global, world: &mut World) -> Result<bool, Fail> {
    for role in &ROLES {
        for kind in &KINDS {
            if is_told(alloc, world, *role, *kind)? {
                return Ok(true);
            }
        }
    }
    Ok(false)
}

/// Makes the plain move, and those of the pass that is then open; false where the run is finished.
fn go_on(alloc: Global, world: &mut World) -> Result<bool, Fail> {
    match world.plain(alloc)? {
        None => Ok(false),
        Some(step) => {
            make_whole(alloc, world, step)?;
            Ok(true)
        }
    }
}

/// Makes the plain moves to the end. A pass that is open at first goes before all deliveries.
pub(crate) fn finish(alloc: Global, world: &mut World) -> Result<(), Fail> {
    let mut goes_on = go_on(alloc, world)?;
    for _ in 0..1000 {
        if !goes_on {
            return Ok(());
        }
        goes_on = deliver(alloc, world)? || go_on(alloc, world)?;
    }
    Err(Fail::from("no end"))
}

/// The moves of the run that nothing disturbs, after the step that applies the Certificate.
fn undisturbed(alloc: Global) -> Result<Vec<Move>, Fail> {
    let mut script = Steps::new(alloc);
    put(&mut script, applied(alloc))?;
    let mut world = World::new(alloc, scenario(alloc, script)?)?;
    make(alloc, &mut world, Move::Script)?;
    plain_moves(alloc, &mut world)
}

/// The scenario in which the role stops and starts again, behind by so many writes.
fn restarted(alloc: Global, role: Role, behind: u64) -> Result<Scenario, Fail> {
    let mut script = Steps::new(alloc);
    put(&mut script, applied(alloc))?;
    script.push(Step::Stop { role })?;
    script.push(Step::Start { role, behind })?;
    script.push(Step::Settle)?;
    scenario(alloc, script)
}

/// Whether the run is finished, and its one Certificate is Ready with the revision 1.
pub(crate) fn is_issued_once(alloc: Global, world: &mut World) -> Result<bool, Fail> {
    let web = key(alloc, Kind::Certificate, "web")?;
    let is_ready = match world.objects().get(&web) {
        Some(Object::Cert(certificate)) => {
            certificate.status.revision == Some(1)
                && stands_true(certificate.status.conditions.get(ConditionKind::Ready))
        }
        _ => false,
    };
    Ok(is_ready && world.finished(alloc)?)
}

/// Makes equal moves.
fn make_all(alloc: Global, world: &mut World, moves: &[Move]) -> Result<(), Fail> {
    for step in moves {
        make(alloc, world, again(step)?)?;
    }
    Ok(())
}

/// Makes the first step of the script, these moves, the next two steps, and the plain moves to the end.
fn run(alloc: Global, world: &mut World, moves: &[Move]) -> Result<(), Fail> {
    make(alloc, world, Move::Script)?;
    make_all(alloc, world, moves)?;
    make(alloc, world, Move::Script)?;
    make(alloc, world, Move::Script)?;
    finish(alloc, world)
}

/// Whether the run ends well in which the role stops after these moves and starts again.
fn ends_well(alloc: Global, moves: &[Move], role: Role, behind: u64) -> Result<bool, Fail> {
    let mut world = World::new(alloc, restarted(alloc, role, behind)?)?;
    run(alloc, &mut world, moves)?;
    let is_issued_once = is_issued_once(alloc, &mut world)?;
    begun_again(world.history())?;
    Ok(is_issued_once && raises(world.history())? == 1 && audit(world.history())? >= 1)
}

fn ends(rt: &impl Abort, behind: u64, moves: usize, passed: bool) {
    assert!(rt; passed, "behind {behind} after {moves} moves");
}

/// Every how many moves a stop is tried. In the gate, where tests are compiled as the program is, that is 1: after each
/// move. `rt try --test` takes some two hundred times as long, and ends in time with 20 here.
const STRIDE: usize = 1;

/// Stops the role after these moves, and starts it told of everything, and of nothing.
fn stops_behind(rt: &impl Abort, alloc: Global, moves: &[Move], role: Role) -> Result<(), Fail> {
    let passed = ends_well(alloc, moves, role, 0)?;
    ends(rt, 0, moves.len(), passed);
    let passed = ends_well(alloc, moves, role, 12)?;
    ends(rt, 12, moves.len(), passed);
    Ok(())
}

/// Stops the role after each number of moves of the run that nothing disturbs, from none to all.
fn stops_anywhere(rt: &impl Abort, alloc: Global, role: Role) -> Result<(), Fail> {
    let moves = undisturbed(alloc)?;
    for count in 0..=moves.len() {
        if count % STRIDE == 0 {
            stops_behind(rt, alloc, &moves[..count], role)?;
        }
    }
    Ok(())
}

#[test]
fn ends_well_wherever_the_trigger_stops(rt: HostRuntime) -> Result<(), Fail> {
    stops_anywhere(&rt, rt.alloc(), Role::Trigger)
}

#[test]
fn ends_well_wherever_the_key_manager_stops(rt: HostRuntime) -> Result<(), Fail> {
    stops_anywhere(&rt, rt.alloc(), Role::KeyManager)
}

#[test]
fn ends_well_wherever_the_request_manager_stops(rt: HostRuntime) -> Result<(), Fail> {
    stops_anywhere(&rt, rt.alloc(), Role::RequestManager)
}

#[test]
fn ends_well_wherever_the_approver_stops(rt: HostRuntime) -> Result<(), Fail> {
    stops_anywhere(&rt, rt.alloc(), Role::Approver)
}

#[test]
fn ends_well_wherever_the_issuer_stops(rt: HostRuntime) -> Result<(), Fail> {
    stops_anywhere(&rt, rt.alloc(), Role::Issuer)
}

#[test]
fn ends_well_wherever_issuing_stops(rt: HostRuntime) -> Result<(), Fail> {
    stops_anywhere(&rt, rt.alloc(), Role::Issuing)
}

#[test]
fn ends_well_wherever_readiness_stops(rt: HostRuntime) -> Result<(), Fail> {
    stops_anywhere(&rt, rt.alloc(), Role::Readiness)
}

#[test]
fn ends_well_wherever_revision_stops(rt: HostRuntime) -> Result<(), Fail> {
    stops_anywhere(&rt, rt.alloc(), Role::Revision)
}
