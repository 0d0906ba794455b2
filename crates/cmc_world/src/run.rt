//! A run by one hand, from its beginning on or from where others left it.
ghost use Rattle.std.specs.Prelude.{◌≡◌, IfOk, Some};
ghost use Rattle.cmc_pass.specs.GivenValues.{order_of};
ghost use Rattle.cmc_rules.specs.Passes.{open_pass};
ghost use Rattle.cmc_moves.specs.Answers.{kept_of};
ghost use Rattle.cmc_moves.specs.declared.moves.Move.TheVariants as moves;
ghost use Rattle.cmc_kernel.specs.Kept.{on};
ghost use Rattle.cmc_kernel.specs.Plain.{IsPlainMove};
ghost use Rattle.cmc_world.specs.PlainMoves.{move_of};
ghost use Rattle.cmc_world.specs.Turns as spec;
ghost use Rattle.cmc_world.specs.Turns.{IsMadeFor, IsTurn, IsDrained, IsDriven};

use crate::gate::Gate;
use crate::passes::Going;
use crate::plain_move::PlainMove;
use crate::values::value_of;
use crate::world::World;
use cmc_answers::Signer;
use cmc_kernel::{Move, Stepped};
use cmc_keys::KeyMaker;
use cmc_pass::Given;
use cmc_seed::HashSeed;
use cmc_setup::Scenario;
use std::alloc::{AllocError, Global};

/// How a run by the plain order ended.
#[derive(Drop)]
pub enum Driven {
    /// The run is finished.
    Finished(World),
    /// The entries of the next move do not fit in the history.
    Spent(World),
}

/// What came of one turn.
#[derive(Clone, Copy)]
pub(crate) enum Turn {
    /// The plain move was made.
    On,
    /// The run is finished.
    Finished,
    /// The entries of the plain move do not fit.
    Spent,
}

/// What came of a turn by what its move was answered: of a pass that asks the question is told.
fn turn_after(answer: Stepped) -> Turn
    ensures { result ≡ spec.turn_after answer }
{
    match &answer {
        Stepped::Done | Stepped::Order { .. } => Turn::On,
        _ => Turn::Spent,
    }
}

/// Makes the plain move `next`, by which no pass goes on that waits for a value, where it fits.
fn make_move(alloc: Global, world: &mut World, next: PlainMove) -> Result<Turn, AllocError>
    requires plain { on IsPlainMove world.old (Some (move_of next)) }
    requires made { on IsMadeFor world.old (move_of next) (move_of next) }
    ensures turn { IfOk result (λ t. on IsTurn world.old world.new.history t) }
    ensures scenario { world.new.scenario ≡ world.old.scenario }
{
    world.is_run();
    let _events = world.scenario().events();
    let answer = world.make_plain(alloc, next)?;
    Ok(turn_after(answer))
}

/// Gives the pass, which is the next to go on, the value that it waits for, where its entry fits.
fn give(alloc: Global, world: &mut World, going: Going, given: Given) -> Result<Turn, AllocError>
    requires plain { on IsPlainMove world.old (Some (moves.Next going.pass going.incarnation)) }
    requires waits { Some (order_of given) ≡ kept_of (on open_pass world.old going.pass) }
    ensures turn { IfOk result (λ t. on IsTurn world.old world.new.history t) }
    ensures scenario { world.new.scenario ≡ world.old.scenario }
{
    world.is_run();
    let _events = world.scenario().events();
    let Going { pass, incarnation } = going;
    let step = Move::Give {
        pass,
        incarnation,
        given,
    };
    let answer = world.step(alloc, step)?;
    Ok(turn_after(answer))
}

/// Has the pass, which is the next to go on, do so: it is given the value that it waits for, or goes on by itself.
fn go_on<M: KeyMaker, N: Signer, G: Gate>(
    alloc: Global,
    world: &mut World,
    going: Going,
    keys: &M,
    signer: &N,
    gate: &G,
) -> Result<Turn, AllocError>
    requires { on IsPlainMove world.old (Some (moves.Next going.pass going.incarnation)) }
    ensures turn { IfOk result (λ t. on IsTurn world.old world.new.history t) }
    ensures scenario { world.new.scenario ≡ world.old.scenario }
{
    match value_of(alloc, world.kernel(), going.pass, keys, signer, gate)? {
        Some(given) => give(alloc, world, going, given),
        None => make_move(alloc, world, PlainMove::Next(going)),
    }
}

fn take_turn<M: KeyMaker, N: Signer, G: Gate>(
    alloc: Global,
    world: &mut World,
    keys: &M,
    signer: &N,
    gate: &G,
) -> Result<Turn, AllocError>
    ensures turn { IfOk result (λ t. on IsTurn world.old world.new.history t) }
    ensures scenario { world.new.scenario ≡ world.old.scenario }
{
    match world.next_plain(alloc)? {
        None => Ok(Turn::Finished),
        Some(PlainMove::Next(going)) => go_on(alloc, world, going, keys, signer, gate),
        Some(next) => make_move(alloc, world, next),
    }
}

/// Goes on with a run by the plain order, from what stands on, until it is finished or its next move does not fit. Passes
/// that are open are taken over, and one that waits for a value is given one.
pub fn drain<M: KeyMaker, N: Signer, G: Gate>(
    alloc: Global,
    mut world: World,
    keys: &M,
    signer: &N,
    gate: &G,
) -> Result<Driven, AllocError>
    ensures { IfOk result (λ d. IsDrained world d) }
{
    let events = world.scenario().events();
    for _turn in 0..=events {
        match take_turn(alloc, &mut world, keys, signer, gate)? {
            Turn::On => {}
            Turn::Finished => return Ok(Driven::Finished(world)),
            Turn::Spent => return Ok(Driven::Spent(world)),
        }
    }
    world.is_run();
    unreachable!()
}

/// Runs the scenario by the plain order: as long as the run is not finished, the first that is possible of
/// the next step of the script, the next phase of the least open pass, a delivery to the newest accepted
/// write of a kind, and a begin of a fitting key. A pass that waits for a value is given one: a key or a
/// signature by `keys`, an answer of its issuer by `signer`, and a judgement by `cmc_answers::judge`; the gate is
/// called before each of them.
///
/// So its history is a function of the scenario, and of what is given where a row leaves the value free.
pub fn drive_plain<M: KeyMaker, N: Signer, G: Gate>(
    alloc: Global,
    seed: HashSeed,
    scenario: Scenario,
    keys: &M,
    signer: &N,
    gate: &G,
) -> Result<Driven, AllocError>
    ensures { IfOk result (λ d. IsDriven scenario d) }
{
    let world = World::seeded(alloc, seed, scenario)?;
    drain(alloc, world, keys, signer, gate)
}
