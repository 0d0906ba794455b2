//! Moves one after another.
ghost use Rattle.std.specs.Prelude.{◌≡◌, IfOk, OnErr};
ghost use Rattle.cmc_pass.specs.GivenValues.{order_of, value_of};
ghost use Rattle.cmc_pass.specs.Values.{IsValue};
ghost use Rattle.cmc_kernel.specs.Kept.{on, setting_of};
ghost use Rattle.cmc_kernel.specs.Leads.{IsRight, IsStep, Lead, LeadsSome};

use crate::world::World;
use cmc_kernel::Move;
use cmc_pass::Given;
use std::alloc::{AllocError, Global};

/// A law: what is given is right for its question.
fn is_value(given: &Given)
    ensures { IsValue (order_of given.now) (value_of given.now) }
{
    match given {
        Given::Made(made) => {
            let _key = made.bytes();
        }
        Given::Signed(signed) => {
            let _signature = signed.signature();
        }
        Given::Answered(answered) => {
            let _answer = answered.answer();
        }
        Given::Judged(judged) => {
            let _yes = judged.yes();
        }
    }
}

/// A law: a value that the move gives is right for its question.
fn is_right(step: &Move)
    ensures { IsRight step.now }
{
    match step {
        Move::Give { given, .. } => is_value(given),
        Move::Script
        | Move::Deliver { .. }
        | Move::Begin { .. }
        | Move::Next { .. }
        | Move::Decide { .. } => {}
    }
}

/// Makes one move, whatever it is answered.
fn make_one(world: &mut World, alloc: Global, step: Move) -> Result<(), AllocError>
    ensures made { IfOk result (λ _. on IsStep world.old step world.new.history) }
    ensures scenario { world.new.scenario ≡ world.old.scenario }
    ensures err { OnErr result (world.new ≡ world.old) }
{
    is_right(&step);
    let _answer = world.step(alloc, step)?;
    Ok(())
}

/// Makes the moves one after another, whatever each of them is answered: they lead from the history that stood to the one
/// that stands then (`every_list_of_moves` says what that makes sure of).
///
/// # Errors
///
/// Memory runs out: the history is then that to which some of the moves, from the first on, lead.
pub fn make_all(world: &mut World, alloc: Global, moves: Vec<Move>) -> Result<(), AllocError>
    ensures leads { IfOk result (λ _. Lead (setting_of world.old.scenario) moves.items world.old.history world.new.history) }
    ensures scenario { world.new.scenario ≡ world.old.scenario }
    ensures err { OnErr result (LeadsSome (setting_of world.old.scenario) moves.items world.old.history world.new.history) }
{
    for step in moves {
        make_one(world, alloc, step)?;
    }
    Ok(())
}
