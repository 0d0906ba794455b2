//! Values for the questions of passes.
ghost use Rattle.std.specs.Prelude.{◌≡◌, IfOk, option_map};
ghost use Rattle.cmc_pass.specs.GivenValues.{order_of};
ghost use Rattle.cmc_rules.specs.Passes.{open_pass};
ghost use Rattle.cmc_moves.specs.Answers.{kept_of};
ghost use Rattle.cmc_kernel.specs.Kept.{on};
ghost use Rattle.cmc_world.specs.Turns.{CanBeMade};

use crate::gate::Gate;
use crate::questions::{point_of, question};
use cmc_answers::{Signer, judge};
use cmc_kernel::Kernel;
use cmc_keys::KeyMaker;
use cmc_objects::Order;
use cmc_pass::Given;
use std::alloc::{AllocError, Global};

/// A value for the question, which is right for its row: a key or a signature by `keys`, an issuer's answer by `signer`, and
/// a judgement by `cmc_answers::judge`.
pub fn value_for<M: KeyMaker, N: Signer>(
    alloc: Global,
    order: &Order,
    keys: &M,
    signer: &N,
) -> Result<Given, AllocError>
    requires { CanBeMade order.now }
    ensures { IfOk result (λ g. order_of g ≡ order.now) }
{
    match order {
        Order::Key(order) => Ok(Given::Made(keys.make(alloc, order)?)),
        Order::Csr(order) => Ok(Given::Signed(keys.sign(alloc, order)?)),
        Order::Sign(order) => Ok(Given::Answered(signer.sign(alloc, order)?)),
        Order::Judge(order) => Ok(Given::Judged(judge(alloc, order.copy()?)?)),
    }
}

/// A value for the question that the pass of this number waits at, after the gate; `None` exactly where it waits at none.
pub(crate) fn value_of<M: KeyMaker, N: Signer, G: Gate>(
    alloc: Global,
    kernel: &Kernel,
    pass: u64,
    keys: &M,
    signer: &N,
    gate: &G,
) -> Result<Option<Given>, AllocError>
    ensures { IfOk result (λ g. option_map order_of g ≡ kept_of (on open_pass kernel.now pass)) }
{
    match question(kernel, pass)? {
        Some(order) => {
            gate.at(point_of(kernel.history(), pass, &order));
            Ok(Some(value_for(alloc, &order, keys, signer)?))
        }
        None => Ok(None),
    }
}
