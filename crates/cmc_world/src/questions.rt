//! The questions that passes ask, and where they stand in the history.
ghost use Rattle.std.specs.Prelude.{◌≡◌, IfOk, reverse};
ghost use Rattle.cmc_rules.specs.Passes.{open_pass};
ghost use Rattle.cmc_moves.specs.Answers.{kept_at, kept_of};
ghost use Rattle.cmc_kernel.specs.Kept.{on};
ghost use Rattle.cmc_world.specs.Questions.{asks, ask_number, work_of};
ghost use Rattle.cmc_world.specs.Turns.{CanBeKept};

use crate::gate::{Point, Work};
use cmc_history::History;
use cmc_kernel::Kernel;
use cmc_objects::{Entry, Order};
use cmc_rules::Stage;
use std::alloc::AllocError;

/// The question whose value a pass of this stage waits for; `None` exactly where it waits for none.
fn question_at(stage: &Stage) -> Result<Option<Order>, AllocError>
    requires { CanBeKept (kept_at stage.now) }
    ensures kept { IfOk result (λ order. order ≡ kept_at stage.now) }
    ensures made { IfOk result CanBeKept }
{
    match stage {
        Stage::Asked { order } => Ok(Some(order.copy()?)),
        _ => Ok(None),
    }
}

/// The question whose value the pass of this number waits for; `None` exactly where it waits for none. A key that is asked
/// for is one that can be made.
pub fn question(kernel: &Kernel, pass: u64) -> Result<Option<Order>, AllocError>
    ensures kept { IfOk result (λ order. order ≡ kept_of (on open_pass kernel.now pass)) }
    ensures made { IfOk result CanBeKept }
{
    kernel.is_run();
    match kernel.passes().get(pass) {
        Some(open) => question_at(&open.stage),
        None => Ok(None),
    }
}

/// Whether the pass of this number asks its question in the entry.
fn is_question(entry: &Entry, number: u64) -> bool
    ensures { result ≡ asks number entry.now }
{
    match entry {
        Entry::Ask { pass, .. } => *pass == number,
        _ => false,
    }
}

fn ask_number_in(entries: &[Entry], pass: u64) -> u64
    ensures { result ≡ ask_number pass (reverse entries.now) }
{
    for newer in 0..entries.len() {
        let number = entries.len() - newer;
        if is_question(&entries[number - 1], pass) {
            return number as u64;
        }
    }
    0
}

fn work_for(order: &Order) -> Work
    ensures { result ≡ work_of order.now }
{
    match order {
        Order::Key(_) => Work::Key,
        Order::Csr(_) => Work::Csr,
        Order::Sign(_) => Work::Sign,
        Order::Judge(_) => Work::Judge,
    }
}

/// The point of the work that the pass of this number asked for by this question: its sort, and the number of the entry in
/// which the pass asked, 0 where it asked nothing.
pub fn point_of(history: &History, pass: u64, order: &Order) -> Point
    ensures { result ≡ record { work = work_of order.now; entry = ask_number pass history.now.entries } }
{
    Point {
        work: work_for(order),
        entry: ask_number_in(history.as_slice(), pass),
    }
}
