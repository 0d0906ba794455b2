//! A pass goes on, and once it has ended its key is no longer in process.
ghost use Rattle.std.specs.Option.{option_copied};
ghost use Rattle.std.specs.Prelude.{◌≡◌, ℕ, None, IfOk, IfSome, IsSome, OnErr, OnOk, true};
ghost use Rattle.cmc_meta.specs.declared.key.Key.{Key as KeyValue};
ghost use Rattle.cmc_objects.specs.declared.role.Role.{Role as RoleValue};
ghost use Rattle.cmc_held.specs.Remembered.{past_or_new};
ghost use Rattle.cmc_rules.specs.Runs.{IsRun};
ghost use Rattle.cmc_moves.specs.Answers.{Answers, AnswersGoing, Leaves, asked_by};
ghost use Rattle.cmc_moves.specs.Prospects.{IsFirstAct};
ghost use Rattle.cmc_moves.specs.declared.moves.Move.TheVariants as moves;
ghost use Rattle.cmc_waking.specs.Queues.{row_at};
ghost use Rattle.cmc_kernel.specs.Kept.{on};
ghost use Rattle.cmc_world.specs.Fed.{HasRoomsToEnd, HasRow, IsClosingIfOpen, IsFed, IsGoing, IsOfSomePass, IsToClose, IsWrote};
ghost use Rattle.cmc_world.specs.Next.{IsNewestPass};
ghost use Rattle.cmc_rules.specs.Memory.{past};
ghost use Rattle.cmc_rules.specs.Origins.{begun};

use cmc_kernel::{Kernel, Move, Stepped};
use cmc_meta::Key;
use cmc_moves::{ending_at, let_go};
use cmc_objects::{Positions, Role};
use cmc_pass::Act;
use cmc_rules::{Ending, Past};
use cmc_waking::{Queues, parked_after};
use std::alloc::{AllocError, Global};

/// How a pass would end: what its role's queue is told then.
#[derive(Drop)]
pub(crate) struct Closing {
    pub role: Role,
    pub key: Key,
    pub ending: Ending,
    /// The role's own writes on the key.
    pub own: Positions,
    /// How far the role was told.
    pub at: Positions,
}

/// The role's own writes on the key.
pub(crate) fn own_of(past: Option<&Past>) -> Positions
    ensures { result ≡ (past_or_new (option_copied past.entry)).own }
{
    match past {
        Some(past) => past.own,
        None => Positions {
            certificates: 0,
            requests: 0,
            secrets: 0,
        },
    }
}

/// The role's own writes on the key, where they count for what the key waits for after a pass that ended so.
fn own_after(kernel: &Kernel, ending: Ending, role: Role, key: &Key) -> Positions
    ensures { IsWrote ending → result ≡ (on past kernel.now role key.now).own }
{
    match ending {
        Ending::Wrote => own_of(kernel.past(role, key)),
        _ => own_of(None),
    }
}

/// How the pass would end; `None` exactly where it is not open.
fn closing_of(kernel: &Kernel, pass: u64) -> Result<Option<Closing>, AllocError>
    ensures { IfOk result (λ c. on IsClosingIfOpen kernel.now pass c) }
{
    let Some(open) = kernel.passes().get(pass) else {
        return Ok(None);
    };
    let key = open.key.copy()?;
    let ending = ending_at(&open.stage);
    let own = own_after(kernel, ending, open.role, &key);
    Ok(Some(Closing {
        role: open.role,
        key,
        ending,
        own,
        at: kernel.told(open.role),
    }))
}

/// Makes room for the key of a pass that may end, and for the version that it waits for then, if there is one. No row changes.
fn room_to_end(queues: &mut Queues, closing: &Option<Closing>) -> Result<(), AllocError>
    requires { HasRow closing.now queues.old }
    ensures made { OnOk result (HasRoomsToEnd closing.now queues.new) }
    ensures rows { (r : RoleValue) → (k : KeyValue) → row_at queues.new r k ≡ row_at queues.old r k }
{
    let Some(closing) = closing else {
        return Ok(());
    };
    match parked_after(closing.ending, closing.own, closing.at) {
        Some(parked) => queues.place_for(closing.role, &closing.key, parked),
        None => Ok(()),
    }
}

/// After a move of the pass: where it has ended, its key is no longer in process.
fn close(kernel: &Kernel, queues: &mut Queues, pass: u64, closing: Option<Closing>)
    requires rooms { HasRoomsToEnd closing queues.old }
    requires left { on IsToClose kernel.now pass closing queues.old }
    ensures { on IsFed kernel.now queues.new }
{
    let Some(closing) = closing else {
        return;
    };
    if kernel.passes().get(pass).is_some() {
        return;
    }
    let Closing {
        role,
        key,
        ending,
        own,
        at,
    } = closing;
    queues.ended(role, &key, ending, own, at);
}

/// How the pass may end by its next move, with room for that; `None` where it does not.
fn ready_to_end(
    kernel: &Kernel,
    queues: &mut Queues,
    pass: u64,
) -> Result<Option<Closing>, AllocError>
    requires { on IsFed kernel.now queues.old }
    ensures closing { IfOk result (λ c. on IsClosingIfOpen kernel.now pass c) }
    ensures made { IfOk result (λ c. HasRoomsToEnd c queues.new) }
    ensures rows { (r : RoleValue) → (k : KeyValue) → row_at queues.new r k ≡ row_at queues.old r k }
{
    kernel.is_run();
    let closing = closing_of(kernel, pass)?;
    room_to_end(queues, &closing)?;
    Ok(closing)
}

/// Has the pass go on.
fn go_next(
    alloc: Global,
    kernel: &mut Kernel,
    queues: &mut Queues,
    pass: u64,
    incarnation: u64,
) -> Result<Stepped, AllocError>
    requires { on IsFed kernel.old queues.old }
    ensures answer { IfOk result (λ r. on Answers kernel.old (moves.Next pass incarnation) r) }
    ensures leaves { IfOk result (λ r. on Leaves kernel.old (moves.Next pass incarnation) r kernel.new.history) }
    ensures scenario { kernel.new.scenario ≡ kernel.old.scenario }
    ensures run { on IsRun kernel.new }
    ensures err { OnErr result (kernel.new ≡ kernel.old) }
    ensures fed { on IsFed kernel.new queues.new }
{
    kernel.is_run();
    let closing = ready_to_end(kernel, queues, pass)?;
    let answer = kernel.step_next(alloc, pass, incarnation)?;
    close(kernel, queues, pass, closing);
    Ok(answer)
}

/// Whether this names the newest pass, which is open, and the present incarnation of its role.
pub(crate) fn is_newest(kernel: &Kernel, pass: u64, incarnation: u64) -> bool
    ensures { result ≡ true → on IsNewestPass kernel.now pass incarnation }
{
    if pass != kernel.passes_begun() {
        return false;
    }
    match kernel.passes().get(pass) {
        Some(open) => kernel.incarnation(open.role) == incarnation,
        None => false,
    }
}

/// Has the newest pass, which has only begun, go on by its act.
fn act_newest(
    alloc: Global,
    kernel: &mut Kernel,
    queues: &mut Queues,
    pass: u64,
    incarnation: u64,
    does: Act,
) -> Result<Stepped, AllocError>
    requires fed { on IsFed kernel.old queues.old }
    requires newest { on IsNewestPass kernel.old pass incarnation }
    requires first { on IsFirstAct kernel.old (on begun kernel.old) does }
    ensures answer { IfOk result (λ r. on Answers kernel.old (moves.Next pass incarnation) r) }
    ensures leaves { IfOk result (λ r. on Leaves kernel.old (moves.Next pass incarnation) r kernel.new.history) }
    ensures scenario { kernel.new.scenario ≡ kernel.old.scenario }
    ensures run { on IsRun kernel.new }
    ensures err { OnErr result (kernel.new ≡ kernel.old) }
    ensures fed { on IsFed kernel.new queues.new }
{
    kernel.is_run();
    let _events = kernel.scenario().events();
    act_first(alloc, kernel, queues, pass, does)
}

/// Has the pass go on: one that has only begun by its act, where that is known.
pub(crate) fn go_kept(
    alloc: Global,
    kernel: &mut Kernel,
    queues: &mut Queues,
    pass: u64,
    incarnation: u64,
    does: Option<Act>,
) -> Result<Stepped, AllocError>
    requires fed { on IsFed kernel.old queues.old }
    requires newest { IsSome does → on IsNewestPass kernel.old pass incarnation }
    requires first { IfSome does (on IsFirstAct kernel.old (on begun kernel.old)) }
    ensures answer { IfOk result (λ r. on Answers kernel.old (moves.Next pass incarnation) r) }
    ensures leaves { IfOk result (λ r. on Leaves kernel.old (moves.Next pass incarnation) r kernel.new.history) }
    ensures scenario { kernel.new.scenario ≡ kernel.old.scenario }
    ensures run { on IsRun kernel.new }
    ensures err { OnErr result (kernel.new ≡ kernel.old) }
    ensures fed { on IsFed kernel.new queues.new }
{
    match does {
        Some(does) => act_newest(alloc, kernel, queues, pass, incarnation, does),
        None => go_next(alloc, kernel, queues, pass, incarnation),
    }
}

/// Makes the move, by which a pass goes on.
fn make_going(alloc: Global, kernel: &mut Kernel, step: Move) -> Result<Stepped, AllocError>
    requires { IsOfSomePass step }
    ensures answer { IfOk result (λ r. on Answers kernel.old step r) }
    ensures leaves { IfOk result (λ r. on Leaves kernel.old step r kernel.new.history) }
    ensures scenario { kernel.new.scenario ≡ kernel.old.scenario }
    ensures run { on IsRun kernel.new }
    ensures err { OnErr result (kernel.new ≡ kernel.old) }
{
    match step {
        Move::Next { pass, incarnation } => kernel.step_next(alloc, pass, incarnation),
        Move::Give {
            pass,
            incarnation,
            given,
        } => kernel.step_give(pass, incarnation, given),
        Move::Decide {
            pass,
            incarnation,
            decided,
        } => kernel.step_decide(alloc, pass, incarnation, decided),
        Move::Script | Move::Deliver { .. } | Move::Begin { .. } => unreachable!(),
    }
}

/// Makes the move, by which the pass goes on.
pub(crate) fn go_on(
    alloc: Global,
    kernel: &mut Kernel,
    queues: &mut Queues,
    pass: u64,
    step: Move,
) -> Result<Stepped, AllocError>
    requires fed { on IsFed kernel.old queues.old }
    requires going { IsGoing pass step }
    ensures answer { IfOk result (λ r. on Answers kernel.old step r) }
    ensures leaves { IfOk result (λ r. on Leaves kernel.old step r kernel.new.history) }
    ensures scenario { kernel.new.scenario ≡ kernel.old.scenario }
    ensures run { on IsRun kernel.new }
    ensures err { OnErr result (kernel.new ≡ kernel.old) }
    ensures fed { on IsFed kernel.new queues.new }
{
    kernel.is_run();
    let closing = match ready_to_end(kernel, queues, pass) {
        Ok(closing) => closing,
        Err(lack) => {
            let_go(step);
            return Err(lack);
        }
    };
    let answer = make_going(alloc, kernel, step)?;
    close(kernel, queues, pass, closing);
    Ok(answer)
}

/// Has a pass, which has only begun, go on by its act.
pub(crate) fn act_first(
    alloc: Global,
    kernel: &mut Kernel,
    queues: &mut Queues,
    pass: u64,
    does: Act,
) -> Result<Stepped, AllocError>
    requires fed { on IsFed kernel.old queues.old }
    requires first { on IsFirstAct kernel.old pass does }
    ensures answer { IfOk result (λ r. on AnswersGoing kernel.old pass None (asked_by does) r) }
    ensures leaves { IfOk result (λ r. (named : ℕ) → on Leaves kernel.old (moves.Next pass named) r kernel.new.history) }
    ensures scenario { kernel.new.scenario ≡ kernel.old.scenario }
    ensures run { on IsRun kernel.new }
    ensures err { OnErr result (kernel.new ≡ kernel.old) }
    ensures fed { on IsFed kernel.new queues.new }
{
    kernel.is_run();
    let closing = match ready_to_end(kernel, queues, pass) {
        Ok(closing) => closing,
        Err(lack) => {
            let_go(does);
            return Err(lack);
        }
    };
    let answer = kernel.act_first(alloc, pass, does)?;
    close(kernel, queues, pass, closing);
    Ok(answer)
}
