//! What a pass does next, by its act and by how far it has come.
ghost use Rattle.std.specs.Prelude.{◌≡◌, IfOk};
ghost use Rattle.cmc_objects.specs.declared.orders.Order.{Order as OrderValue};
ghost use Rattle.cmc_pass.specs.declared.value.Value.{Value as ValueGiven};
ghost use Rattle.cmc_objects.specs.declared.call.Call.{Call as CallValue};
ghost use Rattle.std.specs.declared.option.Option.{Option as OptionValue};
ghost use Rattle.cmc_rules.specs.Acts.{act, call_after};
ghost use Rattle.cmc_rules.specs.Memory as memory;
ghost use Rattle.cmc_safety.specs.MayAct.{MayAct};
ghost use Rattle.cmc_moves.specs.PassActions as spec;
ghost use Rattle.cmc_moves.specs.PassActions.{HasNext, HasOwnQuestion, HasSecret, HasStatus, IsDoingBy, asked_in};
ghost use Rattle.cmc_moves.specs.Answers.{next_answer, outdated_at, value_entry};

use crate::acts::{act_of, follow_of};
use crate::moves::Stepped;
use cmc_objects::{Call, Cause, Entry, Order, Role};
use cmc_pass::{Act, Desk, Value, Views};
use cmc_rules::{Ending, OpenPass, Stage};
use std::alloc::{AllocError, Global};

/// What comes next of a pass.
#[derive(Drop)]
pub enum Doing {
    Call(Call),
    Ask(Order),
    End(Cause),
}

/// What a move of a pass is answered, or what it has the pass do.
#[derive(Drop)]
pub enum Judged {
    Answer(Stepped),
    Does(Doing),
}

/// What a pass does first whose act is this: what issues begins with the live read of its Certificate.
///
/// # Errors
///
/// Memory runs out, here and in all that follows.
pub fn first_doing(does: Act) -> Result<Doing, AllocError>
    ensures { IfOk result (λ d. (after : OrderValue → ValueGiven → OptionValue CallValue) → IsDoingBy Stage.Fresh does after d) }
{
    match does {
        Act::Nothing => Ok(Doing::End(Cause::Nothing)),
        Act::Call(call) => Ok(Doing::Call(call)),
        Act::Ask(order) => Ok(Doing::Ask(order)),
        Act::Issue(plan) => Ok(Doing::Call(Call::Get {
            key: plan.get.copy()?,
        })),
        Act::Temporary(plan) => Ok(Doing::Call(Call::Get {
            key: plan.get.copy()?,
        })),
    }
}

/// The Secret of a plan, which is written after the live read.
fn secret_doing(does: Act) -> Result<Doing, AllocError>
    requires { HasSecret does }
    ensures { IfOk result (λ d. (after : OrderValue → ValueGiven → OptionValue CallValue) → IsDoingBy Stage.Read does after d) }
{
    match does {
        Act::Issue(plan) => Ok(Doing::Call(plan.secret.copy()?)),
        Act::Temporary(plan) => Ok(Doing::Call(plan.secret.copy()?)),
        _ => unreachable!(),
    }
}

/// The status of a plan, which is written after its Secret.
fn status_doing(does: Act) -> Result<Doing, AllocError>
    requires { HasStatus does }
    ensures { IfOk result (λ d. (after : OrderValue → ValueGiven → OptionValue CallValue) → IsDoingBy Stage.Saved does after d) }
{
    match does {
        Act::Issue(plan) => Ok(Doing::Call(plan.status.copy()?)),
        _ => unreachable!(),
    }
}

/// The Secret of the plan that is the role's act on these views. The role that issues gives it without the plan.
#[tactic(auto, unfolding(cmc_rules::specs::Acts::act))]
fn secret_next(
    alloc: Global,
    role: Role,
    seen: &Views,
    since: i64,
    desk: &Desk,
) -> Result<Doing, AllocError>
    requires acts { MayAct seen.now since desk.now }
    requires plan { HasSecret (act role seen.now since desk.now) }
    ensures { IfOk result (λ d. (after : OrderValue → ValueGiven → OptionValue CallValue) → IsDoingBy Stage.Read (act role seen.now since desk.now) after d) }
{
    match role {
        Role::Issuing => Ok(Doing::Call(cmc_issuing::secret_of(alloc, seen, since)?)),
        _ => secret_doing(act_of(alloc, role, seen, since, desk)?),
    }
}

/// The status of the plan that is the role's act on these views. The role that issues gives it without the plan.
#[tactic(auto, unfolding(cmc_rules::specs::Acts::act))]
fn status_next(
    alloc: Global,
    role: Role,
    seen: &Views,
    since: i64,
    desk: &Desk,
) -> Result<Doing, AllocError>
    requires acts { MayAct seen.now since desk.now }
    requires plan { HasStatus (act role seen.now since desk.now) }
    ensures { IfOk result (λ d. (after : OrderValue → ValueGiven → OptionValue CallValue) → IsDoingBy Stage.Saved (act role seen.now since desk.now) after d) }
{
    match role {
        Role::Issuing => Ok(Doing::Call(cmc_issuing::status_of(alloc, seen, since)?)),
        _ => status_doing(act_of(alloc, role, seen, since, desk)?),
    }
}

/// Whether what comes next of a pass that has come so far hangs on its act.
pub fn hangs_on_act(stage: &Stage) -> bool
    ensures { result ≡ spec.hangs_on_act stage.now }
{
    matches!(stage, Stage::Fresh | Stage::Read | Stage::Saved)
}

/// What comes next of the pass, where its role decides by this desk.
pub fn doing_of(alloc: Global, pass: &OpenPass, desk: &Desk) -> Result<Doing, AllocError>
    requires acts { MayAct pass.now.seen pass.now.since desk.now }
    requires own { HasOwnQuestion pass.now.stage (act pass.now.role pass.now.seen pass.now.since) }
    requires goes { HasNext pass.now.stage (act pass.now.role pass.now.seen pass.now.since desk.now) (call_after pass.now.role pass.now.seen pass.now.since) }
    ensures { IfOk result (λ d. IsDoingBy pass.now.stage (act pass.now.role pass.now.seen pass.now.since desk.now) (call_after pass.now.role pass.now.seen pass.now.since) d) }
{
    match &pass.stage {
        Stage::Fresh => first_doing(act_of(alloc, pass.role, &pass.seen, pass.since, desk)?),
        Stage::Given { order, value } => Ok(Doing::Call(follow_of(
            alloc, pass.role, &pass.seen, pass.since, order, value,
        )?)),
        Stage::Read => secret_next(alloc, pass.role, &pass.seen, pass.since, desk),
        Stage::Saved => status_next(alloc, pass.role, &pass.seen, pass.since, desk),
        Stage::Wrote => Ok(Doing::End(Cause::Wrote)),
        Stage::Refused { entry, .. } => Ok(Doing::End(Cause::Stopper(*entry))),
        _ => unreachable!(),
    }
}

/// What a move is answered that has the pass do this.
pub fn answer_of(pass: u64, doing: &Doing) -> Result<Stepped, AllocError>
    ensures { IfOk result (λ a. a ≡ next_answer pass (asked_in doing.now)) }
{
    match doing {
        Doing::Ask(order) => Ok(Stepped::Order {
            pass,
            order: order.copy()?,
        }),
        Doing::Call(_) | Doing::End(_) => Ok(Stepped::Done),
    }
}

/// What comes next of a pass has many shapes, and to drop it is one thing for all of them.
pub fn let_go<T: Drop>(value: T) {
    let _value = value;
}

/// The entry of a value that a pass is given.
pub fn value_entry_of(pass: u64, value: &Value) -> Result<Entry, AllocError>
    ensures { IfOk result (λ e. e ≡ value_entry pass value.now) }
{
    match value {
        Value::Made(key) => Ok(Entry::Made {
            pass,
            key: key.copy()?,
        }),
        Value::Signed(signature) => Ok(Entry::Signed {
            pass,
            signature: signature.copy()?,
        }),
        Value::Answered(answer) => Ok(Entry::Answered {
            pass,
            answer: answer.copy()?,
        }),
        Value::Judged(approved) => Ok(Entry::Judged {
            pass,
            yes: *approved,
        }),
    }
}

/// How a pass of this stage ends, as its role remembers it.
pub fn ending_at(stage: &Stage) -> Ending
    ensures { result ≡ memory.ending_at stage.now }
{
    match stage {
        Stage::Fresh => Ending::Nothing,
        Stage::Wrote => Ending::Wrote,
        Stage::Refused { obstacle, .. } => Ending::Refused {
            obstacle: *obstacle,
        },
        _ => Ending::Open,
    }
}

/// The present incarnation of a role, where a pass began in another, or a move names another.
pub fn outdated_of(present: u64, began: u64, named: u64) -> Option<u64>
    ensures { result ≡ outdated_at present began named }
{
    if began == present && named == present {
        return None;
    }
    Some(present)
}
