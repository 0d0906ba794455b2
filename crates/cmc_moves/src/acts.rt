//! What the roles do, and what they call for the values of their questions.
ghost use Rattle.std.specs.Prelude.{◌≡◌, ◌↔◌, IfOk, IsSome, IsTrue, Some, true, false};
ghost use Rattle.cmc_pass.specs.declared.pass.Act.TheVariants.{Nothing};
ghost use Rattle.cmc_next.specs.Questions.{IsQuestionOf};
ghost use Rattle.cmc_pass.specs.Values.{IsValue};
ghost use Rattle.cmc_rules.specs.Acts as acts;
ghost use Rattle.cmc_rules.specs.NextRequests.{HasNextRevision};
ghost use Rattle.cmc_safety.specs.MayAct.{MayAct};
ghost use Rattle.cmc_objects.specs.declared.role.Role.{Role as RoleValue};
ghost use Rattle.cmc_moves.specs.Prospects.{IsProspect};
ghost use Rattle.cmc_moves.specs.declared.acts.Prospect.TheVariants as prospects;

use crate::doing::let_go;
use cmc_objects::{Call, Order, Role};
use cmc_pass::{Act, Desk, Value, Views};
use std::alloc::{AllocError, Global};

/// What the role does on these views at the moment `now`, in seconds since 1970-01-01T00:00:00Z.
#[tactic(auto, unfolding(cmc_rules::specs::Acts::act))]
pub fn act_of(
    alloc: Global,
    role: Role,
    seen: &Views,
    now: i64,
    desk: &Desk,
) -> Result<Act, AllocError>
    requires { MayAct seen.now now desk.now }
    ensures { IfOk result (λ a. a ≡ acts.act role seen.now now desk.now) }
{
    match role {
        Role::Trigger => cmc_trigger::act(alloc, seen, now, desk),
        Role::KeyManager => cmc_keymanager::act(alloc, seen, now, desk),
        Role::RequestManager => cmc_requestmanager::act(alloc, seen, now, desk),
        Role::Approver => cmc_approver::act(alloc, seen, now, desk),
        Role::Issuer => cmc_issuer::act(alloc, seen, now, desk),
        Role::Issuing => cmc_issuing::act(alloc, seen, now, desk),
        Role::Readiness => cmc_status::act_readiness(alloc, seen, now, desk),
        Role::Revision => cmc_status::act_revision(alloc, seen, now, desk),
    }
}

/// Whether the act is none. It drops the act.
fn is_nothing(does: Act) -> bool
    ensures { IsTrue result ↔ (does ≡ Nothing) }
{
    let nothing = matches!(does, Act::Nothing);
    let_go(does);
    nothing
}

/// Whether the role has nothing to do on these views at the moment `now`, in seconds since 1970-01-01T00:00:00Z: whether
/// its act is none. Those roles whose acts are dear to build tell so without building them.
#[tactic(auto, unfolding(cmc_rules::specs::Acts::act))]
pub fn is_idle_of(
    alloc: Global,
    role: Role,
    seen: &Views,
    now: i64,
    desk: &Desk,
) -> Result<bool, AllocError>
    requires { MayAct seen.now now desk.now }
    ensures { IfOk result (λ b. IsTrue b ↔ (acts.act role seen.now now desk.now ≡ Nothing)) }
{
    match role {
        Role::RequestManager => Ok(cmc_requestmanager::is_idle(seen)),
        Role::Issuing => cmc_issuing::is_idle(alloc, seen, now),
        _ => Ok(is_nothing(act_of(alloc, role, seen, now, desk)?)),
    }
}

/// Whether a role has something to do, and its act where that had to be built to find out.
#[derive(Drop)]
pub enum Prospect {
    /// The role has nothing to do: its act is none.
    Nothing,
    /// This is its act, which is not none.
    Does(Act),
    /// Its act is not none. It is dear, and was not built.
    Something,
}

/// The prospect of a role whose act this is.
fn built(does: Act) -> Prospect
    ensures { (role : RoleValue) → IsProspect role does result }
{
    match does {
        Act::Nothing => Prospect::Nothing,
        does => Prospect::Does(does),
    }
}

/// The prospect of a role of which it was only found out whether it has nothing to do.
fn unbuilt(idle: bool) -> Prospect
    ensures nothing { idle ≡ true → result ≡ prospects.Nothing }
    ensures something { idle ≡ false → result ≡ prospects.Something }
{
    if idle {
        Prospect::Nothing
    } else {
        Prospect::Something
    }
}

/// Whether the role has something to do on these views at the moment `now`, in seconds since 1970-01-01T00:00:00Z. Those
/// roles whose acts are dear to build tell so without building them, and any other gives its act along.
#[tactic(auto, unfolding(cmc_rules::specs::Acts::act))]
pub fn prospect_of(
    alloc: Global,
    role: Role,
    seen: &Views,
    now: i64,
    desk: &Desk,
) -> Result<Prospect, AllocError>
    requires { MayAct seen.now now desk.now }
    ensures { IfOk result (λ p. IsProspect role (acts.act role seen.now now desk.now) p) }
{
    match role {
        Role::RequestManager => Ok(unbuilt(cmc_requestmanager::is_idle(seen))),
        Role::Issuing => Ok(unbuilt(cmc_issuing::is_idle(alloc, seen, now)?)),
        _ => Ok(built(act_of(alloc, role, seen, now, desk)?)),
    }
}

/// The call that follows this value of the question `order` that the role asks on these views by some desk.
#[tactic(auto, unfolding(cmc_rules::specs::Acts::call_after, cmc_rules::specs::Acts::act))]
pub fn follow_of(
    alloc: Global,
    role: Role,
    seen: &Views,
    now: i64,
    order: &Order,
    value: &Value,
) -> Result<Call, AllocError>
    requires revision { HasNextRevision seen.now.certificate }
    requires asked { IsQuestionOf (acts.act role seen.now now) order.now }
    requires right { IsValue order.now value.now }
    requires follows { IsSome (acts.call_after role seen.now now order.now value.now) }
    ensures { IfOk result (λ c. acts.call_after role seen.now now order.now value.now ≡ Some c) }
{
    match role {
        Role::KeyManager => cmc_keymanager::follow(alloc, seen, now, order, value),
        Role::RequestManager => cmc_requestmanager::follow(alloc, seen, now, order, value),
        Role::Approver => cmc_approver::follow(alloc, seen, now, order, value),
        Role::Issuer => cmc_issuer::follow(alloc, seen, now, order, value),
        _ => unreachable!(),
    }
}
