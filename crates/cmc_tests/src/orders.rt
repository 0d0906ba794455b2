//! What no clause says: that a question to an issuer is copied where memory is ample.
ghost use Rattle.std.specs.Prelude.{◌≡◌};
ghost use Rattle.cmc_meta.specs.ConditionLists.{condition_rank};
ghost use Rattle.cmc_objects.specs.Requests.{is_stated, is_short_text, is_short_option, is_duration_form, is_request_form};

use crate::checks::passes;
use crate::whole::request;
use cmc_meta::{Condition, ConditionKind, Text, Tri};
use cmc_objects::{CertificateRequest, Order, Shared, SignOrder, SignRow};
use std::alloc::{AllocError, Global};
use std::process::Abort;
use std::test::Fail;

/// The place of a kind in the order of kinds.
fn rank(kind: ConditionKind) -> u8
    ensures { result ≡ condition_rank kind }
{
    match kind {
        ConditionKind::Ready => 0,
        ConditionKind::Issuing => 1,
        ConditionKind::Approved => 2,
        ConditionKind::Denied => 3,
        ConditionKind::InvalidRequest => 4,
    }
}

fn stands(conditions: &[Condition], kind: ConditionKind) -> bool
    ensures { result ≡ is_stated kind conditions.now }
{
    conditions.iter().any(|condition| rank(condition.kind) == rank(kind)
        && condition.status.same(Tri::True))
}

fn is_short(text: &Text) -> bool
    ensures { result ≡ is_short_text text.now }
{
    text.as_str().len() <= 253
}

fn is_short_or_absent(text: &Option<Text>) -> bool
    ensures { result ≡ is_short_option text.now }
{
    match text {
        None => true,
        Some(text) => is_short(text),
    }
}

fn is_duration(seconds: Option<u64>) -> bool
    ensures { result ≡ is_duration_form seconds }
{
    match seconds {
        None => true,
        Some(seconds) => seconds <= 3_599_999_996_400,
    }
}

fn is_of_form(request: &CertificateRequest) -> bool
    ensures { result ≡ is_request_form request.now }
{
    let issuer = &request.spec.issuer;
    (is_short(&issuer.name)
        && (is_short_or_absent(&issuer.kind) && is_short_or_absent(&issuer.group)))
        && is_duration(request.spec.duration)
}

/// The first question about the request, where it may be asked; the issuer has not decided.
pub fn question(request: Shared<CertificateRequest>) -> Option<SignOrder> {
    let conditions = request.status.conditions.as_slice();
    if stands(conditions, ConditionKind::Approved)
        && !stands(conditions, ConditionKind::Denied)
        && is_of_form(&request)
    {
        return Some(SignOrder::new(1, request, 1_893_456_000, SignRow::Pending));
    }
    None
}

/// What is read of a question about the request `web-1`.
fn is_read(order: &SignOrder) -> bool {
    order.number() == 1
        && order.now() == 1_893_456_000
        && order.request().meta.name.as_str() == "web-1"
        && matches!(order.row(), SignRow::Pending)
}

/// The copy is the same question, and is read as it.
fn is_copied(order: &SignOrder) -> Result<(bool, bool), AllocError> {
    let copied = order.copy()?;
    Ok((copied.same(order), is_read(&copied)))
}

fn is_same(order: &Order) -> Result<bool, AllocError> {
    let copied = order.copy()?;
    Ok(copied.same(order))
}

fn is_copied_as_any(alloc: Global, order: SignOrder) -> Result<bool, AllocError> {
    is_same(&Order::Sign(Shared::new(alloc, order)?))
}

fn order(alloc: Global) -> Result<SignOrder, Fail> {
    let request = Shared::new(alloc, request(alloc)?)?;
    Ok(question(request).ok_or("not to be asked")?)
}

// The question comes by reference, so that no assertion has it in hand.
fn copies(rt: &impl Abort, order: &SignOrder) -> Result<(), AllocError> {
    let (is_same, is_read) = is_copied(order)?;
    passes(rt, "the same", is_same);
    passes(rt, "read", is_read);
    Ok(())
}

#[test]
fn copies_a_question_to_an_issuer(rt: HostRuntime) -> Result<(), Fail> {
    let order = order(rt.alloc())?;
    copies(&rt, &order)?;
    let as_any = is_copied_as_any(rt.alloc(), order)?;
    passes(&rt, "as any question", as_any);
    Ok(())
}
