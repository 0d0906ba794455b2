//! What no clause says: that each call has an answer where memory is ample.
use crate::checks::{passes, tells};
use crate::values::{key, let_go, new_meta};
use crate::whole::{request, secret};
use cmc_meta::{Bytes, Key, Kind};
use cmc_objects::{Call, CertificateRequest, CsrOrder, Order, Secret, Shared, Signing};
use cmc_pass::{Act, IssuePlan, Requests, Secrets, TemporaryPlan, Value, Views};
use std::alloc::{AllocError, Global};
use std::process::Abort;
use std::test::Fail;

/// A Secret of that name.
fn named(alloc: Global, word: &str) -> Result<Shared<Secret>, Fail> {
    let mut secret = secret(alloc)?;
    secret.meta = new_meta(alloc, word)?;
    Ok(Shared::new(alloc, secret)?)
}

fn see_next(alloc: Global, secrets: &mut Secrets, word: &str) -> Result<(), Fail> {
    secrets.push(named(alloc, word)?)?;
    Ok(())
}

fn see_secret(alloc: Global, secret: &mut Option<Shared<Secret>>) -> Result<(), Fail> {
    *secret = Some(named(alloc, "web-tls")?);
    Ok(())
}

fn see_request(alloc: Global, requests: &mut Requests) -> Result<(), Fail> {
    requests.push(Shared::new(alloc, request(alloc)?)?)?;
    Ok(())
}

// Filled where they stand: views are wide to drop at each `?`.
fn see(alloc: Global, views: &mut Views) -> Result<(), Fail> {
    see_next(alloc, &mut views.next, "web-bbbbf")?;
    see_next(alloc, &mut views.next, "web-bbbbg")?;
    see_secret(alloc, &mut views.secret)?;
    see_request(alloc, &mut views.requests)
}

fn views(alloc: Global) -> Result<Views, Fail> {
    let mut views = Views::new(alloc);
    see(alloc, &mut views)?;
    Ok(views)
}

fn are_secrets(secrets: &[Shared<Secret>]) -> bool {
    match secrets {
        [_first, second] => second.meta.name.as_str() == "web-bbbbg",
        _ => false,
    }
}

fn are_requests(requests: &[Shared<CertificateRequest>]) -> bool {
    match requests {
        [request] => request.meta.name.as_str() == "web-1",
        _ => false,
    }
}

fn are_secrets_again(secrets: &Secrets) -> Result<bool, AllocError> {
    Ok(are_secrets(secrets.copy()?.as_slice()))
}

fn are_requests_again(requests: &Requests) -> Result<bool, AllocError> {
    Ok(are_requests(requests.copy()?.as_slice()))
}

/// The views are those that were made, and their lists are copied again.
fn are_copied(rt: &impl Abort, copied: &Views) -> Result<(), AllocError> {
    passes(rt, "next", are_secrets(copied.next.as_slice()));
    passes(rt, "next again", are_secrets_again(&copied.next)?);
    passes(rt, "requests", are_requests(copied.requests.as_slice()));
    passes(rt, "requests again", are_requests_again(&copied.requests)?);
    passes(rt, "secret", copied.secret.is_some());
    passes(rt, "certificate", copied.certificate.is_none());
    Ok(())
}

#[test]
fn views_are_copied(rt: HostRuntime) -> Result<(), Fail> {
    let copied = views(rt.alloc())?.copy()?;
    are_copied(&rt, &copied)?;
    Ok(())
}

/// The act, in a word.
fn told(act: &Act) -> &'static str {
    match act {
        Act::Nothing => "nothing",
        Act::Call(_) => "call",
        Act::Ask(_) => "ask",
        Act::Issue(_) => "issue",
        Act::Temporary(_) => "temporary",
    }
}

/// The act, in a word, and then dropped.
fn told_then(act: Act) -> &'static str {
    let word = told(&act);
    let_go(act);
    word
}

/// The act that this word tells.
fn act_of(alloc: Global, word: &str) -> Result<Act, Fail> {
    match word {
        "call" => call(alloc),
        "ask" => question(alloc),
        "issue" => plan(alloc),
        "temporary" => temporary_plan(alloc),
        _ => Ok(Act::Nothing),
    }
}

fn told_of_copy(act: &Act) -> Result<&'static str, AllocError> {
    Ok(told_then(act.copy()?))
}

/// The copy of the act of this word, in a word.
fn copied(alloc: Global, word: &str) -> Result<&'static str, Fail> {
    let act = act_of(alloc, word)?;
    let word = told_of_copy(&act);
    let_go(act);
    Ok(word?)
}

fn call(alloc: Global) -> Result<Act, Fail> {
    let key = key(alloc, Kind::Secret, "web")?;
    Ok(Act::Call(Call::Get { key }))
}

fn question(alloc: Global) -> Result<Act, Fail> {
    let order = CsrOrder {
        key: Bytes::new(alloc),
        body: Bytes::new(alloc),
    };
    Ok(Act::Ask(Order::Csr(Shared::new(alloc, order)?)))
}

fn issuing(get: Key, secret: Key, status: Key) -> IssuePlan {
    IssuePlan {
        get,
        version: 1,
        secret: Call::Get { key: secret },
        status: Call::Get { key: status },
    }
}

// The keys first: a call that is alive at a `?` is a wide enum to drop there.
fn plan(alloc: Global) -> Result<Act, Fail> {
    let secret = key(alloc, Kind::Secret, "web")?;
    let status = key(alloc, Kind::Secret, "web")?;
    let get = key(alloc, Kind::Secret, "web")?;
    Ok(Act::Issue(Shared::new(alloc, issuing(get, secret, status))?))
}

fn temporary_plan(alloc: Global) -> Result<Act, Fail> {
    let secret = key(alloc, Kind::Secret, "web")?;
    let get = key(alloc, Kind::Certificate, "web")?;
    let plan = TemporaryPlan {
        get,
        version: 1,
        secret: Call::Get { key: secret },
    };
    Ok(Act::Temporary(Shared::new(alloc, plan)?))
}

/// An act of each sort, in a word.
static ACTS: [&str; 5] = ["nothing", "call", "ask", "issue", "temporary"];

#[test]
fn acts_are_copied(rt: HostRuntime) -> Result<(), Fail> {
    for word in &ACTS {
        tells(&rt, word, copied(rt.alloc(), word)?, word);
    }
    Ok(())
}

/// The value, in a word.
fn said(value: &Value) -> &'static str {
    match value {
        Value::Made(_) => "made",
        Value::Signed(_) => "signed",
        Value::Answered(_) => "answered",
        Value::Judged(_) => "judged",
    }
}

fn said_of_copy(value: Value) -> Result<&'static str, AllocError> {
    Ok(said(&value.copy()?))
}

fn said_of_key(alloc: Global) -> Result<&'static str, AllocError> {
    said_of_copy(Value::Made(Bytes::new(alloc)))
}

fn said_of_signature(alloc: Global) -> Result<&'static str, AllocError> {
    said_of_copy(Value::Signed(Bytes::new(alloc)))
}

fn said_of_answer() -> Result<&'static str, AllocError> {
    said_of_copy(Value::Answered(Signing::Pending))
}

fn said_of_verdict() -> Result<&'static str, AllocError> {
    said_of_copy(Value::Judged(true))
}

#[test]
fn values_are_copied(rt: HostRuntime) -> Result<(), Fail> {
    let alloc = rt.alloc();
    tells(&rt, "key", said_of_key(alloc)?, "made");
    tells(&rt, "signature", said_of_signature(alloc)?, "signed");
    tells(&rt, "answer", said_of_answer()?, "answered");
    tells(&rt, "verdict", said_of_verdict()?, "judged");
    Ok(())
}
