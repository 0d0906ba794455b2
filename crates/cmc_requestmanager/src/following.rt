//! The call that follows a value.
ghost use Rattle.std.specs.Option.{option_copied};
ghost use Rattle.std.specs.Prelude.{◌≡◌, IfOk, IsSome, Some, option_map};
ghost use Rattle.cmc_der.specs.Keys.{key_shown};
ghost use Rattle.cmc_objects.specs.KeyPairs.{key_read};
ghost use Rattle.cmc_next.specs.Questions.{IsQuestionOf};
ghost use Rattle.cmc_pass.specs.GivenValues.{order_of, value_of};
ghost use Rattle.cmc_pass.specs.Values.{IsValue};
ghost use Rattle.cmc_rules.specs.NextRequests as next_words;
ghost use Rattle.cmc_rules.specs.RequestManager as table;

use crate::calls::make_request;
use crate::questions::body_of;
use cmc_match::public_in;
use cmc_meta::Bytes;
use cmc_next::{key_in, named_key, value_in};
use cmc_objects::{Call, Certificate, Order, Secret, Shared};
use cmc_pass::{Given, Value, Views};
use cmc_x509::Spki;
use cmc_x509_build::csr_whole;
use std::alloc::{AllocError, Global};

fn signed_by(
    alloc: Global,
    certificate: &Certificate,
    secret: &Secret,
    public: &Option<Spki<'_>>,
    signature: &[u8],
) -> Result<Option<Call>, AllocError>
    requires { next_words.HasNextRevision (Some certificate.now) }
    ensures { IfOk result (λ c. c ≡ table.signed_by certificate.now secret.now (option_map key_shown public.now) signature.now) }
{
    let Some(key) = public else {
        return Ok(None);
    };
    let body = body_of(alloc, &certificate.spec, key)?;
    let request = csr_whole(alloc, body.as_slice(), signature)?;
    Ok(Some(make_request(alloc, certificate, secret, request)?))
}

fn signed_in(
    alloc: Global,
    certificate: &Certificate,
    secret: &Secret,
    file: Option<&Bytes>,
    public: &Option<Spki<'_>>,
    signature: &[u8],
) -> Result<Option<Call>, AllocError>
    requires revision { next_words.HasNextRevision (Some certificate.now) }
    requires public { option_map key_shown public.now ≡ key_read (option_copied file) }
    ensures { IfOk result (λ c. c ≡ table.signed_in certificate.now secret.now (option_copied file.entry) signature.now) }
{
    match file {
        None => Ok(None),
        Some(_file) => signed_by(alloc, certificate, secret, public, signature),
    }
}

fn signed_with(
    alloc: Global,
    certificate: &Certificate,
    secret: Option<&Shared<Secret>>,
    signature: &[u8],
) -> Result<Option<Call>, AllocError>
    requires { next_words.HasNextRevision (Some certificate.now) }
    ensures { IfOk result (λ c. c ≡ table.signed_with certificate.now (option_copied secret.entry) signature.now) }
{
    match secret {
        None => Ok(None),
        Some(secret) => signed_in(
            alloc,
            certificate,
            secret,
            key_in(secret),
            &public_in(secret),
            signature,
        ),
    }
}

fn signed_for(alloc: Global, views: &Views, signature: &[u8]) -> Result<Option<Call>, AllocError>
    requires { next_words.HasNextRevision views.now.certificate }
    ensures { IfOk result (λ c. c ≡ table.signed_for views.now.certificate views.now.next signature.now) }
{
    match &views.certificate {
        None => Ok(None),
        Some(certificate) => {
            let secret = named_key(&certificate.status.next_key, views.next.as_slice());
            signed_with(alloc, certificate, secret, signature)
        }
    }
}

fn request_from(alloc: Global, views: &Views, value: &Value) -> Result<Option<Call>, AllocError>
    requires { next_words.HasNextRevision views.now.certificate }
    ensures { IfOk result (λ c. c ≡ table.request_from views.now value.now) }
{
    match value {
        Value::Signed(signature) => signed_for(alloc, views, signature.as_slice()),
        _ => Ok(None),
    }
}

#[tactic(auto, unfolding(cmc_rules::specs::RequestManager::request_after))]
fn followed(
    alloc: Global,
    views: &Views,
    now: i64,
    order: &Order,
    value: &Value,
) -> Result<Call, AllocError>
    requires revision { next_words.HasNextRevision views.now.certificate }
    requires follows { IsSome (table.request_after views.now now order.now value.now) }
    ensures { IfOk result (λ c. table.request_after views.now now order.now value.now ≡ Some c) }
{
    let (_now, _order) = (now, order);
    match request_from(alloc, views, value)? {
        Some(call) => Ok(call),
        None => unreachable!(),
    }
}

/// The call that follows this value of the question on these views: the create of the request, signed as the value
/// says. It looks at neither the moment `now` nor the question.
///
/// `order` is the question that the controller asks on these views by some desk, and `value` a right value of it.
/// A call follows: the Certificate's next key stands and is readable, and the value is a signature. The revision that
/// stands is below 2^63.
pub fn follow(
    alloc: Global,
    views: &Views,
    now: i64,
    order: &Order,
    value: &Value,
) -> Result<Call, AllocError>
    requires revision { next_words.HasNextRevision views.now.certificate }
    requires asked { IsQuestionOf (λ desk. table.request_manager views.now) order.now }
    requires right { IsValue order.now value.now }
    requires follows { IsSome (table.request_after views.now now order.now value.now) }
    ensures { IfOk result (λ c. table.request_after views.now now order.now value.now ≡ Some c) }
{
    followed(alloc, views, now, order, value)
}

/// The call that follows what is given back for the controller's question on these views.
///
/// What is given back answers the question that the controller asks on these views by some desk.
/// A call follows: the Certificate's next key stands and is readable, and a signature is given back. The revision that
/// stands is below 2^63.
pub fn then(alloc: Global, views: &Views, now: i64, given: &Given) -> Result<Call, AllocError>
    requires revision { next_words.HasNextRevision views.now.certificate }
    requires asked { IsQuestionOf (λ desk. table.request_manager views.now) (order_of given.now) }
    requires follows { IsSome (table.request_after views.now now (order_of given.now) (value_of given.now)) }
    ensures { IfOk result (λ c. table.request_after views.now now (order_of given.now) (value_of given.now) ≡ Some c) }
{
    let order = given.order()?;
    let value = value_in(alloc, given)?;
    followed(alloc, views, now, &order, &value)
}
