// What the types of entries say.
ghost use Rattle.std.specs.Prelude.{◌≡◌, All, IfSome, true};
ghost use Rattle.base64.specs.GeneralPurpose.{IsBytes};
ghost use Rattle.cmc_meta.specs.ConditionLists.{IsInOrder};
ghost use Rattle.cmc_meta.specs.Names.{is_subdomain};
ghost use Rattle.cmc_codec.specs.Laws.{EachValue, IsOrdered};
ghost use Rattle.cmc_audit_calls.specs.CallsOfLines.{IsOfNames};
ghost use Rattle.cmc_audit_laws.specs.Typed as typed;

use crate::naming::key_has_names;
use cmc_history::History;
use cmc_meta::{Conditions, Name, ObjectMeta, OwnerRef, Pairs};
use cmc_objects::{
    Call, CertSpec, CertStatus, Certificate, CertificateRequest, Entry, Object, Order, Parts,
    Reply, RequestStatus, Secret, Signing,
};

// ---- values

fn are_bytes(bytes: &[u8])
    ensures { IsBytes bytes.now }
{
    let _bytes = bytes;
}

fn is_name(name: &Name)
    ensures { is_subdomain name.now ≡ true }
{
    let _text = name.as_str();
}

fn is_name_if_given(name: &Option<Name>)
    ensures { IfSome name.now (λ text. is_subdomain text ≡ true) }
{
    if let Some(name) = name {
        is_name(name);
    }
}

fn is_small(number: Option<u32>)
    ensures { typed.IsSmall number }
{
    match number {
        None => {}
        Some(number) => {
            let _number = number;
        }
    }
}

fn is_wide(number: Option<u64>)
    ensures { typed.IsWide number }
{
    match number {
        None => {}
        Some(number) => {
            let _number = number;
        }
    }
}

fn are_in_order(conditions: &Conditions)
    ensures { IsInOrder conditions.now }
{
    let _conditions = conditions.as_slice();
}

#[tactic(auto, using(cmc_codec::proofs::Entries::in_order))]
fn pairs_in_order(pairs: &Pairs)
    ensures { IsOrdered pairs.now }
{
    let _len = pairs.as_map().len();
}

#[tactic(auto, using(cmc_codec::proofs::Entries::in_order))]
fn parts_in_order(parts: &Parts)
    ensures { IsOrdered parts.now }
{
    let _len = parts.as_map().len();
}

fn parts_are_bytes(parts: &Parts)
    ensures { EachValue IsBytes parts.now }
{
    for (_, bytes) in parts.as_map().iter() {
        are_bytes(bytes.as_slice());
    }
}

// ---- objects

fn owner_is_typed(owner: &OwnerRef)
    ensures { typed.IsTypedOwner owner.now }
{
    let _uid = owner.uid;
    is_name(&owner.name);
}

fn owners_are_typed(owners: &[OwnerRef])
    ensures { All typed.IsTypedOwner owners.now }
{
    for owner in owners {
        owner_is_typed(owner);
    }
}

fn meta_is_typed(meta: &ObjectMeta)
    ensures { typed.IsTypedMeta meta.now }
{
    is_name(&meta.namespace);
    is_name(&meta.name);
    pairs_in_order(&meta.labels);
    pairs_in_order(&meta.annotations);
    owners_are_typed(meta.owners.as_slice());
}

fn spec_is_typed(spec: &CertSpec)
    ensures { typed.IsTypedSpec spec.now }
{
    is_name(&spec.secret_name);
    is_small(spec.key.size);
    is_small(spec.renew_percent);
    is_small(spec.history_limit);
}

fn status_is_typed(status: &CertStatus)
    ensures { typed.IsTypedStatus status.now }
{
    are_in_order(&status.conditions);
    is_small(status.attempts);
    is_name_if_given(&status.next_key);
    is_wide(status.revision);
}

fn certificate_is_typed(certificate: &Certificate)
    ensures { typed.IsTypedCertificate certificate.now }
{
    meta_is_typed(&certificate.meta);
    spec_is_typed(&certificate.spec);
    status_is_typed(&certificate.status);
}

fn answer_is_typed(status: &RequestStatus)
    ensures { typed.IsTypedAnswer status.now }
{
    are_in_order(&status.conditions);
    are_bytes(status.certificate.as_slice());
    are_bytes(status.ca.as_slice());
}

fn request_is_typed(request: &CertificateRequest)
    ensures { typed.IsTypedRequest request.now }
{
    meta_is_typed(&request.meta);
    are_bytes(request.spec.request.as_slice());
    answer_is_typed(&request.status);
}

fn secret_is_typed(secret: &Secret)
    ensures { typed.IsTypedSecret secret.now }
{
    meta_is_typed(&secret.meta);
    parts_in_order(&secret.parts);
    parts_are_bytes(&secret.parts);
}

fn object_is_typed(object: &Object)
    ensures { typed.IsTypedObject object.now }
{
    match object {
        Object::Cert(certificate) => certificate_is_typed(certificate),
        Object::Request(request) => request_is_typed(request),
        Object::Secret(secret) => secret_is_typed(secret),
    }
}

// ---- entries

fn call_is_typed(call: &Call)
    ensures { typed.IsTypedCall call.now }
{
    match call {
        Call::Create { object, .. } => object_is_typed(object),
        Call::Update { object, .. } => object_is_typed(object),
        Call::UpdateStatus { object, .. } => object_is_typed(object),
        Call::Delete { key, .. } => key_has_names(key),
        Call::Get { key } => key_has_names(key),
    }
}

fn reply_is_typed(reply: &Reply)
    ensures { typed.IsTypedReply reply.now }
{
    match reply {
        Reply::Ok { name, .. } => is_name(name),
        Reply::Invalid { rule } => {
            let _rule = *rule;
        }
        _ => {}
    }
}

fn is_of_named_request(request: &CertificateRequest)
    ensures { typed.IsOfNamedRequest request.now }
{
    is_name(&request.meta.namespace);
    is_name(&request.meta.name);
}

fn order_is_typed(order: &Order)
    ensures { typed.IsTypedOrder order.now }
{
    match order {
        Order::Key(order) => key_has_names(&order.certificate),
        Order::Csr(order) => {
            are_bytes(order.key.as_slice());
            are_bytes(order.body.as_slice());
        }
        Order::Sign(order) => is_of_named_request(order.request()),
        Order::Judge(order) => is_of_named_request(&order.request),
    }
}

fn value_is_typed(answer: &Signing)
    ensures { typed.IsTypedValue answer.now }
{
    if let Signing::Issued { certificate, ca } = answer {
        are_bytes(certificate.as_slice());
        are_bytes(ca.as_slice());
    }
}

fn entry_is_typed(entry: &Entry)
    ensures { typed.IsTypedEntry entry.now }
{
    match entry {
        Entry::Call { call, reply, .. } => {
            call_is_typed(call);
            reply_is_typed(reply);
        }
        Entry::Begin { key, .. } => key_has_names(key),
        Entry::Ask { order, .. } => order_is_typed(order),
        Entry::Made { key, .. } => are_bytes(key.as_slice()),
        Entry::Signed { signature, .. } => are_bytes(signature.as_slice()),
        Entry::Answered { answer, .. } => value_is_typed(answer),
        _ => {}
    }
}

fn each_is_typed(entries: &[Entry])
    ensures { All typed.IsTypedEntry entries.now }
{
    for entry in entries {
        entry_is_typed(entry);
    }
}

/// A law: each entry of the history is what its type says: names are names, octets are bytes, maps and conditions are in
/// order, and numbers fit. The call changes nothing.
pub fn entries_are_typed(history: &History)
    ensures { typed.AreTyped history.now.entries }
{
    each_is_typed(history.as_slice());
}
