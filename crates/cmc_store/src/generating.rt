//! Creates under generated names.
ghost use Rattle.std.specs.Prelude.{◌≡◌, ◌+◌, ◌<◌, ◌^◌, IfOk, OnErr};
ghost use Rattle.cmc_objects.specs.Objects.{name_of};
ghost use Rattle.cmc_objects.specs.declared.call.Call.TheVariants.{Create};
ghost use Rattle.cmc_model.specs.Generated as spec;
ghost use Rattle.cmc_model.specs.Replies.{IsServed, key_of_call, settled, stored, under_reply};
ghost use Rattle.cmc_store.specs.Answers.{IsPutOrRefused};

use crate::calls::{Replied, create};
use crate::catalogue::Catalogue;
use crate::names::generated_name;
use cmc_meta::{Key, Name, ObjectMeta};
use cmc_objects::{Call, Certificate, CertificateRequest, Object, Reply, Secret};
use std::alloc::{AllocError, Global};

fn key_named(name: &Name, object: &Object) -> Result<Key, AllocError>
    ensures { IfOk result (λ k. k ≡ spec.key_named name.now object.now) }
{
    let kind = object.kind();
    let meta = object.meta();
    Ok(Key {
        kind,
        namespace: meta.namespace.copy()?,
        name: name.copy()?,
    })
}

fn has_name(catalogue: &Catalogue, object: &Object, name: &Name) -> Result<bool, AllocError>
    ensures { IfOk result (λ t. t ≡ spec.has_name catalogue.now object.now name.now) }
{
    let key = key_named(name, object)?;
    Ok(catalogue.get(&key).is_some())
}

/// The name of the first number from the version on that no object of the kind and the namespace has.
fn free_name(
    alloc: Global,
    catalogue: &Catalogue,
    object: &Object,
    version: u64,
) -> Result<Name, AllocError>
    ensures { IfOk result (λ n. n ≡ spec.generated_name (name_of object.now) (spec.free_from version (spec.has_number catalogue.now object.now) version)) }
{
    let mut room = version;
    let mut number = version as u128;
    while room > 0 {
        let name = generated_name(alloc, &object.meta().name, number)?;
        if !has_name(catalogue, object, &name)? {
            return Ok(name);
        }
        number += 1;
        room -= 1;
    }
    generated_name(alloc, &object.meta().name, number)
}

fn renamed(name: Name, meta: &ObjectMeta) -> Result<ObjectMeta, AllocError>
    ensures { IfOk result (λ m. m ≡ spec.renamed name meta.now) }
{
    Ok(ObjectMeta {
        namespace: meta.namespace.copy()?,
        name,
        uid: meta.uid,
        version: meta.version,
        generation: meta.generation,
        created: meta.created,
        labels: meta.labels.copy()?,
        annotations: meta.annotations.copy()?,
        owners: meta.owners.copy()?,
    })
}

#[tactic(auto, unfolding(cmc_model::specs::Generated::named))]
fn named(alloc: Global, name: Name, object: &Object) -> Result<Object, AllocError>
    ensures { IfOk result (λ o. o ≡ spec.named name object.now) }
{
    let meta = renamed(name, object.meta())?;
    match object {
        Object::Cert(c) => Object::of_certificate(
            alloc,
            Certificate {
                meta,
                spec: c.spec.copy()?,
                status: c.status.copy()?,
            },
        ),
        Object::Request(r) => Object::of_request(
            alloc,
            CertificateRequest {
                meta,
                spec: r.spec.copy()?,
                status: r.status.copy()?,
            },
        ),
        Object::Secret(k) => Object::of_secret(
            alloc,
            Secret {
                meta,
                kind_text: k.kind_text.copy()?,
                parts: k.parts.copy()?,
            },
        ),
    }
}

#[tactic(auto, unfolding(cmc_model::specs::Generated::free_named))]
fn free_named(
    alloc: Global,
    catalogue: &Catalogue,
    object: &Object,
    version: u64,
) -> Result<Object, AllocError>
    ensures { IfOk result (λ o. o ≡ spec.free_named version catalogue.now object.now) }
{
    let name = free_name(alloc, catalogue, object, version)?;
    named(alloc, name, object)
}

/// Creates the object under its name, or with `generate` under the first generated name that is free.
#[tactic(auto, unfolding(cmc_model::specs::Replies::settled))]
pub fn create_named(
    catalogue: &mut Catalogue,
    alloc: Global,
    accepted: u64,
    now: i64,
    object: &Object,
    generate: bool,
) -> Result<Replied, AllocError>
    requires { accepted + 1 < 2 ^ 64 }
    ensures reply { IfOk result (λ r. IsServed accepted catalogue.old (Create object.now generate) r.reply) }
    ensures answer { IfOk result (λ r. IsPutOrRefused (key_of_call (settled (Create object.now generate) r.reply)) (stored (accepted + 1) now catalogue.old (settled (Create object.now generate) r.reply)) catalogue.old catalogue.new r) }
    ensures err { OnErr result (catalogue.new ≡ catalogue.old) }
{
    if !generate {
        return create(catalogue, alloc, accepted, now, object);
    }
    let object = free_named(alloc, catalogue, object, accepted + 1)?;
    create(catalogue, alloc, accepted, now, &object)
}

fn under_reply(alloc: Global, object: &Object, reply: &Reply) -> Result<Object, AllocError>
    ensures { IfOk result (λ o. o ≡ under_reply object.now reply.now) }
{
    match reply {
        Reply::Ok { version: _, name } => named(alloc, name.copy()?, object),
        _ => object.copy(),
    }
}

/// The call with the name that its reply has: what a create with a generated name comes to. `Err` where there is no
/// memory.
#[tactic(auto, unfolding(cmc_model::specs::Replies::settled))]
pub fn settled(alloc: Global, call: &Call, reply: &Reply) -> Result<Call, AllocError>
    ensures { IfOk result (λ c. c ≡ settled call.now reply.now) }
{
    match call {
        Call::Create {
            object,
            generate: true,
        } => Ok(Call::Create {
            object: under_reply(alloc, object, reply)?,
            generate: false,
        }),
        _ => call.copy(),
    }
}
