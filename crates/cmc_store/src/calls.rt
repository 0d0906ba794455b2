// The calls, each on the objects alone.
ghost use Rattle.std.specs.Option.{option_copied};
ghost use Rattle.std.specs.Prelude.{◌≡◌, ◌+◌, ◌<◌, ◌^◌, false, Some, None, IfOk, OnErr};
ghost use Rattle.cmc_objects.specs.Objects.{key_of};
ghost use Rattle.cmc_model.specs.Objects.{object_at, with_object};
ghost use Rattle.cmc_model.specs.Admission.{is_taken, refusing_rule};
ghost use Rattle.cmc_model.specs.Stored.{created, revised, restated};
ghost use Rattle.cmc_model.specs.Replies.{IsCreated, IsUpdated, IsRestated, IsDeleted, IsGot, from_old};
ghost use Rattle.cmc_store.specs.Answers.{IsPutOrRefused, refusal_of};
ghost use Rattle.cmc_store.specs.Claims.{secret_named_in};
ghost use Rattle.cmc_objects.specs.declared.call.Reply.TheVariants.{Ok as Accepted};

use crate::catalogue::Catalogue;
use crate::changes::{make, restate, revise};
use crate::claims::secret_of;
use cmc_admit::admit;
use cmc_meta::Key;
use cmc_objects::{Object, Reply};
use std::alloc::{AllocError, Global};

/// What the store answers, with what an accepted write wrote.
#[derive(Drop)]
pub struct Replied {
    pub reply: Reply,
    /// The key that an accepted write wrote; none for every other reply.
    pub key: Option<Key>,
    /// A copy of what an accepted create or update stored; none for every other reply.
    pub object: Option<Object>,
}

fn refused(reply: Reply) -> Replied
    ensures { result ≡ record { reply = reply; key = None; object = None } }
{
    Replied {
        reply,
        key: None,
        object: None,
    }
}

/// What a call that a rule refuses is answered; none where no rule does.
fn refusal(old: Option<&Object>, new: &Object, status: bool, taken: bool) -> Option<Replied>
    ensures { result ≡ refusal_of (refusing_rule (option_copied old.entry) new.now status taken) }
{
    match admit(old, new, status, taken) {
        Ok(()) => None,
        Err(invalid) => Some(refused(Reply::Invalid { rule: invalid.rule })),
    }
}

/// Puts the object under the key, as this version, where what exists there names the Secret `old`.
fn write(
    catalogue: &mut Catalogue,
    old: &Option<Key>,
    key: Key,
    object: Object,
    version: u64,
) -> Result<Replied, AllocError>
    requires old { old.now ≡ secret_named_in (object_at catalogue.old key) }
    requires key { key_of object ≡ key }
    requires free { is_taken catalogue.old object ≡ false }
    ensures after { IfOk result (λ r. catalogue.new ≡ with_object catalogue.old key object) }
    ensures told { IfOk result (λ r. r ≡ record { reply = Accepted version key.name; key = Some key; object = Some object }) }
    ensures err { OnErr result (catalogue.new ≡ catalogue.old) }
{
    let reply = Reply::Ok {
        version,
        name: key.name.copy()?,
    };
    let told = key.copy()?;
    let copy = object.copy()?;
    catalogue.put(old, key, object)?;
    Ok(Replied {
        reply,
        key: Some(told),
        object: Some(copy),
    })
}

pub fn create(
    catalogue: &mut Catalogue,
    alloc: Global,
    accepted: u64,
    now: i64,
    object: &Object,
) -> Result<Replied, AllocError>
    requires { accepted + 1 < 2 ^ 64 }
    ensures reply { IfOk result (λ r. IsCreated accepted (is_taken catalogue.old object.now) object.now (object_at catalogue.old (key_of object.now)) r.reply) }
    ensures answer { IfOk result (λ r. IsPutOrRefused (key_of object.now) (Some (created (accepted + 1) now object.now)) catalogue.old catalogue.new r) }
    ensures err { OnErr result (catalogue.new ≡ catalogue.old) }
{
    let key = object.key()?;
    match catalogue.get(&key) {
        Some(old) => Ok(refused(Reply::AlreadyExists {
            have: old.meta().version,
        })),
        None => match refusal(None, object, false, catalogue.has_taken(object)?) {
            Some(replied) => Ok(replied),
            None => {
                let made = make(alloc, object, accepted + 1, now)?;
                write(catalogue, &None, key, made, accepted + 1)
            }
        },
    }
}

pub fn update(
    catalogue: &mut Catalogue,
    alloc: Global,
    accepted: u64,
    object: &Object,
    named: u64,
) -> Result<Replied, AllocError>
    requires { accepted + 1 < 2 ^ 64 }
    ensures reply { IfOk result (λ r. IsUpdated accepted (is_taken catalogue.old object.now) object.now named (object_at catalogue.old (key_of object.now)) r.reply) }
    ensures answer { IfOk result (λ r. IsPutOrRefused (key_of object.now) (from_old (λ old. revised (accepted + 1) old object.now) (object_at catalogue.old (key_of object.now))) catalogue.old catalogue.new r) }
    ensures err { OnErr result (catalogue.new ≡ catalogue.old) }
{
    let key = object.key()?;
    let Some(old) = catalogue.get(&key) else {
        return Ok(refused(Reply::NotFound { at: accepted }));
    };
    let have = old.meta().version;
    if named != have {
        return Ok(refused(Reply::Conflict { named, have }));
    }
    match refusal(Some(old), object, false, catalogue.has_taken(object)?) {
        Some(replied) => Ok(replied),
        None => match revise(alloc, old, object, accepted + 1)? {
            None => Ok(refused(Reply::Unchanged { version: have })),
            Some(new) => {
                let secret = secret_of(old)?;
                write(catalogue, &secret, key, new, accepted + 1)
            }
        },
    }
}

pub fn update_status(
    catalogue: &mut Catalogue,
    alloc: Global,
    accepted: u64,
    object: &Object,
    named: u64,
) -> Result<Replied, AllocError>
    requires { accepted + 1 < 2 ^ 64 }
    ensures reply { IfOk result (λ r. IsRestated accepted object.now named (object_at catalogue.old (key_of object.now)) r.reply) }
    ensures answer { IfOk result (λ r. IsPutOrRefused (key_of object.now) (from_old (λ old. restated (accepted + 1) old object.now) (object_at catalogue.old (key_of object.now))) catalogue.old catalogue.new r) }
    ensures err { OnErr result (catalogue.new ≡ catalogue.old) }
{
    let key = object.key()?;
    let Some(old) = catalogue.get(&key) else {
        return Ok(refused(Reply::NotFound { at: accepted }));
    };
    let have = old.meta().version;
    if have != named {
        return Ok(refused(Reply::Conflict { named, have }));
    }
    match refusal(Some(old), object, true, false) {
        Some(replied) => Ok(replied),
        None => match restate(alloc, old, object, accepted + 1)? {
            None => Ok(refused(Reply::Unchanged { version: have })),
            Some(new) => {
                let secret = secret_of(old)?;
                write(catalogue, &secret, key, new, accepted + 1)
            }
        },
    }
}

pub fn delete(
    catalogue: &mut Catalogue,
    accepted: u64,
    key: &Key,
    named: Option<u64>,
) -> Result<Replied, AllocError>
    requires { accepted + 1 < 2 ^ 64 }
    ensures reply { IfOk result (λ r. IsDeleted accepted named key.now.name (object_at catalogue.old key.now) r.reply) }
    ensures answer { IfOk result (λ r. IsPutOrRefused key.now None catalogue.old catalogue.new r) }
    ensures err { OnErr result (catalogue.new ≡ catalogue.old) }
{
    let Some(old) = catalogue.get(key) else {
        return Ok(refused(Reply::NotFound { at: accepted }));
    };
    let have = old.meta().version;
    match named {
        Some(named) if named != have => Ok(refused(Reply::Conflict { named, have })),
        _ => {
            let name = key.name.copy()?;
            let gone = key.copy()?;
            catalogue.remove(key)?;
            Ok(Replied {
                reply: Reply::Ok {
                    version: accepted + 1,
                    name,
                },
                key: Some(gone),
                object: None,
            })
        }
    }
}

pub fn get(catalogue: &Catalogue, accepted: u64, key: &Key) -> Result<Replied, AllocError>
    ensures reply { IfOk result (λ r. IsGot accepted (object_at catalogue.now key.now) r.reply) }
    ensures answer { IfOk result (λ r. IsPutOrRefused key.now (object_at catalogue.now key.now) catalogue.now catalogue.now r) }
{
    match catalogue.get(key) {
        Some(old) => Ok(refused(Reply::Found {
            object: old.copy()?,
        })),
        None => Ok(refused(Reply::NotFound { at: accepted })),
    }
}
