//! The indexes of the accepted writes.
ghost use Rattle.std.specs.Prelude.{◌≡◌, ◌∷◌, ◌+◌, ◌||◌, [], ℕ, List, OnOk, length, true, unwrap_or};
ghost use Rattle.cmc_meta.specs.declared.key.Key.{Key as KeyValue};
ghost use Rattle.cmc_objects.specs.Requests as requests;
ghost use Rattle.cmc_model.specs.declared.write.Write.{Write as WriteValue};
ghost use Rattle.cmc_rules.specs.Revisions as raising;
ghost use Rattle.cmc_audit_state.specs.Journaled.{IsIndexOfWrites, denies, is_kept, has_noted_uid, is_request_of, revision_noted, revision_under_uid};

use crate::denied::Denied;
use crate::owned::Owned;
use crate::revisions::Revisions;
use crate::versions::Versions;
use cmc_meta::{Condition, ConditionKind, Key, Tri};
use cmc_model::Write;
use cmc_objects::{CertificateRequest, Object};
use cmc_seed::HashSeed;
use std::alloc::{AllocError, Global};

/// What leads from a key, an owner or a uid to the writes.
pub struct Indexes {
    /// The versions under each key.
    pub versions: Versions,
    /// The keys of the requests that ever had an owner of a uid.
    pub owned: Owned,
    /// The revision in the last version of each uid.
    pub revisions: Revisions,
    /// The uids of requests that a version denies.
    pub denied: Denied,
}

impl Drop for Indexes {
    fn drop(self) {
        let Indexes {
            versions: _versions,
            owned: _owned,
            revisions: _revisions,
            denied: _denied,
        } = self;
    }
}

impl Indexes {
    /// The indexes of no writes, where all is hashed by the seed. It takes no memory.
    pub fn new(alloc: Global, seed: HashSeed) -> Indexes
        ensures { IsIndexOfWrites [] result }
    {
        Indexes {
            versions: Versions::new(alloc, seed),
            owned: Owned::new(alloc, seed),
            revisions: Revisions::new(alloc, seed),
            denied: Denied::new(alloc, seed),
        }
    }

    /// Takes in one write more, of this version. An error is one of memory.
    pub fn add(&mut self, alloc: Global, write: &Write, version: u64) -> Result<(), AllocError>
        ensures { OnOk result ((ws : List WriteValue) → IsIndexOfWrites ws self.old → version ≡ length ws + 1 → IsIndexOfWrites (write.now ∷ ws) self.new) }
    {
        self.versions.add(alloc, &write.key, version)?;
        own(alloc, &mut self.owned, &write.key, &write.object)?;
        revise(&mut self.revisions, &write.object)?;
        deny(&mut self.denied, &write.object)
    }
}

/// The key of a request comes to stand under the uids of its owners.
fn own(
    alloc: Global,
    owned: &mut Owned,
    key: &Key,
    object: &Option<Object>,
) -> Result<(), AllocError>
    ensures added { OnOk result ((u : ℕ) → is_request_of u object.now ≡ true → is_kept owned.new u key.now ≡ true) }
    ensures keeps { OnOk result ((u : ℕ) → (k : KeyValue) → is_kept owned.old u k ≡ true → is_kept owned.new u k ≡ true) }
{
    match object {
        Some(Object::Request(request)) => {
            owned.add_each(alloc, request.meta.owners.as_slice(), key)
        }
        _ => Ok(()),
    }
}

/// The revision that an object states is the last of its uid.
fn revise(revisions: &mut Revisions, object: &Option<Object>) -> Result<(), AllocError>
    ensures { OnOk result ((u : ℕ) → revision_under_uid revisions.new u ≡ revision_noted u object.now (revision_under_uid revisions.old u)) }
{
    match object {
        Some(object) => revisions.put(object.meta().uid, stated_revision(object)),
        None => Ok(()),
    }
}

fn stated_revision(object: &Object) -> u64
    ensures { result ≡ unwrap_or (raising.stated_revision object.now) 0 }
{
    match object {
        Object::Cert(certificate) => certificate.status.revision.unwrap_or(0),
        Object::Request(_) => 0,
        Object::Secret(_) => 0,
    }
}

/// The uid of a request that is denied is noted.
fn deny(denied: &mut Denied, object: &Option<Object>) -> Result<(), AllocError>
    ensures { OnOk result ((u : ℕ) → has_noted_uid denied.new u ≡ (denies u object.now || has_noted_uid denied.old u)) }
{
    match object {
        Some(Object::Request(request)) => {
            if is_denied(request) {
                return denied.add(request.meta.uid);
            }
            Ok(())
        }
        _ => Ok(()),
    }
}

/// Whether the request is denied: its condition Denied is True.
pub fn is_denied(request: &CertificateRequest) -> bool
    ensures { result ≡ requests.is_denied request.now }
{
    is_stated(ConditionKind::Denied, request.status.conditions.as_slice())
}

/// Whether the request is approved: its condition Approved is True.
pub fn is_approved(request: &CertificateRequest) -> bool
    ensures { result ≡ requests.is_approved request.now }
{
    is_stated(
        ConditionKind::Approved,
        request.status.conditions.as_slice(),
    )
}

/// Whether the condition of this kind is True.
pub fn is_stated(kind: ConditionKind, conditions: &[Condition]) -> bool
    ensures { result ≡ requests.is_stated kind conditions.now }
{
    conditions.iter().any(|condition| condition.kind.same(kind) && condition.status.same(Tri::True))
}
