//! The accepted writes.
ghost use Rattle.std.specs.Option.{option_copied};
ghost use Rattle.std.specs.Prelude.{◌≡◌, ◌↔◌, ◌++◌, ◌∷◌, [], IfOk, IsTrue, OnOk, OnErr, length, reverse, slice_get, option_and_then, option_to_list, filter_map};
ghost use Rattle.cmc_meta.specs.declared.key.Kind.TheVariants as kinds;
ghost use Rattle.cmc_model.specs.Objects.{object_at};
ghost use Rattle.cmc_model.specs.Writes as spec;
ghost use Rattle.cmc_rules.specs.Legality.{IsOfKind};
ghost use Rattle.cmc_rules.specs.Revisions.{revision_of_uid};
ghost use Rattle.cmc_rules.specs.Views as seen;
ghost use Rattle.cmc_audit_state.specs.Journaled.{cached, is_denied_uid, has_owner_uid, object_left};

use crate::indexes::Indexes;
use cmc_meta::{Key, Kind, ObjectMeta, OwnerRef};
use cmc_model::Write;
use cmc_objects::{Certificate, CertificateRequest, Object, Shared};
use cmc_pass::Requests;
use cmc_seed::HashSeed;
use std::alloc::{AllocError, Global};
use std::collections::BTreeSet;
use std::marker::Model;

/// The accepted writes, numbered from 1 from the oldest on. Contracts see the list of them, the newest first.
///
/// Each is found by its version at once, and by its key and a version, or by the uid of an owner, in logarithmic time.
pub struct Journal {
    /// The writes, the oldest first: the write of version n is the nth.
    items: Vec<Write>,
    indexes: Indexes,
}

impl Drop for Journal {
    fn drop(self) {
        let Journal {
            items: _items,
            indexes: _indexes,
        } = self;
    }
}

impl Model for Journal {
    ghost use Rattle.std.specs.Prelude.{List, reverse};
    ghost use Rattle.cmc_model.specs.declared.write.Write.{Write};
    ghost use Rattle.cmc_audit_state.specs.Journaled.{IsIndexOfWrites};

    ghost Value = { List Write };

    ghost view = { λ j. reverse j.items.items };

    ghost invariant = { λ j. IsIndexOfWrites (reverse j.items.items) j.indexes };
}

impl Journal {
    /// No writes, and all is hashed by the seed. It takes no memory.
    pub fn new(alloc: Global, seed: HashSeed) -> Journal
        ensures { result ≡ [] }
    {
        Journal {
            items: Vec::new(alloc),
            indexes: Indexes::new(alloc, seed),
        }
    }

    /// The journal with this write as the newest. An error is one of memory.
    pub fn with(self, alloc: Global, write: Write) -> Result<Journal, AllocError>
        ensures { IfOk result (λ j. j ≡ write ∷ self) }
    {
        let Journal { items, indexes } = self;
        let mut items = items;
        let mut indexes = indexes;
        indexes.add(alloc, &write, items.len() as u64 + 1)?;
        items.push(write)?;
        Ok(Journal { items, indexes })
    }

    /// How many writes were accepted.
    pub fn accepted(&self) -> u64
        ensures { result ≡ length self.now }
    {
        self.items.len() as u64
    }

    /// Whether the write of this version is one of the kind; no write has version 0.
    pub fn is_of_kind(&self, version: u64, kind: Kind) -> bool
        ensures { IsTrue result ↔ IsOfKind kind (spec.write_at version self.now) }
    {
        is_of_kind(self.items.as_slice(), version, kind)
    }

    /// Whether an accepted write named the key.
    pub fn knows(&self, key: &Key) -> bool
        ensures { result ≡ spec.is_known key.now self.now }
    {
        self.indexes.versions.knows(key)
    }

    /// What stood under the key after the first `up_to` writes.
    pub fn latest(&self, key: &Key, up_to: u64) -> Option<&Object>
        ensures { option_copied result ≡ object_at (spec.contents (spec.oldest up_to self.now)) key.now }
    {
        let version = self.indexes.versions.latest(key, up_to);
        written_by(self.items.as_slice(), version)
    }

    /// What exists under the key after all writes.
    pub fn standing(&self, key: &Key) -> Option<&Object>
        ensures { option_copied result ≡ object_at (spec.contents self.now) key.now }
    {
        self.latest(key, self.accepted())
    }

    /// What stood under the key after the first `up_to` writes, where the key is one of the kind.
    pub fn cached(&self, kind: Kind, key: &Key, up_to: u64) -> Option<&Object>
        ensures { option_copied result ≡ object_at (cached kind self.now up_to) key.now }
    {
        if key.kind.same(kind) {
            self.latest(key, up_to)
        } else {
            None
        }
    }

    /// The revision in the last version of the uid.
    pub fn revision(&self, uid: u64) -> u64
        ensures { result ≡ revision_of_uid uid self.now }
    {
        self.indexes.revisions.get(uid)
    }

    /// Whether a version of the request of this uid is denied.
    pub fn is_denied(&self, uid: u64) -> bool
        ensures { result ≡ is_denied_uid uid self.now }
    {
        self.indexes.denied.has(uid)
    }

    /// The requests that the Certificate owned after the first `up_to` writes, in order of key. An error is one of
    /// memory.
    pub fn requests(
        &self,
        alloc: Global,
        certificate: &Certificate,
        up_to: u64,
    ) -> Result<Requests, AllocError>
        ensures { IfOk result (λ r. r ≡ seen.requests_of (cached kinds.CertificateRequest self.now up_to) certificate.now) }
    {
        match self.indexes.owned.get(certificate.meta.uid) {
            Some(keys) => owned_under(alloc, self, certificate, keys.keys(), up_to),
            None => Ok(Requests::new(alloc)),
        }
    }
}

fn write_in_place(writes: &[Write], place: u64) -> Option<&Write>
    ensures { option_copied result ≡ slice_get writes.now place }
{
    writes.get(place as usize)
}

fn write_of(writes: &[Write], version: u64) -> Option<&Write>
    ensures { option_copied result ≡ spec.write_at version (reverse writes.now) }
{
    if version == 0 {
        return None;
    }
    write_in_place(writes, version - 1)
}

fn is_of_kind(writes: &[Write], version: u64, kind: Kind) -> bool
    ensures { IsTrue result ↔ IsOfKind kind (spec.write_at version (reverse writes.now)) }
{
    match write_of(writes, version) {
        Some(write) => write.key.kind.same(kind),
        None => false,
    }
}

/// What the write of this version left.
fn written_by(writes: &[Write], version: u64) -> Option<&Object>
    ensures { option_copied result ≡ object_left (spec.write_at version (reverse writes.now)) }
{
    match write_of(writes, version) {
        Some(write) => write.object.as_ref(),
        None => None,
    }
}

fn has_owner(owners: &[OwnerRef], uid: u64) -> bool
    ensures { result ≡ has_owner_uid uid owners.now }
{
    owners.iter().any(|owner| owner.uid == uid)
}

/// Whether the Certificate owns what has this metadata.
pub fn is_owned(certificate: &Certificate, meta: &ObjectMeta) -> bool
    ensures { result ≡ seen.is_owned certificate.now meta.now }
{
    meta.namespace == certificate.meta.namespace
        && has_owner(meta.owners.as_slice(), certificate.meta.uid)
}

fn owned_request(
    certificate: &Certificate,
    object: &Object,
) -> Result<Option<Shared<CertificateRequest>>, AllocError>
    ensures { IfOk result (λ r. r ≡ seen.owned_in certificate.now object.now) }
{
    match object {
        Object::Cert(_) => Ok(None),
        Object::Request(request) => {
            if is_owned(certificate, &request.meta) {
                return Ok(Some(request.copy()?));
            }
            Ok(None)
        }
        Object::Secret(_) => Ok(None),
    }
}

/// The request under the key, where the Certificate owned it after the first `up_to` writes.
fn owned_at(
    journal: &Journal,
    certificate: &Certificate,
    key: &Key,
    up_to: u64,
) -> Result<Option<Shared<CertificateRequest>>, AllocError>
    ensures { IfOk result (λ r. r ≡ option_and_then (seen.owned_in certificate.now) (object_at (cached kinds.CertificateRequest journal.now up_to) key.now)) }
{
    match journal.cached(Kind::CertificateRequest, key, up_to) {
        Some(object) => owned_request(certificate, object),
        None => Ok(None),
    }
}

fn push_request(
    requests: &mut Requests,
    request: Option<Shared<CertificateRequest>>,
) -> Result<(), AllocError>
    ensures ok { OnOk result (requests.new ≡ requests.old ++ option_to_list request) }
    ensures err { OnErr result (requests.new ≡ requests.old) }
{
    match request {
        Some(request) => requests.push(request),
        None => Ok(()),
    }
}

fn owned_under(
    alloc: Global,
    journal: &Journal,
    certificate: &Certificate,
    keys: &BTreeSet<Key>,
    up_to: u64,
) -> Result<Requests, AllocError>
    ensures { IfOk result (λ r. r ≡ filter_map (λ k. option_and_then (seen.owned_in certificate.now) (object_at (cached kinds.CertificateRequest journal.now up_to) k)) keys.now.keys) }
{
    let mut owned = Requests::new(alloc);
    for key in keys.iter() {
        push_request(&mut owned, owned_at(journal, certificate, key, up_to)?)?;
    }
    Ok(owned)
}
