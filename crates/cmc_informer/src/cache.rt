//! The objects of one kind that an informer keeps.
ghost use Rattle.std.specs.Option.{option_copied};
ghost use Rattle.std.specs.Prelude.{◌≡◌, ◌≤◌, IfOk, OnOk, OnErr, length, reverse};
ghost use Rattle.cmc_model.specs.Objects.{no_objects, object_at, with_object};
ghost use Rattle.cmc_model.specs.Replies.{put_at};
ghost use Rattle.cmc_model.specs.Writes as spec;
ghost use Rattle.cmc_informer.specs.Caches.{has_uid, is_owned_by, is_targeting};
ghost use Rattle.cmc_informer.specs.Indexes.{AreKeys, Finds};

use crate::keys::Keys;
use crate::rows::{Rows, change, copy_object, make, make_room, no_rows, prepare};
use crate::targets::key_of_secret;
use cmc_meta::{Key, Kind, Name};
use cmc_model::Write;
use cmc_objects::Object;
use cmc_seed::HashSeed;
use std::alloc::{AllocError, Global};
use std::marker::Model;

/// Objects under their keys, with indexes by the uids of their owners, by their own, and by the Secrets that
/// Certificates name. Contracts see the objects alone, as a finite map.
pub struct Cache {
    rows: Rows,
}

impl Drop for Cache {
    fn drop(self) {
        let Cache { rows: _rows } = self;
    }
}

impl Model for Cache {
    ghost use Rattle.std.specs.FinMap as finite;
    ghost use Rattle.cmc_meta.specs.contracts.key.Key as keys;
    ghost use Rattle.cmc_objects.specs.contracts.object.Object as object;
    ghost use Rattle.cmc_model.specs.Objects.{Objects};
    ghost use Rattle.cmc_informer.specs.Caches.{objects_in};
    ghost use Rattle.cmc_informer.specs.Indexed.{IsIndexed};

    ghost Value = { Objects };

    ghost coded = { finite.code keys.the_row.coded object.the_row.coded };

    ghost view = { λ c. objects_in c.rows.slots };

    ghost invariant = { λ c. IsIndexed c.rows };
}

impl Cache {
    /// No objects. It takes no memory.
    pub fn new(alloc: Global) -> Cache
        ensures { result ≡ no_objects }
    {
        Cache::seeded(alloc, HashSeed::fixed())
    }

    /// The same, where keys and uids are hashed by the seed.
    pub fn seeded(alloc: Global, seed: HashSeed) -> Cache
        ensures { result ≡ no_objects }
    {
        Cache {
            rows: no_rows(alloc, seed),
        }
    }

    /// What keys and uids are hashed by.
    pub fn seed(&self) -> HashSeed {
        self.rows.slots.seed()
    }

    /// The object under the key; `None` exactly where none exists.
    pub fn get(&self, key: &Key) -> Option<&Object>
        ensures { option_copied result ≡ object_at self.now key.now }
    {
        self.rows.slots.get(key)
    }

    /// The keys, in order, of the objects that have an owner reference of this uid. An `Err` is want of
    /// memory.
    pub fn owned_by(&self, alloc: Global, uid: u64) -> Result<Keys, AllocError>
        ensures { IfOk result (λ keys. AreKeys keys (λ k. is_owned_by uid (object_at self.now k))) }
    {
        let keys = self.rows.owners.keys(alloc, uid)?;
        Ok(keys)
    }

    /// The keys, in order, of the Certificates of the namespace whose `secretName` is this name; none where
    /// the objects are of another kind.
    pub fn by_secret(
        &self,
        alloc: Global,
        namespace: &Name,
        name: &Name,
    ) -> Result<Keys, AllocError>
        ensures { IfOk result (λ keys. AreKeys keys (λ k. is_targeting namespace.now name.now (object_at self.now k))) }
    {
        let secret = key_of_secret(namespace, name)?;
        let held = self.rows.targets.keys(alloc, &secret)?;
        let keys = self
            .rows
            .slots
            .targeting_among(alloc, held, namespace, name)?;
        Ok(keys)
    }

    /// The key of the object that has this uid; `None` exactly where none has it.
    pub fn by_uid(&self, uid: u64) -> Option<&Key>
        ensures { Finds (λ k. has_uid uid (object_at self.now k)) (option_copied result) }
    {
        self.rows.uids.first(uid)
    }

    /// Puts the object under the key, in place of an older one. An `Err` says that memory ran out, and leaves all
    /// as it was.
    pub fn put(&mut self, alloc: Global, key: &Key, object: Object) -> Result<(), AllocError>
        ensures ok { OnOk result (self.new ≡ with_object self.old key.now object) }
        ensures err { OnErr result (self.new ≡ self.old) }
    {
        let object = Some(object);
        make_room(alloc, &mut self.rows, key, &object)?;
        change(&mut self.rows, key, object);
        Ok(())
    }

    /// Applies one write: puts the object that it left under its key, or removes the one that is there. An `Err` says
    /// that memory ran out, and leaves all as it was.
    pub fn write(&mut self, alloc: Global, write: &Write) -> Result<(), AllocError>
        ensures ok { OnOk result (self.new ≡ put_at self.old write.now.key write.now.object) }
        ensures err { OnErr result (self.new ≡ self.old) }
    {
        let object = copy_object(&write.object)?;
        make_room(alloc, &mut self.rows, &write.key, &object)?;
        change(&mut self.rows, &write.key, object);
        Ok(())
    }

    /// Applies the writes of the kind above the one version and up to the other: the objects that the first
    /// `from` writes leave become those that the first `to` writes leave. An `Err` says that memory ran out, and
    /// leaves all as it was.
    pub fn apply(
        &mut self,
        alloc: Global,
        writes: &[Write],
        kind: Kind,
        from: u64,
        to: u64,
    ) -> Result<(), AllocError>
        requires above { from ≤ to }
        requires within { to ≤ length writes.now }
        requires holds { self.old ≡ spec.contents (spec.of_kind kind (spec.oldest from (reverse writes.now))) }
        ensures ok { OnOk result (self.new ≡ spec.contents (spec.of_kind kind (spec.oldest to (reverse writes.now)))) }
        ensures err { OnErr result (self.new ≡ self.old) }
    {
        let changes = prepare(alloc, &mut self.rows, writes, kind, from, to)?;
        make(&mut self.rows, changes);
        Ok(())
    }
}
