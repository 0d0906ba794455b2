//! One kind on the board.
ghost use Rattle.std.specs.Option.{option_copied};
ghost use Rattle.std.specs.Prelude.{◌≡◌, ℕ, OnOk, OnErr, Some, reverse, true, false};
ghost use Rattle.cmc_model.specs.Objects.{object_at};
ghost use Rattle.cmc_caches.specs.Board.{IsColumnAfter, IsColumnKept, IsEmptyColumn, NotesLeft, SecretName, is_of_secret, numbers_for};
ghost use Rattle.cmc_caches.specs.Left.{IsTopped, numbers_under};
ghost use Rattle.cmc_caches.specs.Lines.{is_on_line, numbers_in};
ghost use Rattle.cmc_informer.specs.Caches.{is_owned_by};

use crate::left::Left;
use crate::lines::Lines;
use crate::touched::have_same_owners;
use crate::viewing::target_key;
use cmc_informer::Cache;
use cmc_meta::Key;
use cmc_model::Write;
use cmc_objects::{Certificate, Object};
use cmc_seed::HashSeed;
use std::alloc::{AllocError, Global};
use std::marker::Model;

/// The objects of a kind as the writes leave them that the board knows, and what no longer stands in their indexes: under
/// each owner, and under each Secret that Certificates named.
pub(crate) struct Column {
    objects: Cache,
    owners: Left,
    targets: Lines,
}

impl Drop for Column {
    fn drop(self) {
        let Column {
            objects: _objects,
            owners: _owners,
            targets: _targets,
        } = self;
    }
}

impl Model for Column {
    ghost use Rattle.std.specs.Coded.{codes};
    ghost use Rattle.cmc_informer.specs.contracts.cache.Cache as cache_row;
    ghost use Rattle.cmc_caches.specs.Board.{Columned};

    ghost Value = { Columned };

    ghost coded = { Prim.hlevel (codes, cache_row.the_row.coded) };

    ghost view = { λ c. record { objects = c.objects; owners = c.owners; targets = c.targets } };
}

/// Notes the number under the owners of the object before, where the object after has others.
fn note_owners(
    alloc: Global,
    owners: &mut Left,
    before: Option<&Object>,
    after: Option<&Object>,
    number: u64,
) -> Result<(), AllocError>
    ensures kept { (u : ℕ) → IsTopped number (numbers_under owners.old u) (numbers_under owners.new u) }
    ensures noted { OnOk result ((u : ℕ) → is_owned_by u (option_copied before.entry) ≡ true → is_owned_by u (option_copied after.entry) ≡ false → is_on_line number (numbers_under owners.new u) ≡ true) }
{
    if have_same_owners(before, after) {
        return Ok(());
    }
    match before {
        Some(object) => owners.add_each(alloc, object.meta().owners.as_slice(), number),
        None => Ok(()),
    }
}

/// Whether the object is a Certificate that names the same Secret.
fn names_target(object: Option<&Object>, certificate: &Certificate) -> bool
    ensures { result ≡ true → (s : SecretName) → is_of_secret s (Some (Object.Cert certificate.now)) ≡ true → is_of_secret s (option_copied object.entry) ≡ true }
{
    match object {
        Some(Object::Cert(other)) => {
            certificate.spec.secret_name.same(&other.spec.secret_name)
                && certificate.meta.namespace.same(&other.meta.namespace)
        }
        _ => false,
    }
}

/// Notes the number under the Secret that the Certificate names, where the object after names another or none.
fn note_secret(
    alloc: Global,
    targets: &mut Lines,
    certificate: &Certificate,
    after: Option<&Object>,
    number: u64,
) -> Result<(), AllocError>
    ensures kept { (s : SecretName) → IsTopped number (numbers_for targets.old s) (numbers_for targets.new s) }
    ensures noted { OnOk result ((s : SecretName) → is_of_secret s (Some (Object.Cert certificate.now)) ≡ true → is_of_secret s (option_copied after.entry) ≡ false → is_on_line number (numbers_for targets.new s) ≡ true) }
{
    if names_target(after, certificate) {
        return Ok(());
    }
    let secret = target_key(certificate)?;
    targets.add(alloc, &secret, number)?;
    Ok(())
}

/// Notes the number under the Secret that the object before names, where the object after names another or none.
fn note_target(
    alloc: Global,
    targets: &mut Lines,
    before: Option<&Object>,
    after: Option<&Object>,
    number: u64,
) -> Result<(), AllocError>
    ensures kept { (s : SecretName) → IsTopped number (numbers_for targets.old s) (numbers_for targets.new s) }
    ensures noted { OnOk result ((s : SecretName) → is_of_secret s (option_copied before.entry) ≡ true → is_of_secret s (option_copied after.entry) ≡ false → is_on_line number (numbers_for targets.new s) ≡ true) }
{
    match before {
        Some(Object::Cert(certificate)) => note_secret(alloc, targets, certificate, after, number),
        Some(Object::Request(_)) => Ok(()),
        Some(Object::Secret(_)) => Ok(()),
        None => Ok(()),
    }
}

/// Notes what may leave the indexes as the write is applied.
fn note_left(
    alloc: Global,
    objects: &Cache,
    owners: &mut Left,
    targets: &mut Lines,
    write: &Write,
    number: u64,
) -> Result<(), AllocError>
    ensures owners_kept { (u : ℕ) → IsTopped number (numbers_under owners.old u) (numbers_under owners.new u) }
    ensures targets_kept { (s : SecretName) → IsTopped number (numbers_for targets.old s) (numbers_for targets.new s) }
    ensures owners { OnOk result (NotesLeft is_owned_by number (object_at objects.now write.now.key) write.now.object (numbers_under owners.old) (numbers_under owners.new)) }
    ensures targets { OnOk result (NotesLeft is_of_secret number (object_at objects.now write.now.key) write.now.object (numbers_for targets.old) (numbers_for targets.new)) }
{
    let before = objects.get(&write.key);
    let after = write.object.as_ref();
    note_owners(alloc, owners, before, after, number)?;
    note_target(alloc, targets, before, after, number)?;
    Ok(())
}

impl Column {
    /// No objects, and all is hashed by the seed. It takes no memory.
    pub(crate) fn new(alloc: Global, seed: HashSeed) -> Column
        ensures { IsEmptyColumn result }
    {
        Column {
            objects: Cache::seeded(alloc, seed),
            owners: Left::new(alloc, seed),
            targets: Lines::new(alloc, seed),
        }
    }

    /// Applies the write of this number. An `Err` says that memory ran out; what was noted by then stays, and does no
    /// harm.
    pub(crate) fn take_in(
        &mut self,
        alloc: Global,
        write: &Write,
        number: u64,
    ) -> Result<(), AllocError>
        ensures ok { OnOk result (IsColumnAfter number write.now self.old self.new) }
        ensures err { OnErr result (IsColumnKept number self.old self.new) }
    {
        note_left(
            alloc,
            &self.objects,
            &mut self.owners,
            &mut self.targets,
            write,
            number,
        )?;
        self.objects.write(alloc, write)?;
        Ok(())
    }

    /// The objects as the known writes leave them.
    pub(crate) fn objects(&self) -> &Cache
        ensures { result.now ≡ self.now.objects }
    {
        &self.objects
    }

    /// The numbers of the writes after which the owner may own less, the oldest first.
    pub(crate) fn left_owner(&self, uid: u64) -> &[u64]
        ensures { reverse result.now ≡ numbers_under self.now.owners uid }
    {
        self.owners.get(uid)
    }

    /// The numbers of the writes after which fewer Certificates may name the Secret, the oldest first.
    pub(crate) fn left_target(&self, secret: &Key) -> &[u64]
        ensures { reverse result.now ≡ numbers_in self.now.targets secret.now }
    {
        self.targets.get(secret)
    }
}
