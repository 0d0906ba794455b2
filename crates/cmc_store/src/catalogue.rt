//! The objects, with an index of the Secrets that Certificates name.
ghost use Rattle.std.specs.Option.{option_copied};
ghost use Rattle.std.specs.Prelude.{◌≡◌, ◌≢◌, false, IfOk, OnOk, OnErr};
ghost use Rattle.cmc_objects.specs.Objects.{key_of};
ghost use Rattle.cmc_model.specs.Admission.{is_taken};
ghost use Rattle.cmc_model.specs.Objects.{no_objects, object_at, with_object, without_object};
ghost use Rattle.cmc_store.specs.Claims as spec;

use crate::claims::{Claims, is_same_secret, secret_of};
use crate::shelf::Shelf;
use cmc_meta::{Key, Name};
use cmc_objects::Object;
use cmc_seed::HashSeed;
use std::alloc::{AllocError, Global};
use std::marker::Model;

/// The objects under their keys, and beside them which Certificate has which Secret; contracts see the objects.
/// No two Certificates of one namespace name the same Secret.
#[derive(Drop)]
pub struct Catalogue {
    shelf: Shelf,
    claims: Claims,
}

impl Model for Catalogue {
    ghost use Rattle.cmc_store.specs.contracts.shelf.Shelf as shelf_row;
    ghost use Rattle.cmc_model.specs.Objects.{Objects};
    ghost use Rattle.cmc_store.specs.Claims.{IsIndex};

    ghost Value = { Objects };

    ghost coded = { shelf_row.the_row.coded };

    ghost view = { λ c. c.shelf };

    ghost invariant = { λ c. IsIndex c.shelf c.claims };
}

impl Catalogue {
    /// No objects, and Secrets are hashed by the seed. It takes no memory.
    pub fn new(alloc: Global, seed: HashSeed) -> Catalogue
        ensures { result ≡ no_objects }
    {
        Catalogue {
            shelf: Shelf::new(alloc),
            claims: Claims::new(alloc, seed),
        }
    }

    /// The objects alone.
    pub fn shelf(&self) -> &Shelf
        ensures { result.now ≡ self.now }
    {
        &self.shelf
    }

    /// The object under the key; `None` exactly where none exists. Its own key is that, and no other Certificate
    /// has the Secret that it names.
    pub fn get(&self, key: &Key) -> Option<&Object>
        ensures object { option_copied result ≡ object_at self.now key.now }
        ensures stands { spec.IsUnderItsKey self.now key.now (option_copied result) }
    {
        self.shelf.get(key)
    }

    /// Whether another Certificate of the namespace has the Secret that the object names.
    pub fn has_taken(&self, object: &Object) -> Result<bool, AllocError>
        ensures { IfOk result (λ b. b ≡ is_taken self.now object.now) }
    {
        match secret_of(object)? {
            None => Ok(false),
            Some(secret) => Ok(is_of_another(self.claims.get(&secret), &object.meta().name)),
        }
    }

    /// Puts the object under its key, in place of an older one, of which `old` is the Secret that it named; where memory
    /// runs out all is as it was.
    pub fn put(&mut self, old: &Option<Key>, key: Key, object: Object) -> Result<(), AllocError>
        requires old { old.now ≡ spec.secret_named_in (object_at self.old key) }
        requires key { key_of object ≡ key }
        requires free { is_taken self.old object ≡ false }
        ensures ok { OnOk result (self.new ≡ with_object self.old key object) }
        ensures err { OnErr result (self.new ≡ self.old) }
    {
        let new = secret_of(&object)?;
        if is_same_secret(old, &new) {
            self.shelf.put(key, object)
        } else {
            put_moved(&mut self.shelf, &mut self.claims, key, object, old)
        }
    }

    /// Takes the object of the key away; where none stands, nothing changes, and want of memory leaves all as it was.
    pub fn remove(&mut self, key: &Key) -> Result<(), AllocError>
        ensures ok { OnOk result (self.new ≡ without_object self.old key.now) }
        ensures err { OnErr result (self.new ≡ self.old) }
    {
        let secret = secret_at(&self.shelf, key)?;
        self.claims.release(&secret);
        self.shelf.remove(key);
        Ok(())
    }
}

fn is_of_another(claim: Option<&Name>, name: &Name) -> bool
    ensures { result ≡ spec.is_of_another name.now (option_copied claim.entry) }
{
    match claim {
        None => false,
        Some(other) => !(*other == *name),
    }
}

/// The Secret that what exists under the key names.
fn secret_at(shelf: &Shelf, key: &Key) -> Result<Option<Key>, AllocError>
    ensures { IfOk result (λ s. s ≡ spec.secret_named_in (object_at shelf.now key.now)) }
{
    match shelf.get(key) {
        None => Ok(None),
        Some(object) => secret_of(object),
    }
}

/// Puts an object under its key that names another Secret than what was there, with its claim.
fn put_moved(
    shelf: &mut Shelf,
    claims: &mut Claims,
    key: Key,
    object: Object,
    old: &Option<Key>,
) -> Result<(), AllocError>
    requires index { spec.IsIndex shelf.old claims.old }
    requires key { key_of object ≡ key }
    requires free { is_taken shelf.old object ≡ false }
    requires old { old.now ≡ spec.secret_named_in (object_at shelf.old key) }
    requires moves { old.now ≢ spec.secret_of object }
    ensures ok { OnOk result (shelf.new ≡ with_object shelf.old key object) }
    ensures err { OnErr result (shelf.new ≡ shelf.old) }
    ensures index { spec.IsIndex shelf.new claims.new }
{
    let new = secret_of(&object)?;
    claims.claim(secret_of(&object)?, key.name.copy()?)?;
    match shelf.put(key, object) {
        Ok(()) => {
            claims.release(old);
            Ok(())
        }
        Err(error) => {
            claims.release(&new);
            Err(error)
        }
    }
}
