//! Which Certificate has which Secret.
ghost use Rattle.std.specs.FinMap as finite;
ghost use Rattle.std.specs.Option.{option_copied};
ghost use Rattle.std.specs.Prelude.{◌≡◌, ◌↔◌, IsTrue, IfOk, OnOk, OnErr};
ghost use Rattle.cmc_store.specs.Claims as spec;

use cmc_meta::{Key, Kind, Name};
use cmc_objects::Object;
use cmc_seed::HashSeed;
use std::alloc::{AllocError, Global};
use std::collections::HashMap;
use std::marker::Model;

/// The names of Certificates under the keys of the Secrets that they name; contracts see a finite map. A Secret
/// is only ever looked for under its own key, and nobody asks for an order: so they are hashed, and not sorted.
#[derive(Drop)]
pub struct Claims {
    map: HashMap<Key, Name, HashSeed>,
}

impl Model for Claims {
    ghost use Rattle.std.specs.FinMap as finite;
    ghost use Rattle.cmc_meta.specs.contracts.key.Key as keys;
    ghost use Rattle.cmc_meta.specs.contracts.name.Name as names;
    ghost use Rattle.cmc_store.specs.Claims.{Claims as ClaimMap};

    ghost Value = { ClaimMap };

    ghost coded = { finite.code keys.the_row.coded names.the_row.coded };

    ghost view = { λ c. finite.from_entries c.map.entries };
}

impl Claims {
    /// No claims, and Secrets are hashed by the seed. It takes no memory.
    pub fn new(alloc: Global, seed: HashSeed) -> Claims
        ensures { result ≡ spec.no_claims }
    {
        Claims {
            map: HashMap::with_hasher(alloc, seed),
        }
    }

    /// The name of the Certificate that has the Secret; `None` exactly where none has it.
    pub fn get(&self, secret: &Key) -> Option<&Name>
        ensures { option_copied result ≡ spec.claim_at self.now secret.now }
    {
        self.map.get(secret)
    }

    /// Notes that the Certificate of this name has the Secret, where one is given.
    pub fn claim(&mut self, secret: Option<Key>, name: Name) -> Result<(), AllocError>
        ensures ok { OnOk result (self.new ≡ spec.claimed self.old secret name) }
        ensures err { OnErr result (self.new ≡ self.old) }
    {
        match secret {
            None => Ok(()),
            Some(secret) => self.insert(secret, name),
        }
    }

    /// Notes that none has the Secret, where one is given.
    pub fn release(&mut self, secret: &Option<Key>)
        ensures { self.new ≡ spec.released self.old secret.now }
    {
        if let Some(secret) = secret {
            self.remove(secret);
        }
    }

    fn insert(&mut self, secret: Key, name: Name) -> Result<(), AllocError>
        ensures ok { OnOk result (self.new ≡ finite.insert self.old secret name) }
        ensures err { OnErr result (self.new ≡ self.old) }
    {
        self.map.insert(secret, name)?;
        Ok(())
    }

    fn remove(&mut self, secret: &Key)
        ensures { self.new ≡ finite.remove self.old secret.now }
    {
        let _ = self.map.remove(secret);
    }
}

/// The key of the Secret that the object names; none where it is no Certificate.
pub fn secret_of(object: &Object) -> Result<Option<Key>, AllocError>
    ensures { IfOk result (λ s. s ≡ spec.secret_of object.now) }
{
    match object {
        Object::Cert(c) => Ok(Some(Key {
            kind: Kind::Secret,
            namespace: c.meta.namespace.copy()?,
            name: c.spec.secret_name.copy()?,
        })),
        Object::Request(_) => Ok(None),
        Object::Secret(_) => Ok(None),
    }
}

pub fn is_same_secret(left: &Option<Key>, right: &Option<Key>) -> bool
    ensures { IsTrue result ↔ (left.now ≡ right.now) }
{
    match (left, right) {
        (Some(a), Some(b)) => a.same(b),
        (None, None) => true,
        _ => false,
    }
}
