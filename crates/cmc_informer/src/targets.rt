//! The index of the Certificates that name each Secret.
ghost use Rattle.std.specs.Prelude.{◌≡◌, ◌&&◌, IfOk, OnErr, OnOk, if◌then◌else◌, true, false};
ghost use Rattle.cmc_meta.specs.declared.key.Key.{Key as KeyValue};
ghost use Rattle.cmc_meta.specs.Keys.{key_eq};
ghost use Rattle.cmc_informer.specs.Caches.{IsLedTo, secret_key};
ghost use Rattle.cmc_informer.specs.Indexes.{AreKeys, KeepsPoints, points};

use crate::keys::Keys;
use crate::marks::Marks;
use cmc_meta::{Key, Kind, Name};
use cmc_objects::Object;
use cmc_seed::HashSeed;
use std::alloc::{AllocError, Global};
use std::collections::HashMap;
use std::marker::Model;

/// Under the key of a Secret, the keys of the Certificates that name it, and of some that did or were to.
/// Whoever looks asks the objects which still do. So an entry goes in before its Certificate does, while
/// memory may still run out, and none is ever taken out: one that is stale does no harm, and takes room as
/// an emptied slot does. A Secret is only ever looked for under its own key, so they are hashed, and not sorted.
#[derive(Drop)]
pub(crate) struct Targets {
    map: HashMap<Key, Marks, HashSeed>,
}

impl Model for Targets {
    ghost use Rattle.cmc_informer.specs.Indexes.{Targeted};

    ghost Value = { Targeted };

    ghost view = { λ t. t.map.entries };
}

impl Targets {
    /// No Secret leads to a key, and Secrets are hashed by the seed. It takes no memory.
    #[tactic(auto, unfolding(crate::specs::Indexes::points))]
    pub(crate) fn new(alloc: Global, seed: HashSeed) -> Targets
        ensures { (s k : KeyValue) → points result s k ≡ false }
    {
        Targets {
            map: HashMap::with_hasher(alloc, seed),
        }
    }

    /// The keys that the Secret leads to, in order. An error is one of memory.
    #[tactic(auto, unfolding(crate::specs::Indexes::points))]
    pub(crate) fn keys(&self, alloc: Global, secret: &Key) -> Result<Keys, AllocError>
        ensures { IfOk result (λ keys. AreKeys keys (λ k. points self.now secret.now k)) }
    {
        match self.map.get(secret) {
            Some(marks) => marks.keys(alloc),
            None => Ok(Keys::new(alloc)),
        }
    }

    /// Makes a row for the Secret, and changes nothing else. An error is one of memory.
    #[tactic(auto, unfolding(crate::specs::Indexes::points, crate::specs::Indexes::mark_in))]
    fn row(&mut self, alloc: Global, secret: &Key) -> Result<(), AllocError>
        ensures { (s k : KeyValue) → points self.new s k ≡ points self.old s k }
    {
        if self.map.contains_key(secret) {
            return Ok(());
        }
        self.map.insert(secret.copy()?, Marks::new())?;
        Ok(())
    }

    /// The Secret leads to the key. An error is one of memory.
    #[tactic(auto, unfolding(crate::specs::Indexes::points))]
    pub(crate) fn add(&mut self, alloc: Global, secret: &Key, key: &Key) -> Result<(), AllocError>
        ensures ok { OnOk result ((s k : KeyValue) → points self.new s k ≡ (if key_eq secret.now s && key_eq key.now k then true else points self.old s k)) }
        ensures err { OnErr result ((s k : KeyValue) → points self.new s k ≡ points self.old s k) }
    {
        self.row(alloc, secret)?;
        match self.map.get_mut(secret) {
            Some(marks) => marks.add(alloc, key),
            None => Err(AllocError),
        }
    }
}

/// The key of the Secret of this namespace and this name. An error is one of memory.
pub(crate) fn key_of_secret(namespace: &Name, name: &Name) -> Result<Key, AllocError>
    ensures { IfOk result (λ k. k ≡ secret_key namespace.now name.now) }
{
    Ok(Key {
        kind: Kind::Secret,
        namespace: namespace.copy()?,
        name: name.copy()?,
    })
}

/// The Secret that the object names comes to lead to the key, if it is a Certificate. An error is one of
/// memory.
pub(crate) fn room_for_target(
    alloc: Global,
    index: &mut Targets,
    object: &Option<Object>,
    key: &Key,
) -> Result<(), AllocError>
    ensures room { OnOk result (IsLedTo index.new object.now key.now) }
    ensures keeps { KeepsPoints index.old index.new }
{
    if let Some(Object::Cert(certificate)) = object {
        let secret = key_of_secret(&certificate.meta.namespace, &certificate.spec.secret_name)?;
        index.add(alloc, &secret, key)?;
    }
    Ok(())
}
