//! The versions of the writes under each key.
ghost use Rattle.std.specs.List.Sorted.{IsNonDecreasingBy};
ghost use Rattle.std.specs.Prelude.{◌≡◌, ◌∷◌, [], IfOk, OnOk, reverse, if◌then◌else◌};
ghost use Rattle.cmc_meta.specs.declared.key.Key.{Key as KeyValue};
ghost use Rattle.cmc_meta.specs.Keys.{key_eq};
ghost use Rattle.cmc_audit_state.specs.Journaled.{has_any_version, latest_in, versions_in};

use cmc_meta::{Key, Numbers};
use cmc_seed::HashSeed;
use std::alloc::{AllocError, Global};
use std::collections::HashMap;
use std::marker::Model;

/// The versions of the writes under each key; contracts see the list of the keys, in no order, with the versions of
/// each, the oldest first.
pub struct Versions {
    map: HashMap<Key, Numbers, HashSeed>,
}

impl Drop for Versions {
    fn drop(self) {
        let Versions { map: _map } = self;
    }
}

impl Model for Versions {
    ghost use Rattle.std.specs.Prelude.{ℕ, List};
    ghost use Rattle.cmc_meta.specs.declared.key.Key.{Key};

    ghost Value = { List (Key × List ℕ) };

    ghost view = { λ v. v.map.entries };
}

impl Versions {
    /// No versions, and keys are hashed by the seed. It takes no memory.
    #[tactic(auto, unfolding(crate::specs::Journaled::versions_in))]
    pub fn new(alloc: Global, seed: HashSeed) -> Versions
        ensures { (k : KeyValue) → versions_in result k ≡ [] }
    {
        Versions {
            map: HashMap::with_hasher(alloc, seed),
        }
    }

    /// Adds a version, above all others, under the key. An error is one of memory.
    #[tactic(auto, unfolding(crate::specs::Journaled::versions_in))]
    pub fn add(&mut self, alloc: Global, key: &Key, version: u64) -> Result<(), AllocError>
        ensures { OnOk result ((k : KeyValue) → versions_in self.new k ≡ (if key_eq key.now k then version ∷ versions_in self.old k else versions_in self.old k)) }
    {
        if let Some(versions) = self.map.get_mut(key) {
            return versions.push(version);
        }
        let key = key.copy()?;
        self.map.insert(key, only(alloc, version)?)?;
        Ok(())
    }

    /// Whether there is a version under the key.
    #[tactic(auto, unfolding(crate::specs::Journaled::versions_in))]
    pub fn knows(&self, key: &Key) -> bool
        ensures { result ≡ has_any_version (versions_in self.now key.now) }
    {
        match self.map.get(key) {
            Some(versions) => !versions.as_slice().is_empty(),
            None => false,
        }
    }

    /// The newest version under the key up to this one, and 0 where there is none.
    #[tactic(auto, unfolding(crate::specs::Journaled::versions_in))]
    pub fn latest(&self, key: &Key, up_to: u64) -> u64
        requires { IsNonDecreasingBy (λ v. v) (reverse (versions_in self.now key.now)) }
        ensures { result ≡ latest_in up_to (versions_in self.now key.now) }
    {
        match self.map.get(key) {
            Some(versions) => latest_of(versions.as_slice(), up_to),
            None => 0,
        }
    }
}

fn only(alloc: Global, version: u64) -> Result<Numbers, AllocError>
    ensures { IfOk result (λ v. v ≡ version ∷ []) }
{
    let mut versions = Numbers::new(alloc);
    versions.push(version)?;
    Ok(versions)
}

fn latest_of(versions: &[u64], up_to: u64) -> u64
    requires { IsNonDecreasingBy (λ v. v) versions.now }
    ensures { result ≡ latest_in up_to (reverse versions.now) }
{
    let place = versions.partition_point(|version| *version <= up_to);
    if place == 0 {
        return 0;
    }
    versions[place - 1]
}
