//! What a range of writes leaves to be done: of each key the last write alone.
ghost use Rattle.std.specs.Prelude.{◌≡◌, ◌||◌, IfOk, OnOk, not};
ghost use Rattle.cmc_meta.specs.declared.key.Key.{Key as KeyValue};
ghost use Rattle.cmc_meta.specs.Keys.{key_eq};
ghost use Rattle.cmc_informer.specs.Superseded.{has_seen};

use cmc_meta::Key;
use cmc_objects::Object;
use cmc_seed::HashSeed;
use std::alloc::{AllocError, Global};
use std::collections::HashSet;
use std::marker::Model;

/// What is to stand under a key, or that nothing is.
#[derive(Drop)]
pub(crate) struct Change<'a> {
    pub(crate) key: &'a Key,
    pub(crate) object: Option<Object>,
}

/// Keys that later writes named. The first is kept by itself: most deliveries bring one key of a kind, and make no set.
#[derive(Drop)]
pub(crate) struct SeenKeys<'a> {
    first: Option<&'a Key>,
    others: HashSet<&'a Key, HashSeed>,
}

impl<'a> Model for SeenKeys<'a> {
    ghost use Rattle.std.specs.Borrow.{Bor};
    ghost use Rattle.std.specs.Prelude.{List, [], None, ◌≡◌};
    ghost use Rattle.cmc_meta.specs.declared.key.Key.{Key};
    ghost use Rattle.cmc_informer.specs.Superseded.{with_first};

    ghost Value = { List (Bor Key) };

    ghost view = { λ s. with_first s.first s.others.keys };

    ghost invariant = { λ s. s.first ≡ None → s.others.keys ≡ [] };
}

impl<'a> SeenKeys<'a> {
    ghost use Rattle.std.specs.Prelude.{[]};

    /// No keys, which are hashed by the seed. It takes no memory.
    pub(crate) fn new(alloc: Global, seed: HashSeed) -> SeenKeys<'a>
        ensures { result ≡ [] }
    {
        SeenKeys {
            first: None,
            others: HashSet::with_hasher(alloc, seed),
        }
    }

    /// The key was seen now; whether it had not been before. An error is one of memory.
    pub(crate) fn add(&mut self, key: &'a Key) -> Result<bool, AllocError>
        ensures is_new { IfOk result (λ is_new. is_new ≡ not (has_seen self.old key.now)) }
        ensures seen { OnOk result ((k : KeyValue) → has_seen self.new k ≡ (key_eq key.now k || has_seen self.old k)) }
    {
        let Some(first) = self.first else {
            self.first = Some(key);
            return Ok(true);
        };
        if first.same(key) {
            return Ok(false);
        }
        let is_new = self.others.insert(key)?;
        Ok(is_new)
    }
}
