//! The revision in the last version of each uid.
ghost use Rattle.std.specs.Prelude.{◌≡◌, ◌==◌, ℕ, OnErr, OnOk, if◌then◌else◌};
ghost use Rattle.cmc_audit_state.specs.Journaled.{revision_under_uid};

use cmc_seed::HashSeed;
use std::alloc::{AllocError, Global};
use std::collections::HashMap;
use std::marker::Model;

/// Revisions under uids, 0 where none was put; contracts see the list of both, in no order.
pub struct Revisions {
    map: HashMap<u64, u64, HashSeed>,
}

impl Drop for Revisions {
    fn drop(self) {
        let Revisions { map: _map } = self;
    }
}

impl Model for Revisions {
    ghost use Rattle.std.specs.Prelude.{ℕ, List};

    ghost Value = { List (ℕ × ℕ) };

    ghost view = { λ r. r.map.entries };
}

impl Revisions {
    /// No revisions, and uids are hashed by the seed. It takes no memory.
    #[tactic(auto, unfolding(crate::specs::Journaled::revision_under_uid))]
    pub fn new(alloc: Global, seed: HashSeed) -> Revisions
        ensures { (uid : ℕ) → revision_under_uid result uid ≡ 0 }
    {
        Revisions {
            map: HashMap::with_hasher(alloc, seed),
        }
    }

    /// The revision of the uid.
    #[tactic(auto, unfolding(crate::specs::Journaled::revision_under_uid))]
    pub fn get(&self, uid: u64) -> u64
        ensures { result ≡ revision_under_uid self.now uid }
    {
        self.map.get(&uid).copied().unwrap_or(0)
    }

    /// Puts the revision under the uid, in place of an older one. An error is one of memory, and leaves all as it was.
    #[tactic(auto, unfolding(crate::specs::Journaled::revision_under_uid))]
    pub fn put(&mut self, uid: u64, revision: u64) -> Result<(), AllocError>
        ensures ok { OnOk result ((u : ℕ) → revision_under_uid self.new u ≡ (if uid == u then revision else revision_under_uid self.old u)) }
        ensures err { OnErr result (self.new ≡ self.old) }
    {
        self.map.insert(uid, revision)?;
        Ok(())
    }
}
