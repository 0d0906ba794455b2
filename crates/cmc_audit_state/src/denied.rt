//! The uids of requests that were denied.
ghost use Rattle.std.specs.Prelude.{◌≡◌, ◌==◌, ◌||◌, ℕ, OnErr, OnOk, false};
ghost use Rattle.cmc_audit_state.specs.Journaled.{has_noted_uid};

use cmc_seed::HashSeed;
use std::alloc::{AllocError, Global};
use std::collections::HashSet;
use std::marker::Model;

/// Uids; contracts see the list of them, in no order.
pub struct Denied {
    set: HashSet<u64, HashSeed>,
}

impl Drop for Denied {
    fn drop(self) {
        let Denied { set: _set } = self;
    }
}

impl Model for Denied {
    ghost use Rattle.std.specs.Prelude.{ℕ, List};

    ghost Value = { List ℕ };

    ghost view = { λ d. d.set.keys };
}

impl Denied {
    /// No uid, and uids are hashed by the seed. It takes no memory.
    #[tactic(auto, unfolding(crate::specs::Journaled::has_noted_uid))]
    pub fn new(alloc: Global, seed: HashSeed) -> Denied
        ensures { (uid : ℕ) → has_noted_uid result uid ≡ false }
    {
        Denied {
            set: HashSet::with_hasher(alloc, seed),
        }
    }

    /// Whether the uid is one of these.
    #[tactic(auto, unfolding(crate::specs::Journaled::has_noted_uid))]
    pub fn has(&self, uid: u64) -> bool
        ensures { result ≡ has_noted_uid self.now uid }
    {
        self.set.contains(&uid)
    }

    /// Adds the uid. An error is one of memory, and leaves all as it was.
    #[tactic(auto, unfolding(crate::specs::Journaled::has_noted_uid))]
    pub fn add(&mut self, uid: u64) -> Result<(), AllocError>
        ensures ok { OnOk result ((u : ℕ) → has_noted_uid self.new u ≡ ((uid == u) || has_noted_uid self.old u)) }
        ensures err { OnErr result (self.new ≡ self.old) }
    {
        self.set.insert(uid)?;
        Ok(())
    }
}
