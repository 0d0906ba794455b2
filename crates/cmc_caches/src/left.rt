//! What left the index of owners.
ghost use Rattle.std.specs.Prelude.{◌≡◌, ◌==◌, ◌∷◌, [], ℕ, OnOk, OnErr, if◌then◌else◌, reverse, true};
ghost use Rattle.cmc_caches.specs.Left.{IsTopped, numbers_under};
ghost use Rattle.cmc_caches.specs.Lines.{is_on_line};
ghost use Rattle.cmc_informer.specs.Caches.{names};

use crate::line::Line;
use cmc_meta::OwnerRef;
use cmc_seed::HashSeed;
use std::alloc::{AllocError, Global};
use std::collections::HashMap;
use std::marker::Model;

/// Under the uid of each owner the numbers of the writes after which it may no longer own what they name. A number that
/// is here and need not be does no harm: whoever looks asks what the owner owned.
pub(crate) struct Left {
    map: HashMap<u64, Line, HashSeed>,
}

impl Drop for Left {
    fn drop(self) {
        let Left { map: _map } = self;
    }
}

impl Model for Left {
    ghost use Rattle.cmc_caches.specs.Left.{LeftTable};

    ghost Value = { LeftTable };

    ghost view = { λ l. l.map.entries };
}

impl Left {
    /// No numbers, and uids are hashed by the seed. It takes no memory.
    #[tactic(auto, unfolding(crate::specs::Left::numbers_under))]
    pub(crate) fn new(alloc: Global, seed: HashSeed) -> Left
        ensures { (u : ℕ) → numbers_under result u ≡ [] }
    {
        Left {
            map: HashMap::with_hasher(alloc, seed),
        }
    }

    /// Puts the number before those under the uid.
    #[tactic(auto, unfolding(crate::specs::Left::numbers_under))]
    fn add(&mut self, alloc: Global, uid: u64, number: u64) -> Result<(), AllocError>
        ensures ok { OnOk result ((u : ℕ) → numbers_under self.new u ≡ (if u == uid then number ∷ numbers_under self.old u else numbers_under self.old u)) }
        ensures err { OnErr result ((u : ℕ) → numbers_under self.new u ≡ numbers_under self.old u) }
    {
        if let Some(line) = self.map.get_mut(&uid) {
            return line.add(number);
        }
        let mut line = Line::new(alloc);
        line.add(number)?;
        self.map.insert(uid, line)?;
        Ok(())
    }

    /// Puts the number before those under the uids of all these owners. Where memory runs out it stands under some.
    pub(crate) fn add_each(
        &mut self,
        alloc: Global,
        owners: &[OwnerRef],
        number: u64,
    ) -> Result<(), AllocError>
        ensures kept { (u : ℕ) → IsTopped number (numbers_under self.old u) (numbers_under self.new u) }
        ensures noted { OnOk result ((u : ℕ) → names u owners.now ≡ true → is_on_line number (numbers_under self.new u) ≡ true) }
    {
        for owner in owners {
            self.add(alloc, owner.uid, number)?;
        }
        Ok(())
    }

    /// The numbers under the uid, the oldest first.
    #[tactic(auto, unfolding(crate::specs::Left::numbers_under))]
    pub(crate) fn get(&self, uid: u64) -> &[u64]
        ensures { reverse result.now ≡ numbers_under self.now uid }
    {
        match self.map.get(&uid) {
            Some(line) => line.as_slice(),
            None => &[],
        }
    }
}
