//! A seed.
ghost use Rattle.std.specs.Prelude.{◌≡◌, ℕ, IfOk};
ghost use Rattle.cmc_seed.specs.Seeds.{fixed_seed, initial_hasher, seed_of};

use std::hash::{BuildHasher, FoldHasher, Hasher};
use std::io;
use std::random::RandomSource;

/// What hashers begin with. Each is a copy of one that was fed a number first.
///
/// The state of a hasher is 64 bits, and once a random number of 64 bits went in, nobody who chooses keys knows it: a longer
/// number would hide no more of it. Eight bytes that are the hasher's own multiplier would wipe a state out, and no UTF-8 has
/// those.
#[derive(Clone, Copy)]
pub struct HashSeed {
    initial: FoldHasher,
}

impl HashSeed {
    /// The seed of this number.
    #[tactic(auto, unfolding(crate::specs::Seeds::seed_of))]
    pub fn of(number: u64) -> HashSeed
        ensures { result ≡ seed_of number }
    {
        let mut initial = FoldHasher::default();
        initial.write_u64(number);
        HashSeed { initial }
    }

    /// The same seed each time, for maps whose keys nobody chooses so that they collide.
    #[tactic(auto, unfolding(crate::specs::Seeds::fixed_seed))]
    pub fn fixed() -> HashSeed
        ensures { result ≡ fixed_seed }
    {
        HashSeed {
            initial: FoldHasher::default(),
        }
    }

    /// A seed that nobody knows, of a random number.
    ///
    /// # Errors
    ///
    /// The system's alone, where it gives no random bytes.
    pub fn new(rt: &impl RandomSource) -> io::Result<HashSeed>
        ensures { IfOk result (λ seed. (number : ℕ) × (seed ≡ seed_of number)) }
    {
        let mut bytes = [0; 8];
        rt.fill_bytes(&mut bytes)?;
        Ok(HashSeed::of(u64::from_le_bytes(bytes)))
    }
}

impl BuildHasher for HashSeed {
    type Hasher = FoldHasher;

    ghost build_hasher = { initial_hasher };

    fn build_hasher(&self) -> FoldHasher {
        self.initial
    }
}
