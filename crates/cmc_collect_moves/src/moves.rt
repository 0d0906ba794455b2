//! The moves of a collection and their answers.
use cmc_meta::{Key, Kind};
use cmc_objects::Call;

/// A move of a collection.
#[derive(Drop)]
pub enum CollectMove {
    /// A call of somebody else.
    User(Call),
    /// Tells the cache of the kind of the accepted writes up to this version.
    Deliver { kind: Kind, to: u64 },
    /// Takes the examination of the key one step further, or begins one.
    Examine { key: Key },
}

/// Why a move is not possible now.
#[derive(Clone, Copy)]
pub enum CollectLack {
    /// The cache was told of the newest write of the kind already.
    Current { position: u64 },
    /// No write of the kind above the cache's position has this version.
    NotAWrite { to: u64 },
    /// No examination of the key goes on, and by the caches its object is missing, has no owner, or has one that may live.
    NoOrphan,
}

/// The answer to a move. Every answer but `Done` leaves the collection as it was.
#[derive(Clone, Copy)]
pub enum Collected {
    /// The move is made, and is one more entry.
    Done,
    /// The move is not possible now.
    NotNow(CollectLack),
    /// There are as many entries as the collection may have.
    Spent { entries: u64 },
}

impl Collected {
    ghost use Rattle.std.specs.Prelude.{◌≡◌, ◌↔◌, IsTrue};
    ghost use Rattle.cmc_collect_moves.specs.declared.moves.Collected.TheVariants as answers;

    /// Whether the move is made.
    pub fn is_done(self) -> bool
        ensures { IsTrue result ↔ (self ≡ answers.Done) }
    {
        matches!(self, Collected::Done)
    }
}
