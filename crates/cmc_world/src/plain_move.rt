//! Moves of the plain order: none of them brings a value or a decision, so that they are cheap to hand on.
ghost use Rattle.std.specs.Prelude.{◌≡◌, option_map};
ghost use Rattle.cmc_world.specs.PlainMoves.{move_of};

use crate::begins::Beginning;
use crate::passes::Going;
use cmc_kernel::Move;
use cmc_meta::Kind;
use cmc_objects::Role;

/// A move that a run by one hand makes.
#[derive(Drop)]
pub(crate) enum PlainMove {
    /// The next step of the script is made.
    Script,
    /// A role is told of the accepted writes of a kind up to this version.
    Deliver { role: Role, kind: Kind, to: u64 },
    /// A role begins a pass on a key.
    Begin(Beginning),
    /// An open pass goes on, or is given the value that it waits for.
    Next(Going),
}

impl PlainMove {
    /// The same among all moves.
    fn into_move(self) -> Move
        ensures { result ≡ move_of self }
    {
        match self {
            PlainMove::Script => Move::Script,
            PlainMove::Deliver { role, kind, to } => Move::Deliver { role, kind, to },
            PlainMove::Begin(Beginning { role, key }) => Move::Begin { role, key },
            PlainMove::Next(Going { pass, incarnation }) => Move::Next { pass, incarnation },
        }
    }
}

/// The same among all moves, where there is one.
pub(crate) fn as_move(next: Option<PlainMove>) -> Option<Move>
    ensures { result ≡ option_map move_of next }
{
    match next {
        Some(next) => Some(next.into_move()),
        None => None,
    }
}
