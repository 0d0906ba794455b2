//! What settling does with an orphan.
ghost use Rattle.std.specs.Prelude.{◌≡◌, MatchOption, None, Some};
ghost use Rattle.cmc_collect_moves.specs.declared.moves.CollectMove.TheVariants.{Examine};

use crate::moves::CollectMove;
use cmc_meta::Key;

/// Returns the move that examines the orphan; `None` exactly where there is none.
pub fn examine(orphan: Option<Key>) -> Option<CollectMove>
    ensures { MatchOption orphan (result ≡ None) (λ key. result ≡ Some (Examine key)) }
{
    match orphan {
        Some(key) => Some(CollectMove::Examine { key }),
        None => None,
    }
}
