//! Where the rows stand for which searches ask.
ghost use Rattle.std.specs.Prelude.{◌≡◌, ◌+◌, ◌<◌, ◌^◌, false, true};
ghost use Rattle.cmc_queue.specs.Queues.{one_if};
ghost use Rattle.cmc_queue.specs.Rows.{no_row, qualifies};
ghost use Rattle.cmc_queue.specs.Spots.{HadSpot, IsPlaceFrom, IsSpot, WasSpot};

use crate::row::{Row, Sort};
use cmc_meta::Key;
use cmc_seed::HashSeed;
use indexmap::IndexMap;

/// Of how many rows something holds, and the place of the first of them, if there is one.
#[derive(Clone, Copy)]
pub struct Spot {
    pub count: u64,
    pub first: usize,
}

/// The first place from this one on with a row of the sort; the end where there is none.
pub(crate) fn place_from(map: &IndexMap<Key, Row, HashSeed>, sort: Sort, from: usize) -> usize
    ensures { IsPlaceFrom (qualifies sort) map.now.entries from result }
{
    let len = map.len();
    for at in from..len {
        if let Some((_key, row)) = map.get_index(at) {
            if row.qualifies(sort) {
                return at;
            }
        }
    }
    len
}

/// The spot after the row at the place came to be of the sort.
fn entered(
    spot: Spot,
    map: &IndexMap<Key, Row, HashSeed>,
    sort: Sort,
    at: usize,
    was: Row,
    row: Row,
) -> Spot
    requires before { WasSpot (qualifies sort) map.now.entries at was row spot }
    requires off { qualifies sort was ≡ false }
    requires on { qualifies sort row ≡ true }
    ensures { IsSpot (qualifies sort) map.now.entries result }
{
    let _len = map.len();
    let count = spot.count + 1;
    if spot.count == 0 || at < spot.first {
        return Spot { count, first: at };
    }
    Spot {
        count,
        first: spot.first,
    }
}

/// The spot after the row at the place came to be of the sort no more.
fn left(
    spot: Spot,
    map: &IndexMap<Key, Row, HashSeed>,
    sort: Sort,
    at: usize,
    was: Row,
    row: Row,
) -> Spot
    requires before { WasSpot (qualifies sort) map.now.entries at was row spot }
    requires on { qualifies sort was ≡ true }
    requires off { qualifies sort row ≡ false }
    ensures { IsSpot (qualifies sort) map.now.entries result }
{
    let _len = map.len();
    let count = spot.count - 1;
    if count > 0 && at == spot.first {
        return Spot {
            count,
            first: place_from(map, sort, at + 1),
        };
    }
    Spot {
        count,
        first: spot.first,
    }
}

/// The spot after the row at the place has changed.
pub(crate) fn spot_after(
    spot: Spot,
    map: &IndexMap<Key, Row, HashSeed>,
    sort: Sort,
    at: usize,
    was: Row,
    row: Row,
) -> Spot
    requires { WasSpot (qualifies sort) map.now.entries at was row spot }
    ensures { IsSpot (qualifies sort) map.now.entries result }
{
    let now = row.qualifies(sort);
    if was.qualifies(sort) {
        if now {
            return spot;
        }
        return left(spot, map, sort, at, was, row);
    }
    if now {
        return entered(spot, map, sort, at, was, row);
    }
    spot
}

/// The count after one row has changed.
pub(crate) fn recount(count: u64, was: bool, is: bool) -> u64
    requires some { was ≡ true → 0 < count }
    requires few { count < 2 ^ 63 }
    ensures { result + one_if was ≡ count + one_if is }
{
    match (was, is) {
        (true, false) => count - 1,
        (false, true) => count + 1,
        _ => count,
    }
}

/// The spot after a row with nothing to do was put in at the place.
pub(crate) fn shifted(spot: Spot, map: &IndexMap<Key, Row, HashSeed>, sort: Sort, at: usize) -> Spot
    requires had { HadSpot (qualifies sort) map.now.entries at spot }
    requires nothing { qualifies sort no_row ≡ false }
    ensures { IsSpot (qualifies sort) map.now.entries result }
{
    let _len = map.len();
    if at <= spot.first {
        return Spot {
            count: spot.count,
            first: spot.first + 1,
        };
    }
    spot
}
