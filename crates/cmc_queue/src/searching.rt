//! Going through the keys that wait, up to a moment or a version.
ghost use Rattle.std.specs.Option.{option_copied};
ghost use Rattle.std.specs.Ordering.{is_lt};
ghost use Rattle.std.specs.Prelude.{◌≡◌, ◌&&◌};
ghost use Rattle.cmc_meta.specs.declared.key.Key.{Key as KeyValue};
ghost use Rattle.cmc_meta.specs.Keys.{key_cmp};
ghost use Rattle.cmc_queue.specs.Queues.{AreAbove, AreAfter, FindsFirst, IsParked, AreTimed, StayAbove, StayAfter};
ghost use Rattle.cmc_queue.specs.Rows.{has_row, is_free, is_fresh, is_pending, moved, row_in, ticked};

use crate::moments::Moments;
use crate::row::Row;
use crate::rows::Rows;
use crate::versions::Versions;
use cmc_meta::{Key, Kind};

/// Each key whose moment has come is ready, and of each other key what was found lapses. It takes no memory.
pub fn tick_rows(rows: &mut Rows, moments: &mut Moments, now: i64)
    requires timed { AreTimed rows.old moments.old }
    ensures rows { (k : KeyValue) → row_in rows.new k ≡ ticked now (row_in rows.old k) }
    ensures room { (k : KeyValue) → has_row rows.new k ≡ has_row rows.old k }
    ensures timed { AreTimed rows.new moments.new }
    ensures later { StayAfter now moments.old moments.new }
    ensures passed { AreAfter now moments.new }
{
    while let Some((_at, key)) = moments.pop_until(now) {
        rows.tick(&key, now);
    }
    rows.lapse();
}

/// Each key that waits for a version of the kind up to this one is ready. It takes no memory.
pub fn move_rows(rows: &mut Rows, versions: &mut Versions, kind: Kind, to: u64)
    requires { IsParked kind rows.old versions.old }
    ensures rows { (k : KeyValue) → row_in rows.new k ≡ moved kind to (row_in rows.old k) }
    ensures room { (k : KeyValue) → has_row rows.new k ≡ has_row rows.old k }
    ensures parked { IsParked kind rows.new versions.new }
    ensures above { StayAbove to versions.old versions.new }
    ensures reached { AreAbove to versions.new }
{
    while let Some((_version, key)) = versions.pop_until(to) {
        rows.moved(&key, kind, to);
    }
}
