//! A row for each key that may be due.
ghost use Rattle.std.specs.Prelude.{◌≡◌, ◌<◌, ◌≤◌, IfOk, OnErr, OnOk, None, false, if◌then◌else◌, length, true};
ghost use Rattle.std.specs.Option.{option_copied};
ghost use Rattle.cmc_meta.specs.declared.key.Key.{Key as KeyValue};
ghost use Rattle.cmc_meta.specs.Keys.{key_cmp, key_eq};
ghost use Rattle.std.specs.BTreeMap.{is_at};
ghost use Rattle.std.specs.List.{list_any};
ghost use Rattle.cmc_collector.specs.Caches.{AreCachesAt, Moves, informer_object, position_after, position_in};
ghost use Rattle.cmc_collector.specs.CachePositions.{has_any_owner};
ghost use Rattle.cmc_collector.specs.Rows.{AreCovered, has_examine_row, examination_under};

use crate::caches::Caches;
use crate::examination::Examination;
use crate::orphans::is_owned;
use cmc_informer::Watch;
use cmc_meta::{Key, Kind};
use std::alloc::{AllocError, Global};
use std::collections::BTreeMap;
use std::marker::Model;

/// What is kept of one key.
pub(crate) struct Row {
    pub(crate) examination: Option<Examination>,
}

impl Drop for Row {
    fn drop(self) {
        let Row {
            examination: _examination,
        } = self;
    }
}

/// A row for each key with an examination, and for each under which a cache holds an object with owners. A row without an
/// examination is room for one.
pub(crate) struct Rows {
    map: BTreeMap<Key, Row>,
}

impl Drop for Rows {
    fn drop(self) {
        let Rows { map: _map } = self;
    }
}

impl Model for Rows {
    ghost use Rattle.cmc_collector.specs.Rows.{Rowed};

    ghost Value = { Rowed };

    ghost view = { λ r. r.map.entries };
}

impl Rows {
    /// No rows. It takes no memory.
    #[tactic(auto, unfolding(crate::specs::Rows::examination_under))]
    pub(crate) fn new(alloc: Global) -> Rows
        ensures { (k : KeyValue) → examination_under result k ≡ None }
    {
        Rows {
            map: BTreeMap::new(alloc),
        }
    }

    /// The examination of the key.
    #[tactic(auto, unfolding(crate::specs::Rows::examination_under))]
    pub(crate) fn get(&self, key: &Key) -> Option<&Examination>
        ensures { option_copied result ≡ examination_under self.now key.now }
    {
        match self.map.get(key) {
            Some(row) => row.examination.as_ref(),
            None => None,
        }
    }

    /// Makes a row for the key, where it has none.
    #[tactic(auto, unfolding(crate::specs::Rows::examination_under, crate::specs::Rows::has_examine_row))]
    pub(crate) fn room(&mut self, key: &Key) -> Result<(), AllocError>
        ensures room { OnOk result (has_examine_row self.new key.now ≡ true) }
        ensures same { (k : KeyValue) → examination_under self.new k ≡ examination_under self.old k }
        ensures keeps { (k : KeyValue) → has_examine_row self.old k ≡ true → has_examine_row self.new k ≡ true }
    {
        if self.map.contains_key(key) {
            return Ok(());
        }
        let key = key.copy()?;
        self.map.insert(key, Row { examination: None })?;
        Ok(())
    }

    /// Writes the row of the key, which has one. It takes no memory.
    #[tactic(auto, unfolding(crate::specs::Rows::examination_under, crate::specs::Rows::has_examine_row))]
    pub(crate) fn set(&mut self, key: &Key, row: Row)
        requires { has_examine_row self.old key.now ≡ true }
        ensures rows { (k : KeyValue) → examination_under self.new k ≡ (if key_eq key.now k then row.examination else examination_under self.old k) }
        ensures room { (k : KeyValue) → has_examine_row self.new k ≡ has_examine_row self.old k }
    {
        if let Some(place) = self.map.get_mut(key) {
            *place = row;
        }
    }

    /// Gives up the row of the key, which has no examination. It takes no memory.
    #[tactic(auto, unfolding(crate::specs::Rows::examination_under, crate::specs::Rows::has_examine_row))]
    pub(crate) fn remove(&mut self, key: &Key)
        requires { examination_under self.old key.now ≡ None }
        ensures same { (k : KeyValue) → examination_under self.new k ≡ examination_under self.old k }
        ensures keeps { (k : KeyValue) → has_examine_row self.new k ≡ (if key_eq key.now k then false else has_examine_row self.old k) }
    {
        let _ = self.map.remove(key);
    }

    /// The rows, in order of key.
    pub(crate) fn map(&self) -> &BTreeMap<Key, Row>
        ensures { result.now.entries ≡ self.now }
    {
        &self.map
    }
}

/// Makes a row for each of the keys.
fn make_rows(rows: &mut Rows, keys: &[Key]) -> Result<(), AllocError>
    ensures room { OnOk result ((k : KeyValue) → list_any (is_at (key_cmp k)) keys.now ≡ true → has_examine_row rows.new k ≡ true) }
    ensures same { (k : KeyValue) → examination_under rows.new k ≡ examination_under rows.old k }
    ensures keeps { (k : KeyValue) → has_examine_row rows.old k ≡ true → has_examine_row rows.new k ≡ true }
{
    for key in keys {
        rows.room(key)?;
    }
    Ok(())
}

/// Gives up the row of the key, where it has no examination and its cache no object with owners. It takes no memory.
fn give_up_row(rows: &mut Rows, caches: &Caches, key: &Key)
    ensures same { (k : KeyValue) → examination_under rows.new k ≡ examination_under rows.old k }
    ensures keeps { (k : KeyValue) → has_any_owner (informer_object caches.now k) ≡ true → has_examine_row rows.old k ≡ true → has_examine_row rows.new k ≡ true }
{
    if rows.get(key).is_some() {
        return;
    }
    if is_owned(caches.get(key)) {
        return;
    }
    rows.remove(key);
}

/// Gives up the rows of those of the keys that need none. It takes no memory.
fn give_up_rows(rows: &mut Rows, caches: &Caches, keys: &[Key])
    ensures same { (k : KeyValue) → examination_under rows.new k ≡ examination_under rows.old k }
    ensures keeps { (k : KeyValue) → has_any_owner (informer_object caches.now k) ≡ true → has_examine_row rows.old k ≡ true → has_examine_row rows.new k ≡ true }
{
    for key in keys {
        give_up_row(rows, caches, key);
    }
}

/// Where a cache at this position comes to that is told up to this write.
fn told_to(watch: &Watch, position: u64, to: u64) -> u64
    ensures { result ≡ position_after position to watch.now }
{
    if position < watch.start() {
        return watch.accepted();
    }
    to
}

/// Tells the cache of the kind of the writes up to this one, with a row for each object with owners that it then holds.
pub(crate) fn tell_with_rows(
    caches: &mut Caches,
    rows: &mut Rows,
    alloc: Global,
    watch: &Watch,
    kind: Kind,
    to: u64,
) -> Result<(), AllocError>
    requires told { AreCachesAt caches.old watch.now.writes }
    requires above { position_in kind caches.old < to }
    requires within { to ≤ length watch.now.writes }
    requires covered { AreCovered caches.old rows.old }
    ensures told { OnOk result (AreCachesAt caches.new watch.now.writes) }
    ensures moved { OnOk result (Moves kind (position_after (position_in kind caches.old) to watch.now) caches.old caches.new) }
    ensures err { OnErr result (caches.new ≡ caches.old) }
    ensures same { (k : KeyValue) → examination_under rows.new k ≡ examination_under rows.old k }
    ensures covered { AreCovered caches.new rows.new }
{
    let from = caches.position(kind);
    let at = told_to(watch, from, to);
    let changed = watch.changed(alloc, kind, from, at)?;
    make_rows(rows, changed.as_slice())?;
    caches.tell(alloc, watch, kind, to)?;
    give_up_rows(rows, caches, changed.as_slice());
    Ok(())
}
