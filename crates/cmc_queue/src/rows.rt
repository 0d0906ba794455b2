//! The rows of all keys.
ghost use Rattle.std.specs.Option.{option_copied};
ghost use Rattle.std.specs.Ordering.{is_lt};
ghost use Rattle.std.specs.Prelude.{◌&&◌, ◌+◌, ◌≡◌, Some, IfNone, IfOk, IfSome, OnErr, OnOk, if◌then◌else◌, is_some, option_map, false, true};
ghost use Rattle.std.specs.List.{slice_get};
ghost use Rattle.std.specs.Map.{keys_of, lookup};
ghost use Rattle.cmc_meta.specs.declared.key.Key.{Key as KeyValue};
ghost use Rattle.cmc_meta.specs.Keys.{key_cmp, key_eq};
ghost use Rattle.cmc_queue.specs.Queues.{found_count, fresh_count, is_above, one_if, FindsFirst};
ghost use Rattle.cmc_queue.specs.Rows.{added, has_row, is_found, is_free, is_fresh, is_pending, lapsed, looked, moved, no_row, row_in, ticked};
ghost use Rattle.cmc_queue.specs.Spots.{IsPlaceAbove, IsPutIn, IsRewritten};
ghost use Rattle.std.specs.List.Sorted.{IsSorted};

use crate::row::{Row, Sort};
use crate::spots::{Spot, place_from, recount, shifted, spot_after};
use cmc_meta::{Key, Kind};
use cmc_seed::HashSeed;
use indexmap::IndexMap;
use std::alloc::{AllocError, Global};
use std::marker::Model;

/// The rows of all keys; contracts see the list of the keys, in order, with their rows.
///
/// A row is found by the hash of its key, and the rows are in the order of their keys. Beside them it stands where the first
/// key is that can be given, and the first on which there may be something to do: so no search goes over rows that do not qualify.
#[derive(Drop)]
pub struct Rows {
    map: IndexMap<Key, Row, HashSeed>,
    free: Spot,
    pending: Spot,
    fresh: u64,
    found: u64,
}

impl Model for Rows {
    ghost use Rattle.std.specs.Prelude.{List};
    ghost use Rattle.cmc_meta.specs.declared.key.Key.{Key};
    ghost use Rattle.cmc_queue.specs.declared.row.Row.{Row};
    ghost use Rattle.cmc_queue.specs.Spots.{ArePlaced};

    ghost Value = { List (Key × Row) };

    ghost view = { λ r. r.map.entries };

    ghost invariant = { λ r. ArePlaced r.map.entries r.free r.pending r.fresh r.found };
}

/// The row at the place, which was this one, becomes that one.
fn put_row(map: &mut IndexMap<Key, Row, HashSeed>, at: usize, was: Row, row: Row)
    requires { (key : KeyValue) × (slice_get map.old.entries at ≡ Some (key, was)) }
    ensures rewritten { IsRewritten map.old.entries map.new.entries at was row }
    ensures keys { keys_of map.new.entries ≡ keys_of map.old.entries }
    ensures rows { (key : KeyValue) → slice_get map.old.entries at ≡ Some (key, was) → (k : KeyValue) → lookup (key_eq k) map.new.entries ≡ (if key_eq key k then Some row else lookup (key_eq k) map.old.entries) }
{
    let Some(place) = map.get_index_mut(at) else {
        unreachable!()
    };
    *place = row;
}

/// Puts in a row for the key, which has none, among the others in the order of keys; the place of it. An error is one of memory.
fn put_in(map: &mut IndexMap<Key, Row, HashSeed>, key: &Key) -> Result<usize, AllocError>
    requires { is_some (lookup (key_eq key.now) map.old.entries) ≡ false }
    ensures put { IfOk result (IsPutIn map.old.entries map.new.entries key.now) }
    ensures sorted { OnOk result (IsSorted key_cmp (keys_of map.old.entries) → IsSorted key_cmp (keys_of map.new.entries)) }
    ensures rows { OnOk result ((k : KeyValue) → lookup (key_eq k) map.new.entries ≡ (if key_eq key.now k then Some no_row else lookup (key_eq k) map.old.entries)) }
    ensures same { OnErr result (map.new.entries ≡ map.old.entries) }
{
    let key = key.copy()?;
    match map.insert_sorted(key, Row::new()) {
        Ok((at, _none)) => Ok(at),
        Err(lack) => Err(lack.into()),
    }
}

impl Rows {
    /// Nothing is to be done on any key, and keys are hashed by the seed. It takes no memory.
    #[tactic(auto, unfolding(crate::specs::Rows::row_in))]
    pub fn new(alloc: Global, seed: HashSeed) -> Rows
        ensures { (k : KeyValue) → row_in result k ≡ no_row }
    {
        Rows {
            map: IndexMap::with_hasher(alloc, seed),
            free: Spot { count: 0, first: 0 },
            pending: Spot { count: 0, first: 0 },
            fresh: 0,
            found: 0,
        }
    }

    /// What keys are hashed by.
    pub fn seed(&self) -> HashSeed {
        *self.map.hasher()
    }

    /// The row of the key.
    #[tactic(auto, unfolding(crate::specs::Rows::row_in))]
    pub fn get(&self, key: &Key) -> Row
        ensures { result ≡ row_in self.now key.now }
    {
        match self.map.get(key) {
            Some(row) => *row,
            None => Row::new(),
        }
    }

    /// The place of the key's row, with the row; `None` exactly where the key has none.
    #[tactic(auto, unfolding(crate::specs::Rows::row_in, crate::specs::Rows::has_row))]
    pub fn find(&self, key: &Key) -> Option<(usize, Row)>
        ensures at { IfSome result (λ p. slice_get self.now p.0 ≡ Some (key.now, p.1)) }
        ensures row { IfSome result (λ p. p.1 ≡ row_in self.now key.now) }
        ensures has { is_some result ≡ has_row self.now key.now }
    {
        match self.map.get_full(key) {
            Some((at, _key, row)) => Some((at, *row)),
            None => None,
        }
    }

    /// Makes room for the key's row, and changes no row. An error is one of memory.
    #[tactic(auto, unfolding(crate::specs::Rows::has_row))]
    pub fn room(&mut self, key: &Key) -> Result<(), AllocError>
        ensures room { OnOk result (has_row self.new key.now ≡ true) }
        ensures same { (k : KeyValue) → row_in self.new k ≡ row_in self.old k }
        ensures keeps { (k : KeyValue) → has_row self.old k ≡ true → has_row self.new k ≡ true }
        ensures fresh { fresh_count self.new ≡ fresh_count self.old }
    {
        if self.map.contains_key(key) {
            return Ok(());
        }
        self.make(key)
    }

    /// Makes a row for the key, which has none. A function clears room for all of its locals as it begins: so this stands alone.
    pub fn make(&mut self, key: &Key) -> Result<(), AllocError>
        requires { has_row self.old key.now ≡ false }
        ensures room { OnOk result (has_row self.new key.now ≡ true) }
        ensures same { (k : KeyValue) → row_in self.new k ≡ row_in self.old k }
        ensures keeps { (k : KeyValue) → has_row self.old k ≡ true → has_row self.new k ≡ true }
        ensures fresh { fresh_count self.new ≡ fresh_count self.old }
    {
        let at = put_in(&mut self.map, key)?;
        self.free = shifted(self.free, &self.map, Sort::Free, at);
        self.pending = shifted(self.pending, &self.map, Sort::Pending, at);
        Ok(())
    }

    /// Writes the row at the place, which was this one, and no other. It takes no memory.
    pub fn write(&mut self, at: usize, was: Row, row: Row)
        requires { (key : KeyValue) × (slice_get self.old at ≡ Some (key, was)) }
        ensures rows { (key : KeyValue) → slice_get self.old at ≡ Some (key, was) → (k : KeyValue) → row_in self.new k ≡ (if key_eq key k then row else row_in self.old k) }
        ensures room { (k : KeyValue) → has_row self.new k ≡ has_row self.old k }
        ensures fresh { fresh_count self.new + one_if (is_fresh was) ≡ fresh_count self.old + one_if (is_fresh row) }
        ensures found { found_count self.new + one_if (is_found was) ≡ found_count self.old + one_if (is_found row) }
    {
        let _len = self.map.len();
        put_row(&mut self.map, at, was, row);
        self.free = spot_after(self.free, &self.map, Sort::Free, at, was, row);
        self.pending = spot_after(self.pending, &self.map, Sort::Pending, at, was, row);
        self.fresh = recount(self.fresh, was.is_fresh(), row.is_fresh());
        self.found = recount(self.found, was.work.is_something(), row.work.is_something());
    }

    /// The key whose row, which is this one, stands at the place is ready. It takes no memory.
    pub fn add_at(&mut self, at: usize, row: Row)
        requires { (key : KeyValue) × (slice_get self.old at ≡ Some (key, row)) }
        ensures rows { (key : KeyValue) → slice_get self.old at ≡ Some (key, row) → (k : KeyValue) → row_in self.new k ≡ (if key_eq key k then added (row_in self.old k) else row_in self.old k) }
        ensures room { (k : KeyValue) → has_row self.new k ≡ has_row self.old k }
    {
        let _len = self.map.len();
        if row.ready && row.work.is_unknown() {
            return;
        }
        self.write(at, row, row.added());
    }

    /// The key's row comes to the moment `now`. It takes no memory.
    pub fn tick(&mut self, key: &Key, now: i64)
        ensures rows { (k : KeyValue) → row_in self.new k ≡ (if key_eq key.now k then ticked now (row_in self.old k) else row_in self.old k) }
        ensures room { (k : KeyValue) → has_row self.new k ≡ has_row self.old k }
    {
        if let Some((at, row)) = self.find(key) {
            self.write(at, row, row.ticked(now));
        }
    }

    /// The first place with a row in which it stands that there is something to do, with that row; `None` exactly where there is
    /// none.
    fn first_found(&self) -> Option<(usize, Row)>
        ensures at { IfSome result (λ p. (key : KeyValue) × (slice_get self.now p.0 ≡ Some (key, p.1))) }
        ensures found { IfSome result (λ p. is_found p.1 ≡ true) }
        ensures row { IfSome result (λ p. (key : KeyValue) → slice_get self.now p.0 ≡ Some (key, p.1) → p.1 ≡ row_in self.now key) }
        ensures none { IfNone result ((k : KeyValue) → is_found (row_in self.now k) ≡ false) }
    {
        let _len = self.map.len();
        let at = place_from(&self.map, Sort::Found, 0);
        match self.map.get_index(at) {
            Some((_key, row)) => Some((at, *row)),
            None => None,
        }
    }

    /// That there is something to do on a key is not known any more, of no key. It takes no memory.
    pub fn lapse(&mut self)
        ensures rows { (k : KeyValue) → row_in self.new k ≡ looked (lapsed (row_in self.old k).work) (row_in self.old k) }
        ensures room { (k : KeyValue) → has_row self.new k ≡ has_row self.old k }
    {
        if self.found == 0 {
            return;
        }
        while let Some((at, row)) = self.first_found() {
            self.write(at, row, row.looked(row.work.lapsed()));
        }
    }

    /// The key's row once its controller is told of the kind up to this version. It takes no memory.
    pub fn moved(&mut self, key: &Key, kind: Kind, to: u64)
        ensures rows { (k : KeyValue) → row_in self.new k ≡ (if key_eq key.now k then moved kind to (row_in self.old k) else row_in self.old k) }
        ensures room { (k : KeyValue) → has_row self.new k ≡ has_row self.old k }
    {
        if let Some((at, row)) = self.find(key) {
            self.write(at, row, row.moved(kind, to));
        }
    }

    /// The key at the place.
    fn key_at(&self, at: usize) -> Option<&Key>
        ensures { option_copied result ≡ option_map (λ e. e.0) (slice_get self.now at) }
    {
        match self.map.get_index(at) {
            Some((key, _row)) => Some(key),
            None => None,
        }
    }

    /// The key at the place, with its row.
    fn entry_at(&self, at: usize) -> Option<(&Key, Row)>
        ensures key { option_map (λ p. p.0.now) result ≡ option_map (λ e. e.0) (slice_get self.now at) }
        ensures entry { IfSome result (λ p. slice_get self.now at ≡ Some (p.0.now, p.1)) }
    {
        match self.map.get_index(at) {
            Some((key, row)) => Some((key, *row)),
            None => None,
        }
    }

    /// The place after all keys that are not above this one.
    fn place_above(&self, key: &Key) -> usize
        ensures { IsPlaceAbove key.now self.now result }
    {
        let _len = self.map.len();
        match self.map.binary_search_keys(key) {
            Ok(at) => at + 1,
            Err(at) => at,
        }
    }

    /// The first key that can be given; `None` exactly where no key can.
    pub fn first(&self) -> Option<&Key>
        ensures { FindsFirst (λ k. is_free (row_in self.now k)) (option_copied result) }
    {
        let _len = self.map.len();
        if self.free.count == 0 {
            return None;
        }
        self.key_at(self.free.first)
    }

    /// The first key that is to be looked at; `None` exactly where there is none.
    pub fn first_fresh(&self) -> Option<&Key>
        ensures { FindsFirst (λ k. is_fresh (row_in self.now k)) (option_copied result) }
    {
        let _len = self.map.len();
        self.key_at(place_from(&self.map, Sort::Fresh, 0))
    }

    /// The first key above the given one that can be given; `None` exactly where no such key can.
    pub fn following<'a>(&'a self, below: &Key) -> Option<&'a Key>
        ensures { FindsFirst (λ k. is_lt (key_cmp below.now k) && is_free (row_in self.now k)) (option_copied result) }
    {
        let _len = self.map.len();
        self.key_at(place_from(&self.map, Sort::Free, self.place_above(below)))
    }

    /// The first key above this one, if there is one, that can be given and on which there may be something to do, with its row;
    /// `None` exactly where there is none.
    pub fn next_pending<'a>(&'a self, below: Option<&Key>) -> Option<(&'a Key, Row)>
        ensures finds { FindsFirst (λ k. is_above (option_copied below.entry) k && is_pending (row_in self.now k)) (option_map (λ p. p.0.now) result) }
        ensures row { IfSome result (λ p. p.1 ≡ row_in self.now p.0.now) }
    {
        let _len = self.map.len();
        if self.pending.count == 0 {
            return None;
        }
        match below {
            Some(below) => {
                let from = self.place_above(below);
                self.entry_at(place_from(&self.map, Sort::Pending, from))
            }
            None => self.entry_at(self.pending.first),
        }
    }
}
