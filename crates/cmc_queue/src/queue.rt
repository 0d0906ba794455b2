//! A work queue.
ghost use Rattle.std.specs.Option.{option_copied};
ghost use Rattle.std.specs.Ordering.{is_lt};
ghost use Rattle.std.specs.Prelude.{◌≡◌, ◌+◌, IfSome, OnErr, OnOk, ◌&&◌, option_map, true};
ghost use Rattle.cmc_meta.specs.declared.key.Key.{Key as KeyValue};
ghost use Rattle.cmc_meta.specs.Keys.{key_cmp};
ghost use Rattle.cmc_queue.specs.Queues.{fresh_count, has_room, has_room_at, has_room_for, has_room_to_find, is_above, is_offered, row_of, versions_of, AreAbove, AreAfter, ChangesRow, ChangesRows, FindsFirst, KeepsMoments, KeepsRoom, LosesNoRow, KeepsVersions, KeepsVersionsOfOthers, StayAbove, StayAfter};
ghost use Rattle.cmc_queue.specs.Rows.{added, ended, is_fresh, is_free, is_pending, left, looked, moved, no_row, parked_for, taken, ticked, timed_at};

use crate::moments::Moments;
use crate::row::{Found, Row};
use crate::rows::Rows;
use crate::searching::{move_rows, tick_rows};
use crate::versions::Versions;
use cmc_meta::{Key, Kind};
use cmc_seed::HashSeed;
use std::alloc::{AllocError, Global};
use std::marker::Model;

/// The work queue of one controller: a row for each key, and where it looks for the keys that wait.
///
/// Room is made for a key, or for a key at a moment or a version, before it is needed, and changes no row: so a caller
/// makes all the room that a step takes, and then changes several queues without fail.
///
/// A place at a moment is given up by the `tick` that passes it, and one at a version by the `moved` that reaches it,
/// whether the key still waits there or not. So there are no more places than moments to come and versions still to be
/// told of that room was made for. A key keeps its row: there are as many as keys were ever named.
pub struct Queue {
    rows: Rows,
    // the places: each key that waits has its own, and a place may be out of use
    moments: Moments,
    certificates: Versions,
    requests: Versions,
    secrets: Versions,
}

impl Drop for Queue {
    fn drop(self) {
        let Queue {
            rows: _rows,
            moments: _moments,
            certificates: _certificates,
            requests: _requests,
            secrets: _secrets,
        } = self;
    }
}

impl Model for Queue {
    ghost use Rattle.cmc_queue.specs.Queues.{Work, HasPlaces};

    ghost Value = { Work };

    ghost view = { λ q. record { rows = q.rows; moments = q.moments; certificates = q.certificates; requests = q.requests; secrets = q.secrets } };

    ghost invariant = { λ q. HasPlaces (record { rows = q.rows; moments = q.moments; certificates = q.certificates; requests = q.requests; secrets = q.secrets }) };
}

impl Queue {
    /// Nothing is to be done on any key. It takes no memory.
    pub fn new(alloc: Global) -> Queue
        ensures { (k : KeyValue) → row_of result k ≡ no_row }
    {
        Queue::seeded(alloc, HashSeed::fixed())
    }

    /// The same, where keys are hashed by the seed.
    pub fn seeded(alloc: Global, seed: HashSeed) -> Queue
        ensures { (k : KeyValue) → row_of result k ≡ no_row }
    {
        Queue {
            rows: Rows::new(alloc, seed),
            moments: Moments::new(alloc),
            certificates: Versions::new(alloc),
            requests: Versions::new(alloc),
            secrets: Versions::new(alloc),
        }
    }

    /// What keys are hashed by.
    pub fn seed(&self) -> HashSeed {
        self.rows.seed()
    }

    /// What is kept of the key.
    pub fn row(&self, key: &Key) -> Row
        ensures { result ≡ row_of self.now key.now }
    {
        self.rows.get(key)
    }

    /// Makes room to add the key; no row changes, and room that exists is kept. An error is one of memory.
    pub fn room(&mut self, key: &Key) -> Result<(), AllocError>
        ensures made { OnOk result (has_room self.new key.now ≡ true) }
        ensures rows { (k : KeyValue) → row_of self.new k ≡ row_of self.old k }
        ensures room { KeepsRoom self.old self.new }
        ensures fresh { fresh_count self.new.rows ≡ fresh_count self.old.rows }
    {
        self.rows.room(key)
    }

    /// The key is ready. It takes no memory.
    pub fn add(&mut self, key: &Key)
        requires { has_room self.old key.now ≡ true }
        ensures rows { ChangesRow added key.now self.old self.new }
        ensures room { KeepsRoom self.old self.new }
    {
        let Some((place, row)) = self.rows.find(key) else {
            unreachable!()
        };
        self.rows.add_at(place, row);
    }

    /// Makes room to add the key, and adds it. An error is one of memory, and leaves all rows as they were.
    pub fn wake(&mut self, key: &Key) -> Result<(), AllocError>
        ensures rows { OnOk result (ChangesRow added key.now self.old self.new) }
        ensures same { OnErr result ((k : KeyValue) → row_of self.new k ≡ row_of self.old k) }
        ensures room { KeepsRoom self.old self.new }
    {
        match self.rows.find(key) {
            Some((at, row)) => self.rows.add_at(at, row),
            None => {
                self.rows.make(key)?;
                self.add(key);
            }
        }
        Ok(())
    }

    /// Gives the key to be worked on, where it can be given: it is then in process, and ready no more. It takes no memory.
    pub fn take(&mut self, key: &Key) -> bool
        ensures taken { result ≡ is_free (row_of self.old key.now) }
        ensures rows { ChangesRow taken key.now self.old self.new }
        ensures room { KeepsRoom self.old self.new }
    {
        let Some((at, row)) = self.rows.find(key) else {
            return false;
        };
        if row.is_free() {
            self.rows.write(at, row, row.taken());
            return true;
        }
        false
    }

    /// A look found nothing to do on the key but to see what is new. It takes no memory.
    pub fn found_nothing(&mut self, key: &Key)
        requires { has_room self.old key.now ≡ true }
        ensures rows { ChangesRow (looked Found.Nothing) key.now self.old self.new }
        ensures room { KeepsRoom self.old self.new }
        ensures fewer { is_fresh (row_of self.old key.now) ≡ true → fresh_count self.old.rows ≡ fresh_count self.new.rows + 1 }
    {
        let Some((place, row)) = self.rows.find(key) else {
            unreachable!()
        };
        self.rows.write(place, row, row.looked(Found::Nothing));
    }

    /// Makes room to note that a look found something; no row changes, and room that exists is kept. An error is one of memory.
    pub fn room_to_find(&mut self, key: &Key) -> Result<(), AllocError>
        ensures made { OnOk result (has_room self.new key.now ≡ true) }
        ensures place { OnOk result (has_room_to_find self.new key.now ≡ true) }
        ensures rows { (k : KeyValue) → row_of self.new k ≡ row_of self.old k }
        ensures room { KeepsRoom self.old self.new }
        ensures fresh { fresh_count self.new.rows ≡ fresh_count self.old.rows }
    {
        self.rows.room(key)
    }

    /// A look found something to do on the key, which holds until the next tick. It takes no memory.
    pub fn found_something(&mut self, key: &Key)
        requires row { has_room self.old key.now ≡ true }
        requires place { has_room_to_find self.old key.now ≡ true }
        ensures rows { ChangesRow (looked Found.Something) key.now self.old self.new }
        ensures room { KeepsRoom self.old self.new }
        ensures fewer { is_fresh (row_of self.old key.now) ≡ true → fresh_count self.old.rows ≡ fresh_count self.new.rows + 1 }
    {
        let Some((place, row)) = self.rows.find(key) else {
            unreachable!()
        };
        self.rows.write(place, row, row.looked(Found::Something));
    }

    /// A look found that the key may be left alone: it is no longer ready. It takes no memory.
    pub fn leave(&mut self, key: &Key)
        requires { has_room self.old key.now ≡ true }
        ensures rows { ChangesRow left key.now self.old self.new }
        ensures room { KeepsRoom self.old self.new }
        ensures fewer { is_fresh (row_of self.old key.now) ≡ true → fresh_count self.old.rows ≡ fresh_count self.new.rows + 1 }
    {
        let Some((place, row)) = self.rows.find(key) else {
            unreachable!()
        };
        self.rows.write(place, row, row.left());
    }

    /// The work on the key is done. It takes no memory.
    pub fn done(&mut self, key: &Key)
        ensures rows { ChangesRow ended key.now self.old self.new }
        ensures room { KeepsRoom self.old self.new }
    {
        let Some((at, row)) = self.rows.find(key) else {
            return;
        };
        if row.working {
            self.rows.write(at, row, row.ended());
        }
    }

    /// Makes room to time the key at the moment; no row changes, and room that exists is kept. An error is one of memory.
    pub fn room_at(&mut self, key: &Key, at: i64) -> Result<(), AllocError>
        ensures made { OnOk result (has_room self.new key.now ≡ true) }
        ensures place { OnOk result (has_room_at self.new at key.now ≡ true) }
        ensures rows { (k : KeyValue) → row_of self.new k ≡ row_of self.old k }
        ensures room { KeepsRoom self.old self.new }
        ensures fresh { fresh_count self.new.rows ≡ fresh_count self.old.rows }
    {
        self.rows.room(key)?;
        self.moments.room(key, at)?;
        Ok(())
    }

    /// Makes a place for the key at the moment; no row changes, and room that exists is kept. An error is one of memory.
    pub fn place_at(&mut self, key: &Key, at: i64) -> Result<(), AllocError>
        ensures place { OnOk result (has_room_at self.new at key.now ≡ true) }
        ensures rows { self.new.rows ≡ self.old.rows }
        ensures room { KeepsRoom self.old self.new }
    {
        self.moments.room(key, at)
    }

    /// The key will be ready at the moment, in seconds since 1970, or at the earlier one at which it is timed. It takes no memory.
    pub fn after(&mut self, key: &Key, at: i64)
        requires row { has_room self.old key.now ≡ true }
        requires place { has_room_at self.old at key.now ≡ true }
        ensures rows { ChangesRow (timed_at at) key.now self.old self.new }
        ensures room { KeepsRoom self.old self.new }
        ensures fresh { fresh_count self.new.rows ≡ fresh_count self.old.rows }
    {
        let Some((place, row)) = self.rows.find(key) else {
            unreachable!()
        };
        self.rows.write(place, row, row.timed_at(at));
    }

    /// It is now this moment: each key whose moment is no later is ready, and timed no more; of each other key it is not
    /// known any more that there is something to do. The places at moments no later are given up, and no other. Only
    /// keys with such a place are gone through, and those on which a look found something. It takes no memory.
    pub fn tick(&mut self, now: i64)
        ensures rows { ChangesRows (ticked now) self.old self.new }
        ensures room { LosesNoRow self.old self.new }
        ensures versions { KeepsVersions self.old self.new }
        ensures later { StayAfter now self.old.moments self.new.moments }
        ensures passed { AreAfter now self.new.moments }
    {
        tick_rows(&mut self.rows, &mut self.moments, now);
    }

    /// Makes room for the key to wait for the version of the kind; no row changes, and room that exists is kept. An error is one of memory.
    pub fn room_for(&mut self, key: &Key, kind: Kind, version: u64) -> Result<(), AllocError>
        ensures made { OnOk result (has_room self.new key.now ≡ true) }
        ensures place { OnOk result (has_room_for self.new kind version key.now ≡ true) }
        ensures rows { (k : KeyValue) → row_of self.new k ≡ row_of self.old k }
        ensures room { KeepsRoom self.old self.new }
        ensures fresh { fresh_count self.new.rows ≡ fresh_count self.old.rows }
    {
        self.rows.room(key)?;
        self.place_for(key, kind, version)
    }

    /// Makes a place for the key at the version of the kind; no row changes, and room that exists is kept. An error is one of memory.
    pub fn place_for(&mut self, key: &Key, kind: Kind, version: u64) -> Result<(), AllocError>
        ensures place { OnOk result (has_room_for self.new kind version key.now ≡ true) }
        ensures rows { self.new.rows ≡ self.old.rows }
        ensures room { KeepsRoom self.old self.new }
    {
        match kind {
            Kind::Certificate => self.certificates.room(key, version),
            Kind::CertificateRequest => self.requests.room(key, version),
            Kind::Secret => self.secrets.room(key, version),
        }
    }

    /// The key waits until its controller is told of this version of the kind, in place of what it waited for. It takes no memory.
    pub fn park(&mut self, key: &Key, kind: Kind, version: u64)
        requires row { has_room self.old key.now ≡ true }
        requires place { has_room_for self.old kind version key.now ≡ true }
        ensures rows { ChangesRow (parked_for kind version) key.now self.old self.new }
        ensures room { KeepsRoom self.old self.new }
        ensures fresh { fresh_count self.new.rows ≡ fresh_count self.old.rows }
    {
        let Some((place, row)) = self.rows.find(key) else {
            unreachable!()
        };
        self.rows.write(place, row, row.parked_for(kind, version));
    }

    /// The controller was told of the kind up to this version: each key that waits for the kind and a version no later
    /// is ready, and no longer waits. The places at such versions are given up, and no other. It takes no memory.
    pub fn moved(&mut self, kind: Kind, version: u64)
        ensures rows { ChangesRows (moved kind version) self.old self.new }
        ensures room { LosesNoRow self.old self.new }
        ensures moments { KeepsMoments self.old self.new }
        ensures others { KeepsVersionsOfOthers kind self.old self.new }
        ensures above { StayAbove version (versions_of self.old kind) (versions_of self.new kind) }
        ensures reached { AreAbove version (versions_of self.new kind) }
    {
        match kind {
            Kind::Certificate => move_rows(&mut self.rows, &mut self.certificates, kind, version),
            Kind::CertificateRequest => move_rows(
                &mut self.rows,
                &mut self.requests,
                kind,
                version,
            ),
            Kind::Secret => move_rows(&mut self.rows, &mut self.secrets, kind, version),
        }
    }

    /// The first key, in the order of keys, that can be given; `None` exactly where no key can.
    pub fn first(&self) -> Option<&Key>
        ensures { FindsFirst (is_offered self.now) (option_copied result) }
    {
        self.rows.first()
    }

    /// The first key that is ready and to be looked at; `None` exactly where there is none.
    pub fn first_fresh(&self) -> Option<&Key>
        ensures { FindsFirst (λ k. is_fresh (row_of self.now k)) (option_copied result) }
    {
        self.rows.first_fresh()
    }

    /// A law: a key that is to be looked at has room.
    pub fn has_fresh(&self, key: &Key)
        requires { is_fresh (row_of self.now key.now) ≡ true }
        ensures { has_room self.now key.now ≡ true }
    {}

    /// The first key above the given one that can be given; `None` exactly where no such key can.
    pub fn following<'a>(&'a self, key: &Key) -> Option<&'a Key>
        ensures { FindsFirst (λ k. is_lt (key_cmp key.now k) && is_offered self.now k) (option_copied result) }
    {
        self.rows.following(key)
    }

    /// The first key above this one, if there is one, that can be given and on which there may be something to do; `None`
    /// exactly where there is none.
    pub fn next_pending<'a>(&'a self, below: Option<&Key>) -> Option<&'a Key>
        ensures { FindsFirst (λ k. is_above (option_copied below.entry) k && is_pending (row_of self.now k)) (option_copied result) }
    {
        match self.rows.next_pending(below) {
            Some((key, _row)) => Some(key),
            None => None,
        }
    }

    /// The same key, with what is kept of it.
    pub fn next_pending_row<'a>(&'a self, below: Option<&Key>) -> Option<(&'a Key, Row)>
        ensures finds { FindsFirst (λ k. is_above (option_copied below.entry) k && is_pending (row_of self.now k)) (option_map (λ p. p.0.now) result) }
        ensures row { IfSome result (λ p. p.1 ≡ row_of self.now p.0.now) }
    {
        self.rows.next_pending(below)
    }
}
