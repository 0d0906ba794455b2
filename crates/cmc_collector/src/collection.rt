//! The collection and its moves.
ghost use Rattle.std.specs.FinMap as finite;
ghost use Rattle.std.specs.Option.{option_copied};
ghost use Rattle.std.specs.Prelude.{◌≡◌, ◌-◌, ◌<◌, ◌≤◌, ◌^◌, IfOk, OnOk, OnErr, [], None, Some, true, length};
ghost use Rattle.cmc_collector.specs.CachePositions as caching;
ghost use Rattle.cmc_collector.specs.Examinations as examining;
ghost use Rattle.cmc_collector.specs.Moves as spec;
ghost use Rattle.cmc_collector.specs.Owners.{CollectsWell};
ghost use Rattle.cmc_collector.specs.Replays.{given_uids, on, owner_key, store_state, stored_objects};
ghost use Rattle.cmc_collector.specs.Settles.{FindsDue};
ghost use Rattle.cmc_collector.specs.Watched.{after_call};
ghost use Rattle.cmc_model.specs.Replies.{IsReply};
ghost use Rattle.cmc_objects.specs.declared.call.Call.TheVariants as calls;
ghost use Rattle.cmc_collect_moves.specs.declared.moves.Collected.TheVariants as answers;
ghost use Rattle.cmc_collect_moves.specs.declared.moves.CollectMove.TheVariants as moves;

use crate::caches::Caches;
use crate::entries::CollectEntries;
use crate::entry::CollectEntry;
use crate::examination::Examination;
use crate::orphans::{current, first_due, is_due};
use crate::rows::{Row, Rows, tell_with_rows};
use crate::watched::WatchedStore;
use cmc_collect_moves::{CollectLack, CollectMove, Collected, delete_of, get_of};
use cmc_meta::{Key, Kind, Name, Numbers, OwnerRef};
use cmc_objects::{Call, Reply};
use cmc_seed::HashSeed;
use cmc_store::Store;
use std::alloc::{AllocError, Global};
use std::marker::Model;

/// A collector of objects whose owners are gone, over a store of its own.
pub struct Collection {
    server: WatchedStore,
    caches: Caches,
    rows: Rows,
    entries: CollectEntries,
    events: u64,
}

impl Drop for Collection {
    fn drop(self) {
        let Collection {
            server: _server,
            caches: _caches,
            rows: _rows,
            entries: _entries,
            events: _events,
        } = self;
    }
}

impl Model for Collection {
    ghost use Rattle.cmc_collector.specs.Kept.{IsCollectorOf};
    ghost use Rattle.cmc_collector.specs.Replays.{Collecting};

    ghost Value = { Collecting };

    ghost view = { λ c. record { window = c.server.window; faults = c.server.faults; events = c.events; moments = c.entries.moments } };

    ghost invariant = { λ c. IsCollectorOf (record { window = c.server.window; faults = c.server.faults; events = c.events; moments = c.entries.moments }) c.server c.caches c.rows };
}

impl Collection {
    /// An empty store, whose calls with the numbers `faults` (counted from 1) are answered Unavailable, caches that were told
    /// nothing, watches that reach back over `window` accepted writes, and room for at most `events` entries.
    pub fn new(alloc: Global, window: u64, faults: Numbers, events: u64) -> Collection
        ensures { result ≡ record { window = window; faults = faults; events = events; moments = [] } }
    {
        Collection::seeded(alloc, HashSeed::fixed(), window, faults, events)
    }

    /// The same, where all that is hashed is hashed by the seed.
    pub fn seeded(
        alloc: Global,
        seed: HashSeed,
        window: u64,
        faults: Numbers,
        events: u64,
    ) -> Collection
        ensures { result ≡ record { window = window; faults = faults; events = events; moments = [] } }
    {
        Collection {
            server: WatchedStore::new(alloc, seed, window, faults),
            caches: Caches::new(alloc, seed),
            rows: Rows::new(alloc),
            entries: CollectEntries::new(alloc),
            events,
        }
    }

    /// The entries so far.
    pub fn entries(&self) -> &CollectEntries
        ensures { result.now.moments ≡ self.now.moments }
    {
        &self.entries
    }

    /// The store.
    pub fn store(&self) -> &Store
        ensures { result.now ≡ record { faults = self.now.faults; state = on store_state self.now } }
    {
        self.server.store()
    }

    /// The version of the last accepted write of the kind, 0 where there is none.
    pub fn newest(&self, kind: Kind) -> u64
        ensures { result ≡ on (spec.newest kind) self.now }
    {
        self.server.newest(kind)
    }

    /// How many objects are stored.
    pub fn stored(&self) -> u64
        ensures { result ≡ length (finite.entries (on stored_objects self.now)) }
    {
        self.server.store().objects().len() as u64
    }

    /// The least key on which `Examine` is not refused as no orphan; `None` exactly where it is on each.
    pub fn orphan(&self) -> Result<Option<Key>, AllocError>
        ensures { IfOk result (λ key. on (FindsDue key) self.now) }
    {
        match self.first_due()? {
            Some(key) => Ok(Some(key.copy()?)),
            None => Ok(None),
        }
    }

    pub(crate) fn events(&self) -> u64
        ensures { result ≡ self.now.events }
    {
        self.events
    }

    /// How many entries there are; they are never more than the collection may have.
    pub(crate) fn count(&self) -> u64
        ensures value { result ≡ length self.now.moments }
        ensures fits { length self.now.moments ≤ self.now.events }
    {
        self.entries.len()
    }

    fn first_due(&self) -> Result<Option<&Key>, AllocError>
        ensures { IfOk result (λ key. on (FindsDue (option_copied key)) self.now) }
    {
        first_due(self.rows.map(), &self.caches, self.server.accepted())
    }

    fn is_due(&self, key: &Key) -> Result<bool, AllocError>
        ensures { IfOk result (λ due. due ≡ on examining.is_to_examine self.now key.now) }
    {
        is_due(
            &self.caches,
            self.server.accepted(),
            key,
            self.rows.get(key),
        )
    }

    fn current(&self, key: &Key) -> Result<Option<Examination>, AllocError>
        ensures { IfOk result (λ x. x ≡ on examining.current self.now key.now) }
    {
        current(
            &self.caches,
            self.server.accepted(),
            key,
            self.rows.get(key),
        )
    }

    /// Of how many accepted writes the cache of the kind was told.
    pub(crate) fn position(&self, kind: Kind) -> u64
        ensures { result ≡ caching.position kind self.now.moments }
    {
        self.caches.position(kind)
    }

    fn lack_of_delivery(&self, kind: Kind, to: u64) -> Option<CollectLack>
        ensures { result ≡ on (spec.lack_of_delivery kind to) self.now }
    {
        let position = self.position(kind);
        if self.newest(kind) <= position {
            return Some(CollectLack::Current { position });
        }
        if position < to && self.server.is_of_kind(kind, to) {
            return None;
        }
        Some(CollectLack::NotAWrite { to })
    }

    fn lack(&self, step: &CollectMove) -> Result<Option<CollectLack>, AllocError>
        ensures { IfOk result (λ lack. lack ≡ on (spec.lack step.now) self.now) }
    {
        match step {
            CollectMove::User(_) => Ok(None),
            CollectMove::Deliver { kind, to } => Ok(self.lack_of_delivery(*kind, *to)),
            CollectMove::Examine { key } => {
                if self.is_due(key)? {
                    return Ok(None);
                }
                Ok(Some(CollectLack::NoOrphan))
            }
        }
    }

    fn answer(&self, step: &CollectMove) -> Result<Collected, AllocError>
        ensures { IfOk result (λ answer. answer ≡ on (spec.answer step.now) self.now) }
    {
        if let Some(lack) = self.lack(step)? {
            return Ok(Collected::NotNow(lack));
        }
        let entries = self.entries.len();
        if entries < self.events {
            return Ok(Collected::Done);
        }
        Ok(Collected::Spent { entries })
    }

    /// A law of every collection: each reply is the store's, and directly before each accepted delete of an examination the
    /// deleted object had owners, each of which was dead.
    pub fn collects_well(&self)
        ensures { on CollectsWell self.now }
    {
        let _entries = self.entries.len();
    }

    /// Makes the move at the moment `now`, in seconds since 1970-01-01T00:00:00Z, where it is possible.
    ///
    /// A delivery from below the window lists what the newest accepted write left. An examination begins with an object of
    /// which the caches say that it has owners and all are dead, looks for one owner after another in the store, and
    /// deletes the object at the version at which the cache had it. A look that finds the owner's uid, a call that is
    /// unavailable, and every delete end it.
    pub fn step(
        &mut self,
        alloc: Global,
        now: i64,
        step: CollectMove,
    ) -> Result<Collected, AllocError>
        ensures answer { IfOk result (λ answer. answer ≡ on (spec.answer step) self.old) }
        ensures leaves { IfOk result (λ answer. spec.LeavesCollected now step self.old answer self.new) }
        ensures promise { IfOk result (λ answer. on CollectsWell self.new) }
        ensures err { OnErr result (self.new ≡ self.old) }
    {
        self.collects_well();
        let answer = self.answer(&step)?;
        if !answer.is_done() {
            return Ok(answer);
        }
        match step {
            CollectMove::User(call) => self.make_call(alloc, now, call)?,
            CollectMove::Deliver { kind, to } => self.deliver(alloc, now, kind, to)?,
            CollectMove::Examine { key } => self.examine(alloc, now, key)?,
        }
        self.collects_well();
        Ok(Collected::Done)
    }

    fn make_call(&mut self, alloc: Global, now: i64, call: Call) -> Result<(), AllocError>
        requires { length self.old.moments < self.old.events }
        ensures ok { OnOk result (spec.LeavesCollected now (moves.User call) self.old answers.Done self.new) }
        ensures err { OnErr result (self.new ≡ self.old) }
    {
        let reply = call_with_room(&mut self.entries, &mut self.server, alloc, now, &call)?;
        self.entries.push(now, CollectEntry::User { call, reply });
        Ok(())
    }

    fn deliver(&mut self, alloc: Global, now: i64, kind: Kind, to: u64) -> Result<(), AllocError>
        requires room { length self.old.moments < self.old.events }
        requires may { on (spec.lack_of_delivery kind to) self.old ≡ None }
        ensures ok { OnOk result (spec.LeavesCollected now (moves.Deliver kind to) self.old answers.Done self.new) }
        ensures err { OnErr result (self.new ≡ self.old) }
    {
        self.entries.reserve()?;
        let entry = self.told(self.position(kind), kind, to);
        tell_with_rows(
            &mut self.caches,
            &mut self.rows,
            alloc,
            self.server.watch(),
            kind,
            to,
        )?;
        self.entries.push(now, entry);
        Ok(())
    }

    /// The entry for a cache at this position that is told up to this write.
    fn told(&self, position: u64, kind: Kind, to: u64) -> CollectEntry
        requires { position ≡ caching.position kind self.now.moments }
        ensures { result ≡ on (spec.delivery_entry kind to) self.now }
    {
        let watch = self.server.watch();
        if position < watch.start() {
            return CollectEntry::List {
                kind,
                to: watch.accepted(),
            };
        }
        CollectEntry::Deliver { kind, to }
    }

    fn examine(&mut self, alloc: Global, now: i64, key: Key) -> Result<(), AllocError>
        requires room { length self.old.moments < self.old.events }
        requires due { on examining.is_to_examine self.old key ≡ true }
        ensures ok { OnOk result (spec.LeavesCollected now (moves.Examine key) self.old answers.Done self.new) }
        ensures err { OnErr result (self.new ≡ self.old) }
    {
        let Some(examination) = self.current(&key)? else {
            unreachable!()
        };
        match examination.copy_next_owner()? {
            Some(owner) => self.look(alloc, now, key, examination, owner),
            None => self.delete(alloc, now, key, &examination),
        }
    }

    fn look(
        &mut self,
        alloc: Global,
        now: i64,
        key: Key,
        examination: Examination,
        owner: OwnerRef,
    ) -> Result<(), AllocError>
        requires room { length self.old.moments < self.old.events }
        requires going { on examining.current self.old key ≡ Some examination }
        requires next { examining.next_owner examination ≡ Some owner }
        ensures ok { OnOk result (spec.LeavesCollected now (moves.Examine key) self.old answers.Done self.new) }
        ensures err { OnErr result (self.new ≡ self.old) }
    {
        let reply = look_with_room(
            &mut self.entries,
            &mut self.server,
            alloc,
            now,
            &key.namespace,
            &owner,
        )?;
        let examination = examination.after(&owner, &reply);
        self.rows.set(&key, Row { examination });
        self.entries
            .push(now, CollectEntry::Look { key, owner, reply });
        Ok(())
    }

    fn delete(
        &mut self,
        alloc: Global,
        now: i64,
        key: Key,
        examination: &Examination,
    ) -> Result<(), AllocError>
        requires room { length self.old.moments < self.old.events }
        requires going { on examining.current self.old key ≡ Some examination.now }
        requires last { examining.next_owner examination.now ≡ None }
        ensures ok { OnOk result (spec.LeavesCollected now (moves.Examine key) self.old answers.Done self.new) }
        ensures err { OnErr result (self.new ≡ self.old) }
    {
        let version = examination.version();
        let reply = delete_with_room(
            &mut self.entries,
            &mut self.server,
            alloc,
            now,
            &key,
            version,
        )?;
        self.rows.set(&key, Row { examination: None });
        self.entries.push(
            now,
            CollectEntry::Delete {
                key,
                version,
                reply,
            },
        );
        Ok(())
    }
}

/// Makes room for one more entry, and makes the call.
fn call_with_room(
    entries: &mut CollectEntries,
    server: &mut WatchedStore,
    alloc: Global,
    now: i64,
    call: &Call,
) -> Result<Reply, AllocError>
    requires { server.old.state.calls < 2 ^ 64 - 1 }
    ensures room { OnOk result (0 < entries.new.spare) }
    ensures same { entries.new.moments ≡ entries.old.moments }
    ensures reply { IfOk result (λ r. IsReply server.old.faults server.old.state call.now r) }
    ensures after { IfOk result (λ r. server.new ≡ after_call now call.now r server.old) }
    ensures err { OnErr result (server.new ≡ server.old) }
{
    entries.reserve()?;
    server.call(alloc, now, call)
}

/// Makes room for one more entry, and reads the owner of an object of this namespace.
fn look_with_room(
    entries: &mut CollectEntries,
    server: &mut WatchedStore,
    alloc: Global,
    now: i64,
    namespace: &Name,
    owner: &OwnerRef,
) -> Result<Reply, AllocError>
    requires { server.old.state.calls < 2 ^ 64 - 1 }
    ensures room { OnOk result (0 < entries.new.spare) }
    ensures same { entries.new.moments ≡ entries.old.moments }
    ensures reply { IfOk result (λ r. IsReply server.old.faults server.old.state (calls.Get (owner_key namespace.now owner.now)) r) }
    ensures after { IfOk result (λ r. server.new ≡ after_call now (calls.Get (owner_key namespace.now owner.now)) r server.old) }
    ensures err { OnErr result (server.new ≡ server.old) }
{
    let call = get_of(namespace, owner)?;
    call_with_room(entries, server, alloc, now, &call)
}

/// Makes room for one more entry, and deletes the key's object at this version.
fn delete_with_room(
    entries: &mut CollectEntries,
    server: &mut WatchedStore,
    alloc: Global,
    now: i64,
    key: &Key,
    version: u64,
) -> Result<Reply, AllocError>
    requires { server.old.state.calls < 2 ^ 64 - 1 }
    ensures room { OnOk result (0 < entries.new.spare) }
    ensures same { entries.new.moments ≡ entries.old.moments }
    ensures reply { IfOk result (λ r. IsReply server.old.faults server.old.state (calls.Delete key.now (Some version)) r) }
    ensures after { IfOk result (λ r. server.new ≡ after_call now (calls.Delete key.now (Some version)) r server.old) }
    ensures err { OnErr result (server.new ≡ server.old) }
{
    let call = delete_of(key, version)?;
    call_with_room(entries, server, alloc, now, &call)
}
