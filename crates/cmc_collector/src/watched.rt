//! A store together with the watch over its accepted writes.
ghost use Rattle.std.specs.Option.{option_copied};
ghost use Rattle.std.specs.FinMap as finite;
ghost use Rattle.std.specs.Prelude.{◌≡◌, ◌+◌, ◌-◌, ◌<◌, ◌^◌, IfOk, OnErr, [], ◌∷◌, length, reverse, slice_get, if◌then◌else◌};
ghost use Rattle.cmc_model.specs.Replies.{IsReply, empty_store, is_accepted, settled, state_after};
ghost use Rattle.cmc_model.specs.Writes as spec;
ghost use Rattle.cmc_collector.specs.Moves.{is_of_kind};
ghost use Rattle.cmc_meta.specs.declared.key.Kind.{Kind as KindValue};
ghost use Rattle.cmc_collector.specs.Watched.{after_call, position_of};

use cmc_informer::Watch;
use cmc_meta::{Key, Kind, Numbers};
use cmc_model::Write;
use cmc_objects::{Call, Object, Positions, Reply};
use cmc_seed::HashSeed;
use cmc_store::{Replied, Store};
use std::alloc::{AllocError, Global};
use std::marker::Model;

/// A store, and the watch over its accepted writes.
pub(crate) struct WatchedStore {
    store: Store,
    watch: Watch,
    /// The version of the newest write of each kind, 0 where there is none.
    newest: Positions,
}

impl Drop for WatchedStore {
    fn drop(self) {
        let WatchedStore {
            store: _store,
            watch: _watch,
            newest: _newest,
        } = self;
    }
}

impl Model for WatchedStore {
    ghost use Rattle.std.specs.Coded.{codes};
    ghost use Rattle.std.specs.FinMap as finite;
    ghost use Rattle.cmc_meta.specs.Keys.{key_cmp};
    ghost use Rattle.cmc_meta.specs.contracts.key.Key as keys;
    ghost use Rattle.cmc_objects.specs.contracts.object.Object as object;
    ghost use Rattle.cmc_collector.specs.Watched.{Served, AreTied};

    ghost Value = { Served };

    ghost coded = { Prim.hlevel (codes, finite.code {R = key_cmp} keys.the_row.coded object.the_row.coded) };

    ghost view = { λ w. record { faults = w.store.faults; window = w.watch.window; state = w.store.state; writes = w.watch.writes } };

    ghost invariant = { λ w. AreTied w.newest w.store.state w.watch.writes };
}

impl WatchedStore {
    /// An empty store and a watch with this window. It takes no memory.
    pub(crate) fn new(alloc: Global, seed: HashSeed, window: u64, faults: Numbers) -> WatchedStore
        ensures { result ≡ record { faults = faults; window = window; state = empty_store; writes = [] } }
    {
        WatchedStore {
            store: Store::seeded(alloc, seed, faults),
            watch: Watch::new(alloc, window),
            newest: Positions {
                certificates: 0,
                requests: 0,
                secrets: 0,
            },
        }
    }

    pub(crate) fn store(&self) -> &Store
        ensures { result.now ≡ record { faults = self.now.faults; state = self.now.state } }
    {
        &self.store
    }

    pub(crate) fn watch(&self) -> &Watch
        ensures writes { result.now.writes ≡ self.now.writes }
        ensures window { result.now.window ≡ self.now.window }
    {
        &self.watch
    }

    /// How many writes were accepted.
    pub(crate) fn accepted(&self) -> u64
        ensures state { result ≡ self.now.state.accepted }
        ensures writes { result ≡ length self.now.writes }
    {
        self.store.accepted()
    }

    /// The version of the last write of the kind, 0 where there is none.
    pub(crate) fn newest(&self, kind: Kind) -> u64
        ensures { result ≡ spec.last_of_kind kind self.now.writes }
    {
        match kind {
            Kind::Certificate => self.newest.certificates,
            Kind::CertificateRequest => self.newest.requests,
            Kind::Secret => self.newest.secrets,
        }
    }

    /// Whether the write of this version is one of the kind; no write has version 0.
    pub(crate) fn is_of_kind(&self, kind: Kind, version: u64) -> bool
        ensures { result ≡ is_of_kind kind (spec.write_at version self.now.writes) }
    {
        is_kind(self.watch.as_slice(), kind, version)
    }

    /// Makes one call at the moment `now`; an accepted write goes to the watch.
    pub(crate) fn call(&mut self, alloc: Global, now: i64, call: &Call) -> Result<Reply, AllocError>
        requires { self.old.state.calls < 2 ^ 64 - 1 }
        ensures reply { IfOk result (λ r. IsReply self.old.faults self.old.state call.now r) }
        ensures after { IfOk result (λ r. self.new ≡ after_call now call.now r self.old) }
        ensures err { OnErr result (self.new ≡ self.old) }
    {
        self.watch.reserve(1)?;
        let Replied { reply, key, object } = self.store.call(alloc, now, call)?;
        if let Some(key) = key {
            let kind = key.kind;
            let version = self.store.accepted();
            self.watch.push(version, key, object);
            self.newest = with_newest(self.newest, kind, version);
        }
        Ok(reply)
    }
}

fn with_newest(newest: Positions, kind: Kind, version: u64) -> Positions
    ensures { (k : KindValue) → position_of k result ≡ (if spec.kind_eq kind k then version else position_of k newest) }
{
    let mut newest = newest;
    match kind {
        Kind::Certificate => newest.certificates = version,
        Kind::CertificateRequest => newest.requests = version,
        Kind::Secret => newest.secrets = version,
    }
    newest
}

fn is_kind(writes: &[Write], kind: Kind, version: u64) -> bool
    ensures { result ≡ is_of_kind kind (spec.write_at version (reverse writes.now)) }
{
    match write_of(writes, version) {
        Some(write) => write.key.kind == kind,
        None => false,
    }
}

fn write_of(writes: &[Write], version: u64) -> Option<&Write>
    ensures { option_copied result ≡ spec.write_at version (reverse writes.now) }
{
    if version == 0 {
        return None;
    }
    write_in_place(writes, version - 1)
}

fn write_in_place(writes: &[Write], place: u64) -> Option<&Write>
    ensures { option_copied result ≡ slice_get writes.now place }
{
    writes.get(place as usize)
}
