//! The collector's caches, one of each kind.
ghost use Rattle.std.specs.Option.{option_copied};
ghost use Rattle.std.specs.Prelude.{◌≡◌, ◌<◌, ◌≤◌, OnOk, OnErr, length};
ghost use Rattle.cmc_meta.specs.declared.key.Kind.{Kind as KindValue};
ghost use Rattle.cmc_meta.specs.declared.key.Key.{Key as KeyValue};
ghost use Rattle.cmc_model.specs.Writes.{kind_eq};
ghost use Rattle.cmc_collector.specs.Caches.{AreCachesAt, IsInformerOf, Moves, informer_object, informer_of, position_in, position_after};

use cmc_informer::{Informer, Watch};
use cmc_meta::{Key, Kind};
use cmc_objects::Object;
use cmc_seed::HashSeed;
use std::alloc::{AllocError, Global};
use std::marker::Model;

/// An informer of each kind.
pub(crate) struct Caches {
    certificates: Informer,
    requests: Informer,
    secrets: Informer,
}

impl Drop for Caches {
    fn drop(self) {
        let Caches {
            certificates: _certificates,
            requests: _requests,
            secrets: _secrets,
        } = self;
    }
}

impl Model for Caches {
    ghost use Rattle.std.specs.Coded.{codes};
    ghost use Rattle.cmc_informer.specs.contracts.informer.Informer as informer_row;
    ghost use Rattle.cmc_collector.specs.Caches.{Informers};

    ghost Value = { Informers };

    ghost coded = { Prim.hlevel (codes, informer_row.the_row.coded) };

    ghost view = { λ c. record { certificates = c.certificates; requests = c.requests; secrets = c.secrets } };
}

impl Caches {
    ghost use Rattle.std.specs.Prelude.{[]};

    /// Caches that were told nothing yet, where all is hashed by the seed. It takes no memory.
    pub(crate) fn new(alloc: Global, seed: HashSeed) -> Caches
        ensures told { AreCachesAt result [] }
        ensures position { (k : KindValue) → position_in k result ≡ 0 }
    {
        Caches {
            certificates: Informer::seeded(alloc, seed, Kind::Certificate),
            requests: Informer::seeded(alloc, seed, Kind::CertificateRequest),
            secrets: Informer::seeded(alloc, seed, Kind::Secret),
        }
    }

    fn informer(&self, kind: Kind) -> &Informer
        ensures { result.now ≡ informer_of kind self.now }
    {
        match kind {
            Kind::Certificate => &self.certificates,
            Kind::CertificateRequest => &self.requests,
            Kind::Secret => &self.secrets,
        }
    }

    /// Of how many accepted writes the cache of the kind was told.
    pub(crate) fn position(&self, kind: Kind) -> u64
        ensures { result ≡ position_in kind self.now }
    {
        self.informer(kind).position()
    }

    /// What the cache of its kind holds under the key.
    pub(crate) fn get(&self, key: &Key) -> Option<&Object>
        ensures { option_copied result ≡ informer_object self.now key.now }
    {
        self.informer(key.kind).get(key)
    }

    /// Tells the cache of the kind of the writes up to this one. Where the watch no longer reaches back to its position, it
    /// lists what the newest write left.
    pub(crate) fn tell(
        &mut self,
        alloc: Global,
        watch: &Watch,
        kind: Kind,
        to: u64,
    ) -> Result<(), AllocError>
        requires told { AreCachesAt self.old watch.now.writes }
        requires above { position_in kind self.old < to }
        requires within { to ≤ length watch.now.writes }
        ensures told { OnOk result (AreCachesAt self.new watch.now.writes) }
        ensures moved { OnOk result (Moves kind (position_after (position_in kind self.old) to watch.now) self.old self.new) }
        ensures err { OnErr result (self.new ≡ self.old) }
    {
        match kind {
            Kind::Certificate => tell_one(alloc, &mut self.certificates, watch, kind, to),
            Kind::CertificateRequest => tell_one(alloc, &mut self.requests, watch, kind, to),
            Kind::Secret => tell_one(alloc, &mut self.secrets, watch, kind, to),
        }
    }
}

fn tell_one(
    alloc: Global,
    informer: &mut Informer,
    watch: &Watch,
    kind: Kind,
    to: u64,
) -> Result<(), AllocError>
    requires told { IsInformerOf kind informer.old watch.now.writes }
    requires above { informer.old.position < to }
    requires within { to ≤ length watch.now.writes }
    ensures told { OnOk result (IsInformerOf kind informer.new watch.now.writes) }
    ensures moved { OnOk result (informer.new.position ≡ position_after informer.old.position to watch.now) }
    ensures err { OnErr result (informer.new ≡ informer.old) }
{
    if informer.position() < watch.start() {
        let newest = watch.accepted();
        let objects = watch.list_seeded(alloc, informer.seed(), kind, newest)?;
        informer.relist(newest, objects);
        return Ok(());
    }
    match informer.deliver(alloc, watch, to) {
        Ok(()) => Ok(()),
        Err(_) => Err(AllocError),
    }
}
