//! What a controller is told of one kind of objects.
ghost use Rattle.std.specs.Option.{option_copied};
ghost use Rattle.std.specs.Prelude.{◌≡◌, ◌≤◌, ◌<◌, IfOk, IfErr, OnOk, OnErr, length, nat_lt, if◌then◌else◌};
ghost use Rattle.cmc_model.specs.Objects.{no_objects, object_at};
ghost use Rattle.cmc_informer.specs.Caches.{has_uid, is_owned_by, is_targeting};
ghost use Rattle.cmc_informer.specs.Indexes.{AreKeys, Finds};
ghost use Rattle.cmc_informer.specs.Watches.{start_of};
ghost use Rattle.cmc_informer.specs.Informers.{IsCacheAt};
ghost use Rattle.cmc_informer.specs.declared.informer.Undelivered.TheVariants.{Gone, NoMemory};

use crate::cache::Cache;
use crate::keys::Keys;
use crate::watch::Watch;
use cmc_meta::{Key, Kind, Name};
use cmc_objects::Object;
use cmc_seed::HashSeed;
use std::alloc::{AllocError, Global};
use std::marker::Model;

/// Why a watch delivered nothing.
#[derive(Clone, Copy, PartialEq, Eq)]
pub enum Undelivered {
    /// The position is older than the window: a list is needed (Kubernetes API conventions, 410 Gone).
    Gone {
        /// The oldest position from which the watch can still deliver.
        start: u64,
    },
    /// Memory ran out.
    NoMemory,
}

impl From<AllocError> for Undelivered {
    ghost use Rattle.cmc_informer.specs.declared.informer.Undelivered.TheVariants.{NoMemory};

    ghost from_gives = { λ _ e. e ≡ NoMemory };

    fn from(_: AllocError) -> Self {
        Undelivered::NoMemory
    }
}

/// An informer of one kind: the objects of the kind as they stood after the first `position` accepted
/// writes, with indexes. Contracts see the kind, the position and the objects.
pub struct Informer {
    kind: Kind,
    position: u64,
    cache: Cache,
}

impl Drop for Informer {
    fn drop(self) {
        let Informer {
            kind: _kind,
            position: _position,
            cache: _cache,
        } = self;
    }
}

impl Model for Informer {
    ghost use Rattle.std.specs.Coded.{codes};
    ghost use Rattle.cmc_informer.specs.contracts.cache.Cache as cache_row;
    ghost use Rattle.cmc_informer.specs.Informers.{Informed};

    ghost Value = { Informed };

    ghost coded = { Prim.hlevel (codes, cache_row.the_row.coded) };

    ghost view = { λ i. record { kind = i.kind; position = i.position; objects = i.cache } };
}

impl Informer {
    /// An informer of the kind that was told nothing yet. It takes no memory.
    pub fn new(alloc: Global, kind: Kind) -> Informer
        ensures { result ≡ record { kind = kind; position = 0; objects = no_objects } }
    {
        Informer::seeded(alloc, HashSeed::fixed(), kind)
    }

    /// The same, where keys and uids are hashed by the seed.
    pub fn seeded(alloc: Global, seed: HashSeed, kind: Kind) -> Informer
        ensures { result ≡ record { kind = kind; position = 0; objects = no_objects } }
    {
        Informer {
            kind,
            position: 0,
            cache: Cache::seeded(alloc, seed),
        }
    }

    /// What keys and uids are hashed by.
    pub fn seed(&self) -> HashSeed {
        self.cache.seed()
    }

    /// How many of the accepted writes it was told.
    pub fn position(&self) -> u64
        ensures { result ≡ self.now.position }
    {
        self.position
    }

    /// The object under the key; `None` exactly where none exists.
    pub fn get(&self, key: &Key) -> Option<&Object>
        ensures { option_copied result ≡ object_at self.now.objects key.now }
    {
        self.cache.get(key)
    }

    /// The keys, in order, of the objects that have an owner reference of this uid. An `Err` is want of
    /// memory.
    pub fn owned_by(&self, alloc: Global, uid: u64) -> Result<Keys, AllocError>
        ensures { IfOk result (λ keys. AreKeys keys (λ k. is_owned_by uid (object_at self.now.objects k))) }
    {
        self.cache.owned_by(alloc, uid)
    }

    /// The keys, in order, of the Certificates of the namespace whose `secretName` is this name; none where
    /// the informer is of another kind.
    pub fn by_secret(
        &self,
        alloc: Global,
        namespace: &Name,
        name: &Name,
    ) -> Result<Keys, AllocError>
        ensures { IfOk result (λ keys. AreKeys keys (λ k. is_targeting namespace.now name.now (object_at self.now.objects k))) }
    {
        self.cache.by_secret(alloc, namespace, name)
    }

    /// The key of the object that has this uid; `None` exactly where none has it.
    pub fn by_uid(&self, uid: u64) -> Option<&Key>
        ensures { Finds (λ k. has_uid uid (object_at self.now.objects k)) (option_copied result) }
    {
        self.cache.by_uid(uid)
    }

    /// Tells it of the writes above its position and up to `to`.
    ///
    /// # Errors
    ///
    /// `Gone` exactly where the position is below the start of the window, `NoMemory` where memory runs out;
    /// either leaves all as it was.
    pub fn deliver(&mut self, alloc: Global, watch: &Watch, to: u64) -> Result<(), Undelivered>
        requires above { self.old.position < to }
        requires within { to ≤ length watch.now.writes }
        requires holds { IsCacheAt self.old watch.now.writes }
        ensures told { OnOk result (IsCacheAt self.new watch.now.writes) }
        ensures position { OnOk result (self.new.position ≡ to) }
        ensures kind { OnOk result (self.new.kind ≡ self.old.kind) }
        ensures in_window { OnOk result (start_of watch.now ≤ self.old.position) }
        ensures refused { IfErr result (λ e. e ≡ (if nat_lt self.old.position (start_of watch.now) then Gone (start_of watch.now) else NoMemory)) }
        ensures unchanged { OnErr result (self.new ≡ self.old) }
    {
        let start = watch.start();
        if self.position < start {
            return Err(Undelivered::Gone { start });
        }
        self.cache
            .apply(alloc, watch.as_slice(), self.kind, self.position, to)?;
        self.position = to;
        Ok(())
    }

    /// Takes over what a list gave: the objects of its kind as they stood after the first `at` accepted
    /// writes, in place of all that it was told. It may go back, and takes no memory.
    pub fn relist(&mut self, at: u64, objects: Cache)
        ensures { self.new ≡ record { kind = self.old.kind; position = at; objects = objects } }
    {
        self.cache = objects;
        self.position = at;
    }
}
