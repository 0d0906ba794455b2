ghost use Rattle.std.specs.FinMap as finite;
ghost use Rattle.std.specs.List.{list_any};
ghost use Rattle.std.specs.Option.{option_copied};
ghost use Rattle.std.specs.Prelude.{◌≡◌, ◌==◌, ◌+◌, ◌-◌, ◌<◌, ◌^◌, IfOk, OnErr, [], Some, None, if◌then◌else◌, false};
ghost use Rattle.cmc_model.specs.Objects.{object_at};
ghost use Rattle.cmc_model.specs.Replies.{IsReply, IsServed, empty_store, is_accepted, key_of_call, key_written, object_written, settled, state_after, stored};
ghost use Rattle.cmc_store.specs.Answers.{IsPutOrRefused};
ghost use Rattle.cmc_store.specs.Kept.{Kept};
ghost use Rattle.cmc_store.specs.Permanence.{KeepFinalVerdicts};

use crate::calls::{Replied, delete, get, update, update_status};
use crate::catalogue::Catalogue;
use crate::generating::create_named;
use crate::shelf::Shelf;
use cmc_meta::{Key, Numbers};
use cmc_objects::{Call, Object, Reply};
use cmc_seed::HashSeed;
use std::alloc::{AllocError, Global};
use std::collections::BTreeMap;
use std::marker::Model;

/// The versioned store, which answers one call at a time.
pub struct Store {
    catalogue: Catalogue,
    accepted: u64,
    calls: u64,
    faults: Numbers,
}

impl Drop for Store {
    fn drop(self) {
        let Store {
            catalogue: _catalogue,
            accepted: _accepted,
            calls: _calls,
            faults: _faults,
        } = self;
    }
}

impl Model for Store {
    ghost use Rattle.std.specs.Coded.{codes};
    ghost use Rattle.cmc_store.specs.contracts.catalogue.Catalogue as catalogue_row;
    ghost use Rattle.cmc_store.specs.Kept.{Kept};
    ghost use Rattle.cmc_store.specs.Permanence.{IsStore};

    ghost Value = { Kept };

    ghost coded = { Prim.hlevel (codes, catalogue_row.the_row.coded) };

    ghost view = { λ s. record { faults = s.faults; state = record { objects = s.catalogue; accepted = s.accepted; calls = s.calls } } };

    ghost invariant = { λ s. IsStore s.catalogue s.accepted s.calls };
}

impl Store {
    /// An empty store, whose calls with these numbers (counted from 1) are answered Unavailable.
    /// It takes no memory.
    pub fn new(alloc: Global, faults: Numbers) -> Store
        ensures { result ≡ record { faults = faults; state = empty_store } }
    {
        Store::seeded(alloc, HashSeed::fixed(), faults)
    }

    /// The same, where Secrets are hashed by the seed.
    pub fn seeded(alloc: Global, seed: HashSeed, faults: Numbers) -> Store
        ensures { result ≡ record { faults = faults; state = empty_store } }
    {
        Store {
            catalogue: Catalogue::new(alloc, seed),
            accepted: 0,
            calls: 0,
            faults,
        }
    }

    /// The object under the key; `None` exactly where none exists.
    pub fn peek(&self, key: &Key) -> Option<&Object>
        ensures { option_copied result ≡ object_at self.now.state.objects key.now }
    {
        self.catalogue.get(key)
    }

    /// The objects under their keys.
    pub fn shelf(&self) -> &Shelf
        ensures { result.now ≡ self.now.state.objects }
    {
        self.catalogue.shelf()
    }

    /// The map that keeps the objects, to go over them in order of key.
    pub fn objects(&self) -> &BTreeMap<Key, Object>
        ensures { finite.entries self.now.state.objects ≡ result.now.entries }
    {
        self.catalogue.shelf().objects()
    }

    /// How many writes were accepted.
    pub fn accepted(&self) -> u64
        ensures { result ≡ self.now.state.accepted }
    {
        self.accepted
    }

    /// How many calls were made, Gets and refused ones included.
    pub fn calls(&self) -> u64
        ensures { result ≡ self.now.state.calls }
    {
        self.calls
    }

    /// Makes one call at the moment `now` and answers it.
    ///
    /// A call that is not accepted leaves the objects and the count of accepted writes as they were;
    /// want of memory leaves all. No request that exists is ever approved and denied, and an approval
    /// or a denial that stood stands unchanged, as long as its request does.
    pub fn call(&mut self, alloc: Global, now: i64, call: &Call) -> Result<Replied, AllocError>
        requires room { self.old.state.calls < 2 ^ 64 - 1 }
        ensures reply { IfOk result (λ r. IsReply self.old.faults self.old.state call.now r.reply) }
        ensures after { IfOk result (λ r. self.new ≡ record { faults = self.old.faults; state = state_after now self.old.state call.now r.reply }) }
        ensures key { IfOk result (λ r. r.key ≡ key_written call.now r.reply) }
        ensures object { IfOk result (λ r. r.object ≡ object_written now self.old.state call.now r.reply) }
        ensures verdicts { IfOk result (λ r. KeepFinalVerdicts self.old.state.objects self.new.state.objects) }
        ensures err { OnErr result (self.new ≡ self.old) }
    {
        let number = self.calls + 1;
        if stands_in(self.faults.as_slice(), number) {
            self.calls = number;
            return Ok(Replied {
                reply: Reply::Unavailable { number },
                key: None,
                object: None,
            });
        }
        let replied = serve(&mut self.catalogue, alloc, self.accepted, now, call)?;
        self.calls = number;
        if replied.reply.is_accepted() {
            self.accepted += 1;
        }
        Ok(replied)
    }
}

fn stands_in(faults: &[u64], number: u64) -> bool
    ensures { result ≡ list_any (λ n. n == number) faults.now }
{
    faults.iter().any(|n| *n == number)
}

#[tactic(auto, unfolding(cmc_model::specs::Replies::settled))]
fn serve(
    catalogue: &mut Catalogue,
    alloc: Global,
    accepted: u64,
    now: i64,
    call: &Call,
) -> Result<Replied, AllocError>
    requires room { accepted + 1 < 2 ^ 64 }
    ensures reply { IfOk result (λ r. IsServed accepted catalogue.old call.now r.reply) }
    ensures answer { IfOk result (λ r. IsPutOrRefused (key_of_call (settled call.now r.reply)) (stored (accepted + 1) now catalogue.old (settled call.now r.reply)) catalogue.old catalogue.new r) }
    ensures err { OnErr result (catalogue.new ≡ catalogue.old) }
{
    match call {
        Call::Create { object, generate } => {
            create_named(catalogue, alloc, accepted, now, object, *generate)
        }
        Call::Update { object, version } => update(catalogue, alloc, accepted, object, *version),
        Call::UpdateStatus { object, version } => update_status(
            catalogue, alloc, accepted, object, *version,
        ),
        Call::Delete { key, version } => delete(catalogue, accepted, key, *version),
        Call::Get { key } => get(catalogue, accepted, key),
    }
}
