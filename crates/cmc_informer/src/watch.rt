//! The accepted writes, as a watch gives them.
ghost use Rattle.std.specs.Prelude.{◌≡◌, ◌≤◌, ◌<◌, ◌+◌, ◌&&◌, if◌then◌else◌, true, [], ◌∷◌, IfOk, OnOk, length, reverse};
ghost use Rattle.cmc_model.specs.Writes as spec;
ghost use Rattle.cmc_informer.specs.Watches.{is_changed, start_of};
ghost use Rattle.cmc_meta.specs.declared.key.Key.{Key as KeyValue};
ghost use Rattle.cmc_meta.specs.Keys.{key_eq};
ghost use Rattle.cmc_informer.specs.Indexes.{AreKeys, mark_in};

use crate::cache::Cache;
use crate::keys::Keys;
use crate::marks::Marks;
use cmc_meta::{Key, Kind};
use cmc_model::Write;
use cmc_objects::Object;
use cmc_seed::HashSeed;
use std::alloc::{AllocError, Global};
use std::marker::Model;

/// The accepted writes, numbered from 1 from the oldest on, and the window: how many of the newest can
/// still be delivered (Kubernetes API conventions: a watch from an older resource version is answered
/// 410 Gone). Contracts see the list of the writes, the newest first, the window, and the number of
/// writes for which there is room already.
#[derive(Drop)]
pub struct Watch {
    items: Vec<Write>,
    window: u64,
}

impl Model for Watch {
    ghost use Rattle.std.specs.Prelude.{◌-◌, reverse, vec_len, vec_capacity};
    ghost use Rattle.cmc_informer.specs.Watches.{Watched};

    ghost Value = { Watched };

    ghost view = { λ w. record { writes = reverse w.items.items; window = w.window; spare = vec_capacity w.items - vec_len w.items } };
}

impl Watch {
    /// No writes, and this window. It takes no memory.
    pub fn new(alloc: Global, window: u64) -> Watch
        ensures writes { result.writes ≡ [] }
        ensures window { result.window ≡ window }
    {
        Watch {
            items: Vec::new(alloc),
            window,
        }
    }

    /// Makes room for so many more writes, and changes nothing else; room that exists is kept. An `Err` is
    /// want of memory.
    pub fn reserve(&mut self, more: u64) -> Result<(), AllocError>
        ensures room { OnOk result (more ≤ self.new.spare) }
        ensures kept { self.old.spare ≤ self.new.spare }
        ensures writes { self.new.writes ≡ self.old.writes }
        ensures window { self.new.window ≡ self.old.window }
    {
        self.items.reserve(more as usize)
    }

    /// Adds an accepted write as the newest: what exists under the key from its version on, `None` where it
    /// took the object away. It takes no memory.
    pub fn push(&mut self, version: u64, key: Key, object: Option<Object>)
        requires room { 0 < self.old.spare }
        requires next { version ≡ length self.old.writes + 1 }
        ensures writes { self.new.writes ≡ record { key = key; object = object } ∷ self.old.writes }
        ensures window { self.new.window ≡ self.old.window }
        ensures spare { self.old.spare ≤ self.new.spare + 1 }
    {
        let _ = version;
        self.items.push(Write { key, object }).unwrap();
    }

    /// How many writes were accepted: the version of the newest.
    pub fn accepted(&self) -> u64
        ensures { result ≡ length self.now.writes }
    {
        self.items.len() as u64
    }

    /// The version after which all writes can still be delivered: the accepted writes less the window, or 0.
    pub fn start(&self) -> u64
        ensures { result ≡ start_of self.now }
    {
        self.accepted().saturating_sub(self.window)
    }

    /// The writes, the oldest first.
    pub fn as_slice(&self) -> &[Write]
        ensures { reverse result.now ≡ self.now.writes }
    {
        self.items.as_slice()
    }

    /// The keys of the kind, in order and each once, that accepted writes above `from` and up to `to` named.
    pub fn changed(&self, alloc: Global, kind: Kind, from: u64, to: u64) -> Result<Keys, AllocError>
        ensures { IfOk result (λ keys. AreKeys keys (λ k. is_changed kind from to self.now.writes k)) }
    {
        let writes = self.as_slice();
        let end = last_place(writes, to);
        if end <= from {
            return Ok(Keys::new(alloc));
        }
        let marks = mark_writes(alloc, writes, kind, from, end)?;
        let keys = marks.keys(alloc)?;
        Ok(keys)
    }

    /// The objects of the kind that the first `at` writes leave, as a list request at that resource version
    /// gives them.
    pub fn list(&self, alloc: Global, kind: Kind, at: u64) -> Result<Cache, AllocError>
        requires { at ≤ length self.now.writes }
        ensures { IfOk result (λ objects. objects ≡ spec.contents (spec.of_kind kind (spec.oldest at self.now.writes))) }
    {
        self.list_seeded(alloc, HashSeed::fixed(), kind, at)
    }

    /// The same, where keys and uids are hashed by the seed.
    pub fn list_seeded(
        &self,
        alloc: Global,
        seed: HashSeed,
        kind: Kind,
        at: u64,
    ) -> Result<Cache, AllocError>
        requires { at ≤ length self.now.writes }
        ensures { IfOk result (λ objects. objects ≡ spec.contents (spec.of_kind kind (spec.oldest at self.now.writes))) }
    {
        let mut objects = Cache::seeded(alloc, seed);
        objects.apply(alloc, self.as_slice(), kind, 0, at)?;
        Ok(objects)
    }
}

fn mark_one(alloc: Global, marks: &mut Marks, write: &Write, kind: Kind) -> Result<(), AllocError>
    ensures { OnOk result ((k : KeyValue) → mark_in marks.new k ≡ (if spec.kind_eq write.now.key.kind kind && key_eq write.now.key k then true else mark_in marks.old k)) }
{
    if write.key.kind == kind {
        marks.add(alloc, &write.key)?;
    }
    Ok(())
}

fn last_place(writes: &[Write], to: u64) -> u64
    ensures within { result ≤ length writes.now }
    ensures same { spec.oldest result (reverse writes.now) ≡ spec.oldest to (reverse writes.now) }
{
    let accepted = writes.len() as u64;
    if to < accepted {
        return to;
    }
    accepted
}

fn mark_writes(
    alloc: Global,
    writes: &[Write],
    kind: Kind,
    from: u64,
    to: u64,
) -> Result<Marks, AllocError>
    requires above { from ≤ to }
    requires within { to ≤ length writes.now }
    ensures { IfOk result (λ marks. (k : KeyValue) → mark_in marks k ≡ is_changed kind from to (reverse writes.now) k) }
{
    let mut marks = Marks::new();
    for place in from..to {
        mark_one(alloc, &mut marks, &writes[place as usize], kind)?;
    }
    Ok(marks)
}
