//! The log of accepted writes.
ghost use Rattle.std.specs.Option.{option_copied};
ghost use Rattle.std.specs.Prelude.{◌≡◌, ◌↔◌, ◌+◌, ◌<◌, ◌≤◌, [], ◌∷◌, IsTrue, IfOk, OnOk, OnErr, length, reverse, slice_get, if◌then◌else◌};
ghost use Rattle.cmc_rules.specs.Legality.{IsOfKind};
ghost use Rattle.cmc_model.specs.Writes as spec;

use crate::role_states::{at_kind, put_at_kind};
use cmc_meta::{Key, Kind};
use cmc_model::Write;
use cmc_objects::Positions;
use std::alloc::{AllocError, Global};
use std::marker::Model;

/// The accepted writes, numbered from 1 from the oldest on, and room for more of them.
/// Contracts see the list of the writes, the newest first, and the number of writes for which there
/// is room already.
pub struct Log {
    /// The writes, the oldest first: the write of version n is the nth.
    items: Vec<Write>,
    /// Of each kind the version of the last write, 0 where there is none.
    last: Positions,
}

impl Drop for Log {
    fn drop(self) {
        let Log {
            items: _items,
            last: _last,
        } = self;
    }
}

impl Model for Log {
    ghost use Rattle.std.specs.Prelude.{◌-◌, reverse, vec_len, vec_capacity};
    ghost use Rattle.std.specs.Prelude.{◌≡◌};
    ghost use Rattle.cmc_meta.specs.declared.key.Kind.{Kind as KindValue};
    ghost use Rattle.cmc_model.specs.Writes.{last_of_kind};
    ghost use Rattle.cmc_rules.specs.Positions.{position_of};
    ghost use Rattle.cmc_held.specs.Logs.{Logged};

    ghost Value = { Logged };

    ghost view = { λ l. record { writes = reverse l.items.items; spare = vec_capacity l.items - vec_len l.items } };

    ghost invariant = { λ l. (kind : KindValue) → position_of kind l.last ≡ last_of_kind kind (reverse l.items.items) };
}

impl Log {
    /// No writes. It takes no memory.
    pub fn new(alloc: Global) -> Log
        ensures { result.writes ≡ [] }
    {
        Log {
            items: Vec::new(alloc),
            last: Positions {
                certificates: 0,
                requests: 0,
                secrets: 0,
            },
        }
    }

    /// A copy of it. An `Err` says that memory ran out.
    pub fn copy(&self, alloc: Global) -> Result<Log, AllocError>
        ensures { IfOk result (λ l. l.writes ≡ self.now.writes) }
    {
        Ok(Log {
            items: copies_of(alloc, self.as_slice())?,
            last: self.last,
        })
    }

    /// Makes room for so many more writes, and changes nothing else; room that exists is kept.
    pub fn reserve(&mut self, more: u64) -> Result<(), AllocError>
        ensures room { OnOk result (more ≤ self.new.spare) }
        ensures kept { self.old.spare ≤ self.new.spare }
        ensures same { self.new.writes ≡ self.old.writes }
    {
        self.items.reserve(more as usize)
    }

    /// Adds a write as the newest. It takes no memory.
    pub fn push(&mut self, write: Write)
        requires { 0 < self.old.spare }
        ensures writes { self.new.writes ≡ write ∷ self.old.writes }
        ensures spare { self.old.spare ≤ self.new.spare + 1 }
    {
        let kind = write.key.kind;
        self.items.push(write).unwrap();
        self.last = put_at_kind(self.last, kind, self.items.len() as u64);
    }

    /// How many writes were accepted.
    pub fn accepted(&self) -> u64
        ensures { result ≡ length self.now.writes }
    {
        self.items.len() as u64
    }

    /// The writes, the oldest first.
    pub fn as_slice(&self) -> &[Write]
        ensures { reverse result.now ≡ self.now.writes }
    {
        self.items.as_slice()
    }

    /// The write of the version; `None` exactly where none has it.
    pub fn write(&self, version: u64) -> Option<&Write>
        ensures { option_copied result ≡ spec.write_at version self.now.writes }
    {
        write_of(self.as_slice(), version)
    }

    /// Whether the write of this version is one of the kind; no write has version 0.
    pub fn is_of_kind(&self, version: u64, kind: Kind) -> bool
        ensures { IsTrue result ↔ IsOfKind kind (spec.write_at version self.now.writes) }
    {
        is_of_kind(self.as_slice(), version, kind)
    }

    /// The version of the last write of the kind, 0 where there is none.
    pub fn last_of_kind(&self, kind: Kind) -> u64
        ensures { result ≡ spec.last_of_kind kind self.now.writes }
    {
        at_kind(self.last, kind)
    }

    /// The version of the last write under the key, where it is above this one; 0 where none above it is under the key. It
    /// takes a step for each write above the version.
    pub fn last_above(&self, after: u64, key: &Key) -> u64
        ensures last { 0 < result → result ≡ spec.last_under key.now self.now.writes }
        ensures above { 0 < result → after < result }
        ensures none { result ≡ 0 → spec.last_under key.now self.now.writes ≤ after }
    {
        last_above(self.as_slice(), after, key)
    }
}

fn copy_of(write: &Write) -> Result<Write, AllocError>
    ensures { IfOk result (λ w. w ≡ write.now) }
{
    let object = match &write.object {
        Some(object) => Some(object.copy()?),
        None => None,
    };
    Ok(Write {
        key: write.key.copy()?,
        object,
    })
}

fn copies_of(alloc: Global, writes: &[Write]) -> Result<Vec<Write>, AllocError>
    ensures { IfOk result (λ copies. copies.items ≡ writes.now) }
{
    let mut copies = Vec::new(alloc);
    for write in writes {
        copies.push(copy_of(write)?)?;
    }
    Ok(copies)
}

fn write_in_place(writes: &[Write], place: u64) -> Option<&Write>
    ensures { option_copied result ≡ slice_get writes.now place }
{
    writes.get(place as usize)
}

fn write_of(writes: &[Write], version: u64) -> Option<&Write>
    ensures { option_copied result ≡ spec.write_at version (reverse writes.now) }
{
    if version == 0 {
        return None;
    }
    write_in_place(writes, version - 1)
}

fn is_of_kind(writes: &[Write], version: u64, kind: Kind) -> bool
    ensures { IsTrue result ↔ IsOfKind kind (spec.write_at version (reverse writes.now)) }
{
    match write_of(writes, version) {
        Some(write) => write.key.kind.same(kind),
        None => false,
    }
}

fn last_above(writes: &[Write], after: u64, key: &Key) -> u64
    ensures last { 0 < result → result ≡ spec.last_under key.now (reverse writes.now) }
    ensures above { 0 < result → after < result }
    ensures none { result ≡ 0 → spec.last_under key.now (reverse writes.now) ≤ after }
{
    for newer in 0..writes.len() {
        let version = writes.len() - newer;
        if version as u64 <= after {
            return 0;
        }
        if writes[version - 1].key == *key {
            return version as u64;
        }
    }
    0
}
