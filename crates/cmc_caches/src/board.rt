//! One board of versions for all roles.
ghost use Rattle.std.specs.Option.{option_copied};
ghost use Rattle.std.specs.Prelude.{◌≡◌, ◌+◌, ◌<◌, ◌≤◌, ◌∷◌, [], IfOk, OnOk, OnErr, Some, None, length, if◌then◌else◌};
ghost use Rattle.cmc_meta.specs.declared.key.Kind.TheVariants as kinds;
ghost use Rattle.cmc_model.specs.Objects.{object_at};
ghost use Rattle.cmc_model.specs.Writes.{kind_eq, last_under};
ghost use Rattle.cmc_caches.specs.Board.{AreBornWhereNumbered, IsColumnBy, IsColumnFailed, LeadTo, column_of, objects_by};
ghost use Rattle.cmc_caches.specs.Lines.{left_by_write};
ghost use Rattle.cmc_informer.specs.Caches.{has_uid, is_owned_by, is_targeting, secret_key};
ghost use Rattle.cmc_informer.specs.Indexes.{Finds};

use crate::column::Column;
use crate::gather::joined;
use crate::lines::Lines;
use crate::walk::last_until;
use cmc_held::Log;
use cmc_informer::Keys;
use cmc_meta::{Key, Kind, Name};
use cmc_model::Write;
use cmc_objects::Object;
use cmc_seed::HashSeed;
use std::alloc::{AllocError, Global};
use std::marker::Model;

/// The accepted writes, under each key where its versions stand in them, and of each kind the objects that the known
/// writes leave. A write is accepted at once, and known when a role is first told of it: that takes memory.
pub(crate) struct Board {
    log: Log,
    /// How many of the writes the rest knows.
    known: u64,
    lines: Lines,
    certificates: Column,
    requests: Column,
    secrets: Column,
}

impl Drop for Board {
    fn drop(self) {
        let Board {
            log: _log,
            known: _known,
            lines: _lines,
            certificates: _certificates,
            requests: _requests,
            secrets: _secrets,
        } = self;
    }
}

impl Model for Board {
    ghost use Rattle.cmc_caches.specs.Board.{Boarded, IsBoard};

    ghost Value = { Boarded };

    ghost view = { λ b. record { writes = b.log.writes; spare = b.log.spare; known = b.known } };

    ghost invariant = { λ b. IsBoard b.lines b.certificates b.requests b.secrets b.known b.log.writes };
}

/// Applies the write to the column of its kind.
fn apply_to(
    alloc: Global,
    certificates: &mut Column,
    requests: &mut Column,
    secrets: &mut Column,
    write: &Write,
    number: u64,
) -> Result<(), AllocError>
    ensures certificates { OnOk result (IsColumnBy (kind_eq write.now.key.kind kinds.Certificate) number write.now certificates.old certificates.new) }
    ensures requests { OnOk result (IsColumnBy (kind_eq write.now.key.kind kinds.CertificateRequest) number write.now requests.old requests.new) }
    ensures secrets { OnOk result (IsColumnBy (kind_eq write.now.key.kind kinds.Secret) number write.now secrets.old secrets.new) }
    ensures no_certificates { OnErr result (IsColumnFailed (kind_eq write.now.key.kind kinds.Certificate) number certificates.old certificates.new) }
    ensures no_requests { OnErr result (IsColumnFailed (kind_eq write.now.key.kind kinds.CertificateRequest) number requests.old requests.new) }
    ensures no_secrets { OnErr result (IsColumnFailed (kind_eq write.now.key.kind kinds.Secret) number secrets.old secrets.new) }
{
    match write.key.kind {
        Kind::Certificate => certificates.take_in(alloc, write, number),
        Kind::CertificateRequest => requests.take_in(alloc, write, number),
        Kind::Secret => secrets.take_in(alloc, write, number),
    }
}

/// The object that a write left.
fn object_of(write: Option<&Write>) -> Option<&Object>
    ensures { option_copied result ≡ left_by_write (option_copied write.entry) }
{
    match write {
        Some(write) => write.object.as_ref(),
        None => None,
    }
}

fn column_for<'a>(
    certificates: &'a Column,
    requests: &'a Column,
    secrets: &'a Column,
    kind: Kind,
) -> &'a Column
    ensures { result.now ≡ column_of kind certificates.now requests.now secrets.now }
{
    match kind {
        Kind::Certificate => certificates,
        Kind::CertificateRequest => requests,
        Kind::Secret => secrets,
    }
}

fn key_of_secret(namespace: &Name, name: &Name) -> Result<Key, AllocError>
    ensures { IfOk result (λ k. k ≡ secret_key namespace.now name.now) }
{
    Ok(Key {
        kind: Kind::Secret,
        namespace: namespace.copy()?,
        name: name.copy()?,
    })
}

fn has_this_uid(object: Option<&Object>, uid: u64) -> bool
    ensures { result ≡ has_uid uid (option_copied object.entry) }
{
    match object {
        Some(object) => object.meta().uid == uid,
        None => false,
    }
}

impl Board {
    /// These writes, of which none is known; keys and uids are hashed by the seed. It takes no memory.
    fn of(alloc: Global, seed: HashSeed, log: Log) -> Board
        ensures { result.writes ≡ log.writes }
    {
        Board {
            log,
            known: 0,
            lines: Lines::new(alloc, seed),
            certificates: Column::new(alloc, seed),
            requests: Column::new(alloc, seed),
            secrets: Column::new(alloc, seed),
        }
    }

    /// No writes, and keys and uids are hashed by the seed. It takes no memory.
    pub(crate) fn new(alloc: Global, seed: HashSeed) -> Board
        ensures { result.writes ≡ [] }
    {
        Board::of(alloc, seed, Log::new(alloc))
    }

    /// What keys and uids are hashed by.
    pub(crate) fn seed(&self) -> HashSeed {
        self.certificates.objects().seed()
    }

    /// The accepted writes.
    pub(crate) fn log(&self) -> &Log
        ensures writes { result.now.writes ≡ self.now.writes }
        ensures spare { result.now.spare ≡ self.now.spare }
    {
        &self.log
    }

    /// The same writes, of which none is known. An `Err` says that memory ran out.
    pub(crate) fn same_writes(&self, alloc: Global) -> Result<Board, AllocError>
        ensures { IfOk result (λ b. b.writes ≡ self.now.writes) }
    {
        Ok(Board::of(alloc, self.seed(), self.log.copy(alloc)?))
    }

    /// The version of the last write under the key, 0 where there is none. It takes a step for each write that is not
    /// known.
    pub(crate) fn last_under(&self, key: &Key) -> u64
        ensures { result ≡ last_under key.now self.now.writes }
    {
        let newer = self.log.last_above(self.known, key);
        if 0 < newer {
            return newer;
        }
        last_until(self.lines.get(key), self.known)
    }

    /// Makes room for so many more writes, and changes nothing else; room that exists is kept.
    pub(crate) fn reserve(&mut self, more: u64) -> Result<(), AllocError>
        ensures room { OnOk result (more ≤ self.new.spare) }
        ensures kept { self.old.spare ≤ self.new.spare }
        ensures same { self.new.writes ≡ self.old.writes }
        ensures known { self.new.known ≡ self.old.known }
    {
        self.log.reserve(more)
    }

    /// Accepts a write as the newest. It takes no memory.
    pub(crate) fn push(&mut self, write: Write)
        requires { 0 < self.old.spare }
        ensures writes { self.new.writes ≡ write ∷ self.old.writes }
        ensures spare { self.old.spare ≤ self.new.spare + 1 }
        ensures known { self.new.known ≡ self.old.known }
        ensures within { self.old.known ≤ length self.old.writes }
    {
        self.log.push(write);
    }

    /// Takes in the next write. Where memory runs out no more writes are known.
    fn take_in(&mut self, alloc: Global) -> Result<(), AllocError>
        requires { self.old.known < length self.old.writes }
        ensures writes { self.new.writes ≡ self.old.writes }
        ensures spare { self.new.spare ≡ self.old.spare }
        ensures ok { OnOk result (self.new.known ≡ self.old.known + 1) }
        ensures err { OnErr result (self.new.known ≡ self.old.known) }
    {
        let write = &self.log.as_slice()[self.known as usize];
        let number = self.known + 1;
        self.lines.room(alloc, &write.key)?;
        apply_to(
            alloc,
            &mut self.certificates,
            &mut self.requests,
            &mut self.secrets,
            write,
            number,
        )?;
        self.lines.push(&write.key, number);
        self.known = number;
        Ok(())
    }

    /// Takes in the writes up to the number. Where memory runs out some of them are known.
    pub(crate) fn catch_up(&mut self, alloc: Global, to: u64) -> Result<(), AllocError>
        requires { to ≤ length self.old.writes }
        ensures writes { self.new.writes ≡ self.old.writes }
        ensures spare { self.new.spare ≡ self.old.spare }
        ensures known { self.old.known ≤ self.new.known }
        ensures ok { OnOk result (to ≤ self.new.known) }
    {
        'next: while self.known < to {
            self.take_in(alloc)?;
        }
        Ok(())
    }

    /// The object of the kind under the key, as the first writes up to the position leave it; `None` exactly where none
    /// exists. It takes a step for each write of the key after the position.
    pub(crate) fn get(&self, kind: Kind, position: u64, key: &Key) -> Option<&Object>
        requires { position ≤ self.now.known }
        ensures { option_copied result ≡ object_at (objects_by kind position self.now.writes) key.now }
    {
        if key.kind == kind {
            let number = last_until(self.lines.get(key), position);
            return object_of(self.log.write(number));
        }
        None
    }

    /// Keys of the kind, in order, among which are those of all objects that have an owner reference of this uid after
    /// the first writes up to the position.
    pub(crate) fn owned_by(
        &self,
        alloc: Global,
        kind: Kind,
        position: u64,
        uid: u64,
    ) -> Result<Keys, AllocError>
        requires { position ≤ self.now.known }
        ensures { IfOk result (λ keys. LeadTo keys (λ k. is_owned_by uid (object_at (objects_by kind position self.now.writes) k))) }
    {
        let column = column_for(&self.certificates, &self.requests, &self.secrets, kind);
        let now = column.objects().owned_by(alloc, uid)?;
        joined(alloc, now, &self.log, column.left_owner(uid), position)
    }

    /// Keys, in order, among which are those of all Certificates of the namespace whose `secretName` is this name after
    /// the first writes up to the position.
    pub(crate) fn by_secret(
        &self,
        alloc: Global,
        kind: Kind,
        position: u64,
        namespace: &Name,
        name: &Name,
    ) -> Result<Keys, AllocError>
        requires { position ≤ self.now.known }
        ensures { IfOk result (λ keys. LeadTo keys (λ k. is_targeting namespace.now name.now (object_at (objects_by kind position self.now.writes) k))) }
    {
        let secret = key_of_secret(namespace, name)?;
        let column = column_for(&self.certificates, &self.requests, &self.secrets, kind);
        let now = column.objects().by_secret(alloc, namespace, name)?;
        joined(alloc, now, &self.log, column.left_target(&secret), position)
    }

    /// The key of the object of the kind that has this uid after the first writes up to the position; `None` exactly
    /// where none has it. The uid of an object is the number of a write that names its key.
    pub(crate) fn by_uid(&self, kind: Kind, position: u64, uid: u64) -> Option<&Key>
        requires known { position ≤ self.now.known }
        requires born { AreBornWhereNumbered self.now.writes }
        ensures { Finds (λ k. has_uid uid (object_at (objects_by kind position self.now.writes) k)) (option_copied result) }
    {
        match self.log.write(uid) {
            Some(write) => self.key_with_uid(kind, position, &write.key, uid),
            None => None,
        }
    }

    /// The key, where the object under it has this uid.
    fn key_with_uid<'a>(&self, kind: Kind, position: u64, key: &'a Key, uid: u64) -> Option<&'a Key>
        requires { position ≤ self.now.known }
        ensures { option_copied result ≡ (if has_uid uid (object_at (objects_by kind position self.now.writes) key.now) then Some key.now else None) }
    {
        if has_this_uid(self.get(kind, position, key), uid) {
            return Some(key);
        }
        None
    }
}
