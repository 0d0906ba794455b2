//! What all roles were told of.
ghost use Rattle.std.specs.Prelude.{◌≡◌, ◌+◌, ◌<◌, ◌≤◌, ◌∷◌, [], IfOk, OnOk, OnErr, length, if◌then◌else◌};
ghost use Rattle.cmc_objects.specs.Informers.{kind_of_work};
ghost use Rattle.cmc_objects.specs.declared.role.Role.{Role as RoleValue};
ghost use Rattle.cmc_model.specs.Histories.{role_eq};
ghost use Rattle.cmc_model.specs.Writes as spec;
ghost use Rattle.cmc_rules.specs.Memory.{with_position};
ghost use Rattle.cmc_rules.specs.Positions.{position_of};
ghost use Rattle.cmc_rules.specs.Views.{views_in};
ghost use Rattle.cmc_caches.specs.Affected.{AreNamed, SeesSame};
ghost use Rattle.cmc_caches.specs.Board.{AreBornWhereNumbered, objects_by};
ghost use Rattle.cmc_caches.specs.Posted.{AreUntold, caches_of, told_of, untold};
ghost use Rattle.cmc_caches.specs.Told.{with_cached};

use crate::affected::affected_on;
use crate::board::Board;
use crate::shown::Shown;
use crate::viewing::views_on;
use cmc_held::{Log, at_kind, put_at_kind};
use cmc_meta::{Key, Kind};
use cmc_model::Write;
use cmc_objects::{Positions, Role};
use cmc_pass::Views;
use cmc_seed::HashSeed;
use std::alloc::{AllocError, Global};
use std::marker::Model;

/// The accepted writes, and what each of the eight roles was told of them. Contracts see the writes, the newest first, and
/// the positions of the roles in the order of roles.
pub struct Caches {
    board: Board,
    /// Up to which write each role was told, of each kind, in the order of roles.
    rows: Vec<Positions>,
}

impl Drop for Caches {
    fn drop(self) {
        let Caches {
            board: _board,
            rows: _rows,
        } = self;
    }
}

impl Model for Caches {
    ghost use Rattle.std.specs.Prelude.{◌≡◌, length};
    ghost use Rattle.cmc_caches.specs.Posted.{AreWithin, Posted};

    ghost Value = { Posted };

    ghost view = { λ c. record { writes = c.board.writes; spare = c.board.spare; told = c.rows.items } };

    ghost invariant = { λ c. (length c.rows.items ≡ 8) × AreWithin c.board.known c.rows.items };
}

/// A row for each of the eight roles, told of nothing.
fn untold_rows(alloc: Global) -> Result<Vec<Positions>, AllocError>
    ensures count { IfOk result (λ rows. length rows.items ≡ 8) }
    ensures none { IfOk result (λ rows. AreUntold rows.items) }
{
    let none = Positions {
        certificates: 0,
        requests: 0,
        secrets: 0,
    };
    let rows = vec![in alloc; none, none, none, none, none, none, none, none]?;
    Ok(rows)
}

impl Caches {
    /// No writes, and no role was told of anything.
    pub fn new(alloc: Global) -> Result<Caches, AllocError>
        ensures writes { IfOk result (λ c. c.writes ≡ []) }
        ensures told { IfOk result (λ c. (r : RoleValue) → told_of c.told r ≡ untold) }
    {
        Caches::seeded(alloc, HashSeed::fixed())
    }

    /// The same, where keys and uids are hashed by the seed.
    pub fn seeded(alloc: Global, seed: HashSeed) -> Result<Caches, AllocError>
        ensures writes { IfOk result (λ c. c.writes ≡ []) }
        ensures told { IfOk result (λ c. (r : RoleValue) → told_of c.told r ≡ untold) }
    {
        let board = Board::new(alloc, seed);
        let rows = untold_rows(alloc)?;
        Ok(Caches { board, rows })
    }

    /// What keys and uids are hashed by.
    pub fn seed(&self) -> HashSeed {
        self.board.seed()
    }

    /// The accepted writes.
    pub fn log(&self) -> &Log
        ensures writes { result.now.writes ≡ self.now.writes }
        ensures spare { result.now.spare ≡ self.now.spare }
    {
        self.board.log()
    }

    /// The same writes, of which no role is told. An `Err` says that memory ran out.
    pub fn same_writes(&self, alloc: Global) -> Result<Caches, AllocError>
        ensures writes { IfOk result (λ c. c.writes ≡ self.now.writes) }
        ensures told { IfOk result (λ c. (r : RoleValue) → told_of c.told r ≡ untold) }
    {
        let board = self.board.same_writes(alloc)?;
        let rows = untold_rows(alloc)?;
        Ok(Caches { board, rows })
    }

    /// The version of the last write under the key, 0 where there is none. It takes a step for each write of which no
    /// role was told yet.
    pub fn last_under(&self, key: &Key) -> u64
        ensures { result ≡ spec.last_under key.now self.now.writes }
    {
        self.board.last_under(key)
    }

    /// Whether an accepted write named the key. It takes as many steps as `last_under`.
    pub fn knows(&self, key: &Key) -> bool
        ensures { result ≡ spec.is_known key.now self.now.writes }
    {
        0 < self.board.last_under(key)
    }

    /// Makes room for so many more writes, and changes nothing else; room that exists is kept.
    pub fn reserve(&mut self, more: u64) -> Result<(), AllocError>
        ensures room { OnOk result (more ≤ self.new.spare) }
        ensures kept { self.old.spare ≤ self.new.spare }
        ensures writes { self.new.writes ≡ self.old.writes }
        ensures told { self.new.told ≡ self.old.told }
    {
        self.board.reserve(more)
    }

    /// Accepts a write as the newest, of which no role is told yet. It takes no memory.
    pub fn push(&mut self, write: Write)
        requires { 0 < self.old.spare }
        ensures writes { self.new.writes ≡ write ∷ self.old.writes }
        ensures spare { self.old.spare ≤ self.new.spare + 1 }
        ensures told { self.new.told ≡ self.old.told }
    {
        self.board.push(write);
    }

    /// Tells the role of the writes of the kind up to the version, and no other role of anything. An `Err` says that
    /// memory ran out, and leaves all as it was.
    pub fn tell(&mut self, alloc: Global, role: Role, kind: Kind, to: u64) -> Result<(), AllocError>
        requires { to ≤ length self.old.writes }
        ensures writes { self.new.writes ≡ self.old.writes }
        ensures spare { self.new.spare ≡ self.old.spare }
        ensures ok { OnOk result ((r : RoleValue) → told_of self.new.told r ≡ (if role_eq role r then with_position kind to (told_of self.old.told role) else told_of self.old.told r)) }
        ensures err { OnErr result (self.new ≡ self.old) }
    {
        self.board.catch_up(alloc, to)?;
        let place = role.rank() as usize;
        self.rows[place] = put_at_kind(self.rows[place], kind, to);
        Ok(())
    }

    /// The role lists each kind: it was told of just the writes up to these versions, and no other role of anything else.
    /// An `Err` says that memory ran out, and leaves all as it was.
    pub fn start(&mut self, alloc: Global, role: Role, at: Positions) -> Result<(), AllocError>
        requires certificates { at.certificates ≤ length self.old.writes }
        requires requests { at.requests ≤ length self.old.writes }
        requires secrets { at.secrets ≤ length self.old.writes }
        ensures writes { self.new.writes ≡ self.old.writes }
        ensures spare { self.new.spare ≡ self.old.spare }
        ensures ok { OnOk result ((r : RoleValue) → told_of self.new.told r ≡ (if role_eq role r then at else told_of self.old.told r)) }
        ensures err { OnErr result (self.new ≡ self.old) }
    {
        self.board.catch_up(alloc, at.certificates)?;
        self.board.catch_up(alloc, at.requests)?;
        self.board.catch_up(alloc, at.secrets)?;
        self.rows[role.rank() as usize] = at;
        Ok(())
    }

    /// What the role sees of the key.
    pub fn views(&self, alloc: Global, role: Role, key: &Key) -> Result<Views, AllocError>
        ensures { IfOk result (λ seen. seen ≡ views_in role (caches_of self.now role) key.now) }
    {
        let at = self.rows[role.rank() as usize];
        let certificates = Shown::new(&self.board, Kind::Certificate, at.certificates);
        let requests = Shown::new(&self.board, Kind::CertificateRequest, at.requests);
        let secrets = Shown::new(&self.board, Kind::Secret, at.secrets);
        views_on(alloc, role, &certificates, &requests, &secrets, key)
    }

    /// The keys of which the role may see something new once it is told of the writes of the kind up to the version: of
    /// each other key it sees the same before and after. Each is a key of the role's work that an accepted write names.
    /// It may list a key twice.
    ///
    /// A key is found by the uid of its Certificate: the uid of an object is the version of the write that created it.
    pub fn affected(
        &self,
        alloc: Global,
        role: Role,
        kind: Kind,
        to: u64,
    ) -> Result<Vec<Key>, AllocError>
        requires above { position_of kind (told_of self.now.told role) ≤ to }
        requires within { to ≤ length self.now.writes }
        requires born { AreBornWhereNumbered self.now.writes }
        ensures work { IfOk result (λ keys. AreNamed (kind_of_work role) self.now.writes keys.items) }
        ensures sees { IfOk result (λ keys. SeesSame role keys.items (caches_of self.now role) (with_cached kind (objects_by kind to self.now.writes) (caches_of self.now role))) }
    {
        let at = self.rows[role.rank() as usize];
        let certificates = Shown::new(&self.board, Kind::Certificate, at.certificates);
        let requests = Shown::new(&self.board, Kind::CertificateRequest, at.requests);
        let secrets = Shown::new(&self.board, Kind::Secret, at.secrets);
        affected_on(
            alloc,
            role,
            &certificates,
            &requests,
            &secrets,
            self.board.log().as_slice(),
            kind,
            at_kind(at, kind),
            to,
        )
    }
}
