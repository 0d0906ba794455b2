//! The board as one role sees one kind of it.
ghost use Rattle.std.specs.Option.{option_copied};
ghost use Rattle.std.specs.Prelude.{◌≡◌, ◌≤◌, IfOk};
ghost use Rattle.cmc_model.specs.Objects.{object_at};
ghost use Rattle.cmc_caches.specs.Board.{AreBornWhereNumbered, LeadTo, shown_by};
ghost use Rattle.cmc_informer.specs.Caches.{has_uid, is_owned_by, is_targeting};
ghost use Rattle.cmc_informer.specs.Indexes.{Finds};

use crate::board::Board;
use cmc_informer::Keys;
use cmc_meta::{Key, Kind, Name};
use cmc_objects::Object;
use std::alloc::{AllocError, Global};
use std::marker::Model;

/// The objects of a kind as the writes of the board up to a position leave them.
#[derive(Drop)]
pub(crate) struct Shown<'a> {
    board: &'a Board,
    kind: Kind,
    position: u64,
}

impl<'a> Model for Shown<'a> {
    ghost use Rattle.std.specs.Prelude.{◌≤◌};
    ghost use Rattle.cmc_caches.specs.Board.{ShownKind};

    ghost Value = { ShownKind };

    ghost view = { λ s. record { writes = s.board.now.writes; kind = s.kind; position = s.position } };

    ghost invariant = { λ s. s.position ≤ s.board.now.known };
}

impl<'a> Shown<'a> {
    /// The objects of the kind at the position.
    pub(crate) fn new(board: &'a Board, kind: Kind, position: u64) -> Shown<'a>
        requires { position ≤ board.now.known }
        ensures { result ≡ record { writes = board.now.writes; kind = kind; position = position } }
    {
        Shown {
            board,
            kind,
            position,
        }
    }

    /// The object under the key; `None` exactly where none exists.
    pub(crate) fn get(&self, key: &Key) -> Option<&Object>
        ensures { option_copied result ≡ object_at (shown_by self.now) key.now }
    {
        self.board.get(self.kind, self.position, key)
    }

    /// Keys, in order, among which are those of all objects that have an owner reference of this uid.
    pub(crate) fn owned_by(&self, alloc: Global, uid: u64) -> Result<Keys, AllocError>
        ensures { IfOk result (λ keys. LeadTo keys (λ k. is_owned_by uid (object_at (shown_by self.now) k))) }
    {
        self.board.owned_by(alloc, self.kind, self.position, uid)
    }

    /// Keys, in order, among which are those of all Certificates of the namespace whose `secretName` is this name.
    pub(crate) fn by_secret(
        &self,
        alloc: Global,
        namespace: &Name,
        name: &Name,
    ) -> Result<Keys, AllocError>
        ensures { IfOk result (λ keys. LeadTo keys (λ k. is_targeting namespace.now name.now (object_at (shown_by self.now) k))) }
    {
        self.board
            .by_secret(alloc, self.kind, self.position, namespace, name)
    }

    /// The key of the object that has this uid; `None` exactly where none has it.
    pub(crate) fn by_uid(&self, uid: u64) -> Option<&Key>
        requires { AreBornWhereNumbered self.now.writes }
        ensures { Finds (λ k. has_uid uid (object_at (shown_by self.now) k)) (option_copied result) }
    {
        self.board.by_uid(self.kind, self.position, uid)
    }
}
