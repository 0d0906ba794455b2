ghost use Rattle.std.proofs.Common.{rules};
ghost use Rattle.std.specs.Cmp.{partial_order_from_own_ties};
ghost use Rattle.std.specs.Cmp.Rules.{comparing, hashing};
ghost use Rattle.std.specs.Hash as fed;
ghost use Rattle.std.specs.Ordering.{nat_cmp, on, as_partial_cmp};
ghost use Rattle.std.specs.Prelude.{◌≡◌, ◌↔◌, ◌==◌, ◌∷◌, ◌++◌, IsTrue, IfOk};
ghost use Rattle.cmc_meta.specs.Keys.{kind_rank};
ghost use Rattle.cmc_meta.specs.Names.{hashed};

use crate::name::Name;
use std::alloc::AllocError;
use std::cmp::Ordering;
use std::hash::{Hash, Hasher};

/// The kinds of objects, in the order that keys have.
#[derive(Clone, Copy)]
pub enum Kind {
    /// A cert-manager.io/v1 Certificate.
    Certificate,
    /// A cert-manager.io/v1 CertificateRequest.
    CertificateRequest,
    /// A v1 Secret.
    Secret,
}

impl Kind {
    fn rank(self) -> u8
        ensures { result ≡ kind_rank self }
    {
        match self {
            Kind::Certificate => 0,
            Kind::CertificateRequest => 1,
            Kind::Secret => 2,
        }
    }

    /// Whether both kinds are one.
    pub fn same(self, other: Kind) -> bool
        ensures { IsTrue result ↔ (self ≡ other) }
    {
        match (self, other) {
            (Kind::Certificate, Kind::Certificate) => true,
            (Kind::CertificateRequest, Kind::CertificateRequest) => true,
            (Kind::Secret, Kind::Secret) => true,
            _ => false,
        }
    }
}

impl PartialEq for Kind {
    ghost eq = { on kind_rank (λ x y. x == y) };

    ghost laws = { Prim.search (comparing, rules) };

    fn eq(&self, other: &Kind) -> bool {
        self.rank() == other.rank()
    }
}

impl Eq for Kind {
    ghost laws = { Prim.search (comparing, rules) };
}

impl PartialOrd for Kind {
    ghost partial_cmp = { as_partial_cmp (on kind_rank nat_cmp) };

    ghost laws = { partial_order_from_own_ties (Prim.search (comparing, rules)) (Prim.search (comparing, rules)) };

    fn partial_cmp(&self, other: &Kind) -> Option<Ordering> {
        Some(self.cmp(other))
    }
}

impl Ord for Kind {
    ghost cmp = { on kind_rank nat_cmp };

    ghost total = { Prim.search (comparing, rules) };

    ghost matches_partial_cmp = { Prim.search (comparing, rules) };

    ghost matches_eq = { Prim.search (comparing, rules) };

    fn cmp(&self, other: &Kind) -> Ordering {
        self.rank().cmp(&other.rank())
    }
}

impl Hash for Kind {
    ghost hash_input = { λ kind. fed.u8 (kind_rank kind) };

    ghost respects_eq = { Prim.search (hashing, rules) };

    fn hash<H: Hasher>(&self, state: &mut H) {
        state.write_u8(self.rank());
    }
}

/// What an object exists under in the store, ordered by its fields.
pub struct Key {
    pub kind: Kind,
    pub namespace: Name,
    pub name: Name,
}

impl Drop for Key {
    fn drop(self) {
        let Key {
            kind: _kind,
            namespace: _namespace,
            name: _name,
        } = self;
    }
}

impl Key {
    /// An equal key.
    pub fn copy(&self) -> Result<Key, AllocError>
        ensures { IfOk result (λ k. k ≡ self.now) }
    {
        Ok(Key {
            kind: self.kind,
            namespace: self.namespace.copy()?,
            name: self.name.copy()?,
        })
    }

    /// Whether both keys name one object.
    pub fn same(&self, other: &Key) -> bool
        ensures { IsTrue result ↔ (self.now ≡ other.now) }
    {
        self.kind.same(other.kind)
            && self.namespace.same(&other.namespace)
            && self.name.same(&other.name)
    }
}

impl PartialEq for Key {
    ghost use Rattle.cmc_meta.specs.Keys.{key_eq};

    ghost eq = { key_eq };

    ghost laws = { Prim.search (comparing, rules) };

    fn eq(&self, other: &Key) -> bool {
        self.kind == other.kind && self.namespace == other.namespace && self.name == other.name
    }
}

impl Eq for Key {
    ghost laws = { Prim.search (comparing, rules) };
}

impl PartialOrd for Key {
    ghost use Rattle.cmc_meta.specs.Keys.{key_cmp};

    ghost partial_cmp = { as_partial_cmp key_cmp };

    ghost laws = { partial_order_from_own_ties (Prim.search (comparing, rules)) (Prim.search (comparing, rules)) };

    fn partial_cmp(&self, other: &Key) -> Option<Ordering> {
        Some(self.cmp(other))
    }
}

impl Ord for Key {
    ghost use Rattle.cmc_meta.specs.Keys.{key_cmp};

    ghost cmp = { key_cmp };

    ghost total = { Prim.search (comparing, rules) };

    ghost matches_partial_cmp = { Prim.search (comparing, rules) };

    ghost matches_eq = { Prim.search (comparing, rules) };

    fn cmp(&self, other: &Key) -> Ordering {
        match self.kind.cmp(&other.kind) {
            Ordering::Equal => match self.namespace.cmp(&other.namespace) {
                Ordering::Equal => self.name.cmp(&other.name),
                unequal => unequal,
            },
            unequal => unequal,
        }
    }
}

impl Hash for Key {
    ghost hash_input = { λ key. fed.u8 (kind_rank key.kind) ++ hashed key.namespace ++ hashed key.name };

    ghost respects_eq = { Prim.search (hashing, rules) };

    fn hash<H: Hasher>(&self, state: &mut H) {
        self.kind.hash(state);
        self.namespace.hash(state);
        self.name.hash(state);
    }
}
