ghost use Rattle.std.specs.Prelude.{◌≡◌, ◌↔◌, IsTrue, IfOk};

use crate::items::{Item, Items};
use crate::key::Kind;
use crate::name::Name;
use std::alloc::AllocError;

/// An owner reference of an object's metadata (Kubernetes API conventions, `ownerReferences`).
pub struct OwnerRef {
    /// The owner's kind.
    pub kind: Kind,
    /// The owner's name, in the namespace of the object that it owns.
    pub name: Name,
    /// The owner's uid, by which ownership is decided.
    pub uid: u64,
    /// Whether the owner is the managing controller.
    pub controller: bool,
}

impl Drop for OwnerRef {
    fn drop(self) {
        let OwnerRef {
            kind: _kind,
            name: _name,
            uid: _uid,
            controller: _controller,
        } = self;
    }
}

impl OwnerRef {
    /// An equal reference.
    pub fn copy(&self) -> Result<OwnerRef, AllocError>
        ensures { IfOk result (λ o. o ≡ self.now) }
    {
        Ok(OwnerRef {
            kind: self.kind,
            name: self.name.copy()?,
            uid: self.uid,
            controller: self.controller,
        })
    }

    /// Whether both references are equal in each field.
    pub fn same(&self, other: &OwnerRef) -> bool
        ensures { IsTrue result ↔ (self.now ≡ other.now) }
    {
        self.kind.same(other.kind)
            && self.name.same(&other.name)
            && self.uid == other.uid
            && self.controller == other.controller
    }
}

/// A list of owner references.
pub type Owners = Items<OwnerRef>;

impl Item for OwnerRef {
    fn copy(&self) -> Result<OwnerRef, AllocError> {
        OwnerRef::copy(self)
    }

    fn same(&self, other: &OwnerRef) -> bool {
        OwnerRef::same(self, other)
    }
}
