ghost use Rattle.std.specs.Prelude.{◌≡◌, ◌↔◌, IsTrue, IfOk};

use crate::parts::Parts;
use cmc_meta::{Item, ObjectMeta, Text};
use std::alloc::AllocError;

/// A v1 Secret.
pub struct Secret {
    pub meta: ObjectMeta,
    /// The member `type`, such as `Opaque` or `kubernetes.io/tls`.
    pub kind_text: Text,
    /// The member `data`.
    pub parts: Parts,
}

impl Secret {
    /// An equal Secret.
    pub fn copy(&self) -> Result<Secret, AllocError>
        ensures { IfOk result (λ c. c ≡ self.now) }
    {
        Ok(Secret {
            meta: self.meta.copy()?,
            kind_text: self.kind_text.copy()?,
            parts: self.parts.copy()?,
        })
    }

    /// Whether both are equal in each field.
    pub fn same(&self, other: &Secret) -> bool
        ensures { IsTrue result ↔ (self.now ≡ other.now) }
    {
        self.meta.same(&other.meta)
            && self.kind_text.same(&other.kind_text)
            && self.parts.same(&other.parts)
    }
}

impl Item for Secret {
    fn copy(&self) -> Result<Secret, AllocError> {
        Secret::copy(self)
    }

    fn same(&self, other: &Secret) -> bool {
        Secret::same(self, other)
    }
}

impl Drop for Secret {
    fn drop(self) {
        let Secret {
            meta: _meta,
            kind_text: _kind_text,
            parts: _parts,
        } = self;
    }
}
