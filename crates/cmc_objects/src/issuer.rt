ghost use Rattle.std.specs.Prelude.{◌≡◌, ◌↔◌, IsTrue, IfOk};

use cmc_meta::{Text, copy_optional, same_optional};
use std::alloc::AllocError;

/// The issuer that a Certificate or a CertificateRequest names (cert-manager.io/v1 `issuerRef`).
pub struct IssuerRef {
    pub name: Text,
    /// `Issuer` where absent.
    pub kind: Option<Text>,
    /// `cert-manager.io` where absent.
    pub group: Option<Text>,
}

impl Drop for IssuerRef {
    fn drop(self) {
        let IssuerRef {
            name: _name,
            kind: _kind,
            group: _group,
        } = self;
    }
}

impl IssuerRef {
    ghost use Rattle.cmc_objects.specs.Defaults.{issuer_kind, issuer_group};

    /// The kind that counts: `Issuer` where none is given.
    pub fn kind_at_use(&self) -> &str
        ensures { result.now ≡ issuer_kind self.now }
    {
        match &self.kind {
            Some(kind) => kind.as_str(),
            None => "Issuer",
        }
    }

    /// The group that counts: `cert-manager.io` where none is given.
    pub fn group_at_use(&self) -> &str
        ensures { result.now ≡ issuer_group self.now }
    {
        match &self.group {
            Some(group) => group.as_str(),
            None => "cert-manager.io",
        }
    }

    /// An equal reference.
    pub fn copy(&self) -> Result<IssuerRef, AllocError>
        ensures { IfOk result (λ r. r ≡ self.now) }
    {
        Ok(IssuerRef {
            name: self.name.copy()?,
            kind: copy_optional(&self.kind)?,
            group: copy_optional(&self.group)?,
        })
    }

    /// Whether both are equal in each field, an absent one being equal to an absent one alone.
    pub fn same(&self, other: &IssuerRef) -> bool
        ensures { IsTrue result ↔ (self.now ≡ other.now) }
    {
        self.name.same(&other.name)
            && same_optional(&self.kind, &other.kind)
            && same_optional(&self.group, &other.group)
    }
}
