//! Why a request may not be approved.
ghost use Rattle.std.specs.Prelude.{◌≡◌, ◌↔◌, IsTrue, IfOk};

use cmc_meta::Text;
use cmc_policy_rules::Field;
use std::alloc::AllocError;

/// Why a request may not be approved: the first of these that holds.
pub enum Denial {
    /// Its signing request is not readable.
    Unreadable,
    /// Its common name or one of its DNS names is one that no request may have.
    Refused,
    /// No policy for its issuer allows it; the first of these policies has this name, and does not allow this field.
    Policy { name: Text, field: Field },
    /// No policy is for its issuer.
    Unbound,
}

impl Drop for Denial {
    fn drop(self) {
        match self {
            Denial::Unreadable => {}
            Denial::Refused => {}
            Denial::Policy {
                name: _name,
                field: _field,
            } => {}
            Denial::Unbound => {}
        }
    }
}

impl Denial {
    /// An equal denial.
    pub fn copy(&self) -> Result<Denial, AllocError>
        ensures { IfOk result (λ d. d ≡ self.now) }
    {
        match self {
            Denial::Unreadable => Ok(Denial::Unreadable),
            Denial::Refused => Ok(Denial::Refused),
            Denial::Policy { name, field } => Ok(Denial::Policy {
                name: name.copy()?,
                field: *field,
            }),
            Denial::Unbound => Ok(Denial::Unbound),
        }
    }

    /// Whether both are equal.
    pub fn same(&self, other: &Denial) -> bool
        ensures { IsTrue result ↔ (self.now ≡ other.now) }
    {
        match (self, other) {
            (Denial::Unreadable, Denial::Unreadable) => true,
            (Denial::Refused, Denial::Refused) => true,
            (
                Denial::Policy {
                    name: name_a,
                    field: field_a,
                },
                Denial::Policy {
                    name: name_b,
                    field: field_b,
                },
            ) => name_a.same(name_b) && *field_a == *field_b,
            (Denial::Unbound, Denial::Unbound) => true,
            _ => false,
        }
    }
}
