//! One approval policy.
ghost use Rattle.std.specs.Prelude.{◌≡◌, ◌↔◌, IsTrue, IfOk};

use crate::optional::{same_bool, same_u32, same_u64};
use crate::pattern::Pattern;
use crate::patterns::Patterns;
use cmc_meta::{copy_optional, same_optional};
use std::alloc::AllocError;

/// Which requests a policy is for, and what such a request may ask (approver-policy's
/// `CertificateRequestPolicySpec`: `selector`, `allowed` and `constraints`).
pub struct Policy {
    pub name: Pattern,
    /// The names of the issuers whose requests it is for.
    pub issuers: Patterns,
    /// The common names; none where absent, as with the other names.
    pub common: Option<Patterns>,
    pub dns: Option<Patterns>,
    /// Octets of addresses, or the one pattern `*` for all.
    pub ips: Option<Patterns>,
    pub uris: Option<Patterns>,
    pub emails: Option<Patterns>,
    /// The key usages, by their whole names.
    pub usages: Patterns,
    /// A certificate authority may be asked for.
    pub ca: bool,
    /// The least duration, in seconds.
    pub min: Option<u64>,
    /// The greatest duration, in seconds.
    pub max: Option<u64>,
    /// The algorithm of the key: true for RSA, false for ECDSA.
    pub algorithm: Option<bool>,
    /// The least size of the key, in bits.
    pub min_size: Option<u32>,
    /// The greatest size of the key, in bits.
    pub max_size: Option<u32>,
}

impl Policy {
    /// An equal policy.
    pub fn copy(&self) -> Result<Policy, AllocError>
        ensures { IfOk result (λ p. p ≡ self.now) }
    {
        Ok(Policy {
            name: self.name.copy()?,
            issuers: self.issuers.copy()?,
            common: copy_optional(&self.common)?,
            dns: copy_optional(&self.dns)?,
            ips: copy_optional(&self.ips)?,
            uris: copy_optional(&self.uris)?,
            emails: copy_optional(&self.emails)?,
            usages: self.usages.copy()?,
            ca: self.ca,
            min: self.min,
            max: self.max,
            algorithm: self.algorithm,
            min_size: self.min_size,
            max_size: self.max_size,
        })
    }

    /// Whether both are equal in each field.
    pub fn same(&self, other: &Policy) -> bool
        ensures { IsTrue result ↔ (self.now ≡ other.now) }
    {
        self.name.same(&other.name)
            && self.issuers.same(&other.issuers)
            && same_optional(&self.common, &other.common)
            && same_optional(&self.dns, &other.dns)
            && same_optional(&self.ips, &other.ips)
            && same_optional(&self.uris, &other.uris)
            && same_optional(&self.emails, &other.emails)
            && self.usages.same(&other.usages)
            && self.ca == other.ca
            && same_u64(self.min, other.min)
            && same_u64(self.max, other.max)
            && same_bool(self.algorithm, other.algorithm)
            && same_u32(self.min_size, other.min_size)
            && same_u32(self.max_size, other.max_size)
    }
}

impl Drop for Policy {
    fn drop(self) {
        let Policy {
            name: _name,
            issuers: _issuers,
            common: _common,
            dns: _dns,
            ips: _ips,
            uris: _uris,
            emails: _emails,
            usages: _usages,
            ca: _ca,
            min: _min,
            max: _max,
            algorithm: _algorithm,
            min_size: _min_size,
            max_size: _max_size,
        } = self;
    }
}
