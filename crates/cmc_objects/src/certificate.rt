ghost use Rattle.std.specs.Prelude.{◌≡◌, ◌↔◌, IsTrue, IfOk};

use crate::issuer::IssuerRef;
use crate::key_spec::KeySpec;
use crate::optional::{same_moment, same_u32, same_u64};
use crate::shared::Shared;
use cmc_meta::{Conditions, Item, Name, ObjectMeta, Text, Texts, copy_optional, same_optional};
use std::alloc::{AllocError, Global};

/// The spec of a Certificate (cert-manager.io/v1 `CertificateSpec`).
pub struct CertSpec {
    /// The Secret that gets the key and the certificate.
    pub secret_name: Name,
    pub issuer: IssuerRef,
    /// The common name, empty where absent.
    pub common_name: Text,
    pub dns_names: Texts,
    pub ip_addresses: Texts,
    pub uris: Texts,
    pub emails: Texts,
    pub is_ca: bool,
    pub usages: Texts,
    /// How long a certificate is asked for, in seconds; 2160 hours where absent.
    pub duration: Option<u64>,
    /// How long before its end a certificate is renewed, in seconds.
    pub renew_before: Option<u64>,
    /// At which remaining part of its lifetime a certificate is renewed, in percent.
    pub renew_percent: Option<u32>,
    pub key: KeySpec,
    /// How many CertificateRequests are kept; all where absent.
    pub history_limit: Option<u32>,
}

/// The status of a Certificate (cert-manager.io/v1 `CertificateStatus`). Moments are in seconds since
/// 1970-01-01T00:00:00Z.
pub struct CertStatus {
    pub conditions: Conditions,
    pub last_failure: Option<i64>,
    pub attempts: Option<u32>,
    pub not_before: Option<i64>,
    pub not_after: Option<i64>,
    pub renewal: Option<i64>,
    /// The revision of the certificate that exists; 0 where absent.
    pub revision: Option<u64>,
    /// The Secret with the key of the issuance in progress.
    pub next_key: Option<Name>,
}

/// A cert-manager.io/v1 Certificate.
pub struct Certificate {
    pub meta: ObjectMeta,
    pub spec: Shared<CertSpec>,
    pub status: Shared<CertStatus>,
}

impl CertSpec {
    ghost use Rattle.cmc_objects.specs.Defaults.{certificate_duration};

    /// The duration that counts, in seconds: 2160 hours where none is given.
    pub fn duration_at_use(&self) -> u64
        ensures { result ≡ certificate_duration self.now.duration }
    {
        match self.duration {
            Some(duration) => duration,
            None => 7_776_000,
        }
    }

    /// An equal spec.
    pub fn copy(&self) -> Result<CertSpec, AllocError>
        ensures { IfOk result (λ c. c ≡ self.now) }
    {
        Ok(CertSpec {
            secret_name: self.secret_name.copy()?,
            issuer: self.issuer.copy()?,
            common_name: self.common_name.copy()?,
            dns_names: self.dns_names.copy()?,
            ip_addresses: self.ip_addresses.copy()?,
            uris: self.uris.copy()?,
            emails: self.emails.copy()?,
            is_ca: self.is_ca,
            usages: self.usages.copy()?,
            duration: self.duration,
            renew_before: self.renew_before,
            renew_percent: self.renew_percent,
            key: self.key,
            history_limit: self.history_limit,
        })
    }

    /// Whether both are equal in each field.
    pub fn same(&self, other: &CertSpec) -> bool
        ensures { IsTrue result ↔ (self.now ≡ other.now) }
    {
        self.secret_name.same(&other.secret_name)
            && self.issuer.same(&other.issuer)
            && self.common_name.same(&other.common_name)
            && self.dns_names.same(&other.dns_names)
            && self.ip_addresses.same(&other.ip_addresses)
            && self.uris.same(&other.uris)
            && self.emails.same(&other.emails)
            && self.is_ca == other.is_ca
            && self.usages.same(&other.usages)
            && same_u64(self.duration, other.duration)
            && same_u64(self.renew_before, other.renew_before)
            && same_u32(self.renew_percent, other.renew_percent)
            && self.key.same(&other.key)
            && same_u32(self.history_limit, other.history_limit)
    }
}

impl CertStatus {
    ghost use Rattle.cmc_objects.specs.Objects.{no_cert_status};

    /// The status that a new Certificate has. It takes no memory.
    pub fn new(alloc: Global) -> CertStatus
        ensures { result ≡ no_cert_status }
    {
        CertStatus {
            conditions: Conditions::new(alloc),
            last_failure: None,
            attempts: None,
            not_before: None,
            not_after: None,
            renewal: None,
            revision: None,
            next_key: None,
        }
    }

    /// An equal status.
    pub fn copy(&self) -> Result<CertStatus, AllocError>
        ensures { IfOk result (λ c. c ≡ self.now) }
    {
        Ok(CertStatus {
            conditions: self.conditions.copy()?,
            last_failure: self.last_failure,
            attempts: self.attempts,
            not_before: self.not_before,
            not_after: self.not_after,
            renewal: self.renewal,
            revision: self.revision,
            next_key: copy_optional(&self.next_key)?,
        })
    }

    /// Whether both are equal in each field.
    pub fn same(&self, other: &CertStatus) -> bool
        ensures { IsTrue result ↔ (self.now ≡ other.now) }
    {
        self.conditions.same(&other.conditions)
            && same_moment(self.last_failure, other.last_failure)
            && same_u32(self.attempts, other.attempts)
            && same_moment(self.not_before, other.not_before)
            && same_moment(self.not_after, other.not_after)
            && same_moment(self.renewal, other.renewal)
            && same_u64(self.revision, other.revision)
            && same_optional(&self.next_key, &other.next_key)
    }
}

impl Certificate {
    /// An equal Certificate.
    pub fn copy(&self) -> Result<Certificate, AllocError>
        ensures { IfOk result (λ c. c ≡ self.now) }
    {
        Ok(Certificate {
            meta: self.meta.copy()?,
            spec: self.spec.copy()?,
            status: self.status.copy()?,
        })
    }

    /// Whether both are equal in each field.
    pub fn same(&self, other: &Certificate) -> bool
        ensures { IsTrue result ↔ (self.now ≡ other.now) }
    {
        self.meta.same(&other.meta)
            && self.spec.same(&other.spec)
            && self.status.same(&other.status)
    }
}

impl Item for Certificate {
    fn copy(&self) -> Result<Certificate, AllocError> {
        Certificate::copy(self)
    }

    fn same(&self, other: &Certificate) -> bool {
        Certificate::same(self, other)
    }
}

impl Drop for CertSpec {
    fn drop(self) {
        let CertSpec {
            secret_name: _secret_name,
            issuer: _issuer,
            common_name: _common_name,
            dns_names: _dns_names,
            ip_addresses: _ip_addresses,
            uris: _uris,
            emails: _emails,
            is_ca: _is_ca,
            usages: _usages,
            duration: _duration,
            renew_before: _renew_before,
            renew_percent: _renew_percent,
            key: _key,
            history_limit: _history_limit,
        } = self;
    }
}

impl Drop for CertStatus {
    fn drop(self) {
        let CertStatus {
            conditions: _conditions,
            last_failure: _last_failure,
            attempts: _attempts,
            not_before: _not_before,
            not_after: _not_after,
            renewal: _renewal,
            revision: _revision,
            next_key: _next_key,
        } = self;
    }
}

impl Drop for Certificate {
    fn drop(self) {
        let Certificate {
            meta: _meta,
            spec: _spec,
            status: _status,
        } = self;
    }
}
