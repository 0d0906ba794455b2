ghost use Rattle.std.specs.Prelude.{◌≡◌, ◌↔◌, IsTrue, IfOk};

use crate::issuer::IssuerRef;
use crate::optional::{same_moment, same_u64};
use crate::shared::Shared;
use crate::signing_request::SigningRequest;
use cmc_meta::{Bytes, Conditions, Item, ObjectMeta, Texts};
use std::alloc::{AllocError, Global};

/// The spec of a CertificateRequest (cert-manager.io/v1 `CertificateRequestSpec`).
pub struct RequestSpec {
    pub issuer: IssuerRef,
    /// How long a certificate is asked for, in seconds.
    pub duration: Option<u64>,
    pub is_ca: bool,
    pub usages: Texts,
    /// The DER of a certificate signing request, with what is read of it.
    pub request: SigningRequest,
}

/// The status of a CertificateRequest (cert-manager.io/v1 `CertificateRequestStatus`).
pub struct RequestStatus {
    pub conditions: Conditions,
    /// The DER of the certificate, empty where there is none.
    pub certificate: Bytes,
    /// The DER of the CA's certificate, empty where there is none.
    pub ca: Bytes,
    /// The moment of a failure, in seconds since 1970-01-01T00:00:00Z.
    pub failure: Option<i64>,
}

/// A cert-manager.io/v1 CertificateRequest.
pub struct CertificateRequest {
    pub meta: ObjectMeta,
    pub spec: Shared<RequestSpec>,
    pub status: Shared<RequestStatus>,
}

impl RequestSpec {
    /// An equal spec.
    pub fn copy(&self) -> Result<RequestSpec, AllocError>
        ensures { IfOk result (λ c. c ≡ self.now) }
    {
        Ok(RequestSpec {
            issuer: self.issuer.copy()?,
            duration: self.duration,
            is_ca: self.is_ca,
            usages: self.usages.copy()?,
            request: self.request.copy()?,
        })
    }

    /// Whether both are equal in each field.
    pub fn same(&self, other: &RequestSpec) -> bool
        ensures { IsTrue result ↔ (self.now ≡ other.now) }
    {
        self.issuer.same(&other.issuer)
            && same_u64(self.duration, other.duration)
            && self.is_ca == other.is_ca
            && self.usages.same(&other.usages)
            && self.request.same(&other.request)
    }
}

impl RequestStatus {
    ghost use Rattle.cmc_objects.specs.Objects.{no_request_status};

    /// The status that a new CertificateRequest has. It takes no memory.
    pub fn new(alloc: Global) -> RequestStatus
        ensures { result ≡ no_request_status }
    {
        RequestStatus {
            conditions: Conditions::new(alloc),
            certificate: Bytes::new(alloc),
            ca: Bytes::new(alloc),
            failure: None,
        }
    }

    /// An equal status.
    pub fn copy(&self) -> Result<RequestStatus, AllocError>
        ensures { IfOk result (λ c. c ≡ self.now) }
    {
        Ok(RequestStatus {
            conditions: self.conditions.copy()?,
            certificate: self.certificate.copy()?,
            ca: self.ca.copy()?,
            failure: self.failure,
        })
    }

    /// Whether both are equal in each field.
    pub fn same(&self, other: &RequestStatus) -> bool
        ensures { IsTrue result ↔ (self.now ≡ other.now) }
    {
        self.conditions.same(&other.conditions)
            && self.certificate.same(&other.certificate)
            && self.ca.same(&other.ca)
            && same_moment(self.failure, other.failure)
    }
}

impl CertificateRequest {
    /// An equal CertificateRequest.
    pub fn copy(&self) -> Result<CertificateRequest, AllocError>
        ensures { IfOk result (λ c. c ≡ self.now) }
    {
        Ok(CertificateRequest {
            meta: self.meta.copy()?,
            spec: self.spec.copy()?,
            status: self.status.copy()?,
        })
    }

    /// Whether both are equal in each field.
    pub fn same(&self, other: &CertificateRequest) -> bool
        ensures { IsTrue result ↔ (self.now ≡ other.now) }
    {
        self.meta.same(&other.meta)
            && self.spec.same(&other.spec)
            && self.status.same(&other.status)
    }
}

impl Drop for RequestSpec {
    fn drop(self) {
        let RequestSpec {
            issuer: _issuer,
            duration: _duration,
            is_ca: _is_ca,
            usages: _usages,
            request: _request,
        } = self;
    }
}

impl Drop for RequestStatus {
    fn drop(self) {
        let RequestStatus {
            conditions: _conditions,
            certificate: _certificate,
            ca: _ca,
            failure: _failure,
        } = self;
    }
}

impl Item for CertificateRequest {
    fn copy(&self) -> Result<CertificateRequest, AllocError> {
        CertificateRequest::copy(self)
    }

    fn same(&self, other: &CertificateRequest) -> bool {
        CertificateRequest::same(self, other)
    }
}

impl Drop for CertificateRequest {
    fn drop(self) {
        let CertificateRequest {
            meta: _meta,
            spec: _spec,
            status: _status,
        } = self;
    }
}
