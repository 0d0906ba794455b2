ghost use Rattle.std.specs.Prelude.{◌≡◌, ◌↔◌, IsTrue, IfOk};

use crate::certificate::Certificate;
use crate::request::CertificateRequest;
use crate::secret::Secret;
use crate::shared::Shared;
use cmc_meta::{Key, Kind, ObjectMeta};
use std::alloc::{AllocError, Global};

/// An object of the store. Its copies share it.
pub enum Object {
    Cert(Shared<Certificate>),
    Request(Shared<CertificateRequest>),
    Secret(Shared<Secret>),
}

impl Drop for Object {
    fn drop(self) {
        match self {
            Object::Cert(_value) => {}
            Object::Request(_value) => {}
            Object::Secret(_value) => {}
        }
    }
}

impl Object {
    ghost use Rattle.cmc_objects.specs.Objects.{key_of, kind_of, meta_of, numbered};
    ghost use Rattle.cmc_objects.specs.declared.object.Object.TheVariants as variants;

    /// The object that is this Certificate. An error is one of memory.
    pub fn of_certificate(alloc: Global, certificate: Certificate) -> Result<Object, AllocError>
        ensures { IfOk result (λ o. o ≡ variants.Cert certificate) }
    {
        Ok(Object::Cert(Shared::new(alloc, certificate)?))
    }

    /// The object that is this CertificateRequest. An error is one of memory.
    pub fn of_request(alloc: Global, request: CertificateRequest) -> Result<Object, AllocError>
        ensures { IfOk result (λ o. o ≡ variants.Request request) }
    {
        Ok(Object::Request(Shared::new(alloc, request)?))
    }

    /// The object that is this Secret. An error is one of memory.
    pub fn of_secret(alloc: Global, secret: Secret) -> Result<Object, AllocError>
        ensures { IfOk result (λ o. o ≡ variants.Secret secret) }
    {
        Ok(Object::Secret(Shared::new(alloc, secret)?))
    }

    /// The object's metadata.
    pub fn meta(&self) -> &ObjectMeta
        ensures { result.now ≡ meta_of self.now }
    {
        match self {
            Object::Cert(c) => &c.meta,
            Object::Request(r) => &r.meta,
            Object::Secret(s) => &s.meta,
        }
    }

    /// The object's kind.
    pub fn kind(&self) -> Kind
        ensures { result ≡ kind_of self.now }
    {
        match self {
            Object::Cert(_) => Kind::Certificate,
            Object::Request(_) => Kind::CertificateRequest,
            Object::Secret(_) => Kind::Secret,
        }
    }

    /// The key that the object stands under.
    pub fn key(&self) -> Result<Key, AllocError>
        ensures { IfOk result (λ k. k ≡ key_of self.now) }
    {
        let kind = self.kind();
        let meta = self.meta();
        Ok(Key {
            kind,
            namespace: meta.namespace.copy()?,
            name: meta.name.copy()?,
        })
    }

    /// The object under this resource version and this generation. What no one else holds is not copied; an error is one of
    /// memory.
    #[tactic(auto, unfolding(crate::specs::Objects::numbered))]
    pub fn numbered(
        self,
        alloc: Global,
        version: u64,
        generation: u64,
    ) -> Result<Object, AllocError>
        ensures { IfOk result (λ o. o ≡ numbered version generation self) }
    {
        match self {
            Object::Cert(shared) => {
                let mut certificate = shared.into_own()?;
                certificate.meta.version = version;
                certificate.meta.generation = generation;
                Object::of_certificate(alloc, certificate)
            }
            Object::Request(shared) => {
                let mut request = shared.into_own()?;
                request.meta.version = version;
                request.meta.generation = generation;
                Object::of_request(alloc, request)
            }
            Object::Secret(shared) => {
                let mut secret = shared.into_own()?;
                secret.meta.version = version;
                secret.meta.generation = generation;
                Object::of_secret(alloc, secret)
            }
        }
    }

    /// An equal object: the same one, shared.
    pub fn copy(&self) -> Result<Object, AllocError>
        ensures { IfOk result (λ o. o ≡ self.now) }
    {
        match self {
            Object::Cert(c) => Ok(Object::Cert(c.copy()?)),
            Object::Request(r) => Ok(Object::Request(r.copy()?)),
            Object::Secret(s) => Ok(Object::Secret(s.copy()?)),
        }
    }

    /// Whether both are of one kind and equal in each field.
    pub fn same(&self, other: &Object) -> bool
        ensures { IsTrue result ↔ (self.now ≡ other.now) }
    {
        match (self, other) {
            (Object::Cert(a), Object::Cert(b)) => a.same(b),
            (Object::Request(a), Object::Request(b)) => a.same(b),
            (Object::Secret(a), Object::Secret(b)) => a.same(b),
            _ => false,
        }
    }
}
