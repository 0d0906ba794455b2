//! What a pass of a controller sees, and what it does.
ghost use Rattle.std.specs.Prelude.{◌≡◌, ◌↔◌, [], None, IsTrue, IfOk};

use cmc_meta::{Items, Key, copy_optional, same_optional};
use cmc_objects::{Call, Certificate, CertificateRequest, Material, Order, Rules, Secret, Shared};
use std::alloc::{AllocError, Global};

/// Secrets in order of name; contracts see the list.
pub type Secrets = Items<Shared<Secret>>;

/// CertificateRequests in order of name; contracts see the list.
pub type Requests = Items<Shared<CertificateRequest>>;

/// What a controller sees of its key as a pass begins. A part that the controller does not look at is empty.
pub struct Views {
    /// The Certificate of the key.
    pub certificate: Option<Shared<Certificate>>,
    /// The Secret that the Certificate names for its key and its certificate.
    pub secret: Option<Shared<Secret>>,
    /// The Secrets with a next private key of the Certificate, in order of name.
    pub next: Secrets,
    /// The CertificateRequests that the Certificate owns, in order of name.
    pub requests: Requests,
    /// The CertificateRequest of the key, for a controller of requests.
    pub request: Option<Shared<CertificateRequest>>,
}

impl Views {
    /// Views of no object. It takes no memory.
    pub fn new(alloc: Global) -> Views
        ensures { result ≡ record { certificate = None; secret = None; next = []; requests = []; request = None } }
    {
        Views {
            certificate: None,
            secret: None,
            next: Secrets::new(alloc),
            requests: Requests::new(alloc),
            request: None,
        }
    }

    /// Equal views.
    pub fn copy(&self) -> Result<Views, AllocError>
        ensures { IfOk result (λ v. v ≡ self.now) }
    {
        let certificate = copy_optional(&self.certificate)?;
        let secret = copy_optional(&self.secret)?;
        let request = copy_optional(&self.request)?;
        Ok(Views {
            certificate,
            secret,
            next: self.next.copy()?,
            requests: self.requests.copy()?,
            request,
        })
    }

    /// Whether both are equal in each part.
    pub fn same(&self, other: &Views) -> bool
        ensures { IsTrue result ↔ (self.now ≡ other.now) }
    {
        same_optional(&self.certificate, &other.certificate)
            && same_optional(&self.secret, &other.secret)
            && self.next.same(&other.next)
            && self.requests.same(&other.requests)
            && same_optional(&self.request, &other.request)
    }
}

/// What a controller decides by beside its views.
pub struct Desk {
    /// What stands for the keys and the issuers of Certificates.
    pub material: Material,
    /// How many questions were asked before for the Certificate's name.
    pub asked: u64,
    /// What the approver lets pass.
    pub rules: Rules,
}

/// The writes that end an issuance: the Secret, and then the status of the Certificate.
pub struct IssuePlan {
    /// The Certificate, which is read first.
    pub get: Key,
    /// The version that it must still have.
    pub version: u64,
    pub secret: Call,
    pub status: Call,
}

impl IssuePlan {
    /// An equal plan.
    pub fn copy(&self) -> Result<IssuePlan, AllocError>
        ensures { IfOk result (λ p. p ≡ self.now) }
    {
        let secret = self.secret.copy()?;
        let status = self.status.copy()?;
        Ok(IssuePlan {
            get: self.get.copy()?,
            version: self.version,
            secret,
            status,
        })
    }
}

/// The write that gives a Certificate a temporary certificate while its request waits.
pub struct TemporaryPlan {
    /// The Certificate, which is read first.
    pub get: Key,
    /// The version that it must still have.
    pub version: u64,
    pub secret: Call,
}

impl TemporaryPlan {
    /// An equal plan.
    pub fn copy(&self) -> Result<TemporaryPlan, AllocError>
        ensures { IfOk result (λ p. p ≡ self.now) }
    {
        let secret = self.secret.copy()?;
        Ok(TemporaryPlan {
            get: self.get.copy()?,
            version: self.version,
            secret,
        })
    }
}

/// What a pass does. Its plans are shared, so that an act is cheap to hand on.
#[derive(Drop)]
pub enum Act {
    /// There is nothing to do.
    Nothing,
    /// One call on the store.
    Call(Call),
    /// A question, whose answer says which call follows.
    Ask(Order),
    /// The Secret and the status of an issuance.
    Issue(Shared<IssuePlan>),
    /// The Secret with a temporary certificate.
    Temporary(Shared<TemporaryPlan>),
}

impl Act {
    /// An equal act.
    pub fn copy(&self) -> Result<Act, AllocError>
        ensures { IfOk result (λ a. a ≡ self.now) }
    {
        match self {
            Act::Nothing => Ok(Act::Nothing),
            Act::Call(call) => Ok(Act::Call(call.copy()?)),
            Act::Ask(order) => Ok(Act::Ask(order.copy()?)),
            Act::Issue(plan) => Ok(Act::Issue(plan.copy()?)),
            Act::Temporary(plan) => Ok(Act::Temporary(plan.copy()?)),
        }
    }
}

impl Drop for Views {
    fn drop(self) {
        let Views {
            certificate: _certificate,
            secret: _secret,
            next: _next,
            requests: _requests,
            request: _request,
        } = self;
    }
}

impl Drop for Desk {
    fn drop(self) {
        let Desk {
            material: _material,
            asked: _asked,
            rules: _rules,
        } = self;
    }
}

impl Drop for IssuePlan {
    fn drop(self) {
        let IssuePlan {
            get: _get,
            version: _version,
            secret: _secret,
            status: _status,
        } = self;
    }
}

impl Drop for TemporaryPlan {
    fn drop(self) {
        let TemporaryPlan {
            get: _get,
            version: _version,
            secret: _secret,
        } = self;
    }
}
