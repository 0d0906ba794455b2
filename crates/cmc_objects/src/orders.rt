ghost use Rattle.std.specs.Prelude.{◌≡◌, ◌↔◌, true, false, IsTrue, IfOk};

use crate::key_spec::{Algorithm, Encoding};
use crate::request::CertificateRequest;
use crate::rows::{KeyRow, SignRow};
use crate::shared::Shared;
use cmc_meta::{Bytes, Key, Text, Texts};
use cmc_policy_rules::Policies;
use std::alloc::AllocError;
use std::marker::Model;

/// A question for a private key.
pub struct KeyOrder {
    /// The number of the question among those for this Certificate's name, from 1.
    pub number: u64,
    pub certificate: Key,
    pub algorithm: Algorithm,
    /// Bits of an RSA modulus, or the width of an ECDSA curve.
    pub size: u32,
    pub encoding: Encoding,
    pub row: KeyRow,
}

impl Drop for KeyOrder {
    fn drop(self) {
        let KeyOrder {
            number: _number,
            certificate: _certificate,
            algorithm: _algorithm,
            size: _size,
            encoding: _encoding,
            row: _row,
        } = self;
    }
}

impl KeyOrder {
    /// An equal order.
    pub fn copy(&self) -> Result<KeyOrder, AllocError>
        ensures { IfOk result (λ o. o ≡ self.now) }
    {
        Ok(KeyOrder {
            number: self.number,
            certificate: self.certificate.copy()?,
            algorithm: self.algorithm,
            size: self.size,
            encoding: self.encoding,
            row: self.row.copy()?,
        })
    }

    /// Whether both are equal in each field.
    pub fn same(&self, other: &KeyOrder) -> bool
        ensures { IsTrue result ↔ (self.now ≡ other.now) }
    {
        self.number == other.number
            && self.certificate.same(&other.certificate)
            && self.algorithm.same(other.algorithm)
            && self.size == other.size
            && self.encoding.same(other.encoding)
            && self.row.same(&other.row)
    }
}

/// A question for the signature of a certificate signing request.
pub struct CsrOrder {
    /// The key file that signs, in DER.
    pub key: Bytes,
    /// The body that is signed (RFC 2986, CertificationRequestInfo), in DER.
    pub body: Bytes,
}

impl Drop for CsrOrder {
    fn drop(self) {
        let CsrOrder {
            key: _key,
            body: _body,
        } = self;
    }
}

impl CsrOrder {
    /// An equal order.
    pub fn copy(&self) -> Result<CsrOrder, AllocError>
        ensures { IfOk result (λ o. o ≡ self.now) }
    {
        Ok(CsrOrder {
            key: self.key.copy()?,
            body: self.body.copy()?,
        })
    }

    /// Whether both are equal in each field.
    pub fn same(&self, other: &CsrOrder) -> bool
        ensures { IsTrue result ↔ (self.now ≡ other.now) }
    {
        self.key.same(&other.key) && self.body.same(&other.body)
    }
}

/// A question to an issuer. Its request is approved and not denied: no other one can be asked about.
pub struct SignOrder {
    number: u64,
    request: Shared<CertificateRequest>,
    moment: i64,
    row: SignRow,
}

impl Model for SignOrder {
    ghost use Rattle.cmc_objects.specs.Requests.{IsSignable, Signs};

    ghost Value = { Signs };

    ghost view = { λ o. record { number = o.number; request = o.request; moment = o.moment; row = o.row } };

    ghost invariant = { λ o. IsSignable o.request o.moment o.row };
}

impl Drop for SignOrder {
    fn drop(self) {
        let SignOrder {
            number: _number,
            request: _request,
            moment: _moment,
            row: _row,
        } = self;
    }
}

impl SignOrder {
    ghost use Rattle.cmc_objects.specs.Requests.{IsSignable, Signs, is_approved, is_denied, is_run_time, is_row_form};

    /// The question of this number about the request, at the moment `now` in seconds since
    /// 1970-01-01T00:00:00Z.
    pub fn new(
        number: u64,
        request: Shared<CertificateRequest>,
        now: i64,
        row: SignRow,
    ) -> SignOrder
        requires { IsSignable request now row }
        ensures { result ≡ record { number = number; request = request; moment = now; row = row } }
    {
        SignOrder {
            number,
            request,
            moment: now,
            row,
        }
    }

    /// The number of the question among those for this Certificate's name, from 1.
    pub fn number(&self) -> u64
        ensures { result ≡ self.now.number }
    {
        self.number
    }

    /// The request, which is approved and not denied.
    pub fn request(&self) -> &CertificateRequest
        ensures value { result.now ≡ self.now.request }
        ensures approved { is_approved self.now.request ≡ true }
        ensures not_denied { is_denied self.now.request ≡ false }
    {
        &self.request
    }

    /// The moment of the question, in seconds since 1970-01-01T00:00:00Z.
    pub fn now(&self) -> i64
        ensures value { result ≡ self.now.moment }
        ensures in_run { is_run_time self.now.moment ≡ true }
    {
        self.moment
    }

    /// What the scenario says of the answer.
    pub fn row(&self) -> &SignRow
        ensures value { result.now ≡ self.now.row }
        ensures form { is_row_form self.now.row ≡ true }
    {
        &self.row
    }

    /// An equal order.
    pub fn copy(&self) -> Result<SignOrder, AllocError>
        ensures { IfOk result (λ o. o ≡ self.now) }
    {
        let row = self.row.copy()?;
        let request = self.request.copy()?;
        Ok(SignOrder {
            number: self.number,
            request,
            moment: self.moment,
            row,
        })
    }

    /// Whether both are equal in each part.
    pub fn same(&self, other: &SignOrder) -> bool
        ensures { IsTrue result ↔ (self.now ≡ other.now) }
    {
        self.number == other.number
            && self.request.same(&other.request)
            && self.moment == other.moment
            && self.row.same(&other.row)
    }
}

/// What an approver lets pass.
pub struct Rules {
    /// The names of the issuers whose requests it judges, or `*` for all.
    pub issuers: Texts,
    /// The names that no request may have.
    pub refuse: Texts,
    /// The approval policies; with none each request is allowed.
    pub policies: Policies,
}

impl Drop for Rules {
    fn drop(self) {
        let Rules {
            issuers: _issuers,
            refuse: _refuse,
            policies: _policies,
        } = self;
    }
}

impl Rules {
    /// Equal rules.
    pub fn copy(&self) -> Result<Rules, AllocError>
        ensures { IfOk result (λ r. r ≡ self.now) }
    {
        Ok(Rules {
            issuers: self.issuers.copy()?,
            refuse: self.refuse.copy()?,
            policies: self.policies.copy()?,
        })
    }

    /// Whether both are equal in each field.
    pub fn same(&self, other: &Rules) -> bool
        ensures { IsTrue result ↔ (self.now ≡ other.now) }
    {
        self.issuers.same(&other.issuers)
            && self.refuse.same(&other.refuse)
            && self.policies.same(&other.policies)
    }
}

/// A question whether a request may be approved.
pub struct JudgeOrder {
    pub request: Shared<CertificateRequest>,
    pub rules: Rules,
}

impl Drop for JudgeOrder {
    fn drop(self) {
        let JudgeOrder {
            request: _request,
            rules: _rules,
        } = self;
    }
}

impl JudgeOrder {
    /// An equal order.
    pub fn copy(&self) -> Result<JudgeOrder, AllocError>
        ensures { IfOk result (λ o. o ≡ self.now) }
    {
        let rules = self.rules.copy()?;
        let request = self.request.copy()?;
        Ok(JudgeOrder { request, rules })
    }

    /// Whether both are equal in each field.
    pub fn same(&self, other: &JudgeOrder) -> bool
        ensures { IsTrue result ↔ (self.now ≡ other.now) }
    {
        self.request.same(&other.request) && self.rules.same(&other.rules)
    }
}

/// Work that a pass hands out. It is shared, so that the pass, the history and who does it hold the same one.
pub enum Order {
    Key(Shared<KeyOrder>),
    Csr(Shared<CsrOrder>),
    Sign(Shared<SignOrder>),
    Judge(Shared<JudgeOrder>),
}

impl Drop for Order {
    fn drop(self) {
        match self {
            Order::Key(_order) => {}
            Order::Csr(_order) => {}
            Order::Sign(_order) => {}
            Order::Judge(_order) => {}
        }
    }
}

impl Order {
    /// The same order, for one holder more.
    pub fn copy(&self) -> Result<Order, AllocError>
        ensures { IfOk result (λ o. o ≡ self.now) }
    {
        match self {
            Order::Key(order) => Ok(Order::Key(order.copy()?)),
            Order::Csr(order) => Ok(Order::Csr(order.copy()?)),
            Order::Sign(order) => Ok(Order::Sign(order.copy()?)),
            Order::Judge(order) => Ok(Order::Judge(order.copy()?)),
        }
    }

    /// Whether both are of one sort and equal.
    pub fn same(&self, other: &Order) -> bool
        ensures { IsTrue result ↔ (self.now ≡ other.now) }
    {
        match (self, other) {
            (Order::Key(a), Order::Key(b)) => a.same(b),
            (Order::Csr(a), Order::Csr(b)) => a.same(b),
            (Order::Sign(a), Order::Sign(b)) => a.same(b),
            (Order::Judge(a), Order::Judge(b)) => a.same(b),
            _ => false,
        }
    }
}

/// What an issuer answers.
pub enum Signing {
    /// A certificate, and the CA's certificate, which is empty where there is none; both in DER.
    Issued { certificate: Bytes, ca: Bytes },
    /// The issuer has not decided yet.
    Pending,
    /// The issuer refuses.
    Failed { message: Text },
}

impl Drop for Signing {
    fn drop(self) {
        match self {
            Signing::Issued {
                certificate: _certificate,
                ca: _ca,
            } => {}
            Signing::Pending => {}
            Signing::Failed { message: _message } => {}
        }
    }
}

impl Signing {
    /// An equal answer.
    pub fn copy(&self) -> Result<Signing, AllocError>
        ensures { IfOk result (λ s. s ≡ self.now) }
    {
        match self {
            Signing::Issued { certificate, ca } => Ok(Signing::Issued {
                certificate: certificate.copy()?,
                ca: ca.copy()?,
            }),
            Signing::Pending => Ok(Signing::Pending),
            Signing::Failed { message } => Ok(Signing::Failed {
                message: message.copy()?,
            }),
        }
    }

    /// Whether both are equal.
    pub fn same(&self, other: &Signing) -> bool
        ensures { IsTrue result ↔ (self.now ≡ other.now) }
    {
        match (self, other) {
            (
                Signing::Issued {
                    certificate: certificate_a,
                    ca: ca_a,
                },
                Signing::Issued {
                    certificate: certificate_b,
                    ca: ca_b,
                },
            ) => certificate_a.same(certificate_b) && ca_a.same(ca_b),
            (Signing::Pending, Signing::Pending) => true,
            (Signing::Failed { message: a }, Signing::Failed { message: b }) => a.same(b),
            _ => false,
        }
    }
}
