//! What the checks look at.
ghost use Rattle.std.specs.Prelude.{◌≡◌, ◌≤ℤ◌};
ghost use Rattle.cmc_policies.specs.Renewal.{IsCertificateTime};

use crate::renewal::{Renew, renewal_time};

/// Why a certificate must be issued.
#[derive(Clone, Copy, Debug, PartialEq, Eq)]
pub enum Reason {
    DoesNotExist,
    MissingData,
    InvalidKeyPair,
    IncorrectIssuer,
    IncorrectCertificate,
    SecretMismatch,
    RequestChanged,
    Renewing,
    Expired,
}

impl Reason {
    ghost use Rattle.cmc_policies.specs.Reasons.{reason_name};

    /// The reason's name, as the condition that gives it has it (Kubernetes API conventions: a word in CamelCase).
    pub fn name(self) -> &'static str
        ensures { result.now ≡ reason_name self }
    {
        match self {
            Reason::DoesNotExist => "DoesNotExist",
            Reason::MissingData => "MissingData",
            Reason::InvalidKeyPair => "InvalidKeyPair",
            Reason::IncorrectIssuer => "IncorrectIssuer",
            Reason::IncorrectCertificate => "IncorrectCertificate",
            Reason::SecretMismatch => "SecretMismatch",
            Reason::RequestChanged => "RequestChanged",
            Reason::Renewing => "Renewing",
            Reason::Expired => "Expired",
        }
    }
}

/// What is known of a certificate's Secret. A flag that is true says that nothing is wrong.
///
/// The times are those of the certificate, in seconds since 1970-01-01T00:00:00Z: the first is no later than the
/// second, and both lie in the years 1950 to 9999.
#[derive(Clone, Copy)]
pub struct Facts {
    /// The Secret stands.
    pub secret: bool,
    /// It has a key and a certificate, neither of them empty.
    pub filled: bool,
    /// Both are readable, with one public key.
    pub pair: bool,
    /// Its annotations name the issuer.
    pub issuer: bool,
    /// Its annotations name this Certificate, or none.
    pub owner: bool,
    /// The key fits the specification, and a current request has it.
    pub kind: bool,
    /// There is no current request, or it fits the specification.
    pub request: bool,
    pub not_before: i64,
    pub not_after: i64,
    pub ghost ordered: { not_before ≤ℤ not_after },
    pub ghost begins_in_range: { IsCertificateTime not_before },
    pub ghost ends_in_range: { IsCertificateTime not_after },
}

/// The moment at which facts are judged, in seconds since 1970-01-01T00:00:00Z, and when a certificate is renewed.
#[derive(Clone, Copy)]
pub struct Frame {
    pub now: i64,
    pub renew: Renew,
}

impl Facts {
    ghost use Rattle.cmc_policies.specs.Reasons.{holds, known};
    ghost use Rattle.cmc_policies.specs.declared.facts.Reason.TheVariants.{Renewing, Expired};

    /// The certificate is to be renewed: the frame's moment is no earlier than the renewal's.
    pub fn is_due(&self, frame: Frame) -> bool
        ensures { result ≡ holds Renewing frame (known self.now) }
    {
        frame.now >= renewal_time(self.not_before, self.not_after, frame.renew)
    }

    /// The certificate has expired: the frame's moment is no earlier than its end.
    pub fn is_expired(&self, frame: Frame) -> bool
        ensures { result ≡ holds Expired frame (known self.now) }
    {
        frame.now >= self.not_after
    }
}
