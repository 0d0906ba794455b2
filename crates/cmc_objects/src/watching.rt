//! Which objects each role looks at, and so which kinds it watches.
ghost use Rattle.std.specs.Prelude.{◌≡◌};
ghost use Rattle.cmc_objects.specs.Informers as tables;

use crate::role::Role;
use cmc_meta::Kind;

/// Whether the keys of the role are those of CertificateRequests; all other roles work on keys of
/// Certificates.
pub fn works_on_requests(role: Role) -> bool
    ensures { result ≡ tables.works_on_requests role }
{
    matches!(role, Role::Approver | Role::Issuer)
}

/// Whether the role looks at the Secret that its Certificate names.
pub fn looks_at_secret(role: Role) -> bool
    ensures { result ≡ tables.looks_at_secret role }
{
    matches!(
        role,
        Role::Trigger | Role::KeyManager | Role::Issuing | Role::Readiness
    )
}

/// Whether the role looks at the Secrets with a next private key of its Certificate.
pub fn looks_at_next(role: Role) -> bool
    ensures { result ≡ tables.looks_at_next role }
{
    matches!(
        role,
        Role::KeyManager | Role::RequestManager | Role::Issuing
    )
}

/// Whether the role looks at the CertificateRequests that its Certificate owns.
pub fn looks_at_requests(role: Role) -> bool
    ensures { result ≡ tables.looks_at_requests role }
{
    matches!(
        role,
        Role::Trigger | Role::RequestManager | Role::Issuing | Role::Readiness | Role::Revision
    )
}

/// The kind of the keys that the role works on.
pub fn kind_of_work(role: Role) -> Kind
    ensures { result ≡ tables.kind_of_work role }
{
    if works_on_requests(role) {
        Kind::CertificateRequest
    } else {
        Kind::Certificate
    }
}

/// Whether the role is told of the kind: it has an informer of each kind that it looks at, and of no other.
pub fn has_informer(role: Role, kind: Kind) -> bool
    ensures { result ≡ tables.has_informer role kind }
{
    match kind {
        Kind::Certificate => !works_on_requests(role),
        Kind::CertificateRequest => works_on_requests(role) || looks_at_requests(role),
        Kind::Secret => looks_at_secret(role) || looks_at_next(role),
    }
}
