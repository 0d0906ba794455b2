//! Views of one run compare by version: no version is given twice.
ghost use Rattle.std.specs.Prelude.{◌≡◌, ◌↔◌, IsTrue};
ghost use Rattle.cmc_objects.specs.declared.certificate.Certificate.{Certificate as CertificateValue};
ghost use Rattle.cmc_objects.specs.declared.request.CertificateRequest.{CertificateRequest as RequestValue};
ghost use Rattle.cmc_objects.specs.declared.secret.Secret.{Secret as SecretValue};
ghost use Rattle.cmc_held.specs.OneRun.{AreOfOneRun, VersionsTell, VersionsTellAll};

use cmc_objects::{Certificate, CertificateRequest, Secret, Shared};
use cmc_pass::Views;

fn same_certificate(left: &Option<Shared<Certificate>>, right: &Option<Shared<Certificate>>) -> bool
    requires { VersionsTell (λ (c : CertificateValue). c.meta.version) left.now right.now }
    ensures { IsTrue result ↔ (left.now ≡ right.now) }
{
    match (left, right) {
        (Some(left), Some(right)) => left.meta.version == right.meta.version,
        (None, None) => true,
        _ => false,
    }
}

fn same_request(
    left: &Option<Shared<CertificateRequest>>,
    right: &Option<Shared<CertificateRequest>>,
) -> bool
    requires { VersionsTell (λ (r : RequestValue). r.meta.version) left.now right.now }
    ensures { IsTrue result ↔ (left.now ≡ right.now) }
{
    match (left, right) {
        (Some(left), Some(right)) => left.meta.version == right.meta.version,
        (None, None) => true,
        _ => false,
    }
}

fn same_secret(left: &Option<Shared<Secret>>, right: &Option<Shared<Secret>>) -> bool
    requires { VersionsTell (λ (s : SecretValue). s.meta.version) left.now right.now }
    ensures { IsTrue result ↔ (left.now ≡ right.now) }
{
    match (left, right) {
        (Some(left), Some(right)) => left.meta.version == right.meta.version,
        (None, None) => true,
        _ => false,
    }
}

fn same_requests(left: &[Shared<CertificateRequest>], right: &[Shared<CertificateRequest>]) -> bool
    requires { VersionsTellAll (λ (r : RequestValue). r.meta.version) left.now right.now }
    ensures { IsTrue result ↔ (left.now ≡ right.now) }
{
    if left.len() != right.len() {
        return false;
    }
    for (i, request) in left.iter().enumerate() {
        if request.meta.version != right[i].meta.version {
            return false;
        }
    }
    true
}

fn same_secrets(left: &[Shared<Secret>], right: &[Shared<Secret>]) -> bool
    requires { VersionsTellAll (λ (s : SecretValue). s.meta.version) left.now right.now }
    ensures { IsTrue result ↔ (left.now ≡ right.now) }
{
    if left.len() != right.len() {
        return false;
    }
    for (i, secret) in left.iter().enumerate() {
        if secret.meta.version != right[i].meta.version {
            return false;
        }
    }
    true
}

/// Whether two views of one run are equal. It compares the versions of the objects alone: the API server gives each write
/// a resource version of its own.
pub fn same_seen(left: &Views, right: &Views) -> bool
    requires { AreOfOneRun left.now right.now }
    ensures { IsTrue result ↔ (left.now ≡ right.now) }
{
    same_certificate(&left.certificate, &right.certificate)
        && same_secret(&left.secret, &right.secret)
        && same_secrets(left.next.as_slice(), right.next.as_slice())
        && same_requests(left.requests.as_slice(), right.requests.as_slice())
        && same_request(&left.request, &right.request)
}
