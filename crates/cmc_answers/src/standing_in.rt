//! The certificate that stands in while a request waits.
ghost use Rattle.std.specs.Prelude.{◌≡◌, ◌≤◌, ℕ, ℤ, List, IfOk, length, true};
ghost use Rattle.cmc_der.specs.Keys.{PublicKey, RequestFields};
ghost use Rattle.cmc_objects.specs.Requests.{is_run_time};
ghost use Rattle.cmc_time.specs.Asn1.{IsCertificateTime};
ghost use Rattle.cmc_x509.specs.Certificates.{IsCertificate, IsRequest};
ghost use Rattle.cmc_x509.specs.KeyFiles.{IsKeyFile};
ghost use Rattle.cmc_x509.specs.declared.taking.TheConstants.{MAX_INPUT};
ghost use Rattle.cmc_x509_build.specs.Certificates.{fields_of_plan};
ghost use Rattle.cmc_answers.specs.Signings.{certificate_of_plan};
ghost use Rattle.cmc_answers.specs.Temporary as spec;

use crate::certificates::certificate_with;
use cmc_meta::{Bytes, Text};
use cmc_x509::{read_csr, read_key};
use cmc_x509_build::CertPlan;
use std::alloc::{AllocError, Global};

#[tactic(auto, unfolding(crate::specs::Temporary::temporary_cert_plan))]
fn plan(alloc: Global, now: i64) -> Result<CertPlan, AllocError>
    requires { is_run_time now ≡ true }
    ensures plan { IfOk result (λ p. p ≡ spec.temporary_cert_plan now) }
    ensures begins_in_range { IfOk result (λ p. IsCertificateTime p.not_before) }
    ensures ends_in_range { IfOk result (λ p. IsCertificateTime p.not_after) }
{
    let issuer = Text::from_str(alloc, "cert-manager.local")?;
    Ok(CertPlan {
        serial: 1_234_567_890,
        issuer,
        not_before: now,
        not_after: now + 7_776_000,
    })
}

/// The certificate that stands in for the one that the signing request waits for, from the moment `now`, in seconds
/// since 1970-01-01T00:00:00Z, on: with the names of the signing request, the public key of the key file, the serial
/// number 1234567890 and the issuer `cert-manager.local`, for 90 days. It is marked by these alone: its signature is
/// the SHA-256 of its body, and no issuer has signed it (cert-manager's temporary certificates).
///
/// `None` exactly where the signing request or the key file is not readable.
pub fn temporary(
    alloc: Global,
    request: &[u8],
    key: &[u8],
    now: i64,
) -> Result<Option<Bytes>, AllocError>
    requires { is_run_time now ≡ true }
    ensures { IfOk result (λ certificate. certificate ≡ spec.temporary request.now key.now now) }
{
    let Ok(csr) = read_csr(request) else {
        return Ok(None);
    };
    let Ok(key) = read_key(key) else {
        return Ok(None);
    };
    let plan = plan(alloc, now)?;
    Ok(Some(certificate_with(alloc, &plan, &csr, &key)?))
}

/// A law: within the size that is read, such a certificate is read with the names of the signing request and the
/// public key of the key file, so with one public key beside that key.
pub fn temporary_is_read()
    ensures { (request file : List ℕ) (csr : RequestFields) (key : PublicKey) (now : ℤ)
        → IsRequest request csr → IsKeyFile file key → is_run_time now ≡ true
        → length (certificate_of_plan (spec.temporary_cert_plan now) csr.names key) ≤ MAX_INPUT
        → IsCertificate (certificate_of_plan (spec.temporary_cert_plan now) csr.names key) (fields_of_plan (spec.temporary_cert_plan now) csr.names key) }
{}
