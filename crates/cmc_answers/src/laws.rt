//! Laws of the answers.
ghost use Rattle.std.specs.Prelude.{◌≤◌, ◌≤ℤ◌, List, ℕ, Option, IsSome, length};
ghost use Rattle.cmc_der.specs.Keys.{RequestFields, key_kind_of};
ghost use Rattle.cmc_time.specs.Asn1.{IsCertificateTime};
ghost use Rattle.cmc_x509.specs.Certificates.{IsRequest, IsCertificate};
ghost use Rattle.cmc_x509.specs.declared.taking.TheConstants.{MAX_INPUT};
ghost use Rattle.cmc_x509_build.specs.Certificates.{fields_of_plan};
ghost use Rattle.cmc_x509_build.specs.declared.certificates.CertPlan.{CertPlan};
ghost use Rattle.cmc_answers.specs.Signings.{certificate_of_plan, certified_key};

/// A law: the certificate that a plan gives for a signing request with an RSA or ECDSA key is, within the size that
/// is read, a certificate with the plan's serial number and times, the request's names, and the key that is certified.
pub fn issued_is_read()
    ensures { (plan : CertPlan) (request : List ℕ) (csr : RequestFields) (row_key : Option ℕ)
        → IsRequest request csr → IsSome (key_kind_of csr.key)
        → IsCertificateTime plan.not_before → IsCertificateTime plan.not_after → plan.not_before ≤ℤ plan.not_after
        → length (certificate_of_plan plan csr.names (certified_key row_key csr.key)) ≤ MAX_INPUT
        → IsCertificate (certificate_of_plan plan csr.names (certified_key row_key csr.key))
        (fields_of_plan plan csr.names (certified_key row_key csr.key)) }
{}
