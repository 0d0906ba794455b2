//! Signed certificates.
ghost use Rattle.std.specs.Prelude.{◌≡◌, IfOk};
ghost use Rattle.cmc_der.specs.Keys.{key_shown, names_shown};
ghost use Rattle.cmc_time.specs.Asn1.{IsCertificateTime};
ghost use Rattle.cmc_answers.specs.Signings.{signed_certificate, certificate_of_plan, certified_key};

use crate::stand_ins::stand_in_point;
use cmc_der::{CsrFields, KeyKind, Spki};
use cmc_meta::Bytes;
use cmc_x509_build::{CertPlan, cert_body, cert_whole};
use sha2::{Digest, Sha256};
use std::alloc::{AllocError, Global};

fn signed(alloc: Global, body: &[u8]) -> Result<Bytes, AllocError>
    ensures { IfOk result (λ whole. whole ≡ signed_certificate body.now) }
{
    let signature = Sha256::digest(body);
    cert_whole(alloc, body, &signature)
}

/// The certificate of this plan with the names of the signing request, for this key.
#[tactic(auto, unfolding(crate::specs::Signings::certificate_of_plan))]
pub fn certificate_with(
    alloc: Global,
    plan: &CertPlan,
    csr: &CsrFields<'_>,
    key: &Spki<'_>,
) -> Result<Bytes, AllocError>
    requires begins_in_range { IsCertificateTime plan.now.not_before }
    requires ends_in_range { IsCertificateTime plan.now.not_after }
    ensures { IfOk result (λ whole. whole ≡ certificate_of_plan plan.now (names_shown csr.now.names) (key_shown key.now)) }
{
    let body = cert_body(alloc, plan, csr, key)?;
    signed(alloc, body.as_slice())
}

/// The certificate of this plan with the names of the signing request, for the stand-in key of this number where
/// there is one, and else for the request's key.
pub fn certificate(
    alloc: Global,
    plan: &CertPlan,
    csr: &CsrFields<'_>,
    key: Option<u64>,
) -> Result<Bytes, AllocError>
    requires begins_in_range { IsCertificateTime plan.now.not_before }
    requires ends_in_range { IsCertificateTime plan.now.not_after }
    ensures { IfOk result (λ whole. whole ≡ certificate_of_plan plan.now (names_shown csr.now.names)
        (certified_key key (key_shown csr.now.key))) }
{
    match key {
        Some(number) => {
            let point = stand_in_point(alloc, number)?;
            let stand_in = Spki::Ec {
                curve: KeyKind::P256,
                point: &point,
            };
            certificate_with(alloc, plan, csr, &stand_in)
        }
        None => certificate_with(alloc, plan, csr, &csr.key),
    }
}
