//! The answer of a row.
ghost use Rattle.std.specs.Prelude.{◌≡◌, ◌≤◌, ◌≤ℤ◌, ◌+ℤ◌, ◌-ℤ◌, neg_ℤ, pos, true, IfOk};
ghost use Rattle.cmc_time.specs.Asn1.{IsCertificateTime};
ghost use Rattle.cmc_objects.specs.Requests.{is_lifetime, is_row_form, is_run_time};
ghost use Rattle.cmc_x509.specs.ReadCertificates.{request_fields_at};
ghost use Rattle.cmc_answers.specs.Signings as spec;

use crate::certificates::certificate;
use cmc_meta::{Bytes, Text};
use cmc_objects::{CertificateRequest, SignRow, Signing, SigningRequest};
use cmc_x509_build::CertPlan;
use std::alloc::{AllocError, Global};

const MOST: u64 = 3_153_600_000;

fn lifetime(seconds: Option<u64>, asked: Option<u64>) -> u64
    requires { is_lifetime seconds ≡ true }
    ensures value { result ≡ spec.lifetime_given seconds asked }
    ensures within { result ≤ 3153600000 }
{
    match seconds {
        Some(seconds) => seconds,
        None => asked.unwrap_or(7_776_000).min(MOST),
    }
}

// Moments of a run, and a day before and a hundred years after them, lie in the years 1950 to 9999.
fn begin(now: i64, before: u64) -> i64
    requires moment { is_run_time now ≡ true }
    requires begins { before ≤ 86400 }
    ensures value { result ≡ now -ℤ pos before }
    ensures above { neg_ℤ (pos 599702400) ≤ℤ result }
    ensures below { result ≤ℤ pos 250246627200 }
{
    now - before as i64
}

fn end(begin: i64, lasts: u64) -> i64
    requires above { neg_ℤ (pos 599702400) ≤ℤ begin }
    requires below { begin ≤ℤ pos 250246627200 }
    requires lasts { lasts ≤ 3153600000 }
    ensures value { result ≡ begin +ℤ pos lasts }
    ensures in_range { IsCertificateTime result }
{
    begin + lasts as i64
}

fn plan(
    number: u64,
    request: &CertificateRequest,
    now: i64,
    seconds: Option<u64>,
    before: u64,
    serial: Option<u64>,
) -> Result<CertPlan, AllocError>
    requires moment { is_run_time now ≡ true }
    requires lasts { is_lifetime seconds ≡ true }
    requires begins { before ≤ 86400 }
    ensures value { IfOk result (λ plan. plan ≡ spec.plan_of number request.now now seconds before serial) }
    ensures begins_in_range { IfOk result (λ plan. IsCertificateTime plan.not_before) }
    ensures ends_in_range { IfOk result (λ plan. IsCertificateTime plan.not_after) }
{
    let issuer = request.spec.issuer.name.copy()?;
    let not_before = begin(now, before);
    let not_after = end(not_before, lifetime(seconds, request.spec.duration));
    Ok(CertPlan {
        serial: serial.unwrap_or(number),
        issuer,
        not_before,
        not_after,
    })
}

fn not_readable(alloc: Global) -> Result<Signing, AllocError>
    ensures { IfOk result (λ answer. answer ≡ spec.not_readable) }
{
    Ok(Signing::Failed {
        message: Text::from_str(alloc, "The request is not readable")?,
    })
}

fn issued(
    alloc: Global,
    plan: &CertPlan,
    key: Option<u64>,
    ca: &Bytes,
    request: &SigningRequest,
) -> Result<Signing, AllocError>
    requires begins_in_range { IsCertificateTime plan.now.not_before }
    requires ends_in_range { IsCertificateTime plan.now.not_after }
    ensures { IfOk result (λ answer. answer ≡ spec.issued plan.now key ca.now (request_fields_at request.now)) }
{
    let Some(csr) = request.fields() else {
        return not_readable(alloc);
    };
    if csr.key.kind().is_none() {
        return not_readable(alloc);
    }
    let certificate = certificate(alloc, plan, &csr, key)?;
    Ok(Signing::Issued {
        certificate,
        ca: ca.copy()?,
    })
}

/// What an issuer answers by this row to the question of this number about the request, at the moment `now` in
/// seconds since 1970-01-01T00:00:00Z.
///
/// An issue row gives a certificate of the signing request's names and key, or of a stand-in key in its place, and
/// the CA's certificate of the row; its signature is the SHA-256 of its body. A signing request that is not readable,
/// or whose key is neither RSA nor ECDSA, has failed. A free row has no answer of its own; it is answered as pending.
#[tactic(auto, unfolding(crate::specs::Signings::signing_of))]
pub fn signing_of(
    alloc: Global,
    row: &SignRow,
    number: u64,
    request: &CertificateRequest,
    now: i64,
) -> Result<Signing, AllocError>
    requires moment { is_run_time now ≡ true }
    requires row_form { is_row_form row.now ≡ true }
    ensures { IfOk result (λ answer. answer ≡ spec.signing_of row.now number request.now now) }
{
    match row {
        SignRow::Issue {
            seconds,
            before,
            serial,
            key,
            ca,
        } => {
            let plan = plan(number, request, now, *seconds, *before, *serial)?;
            issued(alloc, &plan, *key, ca, &request.spec.request)
        }
        SignRow::Pending => Ok(Signing::Pending),
        SignRow::Fail { message } => Ok(Signing::Failed {
            message: message.copy()?,
        }),
        SignRow::Raw { der } => Ok(Signing::Issued {
            certificate: der.copy()?,
            ca: Bytes::new(alloc),
        }),
        SignRow::Free => Ok(Signing::Pending),
    }
}
