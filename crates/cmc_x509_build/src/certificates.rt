//! Certificates.
ghost use Rattle.std.specs.Prelude.{◌≡◌, ◌≤◌, ◌++◌, ℕ, ℤ, length, Some, IfOk, OnOk, ◌≤ℤ◌};
ghost use Rattle.cmc_der.specs.Integers.{integer_of};
ghost use Rattle.cmc_der.specs.Builders.{value};
ghost use Rattle.cmc_der.specs.Keys.{key_shown, names_shown, csr_shown, CertificateFields};
ghost use Rattle.cmc_time.specs.Asn1.{IsCertificateTime};
ghost use Rattle.cmc_x509.specs.Lists.{IsValueList};
ghost use Rattle.cmc_x509.specs.Certificates.{IsCertificate};
ghost use Rattle.cmc_x509.specs.declared.taking.TheConstants.{MAX_INPUT};
ghost use Rattle.cmc_x509_build.specs.Keys.{IsWritable};
ghost use Rattle.cmc_x509_build.specs.Octets.{signed_octets, name_octets};
ghost use Rattle.cmc_x509_build.specs.Certificates as spec;

use crate::keys::push_spki;
use crate::names::{push_alternative_extension, push_name};
use crate::pieces::{push_integer, push_nested, push_value};
use crate::signatures::{push_algorithm, signed};
use cmc_der::{CsrFields, Names, Spki};
use cmc_meta::{Bytes, Text};
use cmc_time::{asn1_time_tag, print_asn1_time};
use std::alloc::{AllocError, Global};

// Room for the two times of a certificate, and for a body of some names and a common key: what is longer grows.
const PART: usize = 64;

const BODY: usize = 512;

/// What a certificate says that its request does not: the serial number, the issuer's common name, and the first
/// and the last moment of its validity, in seconds since 1970-01-01T00:00:00Z.
pub struct CertPlan {
    pub serial: u64,
    pub issuer: Text,
    pub not_before: i64,
    pub not_after: i64,
}

impl Drop for CertPlan {
    fn drop(self) {
        let CertPlan {
            serial: _serial,
            issuer: _issuer,
            not_before: _not_before,
            not_after: _not_after,
        } = self;
    }
}

impl CertPlan {
    /// An equal plan.
    pub fn copy(&self) -> Result<CertPlan, AllocError>
        ensures { IfOk result (λ plan. plan ≡ self.now) }
    {
        Ok(CertPlan {
            serial: self.serial,
            issuer: self.issuer.copy()?,
            not_before: self.not_before,
            not_after: self.not_after,
        })
    }
}

fn push_time(alloc: Global, octets: &mut Vec<u8>, at: i64) -> Result<(), AllocError>
    requires { IsCertificateTime at }
    ensures { OnOk result (octets.new.items ≡ octets.old.items ++ spec.time_octets at) }
{
    let text = print_asn1_time(alloc, at)?;
    push_value(octets, asn1_time_tag(at), text.as_bytes())
}

fn push_validity(
    alloc: Global,
    octets: &mut Vec<u8>,
    not_before: i64,
    not_after: i64,
) -> Result<(), AllocError>
    requires begins_in_range { IsCertificateTime not_before }
    requires ends_in_range { IsCertificateTime not_after }
    ensures { OnOk result (octets.new.items
        ≡ octets.old.items ++ spec.validity_octets not_before not_after) }
{
    let mut times = Vec::with_capacity(alloc, PART)?;
    push_time(alloc, &mut times, not_before)?;
    push_time(alloc, &mut times, not_after)?;
    push_value(octets, 48, &times)
}

// [0] with v3, serialNumber and signature.
fn push_first(alloc: Global, octets: &mut Vec<u8>, serial: u64) -> Result<(), AllocError>
    ensures { OnOk result (octets.new.items
        ≡ octets.old.items ++ spec.first_octets (spec.serial_octets serial)) }
{
    push_nested(alloc, octets, 160, 2, &[2])?;
    push_integer(octets, &serial.to_be_bytes())?;
    push_algorithm(alloc, octets)
}

// The issuer and the validity.
fn push_issuer(alloc: Global, octets: &mut Vec<u8>, plan: &CertPlan) -> Result<(), AllocError>
    requires begins_in_range { IsCertificateTime plan.now.not_before }
    requires ends_in_range { IsCertificateTime plan.now.not_after }
    ensures { OnOk result (octets.new.items ≡ octets.old.items ++ (name_octets (Some plan.now.issuer)
        ++ spec.validity_octets plan.now.not_before plan.now.not_after)) }
{
    push_name(alloc, octets, Some(plan.issuer.as_slice()))?;
    push_validity(alloc, octets, plan.not_before, plan.not_after)
}

// The parts before the subject.
fn push_head(alloc: Global, octets: &mut Vec<u8>, plan: &CertPlan) -> Result<(), AllocError>
    requires begins_in_range { IsCertificateTime plan.now.not_before }
    requires ends_in_range { IsCertificateTime plan.now.not_after }
    ensures { OnOk result (octets.new.items ≡ octets.old.items ++ spec.head_octets
        (spec.serial_octets plan.now.serial) plan.now.issuer plan.now.not_before plan.now.not_after) }
{
    push_first(alloc, octets, plan.serial)?;
    push_issuer(alloc, octets, plan)
}

// [3] with the alternative names, where there are any.
fn push_extensions(
    alloc: Global,
    octets: &mut Vec<u8>,
    alternative: &[u8],
) -> Result<(), AllocError>
    ensures { OnOk result (octets.new.items ≡ octets.old.items ++ spec.names_extensions alternative.now) }
{
    if alternative.is_empty() {
        return Ok(());
    }
    let mut extension = Vec::new(alloc);
    push_alternative_extension(alloc, &mut extension, alternative)?;
    push_nested(alloc, octets, 163, 48, &extension)
}

// The parts from the subject on.
fn push_subject(
    alloc: Global,
    octets: &mut Vec<u8>,
    names: &Names<'_>,
    key: &Spki<'_>,
) -> Result<(), AllocError>
    ensures { OnOk result (octets.new.items
        ≡ octets.old.items ++ spec.subject_octets (names_shown names.now) (key_shown key.now)) }
{
    push_name(alloc, octets, names.common)?;
    push_spki(alloc, octets, key)?;
    push_extensions(alloc, octets, names.alternative)
}

#[tactic(auto, unfolding(crate::specs::Certificates::certificate_body))]
fn built(
    alloc: Global,
    plan: &CertPlan,
    csr: &CsrFields<'_>,
    key: &Spki<'_>,
) -> Result<Bytes, AllocError>
    requires begins_in_range { IsCertificateTime plan.now.not_before }
    requires ends_in_range { IsCertificateTime plan.now.not_after }
    ensures { IfOk result (λ body. body ≡ spec.certificate_body plan.now.issuer
        (spec.fields_of_plan plan.now (names_shown csr.now.names) (key_shown key.now))) }
{
    let mut parts = Vec::with_capacity(alloc, BODY)?;
    push_head(alloc, &mut parts, plan)?;
    push_subject(alloc, &mut parts, &csr.names, key)?;
    let mut body = Vec::new(alloc);
    push_value(&mut body, 48, &parts)?;
    Bytes::from_slice(alloc, &body)
}

/// TBSCertificate (RFC 5280, 4.1) of version 3: the plan's serial number, the algorithm ecdsa-with-SHA256, the plan's
/// issuer and validity, the common name and the alternative names of the request, octet by octet as it has them, and
/// the key. A commonName is a UTF8String, and times are UTCTime to 2049 and GeneralizedTime from 2050 on.
///
/// Within the size that is read, the octets are read as the body of a certificate with these fields, where the key is
/// an RSA or an elliptic curve key of a SubjectPublicKeyInfo, the request's alternative names are values, and the
/// validity does not end before it begins.
///
/// # Errors
///
/// Where there is no memory, or a value would have contents of more than 2^30 octets.
pub fn cert_body(
    alloc: Global,
    plan: &CertPlan,
    csr: &CsrFields<'_>,
    key: &Spki<'_>,
) -> Result<Bytes, AllocError>
    requires begins_in_range { IsCertificateTime plan.now.not_before }
    requires ends_in_range { IsCertificateTime plan.now.not_after }
    ensures octets { IfOk result (λ body. body ≡ spec.certificate_body plan.now.issuer
        (spec.fields_of_plan plan.now (names_shown csr.now.names) (key_shown key.now))) }
    ensures is_read { IfOk result (λ body. plan.now.not_before ≤ℤ plan.now.not_after
        → IsWritable (key_shown key.now) → IsValueList csr.now.names.alternative.now
        → length body ≤ MAX_INPUT → spec.IsCertificateBody body
        (spec.fields_of_plan plan.now (names_shown csr.now.names) (key_shown key.now))) }
{
    built(alloc, plan, csr, key)
}

/// Certificate (RFC 5280, 4.1): the body, the algorithm ecdsa-with-SHA256, and the signature.
///
/// Within the size that is read, the octets are read as a certificate with the fields of the body.
///
/// # Errors
///
/// Where there is no memory, or a value would have contents of more than 2^30 octets.
pub fn cert_whole(alloc: Global, body: &[u8], signature: &[u8]) -> Result<Bytes, AllocError>
    ensures octets { IfOk result (λ whole. whole ≡ signed_octets body.now signature.now) }
    ensures is_read { IfOk result (λ whole. (fields : CertificateFields)
        → spec.IsCertificateBody body.now fields → length whole ≤ MAX_INPUT
        → IsCertificate whole fields) }
{
    signed(alloc, body, signature)
}
