//! Certificates and certification requests.
ghost use Rattle.std.specs.Prelude.{◌≡◌, ◌↔◌, Some, IfOk, IsErr};
ghost use Rattle.cmc_der.specs.Keys.{CertificateFields, RequestFields, cert_shown, csr_shown, key_shown, text_shown};
ghost use Rattle.cmc_x509.specs.Options.{Gives};
ghost use Rattle.cmc_x509.specs.Lists.{IsValueList};
ghost use Rattle.cmc_x509.specs.Times.{time_at};
ghost use Rattle.cmc_x509.specs.Certificates.{IsCertificate, IsRequest, or_none};
ghost use Rattle.cmc_x509.specs.ReadCertificates.{head_shown, signed_at, version_field_of, validity_at, unique_id_of, extensions_in, tbs_head_at, tail_at, tbs_certificate_at, request_info_at, certificate_fields_at, request_fields_at};

use crate::keys::{algorithm_of, bits, integer, spki, version};
use crate::names::{Extension, RequestAttribute, first_in, name};
use crate::taking::{MAX_INPUT, NotForm, end, only, optional, take, value};
use cmc_der::{CertFields, CsrFields, Names};
use cmc_time::asn1_time;

/// The body of what is signed (RFC 5280, 4.1 and RFC 2986, 4.2), its algorithm and its signature.
#[tactic(auto, unfolding(crate::specs::ReadCertificates::signed_at))]
fn signed<'a>(input: &'a [u8]) -> Result<&'a [u8], NotForm>
    ensures { Gives (λ p. p.now) result (signed_at input.now) }
{
    let parts = only(48, input)?;
    let (body, rest) = take(48, parts)?;
    let (_algorithm, rest) = algorithm_of(rest)?;
    let string = only(3, rest)?;
    bits(string)?;
    Ok(body)
}

/// A version that is not there, or is v3.
fn version_in(octets: Option<&[u8]>) -> Result<(), NotForm>
    ensures { Gives (λ _. 0) result (version_field_of (text_shown octets.entry)) }
{
    match octets {
        None => Ok(()),
        Some(octets) => {
            let rest = version(2, octets)?;
            end(rest)
        }
    }
}

/// The time at the front, in seconds since 1970-01-01T00:00:00Z, and the rest.
#[tactic(auto, unfolding(crate::specs::Times::time_at))]
fn time<'a>(input: &'a [u8]) -> Result<(i64, &'a [u8]), NotForm>
    ensures { Gives (λ p. (p.0, p.1.now)) result (time_at input.now) }
{
    let (value, rest) = value(input)?;
    match asn1_time(value.tag, value.body) {
        Ok(at) => Ok((at, rest)),
        Err(_) => Err(NotForm),
    }
}

/// Validity (RFC 5280, 4.1.2.5).
#[derive(Clone, Copy)]
pub struct Validity {
    pub not_before: i64,
    pub not_after: i64,
}

/// The validity at the front, whose end is not before its begin, and the rest.
#[tactic(auto, unfolding(crate::specs::ReadCertificates::validity_at))]
fn validity_of<'a>(input: &'a [u8]) -> Result<(Validity, &'a [u8]), NotForm>
    ensures { Gives (λ p. ((p.0.not_before, p.0.not_after), p.1.now)) result (validity_at input.now) }
{
    let (body, rest) = take(48, input)?;
    let (not_before, inner) = time(body)?;
    let (not_after, inner) = time(inner)?;
    end(inner)?;
    if not_before <= not_after {
        Ok((
            Validity {
                not_before,
                not_after,
            },
            rest,
        ))
    } else {
        Err(NotForm)
    }
}

/// A unique identifier that is not there, or is a BIT STRING with no unused bits.
fn unique_id(octets: Option<&[u8]>) -> Result<(), NotForm>
    ensures { Gives (λ _. 0) result (unique_id_of (text_shown octets.entry)) }
{
    match octets {
        None => Ok(()),
        Some(octets) => {
            bits(octets)?;
            Ok(())
        }
    }
}

/// What was found, or nothing.
fn or_empty<'a>(found: Option<&'a [u8]>) -> &'a [u8]
    ensures { result.now ≡ or_none (text_shown found.entry) }
{
    match found {
        Some(names) => names,
        None => &[],
    }
}

/// The alternative names of extensions, if these are there.
fn alternative_in<'a>(extensions: Option<&'a [u8]>) -> Result<&'a [u8], NotForm>
    ensures { Gives (λ p. p.now) result (extensions_in (text_shown extensions.entry)) }
{
    match extensions {
        None => Ok(&[]),
        Some(octets) => {
            let body = only(48, octets)?;
            let found = first_in::<Extension>(body)?;
            Ok(or_empty(found))
        }
    }
}

/// What stands in a TBSCertificate before the subject.
#[derive(Clone, Copy)]
pub struct Front<'a> {
    pub serial: &'a [u8],
    pub validity: Validity,
}

#[tactic(auto, unfolding(crate::specs::ReadCertificates::tbs_head_at))]
fn front_of<'a>(input: &'a [u8]) -> Result<(Front<'a>, &'a [u8]), NotForm>
    ensures { Gives (λ p. (head_shown p.0, p.1.now)) result (tbs_head_at input.now) }
{
    let (stated, rest) = optional(160, input)?;
    version_in(stated)?;
    let (serial, rest) = integer(rest)?;
    let (_signature, rest) = algorithm_of(rest)?;
    let (_issuer, rest) = name(rest)?;
    let (validity, rest) = validity_of(rest)?;
    Ok((Front { serial, validity }, rest))
}

/// What stands in a TBSCertificate after the key: its alternative names.
#[tactic(auto, unfolding(crate::specs::ReadCertificates::tail_at))]
fn tail<'a>(input: &'a [u8]) -> Result<&'a [u8], NotForm>
    ensures { Gives (λ p. p.now) result (tail_at input.now) }
{
    let (issuer_id, rest) = optional(129, input)?;
    unique_id(issuer_id)?;
    let (subject_id, rest) = optional(130, rest)?;
    unique_id(subject_id)?;
    let (extensions, rest) = optional(163, rest)?;
    end(rest)?;
    alternative_in(extensions)
}

/// TBSCertificate (RFC 5280, 4.1.2).
#[tactic(auto, unfolding(crate::specs::ReadCertificates::tbs_certificate_at))]
fn tbs_certificate<'a>(input: &'a [u8]) -> Result<CertFields<'a>, NotForm>
    ensures { Gives cert_shown result (tbs_certificate_at input.now) }
{
    let (front, rest) = front_of(input)?;
    let (common, rest) = name(rest)?;
    let (key, rest) = spki(rest)?;
    let alternative = tail(rest)?;
    Ok(CertFields {
        serial: front.serial,
        not_before: front.validity.not_before,
        not_after: front.validity.not_after,
        key,
        names: Names {
            common,
            alternative,
        },
    })
}

/// CertificationRequestInfo (RFC 2986, 4.1).
#[tactic(auto, unfolding(crate::specs::ReadCertificates::request_info_at))]
fn request_info<'a>(input: &'a [u8]) -> Result<CsrFields<'a>, NotForm>
    ensures { Gives csr_shown result (request_info_at input.now) }
{
    let rest = version(0, input)?;
    let (common, rest) = name(rest)?;
    let (key, rest) = spki(rest)?;
    let attributes = only(160, rest)?;
    let found = first_in::<RequestAttribute>(attributes)?;
    Ok(CsrFields {
        key,
        names: Names {
            common,
            alternative: or_empty(found),
        },
    })
}

#[tactic(auto, unfolding(crate::specs::ReadCertificates::certificate_fields_at))]
fn certificate<'a>(input: &'a [u8]) -> Result<CertFields<'a>, NotForm>
    ensures { Gives cert_shown result (certificate_fields_at input.now) }
{
    if input.len() <= MAX_INPUT {
        let body = signed(input)?;
        tbs_certificate(body)
    } else {
        Err(NotForm)
    }
}

#[tactic(auto, unfolding(crate::specs::ReadCertificates::request_fields_at))]
fn request<'a>(input: &'a [u8]) -> Result<CsrFields<'a>, NotForm>
    ensures { Gives csr_shown result (request_fields_at input.now) }
{
    if input.len() <= MAX_INPUT {
        let body = signed(input)?;
        request_info(body)
    } else {
        Err(NotForm)
    }
}

/// Reads a certificate (RFC 5280, 4.1). Its names are the first commonName of the subject, and the
/// contents of the first subjectAltName.
///
/// # Errors
///
/// `NotForm` exactly where the whole input is no certificate, or has more octets than `MAX_INPUT`.
pub fn read_cert<'a>(input: &'a [u8]) -> Result<CertFields<'a>, NotForm>
    ensures found { IfOk result (λ fields. IsCertificate input.now (cert_shown fields)) }
    ensures names { IfOk result (λ fields. IsValueList fields.names.alternative.now) }
    ensures only { (fields : CertificateFields) → IsCertificate input.now fields → Gives cert_shown result (Some fields) }
    ensures not_form { IsErr result ↔ ((fields : CertificateFields) → IsCertificate input.now fields → ⊥) }

    // The same as a function of the octets, which the crates above cite.
    ensures exact { Gives cert_shown result (certificate_fields_at input.now) }
{
    certificate(input)
}

/// Reads a certification request (RFC 2986, 4.2). Its names are the first commonName of the subject,
/// and the contents of the first subjectAltName in an extensionRequest.
///
/// # Errors
///
/// `NotForm` exactly where the whole input is no certification request, or has more octets than
/// `MAX_INPUT`.
pub fn read_csr<'a>(input: &'a [u8]) -> Result<CsrFields<'a>, NotForm>
    ensures found { IfOk result (λ fields. IsRequest input.now (csr_shown fields)) }
    ensures names { IfOk result (λ fields. IsValueList fields.names.alternative.now) }
    ensures only { (fields : RequestFields) → IsRequest input.now fields → Gives csr_shown result (Some fields) }
    ensures not_form { IsErr result ↔ ((fields : RequestFields) → IsRequest input.now fields → ⊥) }

    // The same as a function of the octets, which the crates above cite.
    ensures exact { Gives csr_shown result (request_fields_at input.now) }
{
    request(input)
}
