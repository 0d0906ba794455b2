// The forms of objects, as reading gives them: what of them the types of their fields do not say.
ghost use Rattle.std.specs.List.{list_all};
ghost use Rattle.std.specs.Prelude.{◌≡◌, is_some};
ghost use Rattle.cmc_meta.specs.Wordings as wordings;
ghost use Rattle.cmc_objects.specs.Requests.{is_duration_form, is_issuer_form, is_request_form, is_short_text, is_short_option};
ghost use Rattle.cmc_setup.specs.ObjectForms as spec;

use cmc_meta::{Text, is_clean, is_printable_name};
use cmc_objects::{CertSpec, Certificate, CertificateRequest, IssuerRef, Object};
use cmc_x509_build::address_at;

const LONGEST_TEXT: usize = 253;

// 999,999,999 hours.
const LONGEST_DURATION: u64 = 3_599_999_996_400;

/// Whether a duration has at most 999,999,999 hours.
pub fn is_duration(seconds: Option<u64>) -> bool
    ensures { result ≡ is_duration_form seconds }
{
    match seconds {
        None => true,
        Some(seconds) => seconds <= LONGEST_DURATION,
    }
}

fn is_short(text: &Text) -> bool
    ensures { result ≡ is_short_text text.now }
{
    text.as_str().len() <= LONGEST_TEXT
}

fn may_be_short(text: &Option<Text>) -> bool
    ensures { result ≡ is_short_option text.now }
{
    match text {
        None => true,
        Some(text) => is_short(text),
    }
}

fn is_issuer(issuer: &IssuerRef) -> bool
    ensures { result ≡ is_issuer_form issuer.now }
{
    is_short(&issuer.name) && may_be_short(&issuer.kind) && may_be_short(&issuer.group)
}

fn are_printable(texts: &[Text]) -> bool
    ensures { result ≡ list_all wordings.is_printable_name texts.now }
{
    texts.iter().all(|text| is_printable_name(text.as_str()))
}

fn is_address(text: &Text) -> bool
    ensures { result ≡ spec.is_address_text text.now }
{
    address_at(text.as_str()).is_some()
}

fn are_addresses(texts: &[Text]) -> bool
    ensures { result ≡ list_all spec.is_address_text texts.now }
{
    texts.iter().all(|text| is_address(text))
}

fn are_subject_names(certificate: &CertSpec) -> bool
    ensures { result ≡ spec.are_subject_names certificate.now }
{
    is_clean(certificate.common_name.as_str())
        && are_printable(certificate.dns_names.as_slice())
        && are_addresses(certificate.ip_addresses.as_slice())
        && are_printable(certificate.uris.as_slice())
        && are_printable(certificate.emails.as_slice())
}

fn are_certificate_terms(certificate: &CertSpec) -> bool
    ensures { result ≡ spec.are_certificate_terms certificate.now }
{
    is_issuer(&certificate.issuer)
        && is_duration(certificate.duration)
        && is_duration(certificate.renew_before)
}

fn is_certificate(certificate: &Certificate) -> bool
    ensures { result ≡ spec.is_certificate_form certificate.now }
{
    are_certificate_terms(&certificate.spec) && are_subject_names(&certificate.spec)
}

fn is_request(request: &CertificateRequest) -> bool
    ensures { result ≡ is_request_form request.now }
{
    is_issuer(&request.spec.issuer) && is_duration(request.spec.duration)
}

/// Whether a scenario can apply this object: the name, kind and group of an issuer have at most 253 bytes
/// each, and a duration has at most 999,999,999 hours. Of a Certificate the time before its end at which it
/// is renewed has no more either, the common name has no control character, DNS names, URIs and emails have
/// 1 to 253 printable characters of ASCII, and each IP address is the text of one.
pub fn is_object(object: &Object) -> bool
    ensures { result ≡ spec.is_object_form object.now }
{
    match object {
        Object::Cert(certificate) => is_certificate(certificate),
        Object::Request(request) => is_request(request),
        Object::Secret(_) => true,
    }
}
