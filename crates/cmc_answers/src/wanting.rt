//! What a CertificateRequest asks for.
ghost use Rattle.std.specs.Prelude.{◌≡◌, ◌==◌, ◌≢◌, IfOk, Some};
ghost use Rattle.cmc_der.specs.Keys.{csr_shown, text_shown};
ghost use Rattle.cmc_x509.specs.Lists.{IsValueList};
ghost use Rattle.cmc_answers.specs.Wanted as spec;

use cmc_der::{CsrFields, KeyKind};
use cmc_meta::Texts;
use cmc_objects::CertificateRequest;
use cmc_policy_rules::{Pattern, Patterns, Wanted};
use cmc_x509::next_name;
use std::alloc::{AllocError, Global};

const EMAIL: u8 = 129;

const DNS: u8 = 130;

const URI: u8 = 134;

const IP: u8 = 135;

fn has_tag(wanted: u8, tag: u8, body: &[u8]) -> bool
    ensures { result ≡ spec.has_tag wanted (tag, body.now) }
{
    tag == wanted && (wanted != IP || body.len() == 4 || body.len() == 16)
}

// The names of this tag among the alternative names, in order.
fn names_of(alloc: Global, tag: u8, alternative: &[u8]) -> Result<Patterns, AllocError>
    requires { IsValueList alternative.now }
    ensures { IfOk result (λ names. names ≡ spec.names_of_tag tag alternative.now) }
{
    let mut names = Patterns::new(alloc);
    let mut rest = alternative;
    while let Some((own, body, after)) = next_name(rest) {
        if has_tag(tag, own, body) {
            names.push(Pattern::from_slice(alloc, body)?)?;
        }
        rest = after;
    }
    Ok(names)
}

fn patterns_of(alloc: Global, texts: &Texts) -> Result<Patterns, AllocError>
    ensures { IfOk result (λ patterns. patterns ≡ texts.now) }
{
    let mut patterns = Patterns::new(alloc);
    for text in texts.as_slice() {
        patterns.push(Pattern::from_slice(alloc, text.as_slice())?)?;
    }
    Ok(patterns)
}

fn pattern_of(alloc: Global, text: Option<&[u8]>) -> Result<Option<Pattern>, AllocError>
    ensures { IfOk result (λ pattern. pattern ≡ text_shown text.entry) }
{
    match text {
        Some(text) => Ok(Some(Pattern::from_slice(alloc, text)?)),
        None => Ok(None),
    }
}

fn is_rsa(kind: Option<KeyKind>) -> Option<bool>
    ensures { result ≡ spec.is_rsa kind }
{
    match kind {
        Some(KeyKind::Rsa { bits: _ }) => Some(true),
        Some(KeyKind::P256 | KeyKind::P384 | KeyKind::P521) => Some(false),
        None => None,
    }
}

fn size_of(kind: Option<KeyKind>) -> u32
    ensures { result ≡ spec.key_size_of kind }
{
    match kind {
        Some(KeyKind::Rsa { bits }) => bits,
        Some(KeyKind::P256) => 256,
        Some(KeyKind::P384) => 384,
        Some(KeyKind::P521) => 521,
        None => 0,
    }
}

/// What the request asks for, with the fields of its signing request: its issuer, names, usages, duration, and the
/// algorithm and size of its key.
pub fn wanted_of(
    alloc: Global,
    request: &CertificateRequest,
    csr: &CsrFields<'_>,
) -> Result<Wanted, AllocError>
    requires { IsValueList csr.now.names.alternative.now }
    ensures { IfOk result (λ wanted. wanted ≡ spec.wanted_of request.now (csr_shown csr.now)) }
{
    let alternative = csr.names.alternative;
    let kind = csr.key.kind();
    Ok(Wanted {
        issuer: Pattern::from_slice(alloc, request.spec.issuer.name.as_slice())?,
        common: pattern_of(alloc, csr.names.common)?,
        dns: names_of(alloc, DNS, alternative)?,
        ips: names_of(alloc, IP, alternative)?,
        uris: names_of(alloc, URI, alternative)?,
        emails: names_of(alloc, EMAIL, alternative)?,
        usages: patterns_of(alloc, &request.spec.usages)?,
        ca: request.spec.is_ca,
        duration: request.spec.duration.unwrap_or(7_776_000),
        rsa: is_rsa(kind),
        size: size_of(kind),
    })
}
