//! Certification requests.
ghost use Rattle.std.specs.Prelude.{◌≡◌, ◌≤◌, ◌++◌, List, ℕ, length, IfOk, OnOk};
ghost use Rattle.cmc_der.specs.Builders.{value};
ghost use Rattle.cmc_der.specs.Keys.{key_shown, text_shown, PublicKey, RequestFields};
ghost use Rattle.cmc_x509.specs.Certificates.{IsRequest};
ghost use Rattle.cmc_x509.specs.declared.taking.TheConstants.{MAX_INPUT};
ghost use Rattle.cmc_x509_build.specs.Requests as spec;
ghost use Rattle.cmc_x509_build.specs.Keys.{IsWritable};
ghost use Rattle.cmc_x509_build.specs.Octets.{signed_octets, name_octets, spki_octets};

use crate::keys::push_spki;
use crate::names::{push_addresses, push_alternative_extension, push_name, push_names};
use crate::oids;
use crate::pieces::{push_nested, push_value};
use crate::signatures::signed;
use cmc_der::Spki;
use cmc_meta::{Bytes, Text, Texts};
use std::alloc::{AllocError, Global};

// Room for a few names, and for a body of these and a common key: what is longer grows.
const NAMES: usize = 64;

const BODY: usize = 512;

/// What a request names its subject: a common name, empty for none, DNS names, IP addresses as texts, URIs and
/// email addresses.
pub struct NameSet {
    pub common: Text,
    pub dns: Texts,
    pub ips: Texts,
    pub uris: Texts,
    pub emails: Texts,
}

impl Drop for NameSet {
    fn drop(self) {
        let NameSet {
            common: _common,
            dns: _dns,
            ips: _ips,
            uris: _uris,
            emails: _emails,
        } = self;
    }
}

impl NameSet {
    /// An equal set of names.
    pub fn copy(&self) -> Result<NameSet, AllocError>
        ensures { IfOk result (λ names. names ≡ self.now) }
    {
        Ok(NameSet {
            common: self.common.copy()?,
            dns: self.dns.copy()?,
            ips: self.ips.copy()?,
            uris: self.uris.copy()?,
            emails: self.emails.copy()?,
        })
    }
}

// The GeneralNames of the set, in the order DNS names, IP addresses, URIs, email addresses.
#[tactic(auto, unfolding(crate::specs::Requests::alternative_of))]
fn alternative_of(alloc: Global, names: &NameSet) -> Result<Vec<u8>, AllocError>
    ensures { IfOk result (λ octets. octets.items ≡ spec.alternative_of names.now) }
{
    let dns = push_names(Vec::with_capacity(alloc, NAMES)?, 130, names.dns.as_slice())?;
    let ips = push_addresses(dns, names.ips.as_slice())?;
    let uris = push_names(ips, 134, names.uris.as_slice())?;
    push_names(uris, 129, names.emails.as_slice())
}

fn push_attributes(
    alloc: Global,
    octets: &mut Vec<u8>,
    alternative: &[u8],
) -> Result<(), AllocError>
    ensures { OnOk result (octets.new.items ≡ octets.old.items ++ spec.attributes_of alternative.now) }
{
    if alternative.is_empty() {
        return Ok(());
    }
    let mut extension = Vec::new(alloc);
    push_alternative_extension(alloc, &mut extension, alternative)?;
    let mut parts = Vec::with_capacity(alloc, extension.len() + NAMES)?;
    push_value(&mut parts, 6, &oids::EXTENSION_REQUEST)?;
    push_nested(alloc, &mut parts, 49, 48, &extension)?;
    push_value(octets, 48, &parts)
}

fn common_of(names: &NameSet) -> Option<&[u8]>
    ensures { text_shown result ≡ spec.common_if_any names.now.common }
{
    let common = names.common.as_slice();
    if common.is_empty() {
        None
    } else {
        Some(common)
    }
}

// What comes after the version.
fn push_subject(
    alloc: Global,
    octets: &mut Vec<u8>,
    key: &Spki<'_>,
    names: &NameSet,
) -> Result<(), AllocError>
    ensures { OnOk result (octets.new.items ≡ octets.old.items
        ++ (name_octets (spec.common_if_any names.now.common) ++ (spki_octets (key_shown key.now)
        ++ value 160 (spec.attributes_of (spec.alternative_of names.now))))) }
{
    let alternative = alternative_of(alloc, names)?;
    let mut attributes = Vec::new(alloc);
    push_attributes(alloc, &mut attributes, &alternative)?;
    push_name(alloc, octets, common_of(names))?;
    push_spki(alloc, octets, key)?;
    push_value(octets, 160, &attributes)
}

#[tactic(auto, unfolding(crate::specs::Requests::request_body))]
fn built(alloc: Global, key: &Spki<'_>, names: &NameSet) -> Result<Bytes, AllocError>
    ensures { IfOk result (λ body. body
        ≡ spec.request_body (record { key = key_shown key.now; names = spec.names_of names.now })) }
{
    let mut parts = Vec::with_capacity(alloc, BODY)?;
    push_value(&mut parts, 2, &[0])?;
    push_subject(alloc, &mut parts, key, names)?;
    let mut body = Vec::new(alloc);
    push_value(&mut body, 48, &parts)?;
    Bytes::from_slice(alloc, &body)
}

/// CertificationRequestInfo of the key and the names (RFC 2986, 4.1): version 0, the common name as a UTF8String
/// where it is not empty, the key, and the attribute extensionRequest with the alternative names, where there are
/// any. A text among the IP addresses that writes none is left out.
///
/// Within the size that is read, the octets are read as the body of a request with this key and these names, where
/// the key is an RSA or an elliptic curve key of a SubjectPublicKeyInfo.
///
/// # Errors
///
/// Where there is no memory, or a value would have contents of more than 2^30 octets.
pub fn csr_body(alloc: Global, key: &Spki<'_>, names: &NameSet) -> Result<Bytes, AllocError>
    ensures octets { IfOk result (λ body. body
        ≡ spec.request_body (record { key = key_shown key.now; names = spec.names_of names.now })) }
    ensures is_read { IfOk result (λ body. IsWritable (key_shown key.now) → length body ≤ MAX_INPUT
        → spec.IsRequestBody body (record { key = key_shown key.now; names = spec.names_of names.now })) }
{
    built(alloc, key, names)
}

/// CertificationRequest (RFC 2986, 4.2): the body, the algorithm ecdsa-with-SHA256, and the signature.
///
/// Within the size that is read, the octets are read as a request with the fields of the body.
///
/// # Errors
///
/// Where there is no memory, or a value would have contents of more than 2^30 octets.
pub fn csr_whole(alloc: Global, body: &[u8], signature: &[u8]) -> Result<Bytes, AllocError>
    ensures octets { IfOk result (λ whole. whole ≡ signed_octets body.now signature.now) }
    ensures is_read { IfOk result (λ whole. (fields : RequestFields) → spec.IsRequestBody body.now fields
        → length whole ≤ MAX_INPUT → IsRequest whole fields) }
{
    signed(alloc, body, signature)
}
