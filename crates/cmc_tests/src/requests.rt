//! What no clause says: whether keys and requests of openssl's making fit a Certificate, by what openssl prints of them. A
//! row of a table is a text with bars between its columns, which `column` takes apart.
use crate::checks::passes;
use crate::values::{column, least_spec, made, name, number};
use crate::{made_keys, made_requests, whole};
use cmc_keys::is_public_of;
use cmc_match::{
    has_names, is_one_key, is_same_set, key_fits, request_answers, request_has_key, request_matches,
};
use cmc_meta::{Bytes, Text, Texts};
use cmc_objects::{
    Algorithm, CertSpec, CertificateRequest, IssuerRef, KeySpec, RequestSpec, Shared,
    SigningRequest, public_of,
};
use cmc_x509::{read_csr, read_key};
use std::alloc::{AllocError, Global};
use std::test::Fail;

/// A file of no octets.
pub(crate) static EMPTY: &str = "empty|";

/// What a row wants in its last column.
fn is_wanted(word: &str) -> bool {
    word == "yes"
}

/// A request of openssl; the common name, and the DNS names, IP addresses, URIs and email addresses of a Certificate, with
/// commas between them; and whether they are one.
static NAMES: [&str; 24] = [
    "P-256, all names|example.com|example.com,www.example.com|10.0.0.1|https://example.com/x|a@example.com|yes",
    "P-256, all names|example.com|www.example.com,example.com,www.example.com|10.0.0.1,10.0.0.1|https://example.com/x|a@example.com|yes",
    "P-256, all names||example.com,www.example.com|10.0.0.1|https://example.com/x|a@example.com|no",
    "P-256, all names|www.example.com|example.com,www.example.com|10.0.0.1|https://example.com/x|a@example.com|no",
    "P-256, all names|example.com|example.com|10.0.0.1|https://example.com/x|a@example.com|no",
    "P-256, all names|example.com|example.com,www.example.com,c.example.com|10.0.0.1|https://example.com/x|a@example.com|no",
    "P-256, all names|example.com|example.com,c.example.com|10.0.0.1|https://example.com/x|a@example.com|no",
    "P-256, all names|example.com|example.com,www.example.com||https://example.com/x|a@example.com|no",
    "P-256, all names|example.com|example.com,www.example.com|10.0.0.2|https://example.com/x|a@example.com|no",
    "P-256, all names|example.com|example.com,www.example.com|10.0.0.1,::1|https://example.com/x|a@example.com|no",
    "P-256, all names|example.com|example.com,www.example.com|::ffff:a00:1|https://example.com/x|a@example.com|no",
    "P-256, all names|example.com|example.com,www.example.com|10.0.0.1,not an address|https://example.com/x|a@example.com|yes",
    "P-256, all names|example.com|example.com,www.example.com|10.0.0.1||a@example.com|no",
    "P-256, all names|example.com|example.com,www.example.com|10.0.0.1|https://example.com/x||no",
    "P-256, all names|example.com|example.com,www.example.com|10.0.0.1|a@example.com|https://example.com/x|no",
    "addresses of 4, 16 and 5 octets|example.com||10.0.0.1,::1|||yes",
    "addresses of 4, 16 and 5 octets|example.com||0:0:0:0:0:0:0:1,10.0.0.1|||yes",
    "addresses of 4, 16 and 5 octets|example.com||10.0.0.1|||no",
    "addresses of 4, 16 and 5 octets|example.com||10.0.0.1,::2|||no",
    "P-384, no names||||||yes",
    "P-384, no names|example.com|||||no",
    "P-521, common name alone|only common|||||yes",
    "two alternative names, the first counts|example.com|first||||yes",
    "two alternative names, the first counts|example.com|first,second||||no",
];

/// The names that the request of openssl with all names asks for, as a row of that table.
static ALL_NAMES: &str =
    "P-256, all names|example.com|example.com,www.example.com|10.0.0.1|https://example.com/x|a@example.com|yes";

/// What a Certificate and a request have besides names: the issuer's name, kind and group, empty where absent, the
/// duration, the mark of a CA, and the usages with commas between them. The terms of a Certificate, and behind a slash
/// those of a request, and whether they are one.
static TERMS: [&str; 15] = [
    "ca|||||client auth,server auth/ca|Issuer|cert-manager.io|7776000||server auth,client auth|yes",
    "ca|||||client auth,server auth,client auth/ca|||||server auth,client auth|yes",
    "ca|||7776000||server auth/ca|||||server auth|yes",
    "ca|||7775999||server auth/ca|||||server auth|no",
    "ca|||||server auth/ca|||0||server auth|no",
    "ca|||||server auth/other|||||server auth|no",
    "ca|ClusterIssuer||||server auth/ca|||||server auth|no",
    "ca|ClusterIssuer||||server auth/ca|ClusterIssuer||||server auth|yes",
    "ca|||||server auth/ca||example.com|||server auth|no",
    "ca||||CA|server auth/ca|||||server auth|no",
    "ca|||||server auth/ca||||CA|server auth|no",
    "ca||||CA|server auth/ca||||CA|server auth|yes",
    "ca|||||server auth/ca|||||server auth,client auth|no",
    "ca|||||server auth,client auth/ca|||||server auth|no",
    "ca|||||/ca||||||yes",
];

/// The size of key that the word spells, and none for any other word.
pub(crate) fn size(word: &str) -> Option<u32> {
    match word.parse::<u32>() {
        Ok(size) => Some(size),
        Err(_) => None,
    }
}

/// The texts between the commas, and none in an empty text.
fn list(alloc: Global, words: &str) -> Result<Texts, AllocError> {
    let mut texts = Texts::new(alloc);
    for word in words.split(',') {
        if !word.is_empty() {
            texts.push(Text::from_str(alloc, word)?)?;
        }
    }
    Ok(texts)
}

pub(crate) fn key_called(alloc: Global, name: &str) -> Result<Bytes, Fail> {
    made(
        alloc,
        &[
            made_keys::made(),
            made_keys::built(),
            made_keys::other_ec(),
            made_keys::other_numbers(),
            made_keys::other_forms(),
        ],
        name,
    )
}

fn request_called(alloc: Global, name: &str) -> Result<Bytes, Fail> {
    made(
        alloc,
        &[made_requests::made(), made_requests::changed(), EMPTY],
        name,
    )
}

fn optional(alloc: Global, word: &str) -> Result<Option<Text>, AllocError> {
    if word.is_empty() {
        return Ok(None);
    }
    Ok(Some(Text::from_str(alloc, word)?))
}

fn issuer_of(alloc: Global, terms: &str) -> Result<IssuerRef, AllocError> {
    let name = Text::from_str(alloc, column(terms, 0))?;
    let kind = optional(alloc, column(terms, 1))?;
    Ok(IssuerRef {
        name,
        kind,
        group: optional(alloc, column(terms, 2))?,
    })
}

/// Puts the texts between the commas in the place of a list.
fn set_list(alloc: Global, texts: &mut Texts, words: &str) -> Result<(), AllocError> {
    *texts = list(alloc, words)?;
    Ok(())
}

fn set_issuer(alloc: Global, issuer: &mut IssuerRef, terms: &str) -> Result<(), AllocError> {
    *issuer = issuer_of(alloc, terms)?;
    Ok(())
}

fn ask_on(alloc: Global, spec: &mut RequestSpec, terms: &str) -> Result<(), AllocError> {
    set_issuer(alloc, &mut spec.issuer, terms)?;
    spec.duration = number(column(terms, 3));
    spec.is_ca = column(terms, 4) == "CA";
    set_list(alloc, &mut spec.usages, column(terms, 5))
}

/// A request with these terms.
fn asking_on(alloc: Global, terms: &str) -> Result<CertificateRequest, Fail> {
    let mut asking = whole::request(alloc)?;
    let mut spec = RequestSpec::copy(&asking.spec)?;
    ask_on(alloc, &mut spec, terms)?;
    asking.spec = Shared::new(alloc, spec)?;
    Ok(asking)
}

/// A request with these terms and these octets.
fn asking_for(alloc: Global, terms: &str, octets: Bytes) -> Result<CertificateRequest, Fail> {
    let mut asking = asking_on(alloc, terms)?;
    let mut spec = RequestSpec::copy(&asking.spec)?;
    spec.request = SigningRequest::new(alloc, octets)?;
    asking.spec = Shared::new(alloc, spec)?;
    Ok(asking)
}

/// A request with these octets, to the issuer `ca` for 90 days.
fn asking(alloc: Global, octets: Bytes) -> Result<CertificateRequest, Fail> {
    asking_for(alloc, "ca|||7776000||server auth,client auth", octets)
}

pub(crate) fn asking_called(alloc: Global, name: &str) -> Result<CertificateRequest, Fail> {
    asking(alloc, request_called(alloc, name)?)
}

/// Gives the spec the names of the row.
fn set_names(alloc: Global, spec: &mut CertSpec, row: &str) -> Result<(), AllocError> {
    spec.common_name = Text::from_str(alloc, column(row, 1))?;
    set_list(alloc, &mut spec.dns_names, column(row, 2))?;
    set_list(alloc, &mut spec.ip_addresses, column(row, 3))?;
    set_list(alloc, &mut spec.uris, column(row, 4))?;
    set_list(alloc, &mut spec.emails, column(row, 5))
}

/// Gives the spec the names of the row, an ECDSA key, and what `asking` asks for.
// Filled where it stands: a spec is wide to drop at each `?`.
fn fill(alloc: Global, spec: &mut CertSpec, row: &str) -> Result<(), AllocError> {
    set_names(alloc, spec, row)?;
    spec.key.algorithm = Some(Algorithm::Ecdsa);
    set_list(alloc, &mut spec.usages, "client auth,server auth")
}

/// A spec with the names of the row, that asks for an ECDSA key and for what `asking` asks for.
fn spec_of(alloc: Global, row: &str) -> Result<CertSpec, Fail> {
    let mut spec = least_spec(alloc, "web-tls", "example.com")?;
    fill(alloc, &mut spec, row)?;
    Ok(spec)
}

/// A spec that the request of openssl with all names matches.
pub(crate) fn whole_spec(alloc: Global) -> Result<CertSpec, Fail> {
    spec_of(alloc, ALL_NAMES)
}

fn names_fit(spec: &CertSpec, request: &[u8]) -> bool {
    match read_csr(request) {
        Ok(fields) => has_names(spec, &fields.names),
        Err(_) => false,
    }
}

/// The request's names are those of the row, and the request asks for what the row asks for.
fn fits_on(alloc: Global, row: &str, request: &CertificateRequest) -> Result<(bool, bool), Fail> {
    let spec = spec_of(alloc, row)?;
    let octets = request.spec.request.as_slice();
    Ok((names_fit(&spec, octets), request_matches(&spec, request)))
}

fn fits(alloc: Global, row: &str) -> Result<(bool, bool), Fail> {
    fits_on(alloc, row, &asking_called(alloc, column(row, 0))?)
}

#[test]
fn matches_names(rt: HostRuntime) -> Result<(), Fail> {
    for row in &NAMES {
        let (by_names, by_all) = fits(rt.alloc(), row)?;
        let want = is_wanted(column(row, 6));
        passes(&rt, row, by_names == want);
        passes(&rt, row, by_all == want);
    }
    Ok(())
}

fn set_terms(alloc: Global, spec: &mut CertSpec, terms: &str) -> Result<(), AllocError> {
    set_issuer(alloc, &mut spec.issuer, terms)?;
    spec.duration = number(column(terms, 3));
    spec.is_ca = column(terms, 4) == "CA";
    set_list(alloc, &mut spec.usages, column(terms, 5))
}

fn spec_for(alloc: Global, terms: &str) -> Result<CertSpec, Fail> {
    let mut spec = whole_spec(alloc)?;
    set_terms(alloc, &mut spec, terms)?;
    Ok(spec)
}

fn meets_on(alloc: Global, spec: &str, request: &CertificateRequest) -> Result<bool, Fail> {
    Ok(request_matches(&spec_for(alloc, spec)?, request))
}

fn meets(alloc: Global, spec: &str, request: &str) -> Result<bool, Fail> {
    let octets = request_called(alloc, "P-256, all names")?;
    meets_on(alloc, spec, &asking_for(alloc, request, octets)?)
}

fn is_met(alloc: Global, row: &str) -> Result<bool, Fail> {
    let (spec, request) = row.split_once('/').unwrap_or(("", ""));
    Ok(meets(alloc, spec, request)? == is_wanted(column(request, 6)))
}

#[test]
fn matches_terms(rt: HostRuntime) -> Result<(), Fail> {
    for row in &TERMS {
        passes(&rt, row, is_met(rt.alloc(), row)?);
    }
    Ok(())
}

fn matches_whole(alloc: Global, request: &CertificateRequest) -> Result<bool, Fail> {
    Ok(request_matches(&whole_spec(alloc)?, request))
}

fn has_first_key(alloc: Global, request: &CertificateRequest) -> Result<bool, Fail> {
    let key = key_called(alloc, "p256 as ECPrivateKey")?;
    Ok(request_has_key(request, key.as_slice()))
}

fn fits_neither(alloc: Global, request: &CertificateRequest) -> Result<bool, Fail> {
    Ok(!matches_whole(alloc, request)? && !has_first_key(alloc, request)?)
}

/// A request that neither matches the whole spec nor has the key.
fn is_refused(alloc: Global, octets: Bytes) -> Result<bool, Fail> {
    let request = asking(alloc, octets)?;
    fits_neither(alloc, &request)
}

/// The first octets of the request with all names, so many of them.
fn cut(alloc: Global, count: usize) -> Result<Bytes, Fail> {
    let whole = request_called(alloc, "P-256, all names")?;
    match whole.as_slice().get(..count) {
        Some(octets) => Ok(Bytes::from_slice(alloc, octets)?),
        None => Err(Fail::from("not so many octets")),
    }
}

static UNREADABLE: [&str; 4] = ["octet behind", "octet behind inside", "version 1", "empty"];

/// Nothing of the request that openssl made, one octet, half of it, and all but the last octet.
static CUT: [(&str, usize); 4] = [("0", 0), ("1", 1), ("157", 157), ("314", 314)];

#[test]
fn refuses_unreadable_requests(rt: HostRuntime) -> Result<(), Fail> {
    let alloc = rt.alloc();
    let whole = request_called(alloc, "P-256, all names")?;
    passes(&rt, "315 octets", whole.as_slice().len() == 315);
    for (row, count) in &CUT {
        passes(&rt, row, is_refused(alloc, cut(alloc, *count)?)?);
    }
    for name in &UNREADABLE {
        passes(&rt, name, is_refused(alloc, request_called(alloc, name)?)?);
    }
    Ok(())
}

/// The algorithm and the size that are asked for, a key file, and whether it fits.
static KEYS: [&str; 14] = [
    "||rsa as RSAPrivateKey|yes",
    "||rsa as PrivateKeyInfo|yes",
    "RSA|2048|rsa as RSAPrivateKey|yes",
    "|3072|rsa as RSAPrivateKey|no",
    "||rsa1 as RSAPrivateKey|no",
    "||p256 as ECPrivateKey|no",
    "ECDSA||p256 as ECPrivateKey|yes",
    "ECDSA|256|p256 as PrivateKeyInfo|yes",
    "ECDSA|384|p256 as ECPrivateKey|no",
    "ECDSA|384|p384 as ECPrivateKey|yes",
    "ECDSA|521|p521 as PrivateKeyInfo|yes",
    "ECDSA||rsa as RSAPrivateKey|no",
    "ECDSA||EC, no public key|no",
    "||empty|no",
];

fn algorithm(word: &str) -> Option<Algorithm> {
    match word {
        "RSA" => Some(Algorithm::Rsa),
        "ECDSA" => Some(Algorithm::Ecdsa),
        _ => None,
    }
}

fn key_spec(row: &str) -> KeySpec {
    KeySpec {
        algorithm: algorithm(column(row, 0)),
        size: size(column(row, 1)),
        encoding: None,
        rotation: None,
    }
}

fn is_public_fitting(spec: &KeySpec, file: &[u8]) -> bool {
    match read_key(file) {
        Ok(key) => is_public_of(spec.algorithm_at_use(), spec.size_at_use(), &key),
        Err(_) => false,
    }
}

/// Whether the row's file fits, and whether its public key does.
fn is_fitting(alloc: Global, row: &str) -> Result<(bool, bool), Fail> {
    let file = key_called(alloc, column(row, 2))?;
    let spec = key_spec(row);
    let octets = file.as_slice();
    Ok((key_fits(&spec, octets), is_public_fitting(&spec, octets)))
}

#[test]
fn fits_keys(rt: HostRuntime) -> Result<(), Fail> {
    for row in &KEYS {
        let want = is_wanted(column(row, 3));
        passes(&rt, row, is_fitting(rt.alloc(), row)? == (want, want));
    }
    Ok(())
}

fn is_of_key(request: &[u8], file: &[u8]) -> bool {
    match (read_csr(request), read_key(file)) {
        (Ok(fields), Ok(key)) => is_one_key(&fields.key, &key),
        _ => false,
    }
}

/// A request, a key file, and whether the request has that key.
static KEYS_OF: [(&str, &str, bool); 12] = [
    ("P-256, all names", "p256 as ECPrivateKey", true),
    ("P-256, all names", "p256 as PrivateKeyInfo", true),
    ("P-256, all names", "p384 as ECPrivateKey", false),
    ("P-256, all names", "synthetic P-256 as ECPrivateKey", false),
    ("P-256, all names", "EC, no public key", false),
    ("P-256, all names", "empty", false),
    ("P-384, no names", "p384 as PrivateKeyInfo", true),
    ("P-521, common name alone", "p521 as ECPrivateKey", true),
    ("RSA, names alone", "rsa as RSAPrivateKey", true),
    ("RSA, names alone", "rsa1 as RSAPrivateKey", false),
    ("RSA, names alone", "p256 as ECPrivateKey", false),
    ("Ed25519", "Ed25519", false),
];

fn has_key(alloc: Global, request: &str, file: &[u8]) -> Result<(bool, bool), Fail> {
    let asked = asking_called(alloc, request)?;
    let by_fields = is_of_key(asked.spec.request.as_slice(), file);
    Ok((request_has_key(&asked, file), by_fields))
}

#[test]
fn finds_the_key_of_a_request(rt: HostRuntime) -> Result<(), Fail> {
    let alloc = rt.alloc();
    for (request, key, want) in &KEYS_OF {
        let file = key_called(alloc, key)?;
        let (by_request, by_fields) = has_key(alloc, request, file.as_slice())?;
        passes(&rt, key, by_request == *want);
        passes(&rt, request, by_fields == *want);
    }
    Ok(())
}

/// A request, a key file, and whether the request asks for all that the whole spec asks for, with that key.
static ANSWERS: [(&str, &str, bool); 5] = [
    ("P-256, all names", "p256 as ECPrivateKey", true),
    ("P-256, all names", "p256 as PrivateKeyInfo", true),
    ("P-256, all names", "p384 as ECPrivateKey", false),
    ("P-384, no names", "p384 as PrivateKeyInfo", false),
    ("P-256, all names", "empty", false),
];

fn answers(alloc: Global, request: &str, key: &str) -> Result<bool, Fail> {
    let asked = asking_called(alloc, request)?;
    let file = key_called(alloc, key)?;
    let public = public_of(file.as_slice());
    Ok(request_answers(&whole_spec(alloc)?, &asked, file.as_slice(), &public))
}

#[test]
fn finds_the_request_that_answers(rt: HostRuntime) -> Result<(), Fail> {
    for (request, key, want) in &ANSWERS {
        passes(&rt, key, answers(rt.alloc(), request, key)? == *want);
    }
    Ok(())
}

/// Two lists, and whether they have the same texts.
static SETS: [(&str, &str, bool); 9] = [
    ("", "", true),
    ("a", "", false),
    ("", "a", false),
    ("a,b", "b,a,b", true),
    ("a,a", "a", true),
    ("a,b", "a", false),
    ("a", "a,b", false),
    ("a,b", "a,c", false),
    ("ab", "a,b", false),
];

fn are_same(alloc: Global, left: &str, right: &str) -> Result<bool, AllocError> {
    let left = list(alloc, left)?;
    Ok(is_same_set(left.as_slice(), list(alloc, right)?.as_slice()))
}

#[test]
fn compares_sets(rt: HostRuntime) -> Result<(), Fail> {
    for (left, right, want) in &SETS {
        passes(&rt, left, are_same(rt.alloc(), left, right)? == *want);
    }
    Ok(())
}
