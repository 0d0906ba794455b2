//! What no clause says: what is known of a Secret with a key and a certificate of openssl's making, by what openssl prints
//! of them. A row of a table is a text with bars between its columns, which `column` takes apart.
use crate::checks::{passes, tells};
use crate::marks::set;
use crate::requests::{EMPTY, asking_called, key_called, size, whole_spec};
use crate::values::{column, made, name, text};
use crate::{made_certificates, whole};
use cmc_match::{facts_mean, facts_of, pair_in};
use cmc_meta::{Bytes, Pairs, Text};
use cmc_objects::{CertSpec, CertificateRequest, Pairing, Parts, Secret, Shared};
use cmc_policies::Facts;
use std::alloc::{AllocError, Global};
use std::process::Abort;
use std::test::Fail;

/// The key and the certificate of a Secret, what its annotations have else than those of the Certificate's issuer, the
/// size of key that is asked for, and the current request; and what is known then: the flags that are true, and the
/// times of the certificate.
static FACTS: [&str; 23] = [
    "p256 as ECPrivateKey|P-256, all names||256|P-256, all names|secret filled pair issuer owner kind request 1795748973 1803524973",
    "p256 as PrivateKeyInfo|P-256, all names||256|P-256, all names|secret filled pair issuer owner kind request 1795748973 1803524973",
    "synthetic P-256 as ECPrivateKey|P-256, all names||256|P-256, all names|secret filled issuer owner request 0 0",
    "p256 as ECPrivateKey|P-256, all names||256|none|secret filled pair issuer owner request 1795748973 1803524973",
    "p256 as ECPrivateKey|P-256, all names||384|P-256, all names|secret filled pair issuer owner request 1795748973 1803524973",
    "p256 as ECPrivateKey|P-256, all names||256|two alternative names, the first counts|secret filled pair issuer owner kind 1795748973 1803524973",
    "p256 as ECPrivateKey|P-256, all names||256|P-384, no names|secret filled pair issuer owner 1795748973 1803524973",
    "p256 as ECPrivateKey|P-256, all names||256|octet behind|secret filled pair issuer owner 1795748973 1803524973",
    "p256 as ECPrivateKey|empty||256|P-256, all names|secret issuer owner kind request 0 0",
    "p256 as ECPrivateKey|none||256|P-256, all names|secret issuer owner kind request 0 0",
    "empty|P-256, all names||256|P-256, all names|secret issuer owner request 0 0",
    "none|P-256, all names||256|P-256, all names|secret issuer owner request 0 0",
    "none|none||256|none|secret issuer owner request 0 0",
    "p256 as ECPrivateKey|octet behind||256|P-256, all names|secret filled issuer owner kind request 0 0",
    "p256 as ECPrivateKey|P-256, all names|cert-manager.io/temporary-certificate=true|256|P-256, all names|secret pair issuer owner kind request 1795748973 1803524973",
    "p256 as ECPrivateKey|P-256, all names|cert-manager.io/temporary-certificate=True|256|P-256, all names|secret filled pair issuer owner kind request 1795748973 1803524973",
    "p256 as ECPrivateKey|P-256, all names|cert-manager.io/issuer-name=other|256|P-256, all names|secret filled pair owner kind request 1795748973 1803524973",
    "p256 as ECPrivateKey|P-256, all names|cert-manager.io/issuer-kind=ClusterIssuer|256|P-256, all names|secret filled pair owner kind request 1795748973 1803524973",
    "p256 as ECPrivateKey|P-256, all names|cert-manager.io/issuer-group=absent|256|P-256, all names|secret filled pair owner kind request 1795748973 1803524973",
    "p256 as ECPrivateKey|P-256, all names|cert-manager.io/certificate-name=web|256|P-256, all names|secret filled pair issuer owner kind request 1795748973 1803524973",
    "p256 as ECPrivateKey|P-256, all names|cert-manager.io/certificate-name=other|256|P-256, all names|secret filled pair issuer kind request 1795748973 1803524973",
    "rsa as RSAPrivateKey|both forms of time||256|P-256, all names|secret filled pair issuer owner request -631152000 2524608000",
    "rsa as RSAPrivateKey|the same time twice||256|P-256, all names|secret filled pair issuer owner request 1893456000 1893456000",
];

fn certificate_called(alloc: Global, name: &str) -> Result<Bytes, Fail> {
    made(
        alloc,
        &[
            made_certificates::made(),
            made_certificates::other_times(),
            made_certificates::other_extensions(),
            made_certificates::other_ends(),
            EMPTY,
        ],
        name,
    )
}

fn put_key(alloc: Global, parts: &mut Parts, key: &str) -> Result<(), Fail> {
    if key != "none" {
        let name = text(alloc, "tls.key")?;
        parts.set(name, key_called(alloc, key)?)?;
    }
    Ok(())
}

fn put_certificate(alloc: Global, parts: &mut Parts, certificate: &str) -> Result<(), Fail> {
    if certificate != "none" {
        let name = text(alloc, "tls.crt")?;
        parts.set(name, certificate_called(alloc, certificate)?)?;
    }
    Ok(())
}

/// Keeps what is known of the key and of the pair, where that is to be kept.
fn keep(alloc: Global, parts: Parts, kept: bool) -> Result<Parts, AllocError> {
    if kept {
        Ok(parts.keep_key(alloc)?.keep_pairing())
    } else {
        Ok(parts)
    }
}

/// The parts of a Secret with this key and this certificate, where each is one. What is known of them is kept once the key
/// is there and once the certificate is, or not at all.
fn parts(alloc: Global, key: &str, certificate: &str, kept: bool) -> Result<Parts, Fail> {
    let mut parts = Parts::new(alloc);
    put_key(alloc, &mut parts, key)?;
    parts = keep(alloc, parts, kept)?;
    put_certificate(alloc, &mut parts, certificate)?;
    Ok(keep(alloc, parts, kept)?)
}

/// Names the issuer `ca`.
fn name_issuer(alloc: Global, pairs: &mut Pairs) -> Result<(), AllocError> {
    set(alloc, pairs, "cert-manager.io/issuer-name", "ca")?;
    set(alloc, pairs, "cert-manager.io/issuer-kind", "Issuer")?;
    set(
        alloc,
        pairs,
        "cert-manager.io/issuer-group",
        "cert-manager.io",
    )
}

fn change(alloc: Global, pairs: &mut Pairs, key: &str, word: &str) -> Result<(), AllocError> {
    if word != "absent" {
        return set(alloc, pairs, key, word);
    }
    let key = Text::from_str(alloc, key)?;
    pairs.remove(&key)
}

/// Annotations that name the issuer, with this change.
fn annotations(alloc: Global, words: &str) -> Result<Pairs, AllocError> {
    let mut pairs = Pairs::new(alloc);
    name_issuer(alloc, &mut pairs)?;
    if let Some((key, word)) = words.split_once('=') {
        change(alloc, &mut pairs, key, word)?;
    }
    Ok(pairs)
}

fn flag_told(told: &mut String, flag: bool, word: &str) -> Result<(), AllocError> {
    if flag {
        told.push_str(word)?;
    }
    Ok(())
}

fn flags_told(told: &mut String, facts: &Facts) -> Result<(), AllocError> {
    flag_told(told, facts.secret, "secret ")?;
    flag_told(told, facts.filled, "filled ")?;
    flag_told(told, facts.pair, "pair ")?;
    flag_told(told, facts.issuer, "issuer ")?;
    flag_told(told, facts.owner, "owner ")?;
    flag_told(told, facts.kind, "kind ")?;
    flag_told(told, facts.request, "request ")
}

fn push_facts(alloc: Global, told: &mut String, facts: &Facts) -> Result<(), AllocError> {
    flags_told(told, facts)?;
    push_times(alloc, told, facts)
}

fn push_times(alloc: Global, told: &mut String, facts: &Facts) -> Result<(), AllocError> {
    let times = format!(in alloc; "{} {}", facts.not_before, facts.not_after)?;
    told.push_str(times.as_str())
}

/// The flags that are true, and the times.
fn told(alloc: Global, facts: &Facts) -> Result<String, AllocError> {
    let mut told = String::new(alloc);
    push_facts(alloc, &mut told, facts)?;
    Ok(told)
}

fn current(alloc: Global, request: &str) -> Result<Option<Shared<CertificateRequest>>, Fail> {
    if request == "none" {
        return Ok(None);
    }
    Ok(Some(Shared::new(alloc, asking_called(alloc, request)?)?))
}

/// What is known of the key and the certificate is what the facts say.
fn is_pairing(parts: &Parts, facts: &Facts) -> bool {
    let Pairing {
        pair,
        not_before,
        not_after,
    } = parts.pairing();
    pair == facts.pair && not_before == facts.not_before && not_after == facts.not_after
}

/// The pair of the Secret is what the facts say.
fn is_pair(secret: &Secret, facts: &Facts) -> bool {
    match pair_in(secret) {
        None => !facts.pair,
        Some(fields) => {
            facts.pair
                && fields.not_before == facts.not_before
                && fields.not_after == facts.not_after
        }
    }
}

/// The Secret of the row, with or without what is known of its pair.
fn secret_of(alloc: Global, row: &str, kept: bool) -> Result<Secret, Fail> {
    let parts = parts(alloc, column(row, 0), column(row, 1), kept)?;
    let annotations = annotations(alloc, column(row, 2))?;
    let mut secret = whole::secret(alloc)?;
    secret.parts = parts;
    secret.meta.annotations = annotations;
    Ok(secret)
}

/// The spec of the row.
fn spec_of_size(alloc: Global, row: &str) -> Result<CertSpec, Fail> {
    let mut spec = whole_spec(alloc)?;
    spec.key.size = size(column(row, 3));
    Ok(spec)
}

/// The facts of the Certificate `web` with the spec.
fn facts_with(
    alloc: Global,
    spec: &CertSpec,
    secret: Option<&Shared<Secret>>,
    request: &str,
) -> Result<Facts, Fail> {
    let current = current(alloc, request)?;
    let web = name(alloc, "web")?;
    Ok(facts_of(spec, &web, secret, current.as_ref()))
}

/// What is known of the Secret of the row, and whether its pair is so.
fn known_of(alloc: Global, row: &str, secret: &Shared<Secret>) -> Result<(Facts, bool), Fail> {
    let spec = spec_of_size(alloc, row)?;
    let facts = facts_with(alloc, &spec, Some(secret), column(row, 4))?;
    let is_so = is_pair(secret, &facts) && is_pairing(&secret.parts, &facts);
    Ok((facts, is_so))
}

fn known_by(alloc: Global, row: &str, kept: bool) -> Result<(Facts, bool), Fail> {
    let secret = Shared::new(alloc, secret_of(alloc, row, kept)?)?;
    known_of(alloc, row, &secret)
}

fn tells_facts(
    rt: &impl Abort,
    alloc: Global,
    row: &str,
    facts: &Facts,
    want: &str,
) -> Result<(), AllocError> {
    let told = told(alloc, facts)?;
    tells(rt, row, told.as_str(), want);
    Ok(())
}

fn knows_by(rt: &impl Abort, alloc: Global, row: &str, kept: bool) -> Result<(), Fail> {
    let (facts, is_pair) = known_by(alloc, row, kept)?;
    tells_facts(rt, alloc, row, &facts, column(row, 5))?;
    passes(rt, row, is_pair);
    Ok(())
}

#[test]
fn knows_of_secrets(rt: HostRuntime) -> Result<(), Fail> {
    for row in &FACTS {
        knows_by(&rt, rt.alloc(), row, false)?;
        knows_by(&rt, rt.alloc(), row, true)?;
    }
    facts_mean();
    Ok(())
}

/// The current request, and what is known where there is no Secret.
static WITHOUT_SECRET: [(&str, &str); 3] = [
    ("none", "request 0 0"),
    ("P-256, all names", "request 0 0"),
    ("P-384, no names", "0 0"),
];

fn knows_without(rt: &impl Abort, alloc: Global, spec: &CertSpec) -> Result<(), Fail> {
    for (request, want) in &WITHOUT_SECRET {
        let facts = facts_with(alloc, spec, None, request)?;
        tells_facts(rt, alloc, request, &facts, want)?;
    }
    Ok(())
}

#[test]
fn knows_without_a_secret(rt: HostRuntime) -> Result<(), Fail> {
    let spec = whole_spec(rt.alloc())?;
    knows_without(&rt, rt.alloc(), &spec)
}
