//! What is known of the Secret of a Certificate.
ghost use Rattle.std.specs.Option.{option_copied};
ghost use Rattle.std.specs.Prelude.{◌≡◌, ◌↔◌, ◌≤ℤ◌, ℕ, List, pos, true, false, IsTrue, option_map, IfSome, Some};
ghost use Rattle.cmc_der.specs.Keys.{CertificateFields, cert_shown, csr_shown, key_shown};
ghost use Rattle.cmc_x509.specs.Lists.{IsValueList};
ghost use Rattle.cmc_time.specs.Asn1.{IsCertificateTime};
ghost use Rattle.cmc_policies.specs.Reasons.{known};
ghost use Rattle.cmc_objects.specs.KeyPairs.{begins, ends, is_paired, key_read};
ghost use Rattle.cmc_match.specs.Facts as words;
ghost use Rattle.cmc_match.specs.Matches.{request_read};
ghost use Rattle.cmc_match.specs.Facts.{IsPair, IsFilled, NamesIssuer, NamesOwner, HasRequestedKey};
ghost use Rattle.cmc_objects.specs.declared.issuer.IssuerRef.{IssuerRef};
ghost use Rattle.cmc_objects.specs.declared.secret.Secret.{Secret};
ghost use Rattle.cmc_objects.specs.declared.key_spec.KeySpec.{KeySpec};
ghost use Rattle.cmc_objects.specs.declared.request.CertificateRequest.{CertificateRequest};

use crate::marks::{has_text, is_temporary};
use crate::matching::{fields_of, is_one_of, matches_as_read};
use crate::revisions::current_request;
use cmc_keys::is_public_of;
use cmc_meta::{Bytes, Name};
use cmc_objects::{
    CertSpec, Certificate, CertificateRequest, IssuerRef, KeySpec, Pairing, Secret, Shared,
    part_under, text_under,
};
use cmc_policies::Facts;
use cmc_x509::{CertFields, CsrFields, Spki};

/// Returns the public key of the Secret's private key (`tls.key`): as it is kept beside its data, or else as it is read
/// now. `None` exactly if the Secret has no such file or it is not readable.
pub fn public_in(secret: &Secret) -> Option<Spki<'_>>
    ensures { option_map key_shown result ≡ key_read (words.key_in secret.now) }
{
    secret.parts.public()
}

#[tactic(auto, unfolding(crate::specs::Facts::pair_in))]
fn pair_with<'a>(secret: &'a Secret) -> Option<CertFields<'a>>
    ensures { option_map cert_shown result ≡ words.pair_in secret.now }
{
    secret.parts.pair()
}

/// The fields of the Secret's certificate, where its key (`tls.key`) and its certificate (`tls.crt`) are readable and
/// have one public key; `None` exactly elsewhere. The certificate's times lie in the years 1950 to 9999.
pub fn pair_in<'a>(secret: &'a Secret) -> Option<CertFields<'a>>
    ensures means { (fields : CertificateFields) →
        (option_map cert_shown result ≡ Some fields) ↔ IsPair secret.now fields }
    ensures value { option_map cert_shown result ≡ words.pair_in secret.now }

    ensures ordered { IfSome result (λ fields. fields.not_before ≤ℤ fields.not_after) }
    ensures begins_in_range { IfSome result (λ fields. IsCertificateTime fields.not_before) }
    ensures ends_in_range { IfSome result (λ fields. IsCertificateTime fields.not_after) }
{
    pair_with(secret)
}

/// Whether the key and the certificate of a Secret are a pair, and the validity of the certificate.
#[derive(Clone, Copy)]
struct Paired {
    pair: bool,
    not_before: i64,
    not_after: i64,
    ghost ordered: { not_before ≤ℤ not_after },
    ghost begins_in_range: { IsCertificateTime not_before },
    ghost ends_in_range: { IsCertificateTime not_after },
}

/// What is known of the pair: as it is kept beside the Secret's data, or else as it is read now.
#[tactic(auto, unfolding(crate::specs::Facts::pair_in))]
fn pairing_in(secret: &Secret) -> Pairing
    ensures pair { result.pair ≡ is_paired (words.pair_in secret.now) }
    ensures begins { result.not_before ≡ begins (words.pair_in secret.now) }
    ensures ends { result.not_after ≡ ends (words.pair_in secret.now) }
{
    secret.parts.pairing()
}

/// The same, with what is known of the validity of each pair.
fn known_pairing(secret: &Secret) -> Pairing
    ensures pair { result.pair ≡ is_paired (words.pair_in secret.now) }
    ensures begins { result.not_before ≡ begins (words.pair_in secret.now) }
    ensures ends { result.not_after ≡ ends (words.pair_in secret.now) }
    ensures ordered { result.not_before ≤ℤ result.not_after }
    ensures begins_in_range { IsCertificateTime result.not_before }
    ensures ends_in_range { IsCertificateTime result.not_after }
{
    pairing_in(secret)
}

fn pair_facts(secret: &Secret) -> Paired
    ensures pair { result.pair ≡ is_paired (words.pair_in secret.now) }
    ensures begins { result.not_before ≡ begins (words.pair_in secret.now) }
    ensures ends { result.not_after ≡ ends (words.pair_in secret.now) }
{
    let known = known_pairing(secret);
    Paired {
        pair: known.pair,
        not_before: known.not_before,
        not_after: known.not_after,
    }
}

fn is_given(part: Option<&Bytes>) -> bool
    ensures { result ≡ words.is_non_empty (option_copied part.entry) }
{
    match part {
        None => false,
        Some(bytes) => !bytes.as_slice().is_empty(),
    }
}

#[tactic(auto, unfolding(crate::specs::Facts::is_filled))]
fn is_filled(secret: &Secret) -> bool
    ensures { result ≡ words.is_filled (Some secret.now) }
{
    is_given(part_under(&secret.parts, "tls.key"))
        && is_given(part_under(&secret.parts, "tls.crt"))
        && !is_temporary(secret)
}

#[tactic(auto, unfolding(crate::specs::Facts::names_issuer))]
fn names_issuer(issuer: &IssuerRef, secret: &Secret) -> bool
    ensures { result ≡ words.names_issuer issuer.now (Some secret.now) }
{
    let annotations = &secret.meta.annotations;
    has_text(
        annotations,
        "cert-manager.io/issuer-name",
        issuer.name.as_str(),
    ) && has_text(
        annotations,
        "cert-manager.io/issuer-kind",
        issuer.kind_at_use(),
    ) && has_text(
        annotations,
        "cert-manager.io/issuer-group",
        issuer.group_at_use(),
    )
}

#[tactic(auto, unfolding(crate::specs::Facts::names_owner))]
fn names_owner(name: &Name, secret: &Secret) -> bool
    ensures { result ≡ words.names_owner name.now (Some secret.now) }
{
    match text_under(&secret.meta.annotations, "cert-manager.io/certificate-name") {
        None => true,
        Some(text) => text.as_str() == name.as_str(),
    }
}

/// What was read of the current request's certification request, if there is one.
fn asked_of<'a>(current: Option<&'a Shared<CertificateRequest>>) -> Option<CsrFields<'a>>
    ensures fields { option_map csr_shown result ≡ request_read (option_copied current.entry) }
    ensures names { IfSome result (λ fields. IsValueList fields.names.alternative.now) }
{
    match current {
        None => None,
        Some(request) => fields_of(request),
    }
}

fn is_requested_as_read(
    spec: &KeySpec,
    public: &Option<Spki<'_>>,
    asked: &Option<CsrFields<'_>>,
) -> bool
    ensures { result ≡ words.is_requested_as_read spec.now (option_map key_shown public.now) (option_map csr_shown asked.now) }
{
    match public {
        None => false,
        Some(key) => {
            is_public_of(spec.algorithm_at_use(), spec.size_at_use(), key)
                && is_one_of(public, asked)
        }
    }
}

#[tactic(auto, using(crate::proofs::ReadLaws::requested_as_read))]
fn has_requested_key(
    spec: &KeySpec,
    secret: &Secret,
    current: Option<&Shared<CertificateRequest>>,
    public: &Option<Spki<'_>>,
    asked: &Option<CsrFields<'_>>,
) -> bool
    requires public { option_map key_shown public.now ≡ key_read (words.key_in secret.now) }
    requires asked { option_map csr_shown asked.now ≡ request_read (option_copied current) }
    ensures { result ≡ words.has_requested_key spec.now (Some secret.now) (option_copied current.entry) }
{
    is_requested_as_read(spec, public, asked)
}

fn is_unchanged(
    spec: &CertSpec,
    current: Option<&Shared<CertificateRequest>>,
    asked: &Option<CsrFields<'_>>,
) -> bool
    requires read { option_map csr_shown asked.now ≡ request_read (option_copied current) }
    requires names { IfSome asked.now (λ fields. IsValueList fields.names.alternative.now) }
    ensures { result ≡ words.is_unchanged spec.now (option_copied current.entry) }
{
    match current {
        None => true,
        Some(request) => matches_as_read(spec, request, asked),
    }
}

// With no Secret all is wrong, but for what no Secret is needed to know.
fn facts_without(request: bool) -> Facts
    ensures { known result ≡ record {
      secret = false;
      filled = false;
      pair = false;
      issuer = false;
      owner = false;
      kind = false;
      request = request;
      not_before = pos 0;
      not_after = pos 0;
    } }
{
    Facts {
        secret: false,
        filled: false,
        pair: false,
        issuer: false,
        owner: false,
        kind: false,
        request,
        not_before: 0,
        not_after: 0,
    }
}

fn facts_in(
    spec: &CertSpec,
    name: &Name,
    secret: &Secret,
    current: Option<&Shared<CertificateRequest>>,
) -> Facts
    ensures { known result ≡ words.known_of spec.now name.now (Some secret.now) (option_copied current.entry) }
{
    let public = public_in(secret);
    let asked = asked_of(current);
    let paired = pair_facts(secret);
    Facts {
        secret: true,
        filled: is_filled(secret),
        pair: paired.pair,
        issuer: names_issuer(&spec.issuer, secret),
        owner: names_owner(name, secret),
        kind: has_requested_key(&spec.key, secret, current, &public, &asked),
        request: is_unchanged(spec, current, &asked),
        not_before: paired.not_before,
        not_after: paired.not_after,
    }
}

/// What the checks look at: the Secret that the specification of the Certificate of this name names, where it
/// stands, and the one request of the Certificate's revision, where one exists. With no Secret every flag but
/// `request` is false. The times are those of the certificate where it is a pair with the key, and 0 elsewhere.
#[tactic(auto, unfolding(crate::specs::Facts::is_filled, crate::specs::Facts::names_issuer, crate::specs::Facts::names_owner, crate::specs::Facts::has_requested_key))]
pub fn facts_of(
    spec: &CertSpec,
    name: &Name,
    secret: Option<&Shared<Secret>>,
    current: Option<&Shared<CertificateRequest>>,
) -> Facts
    ensures { known result ≡ words.known_of spec.now name.now (option_copied secret.entry) (option_copied current.entry) }
{
    match secret {
        None => facts_without(is_unchanged(spec, current, &asked_of(current))),
        Some(secret) => facts_in(spec, name, secret, current),
    }
}

/// What the checks of the Certificate look at: its Secret, and the current one of its requests.
pub fn facts_for(
    certificate: &Certificate,
    secret: Option<&Shared<Secret>>,
    requests: &[Shared<CertificateRequest>],
) -> Facts
    ensures { known result ≡ words.known_for certificate.now (option_copied secret.entry) requests.now }
{
    let current = current_request(certificate.status.revision, requests);
    facts_of(&certificate.spec, &certificate.meta.name, secret, current)
}

/// A law: what the flags of a Secret say, in the words of its data and its annotations. (`pair` is `pair_in`, and
/// `request` is `request_matches`.)
pub fn facts_mean()
    ensures filled { (secret : Secret) → IsTrue (words.is_filled (Some secret)) ↔ IsFilled secret }
    ensures issuer { (issuer : IssuerRef) (secret : Secret) →
        IsTrue (words.names_issuer issuer (Some secret)) ↔ NamesIssuer issuer secret }
    ensures owner { (name : List ℕ) (secret : Secret) →
        IsTrue (words.names_owner name (Some secret)) ↔ NamesOwner name secret }
    ensures kind { (spec : KeySpec) (secret : Secret) (request : CertificateRequest) →
        IsTrue (words.has_requested_key spec (Some secret) (Some request)) ↔ HasRequestedKey spec secret request }
{}
