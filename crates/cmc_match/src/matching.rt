//! Whether a key and a CertificateRequest fit a Certificate.
ghost use Rattle.std.specs.Prelude.{◌≡◌, ◌↔◌, ◌&&◌, IfSome, IsTrue, option_map};
ghost use Rattle.cmc_der.specs.Keys.{csr_shown, key_shown};
ghost use Rattle.cmc_x509.specs.Lists.{IsValueList};
ghost use Rattle.cmc_x509.specs.ReadKeys.{key_file_at};
ghost use Rattle.cmc_x509.specs.ReadCertificates.{request_fields_at};
ghost use Rattle.cmc_objects.specs.Defaults.{certificate_duration, key_algorithm, key_size};
ghost use Rattle.cmc_keys.specs.Kinds.{IsKeyOf, is_key_of};
ghost use Rattle.cmc_keys.specs.Kinds as kinds;
ghost use Rattle.cmc_match.specs.Matches as words;
ghost use Rattle.cmc_match.specs.Matches.{Matches, HasKey};

use crate::names::has_names;
use crate::sets::is_same_set;
use cmc_keys::{is_key_of, is_public_of};
use cmc_objects::{
    CertSpec, CertificateRequest, IssuerRef, KeySpec, RequestSpec, is_one_key, public_of,
};
use cmc_x509::{CsrFields, Spki};

/// Whether the octets are a file of a private key of the algorithm and the size that are asked for, in whichever
/// encoding.
pub fn key_fits(spec: &KeySpec, key: &[u8]) -> bool
    ensures means { IsTrue result ↔ IsKeyOf (key_algorithm spec.now) (key_size spec.now) key.now }
    ensures value { result ≡ is_key_of (key_algorithm spec.now) (key_size spec.now) key.now }
{
    is_key_of(spec.algorithm_at_use(), spec.size_at_use(), key)
}

fn is_public_fitting(spec: &KeySpec, public: &Option<Spki<'_>>) -> bool
    ensures { result ≡ kinds.is_public_of (key_algorithm spec.now) (key_size spec.now) (option_map key_shown public.now) }
{
    match public {
        None => false,
        Some(key) => is_public_of(spec.algorithm_at_use(), spec.size_at_use(), key),
    }
}

/// Says what `key_fits` says, by the public key that was read of `key`. It does not read `key` again.
#[tactic(auto, using(crate::proofs::ReadLaws::fitting_as_read))]
pub fn key_fits_as_read(spec: &KeySpec, key: &[u8], public: &Option<Spki<'_>>) -> bool
    requires { option_map key_shown public.now ≡ key_file_at key.now }
    ensures { result ≡ is_key_of (key_algorithm spec.now) (key_size spec.now) key.now }
{
    let _key = key;
    is_public_fitting(spec, public)
}

fn is_same_issuer(left: &IssuerRef, right: &IssuerRef) -> bool
    ensures { result ≡ words.is_same_issuer left.now right.now }
{
    left.name.as_str() == right.name.as_str()
        && left.kind_at_use() == right.kind_at_use()
        && left.group_at_use() == right.group_at_use()
}

fn is_same_flag(left: bool, right: bool) -> bool
    ensures { result ≡ words.is_same_flag left right }
{
    if left { right } else { !right }
}

fn duration_of(request: &RequestSpec) -> u64
    ensures { result ≡ certificate_duration request.now.duration }
{
    match request.duration {
        Some(duration) => duration,
        None => 7_776_000,
    }
}

#[tactic(auto, unfolding(crate::specs::Matches::has_terms))]
fn has_terms(spec: &CertSpec, request: &RequestSpec) -> bool
    ensures { result ≡ words.has_terms spec.now request.now }
{
    is_same_issuer(&spec.issuer, &request.issuer)
        && spec.duration_at_use() == duration_of(request)
        && is_same_flag(spec.is_ca, request.is_ca)
        && is_same_set(spec.usages.as_slice(), request.usages.as_slice())
}

/// What is read of a certification request: `None` exactly where it is not readable.
pub(crate) fn fields_of<'a>(request: &'a CertificateRequest) -> Option<CsrFields<'a>>
    ensures fields { option_map csr_shown result ≡ request_fields_at request.now.spec.request }
    ensures names { IfSome result (λ fields. IsValueList fields.names.alternative.now) }
{
    request.spec.request.fields()
}

fn asks_for_names(spec: &CertSpec, asked: &Option<CsrFields<'_>>) -> bool
    requires { IfSome asked.now (λ fields. IsValueList fields.names.alternative.now) }
    ensures { result ≡ words.asks_for_names spec.now (option_map csr_shown asked.now) }
{
    match asked {
        None => false,
        Some(fields) => has_names(spec, &fields.names),
    }
}

/// Whether the request asks for what the specification asks for, where this was read of its certification request.
#[tactic(auto, unfolding(crate::specs::Matches::matches))]
pub(crate) fn matches_as_read(
    spec: &CertSpec,
    request: &CertificateRequest,
    asked: &Option<CsrFields<'_>>,
) -> bool
    requires read { option_map csr_shown asked.now ≡ request_fields_at request.now.spec.request }
    requires names { IfSome asked.now (λ fields. IsValueList fields.names.alternative.now) }
    ensures { result ≡ words.matches spec.now request.now }
{
    asks_for_names(spec, asked) && has_terms(spec, &request.spec)
}

fn matches(spec: &CertSpec, request: &CertificateRequest) -> bool
    ensures { result ≡ words.matches spec.now request.now }
{
    matches_as_read(spec, request, &fields_of(request))
}

/// Whether the request asks for what the specification asks for: its certification request is readable and has the
/// names, each kind of them as a set, and issuer, duration, the mark of a CA and the set of usages are the same.
/// Issuer and duration have their defaults where they are absent.
pub fn request_matches(spec: &CertSpec, request: &CertificateRequest) -> bool
    ensures means { IsTrue result ↔ Matches spec.now request.now }
    ensures value { result ≡ words.matches spec.now request.now }
{
    matches(spec, request)
}

/// Whether both were read, and have one public key.
pub(crate) fn is_one_of(key: &Option<Spki<'_>>, asked: &Option<CsrFields<'_>>) -> bool
    ensures { result ≡ words.is_one_of (option_map key_shown key.now) (option_map csr_shown asked.now) }
{
    match (key, asked) {
        (Some(key), Some(fields)) => is_one_key(key, &fields.key),
        _ => false,
    }
}

#[tactic(auto, unfolding(crate::specs::Matches::has_key))]
fn has_key(request: &CertificateRequest, file: &[u8]) -> bool
    ensures { result ≡ words.has_key request.now file.now }
{
    is_one_of(&public_of(file), &fields_of(request))
}

#[tactic(auto, unfolding(crate::specs::Matches::has_key))]
fn has_key_as_read(
    request: &CertificateRequest,
    file: &[u8],
    public: &Option<Spki<'_>>,
    asked: &Option<CsrFields<'_>>,
) -> bool
    requires public { option_map key_shown public.now ≡ key_file_at file.now }
    requires asked { option_map csr_shown asked.now ≡ request_fields_at request.now.spec.request }
    ensures { result ≡ words.has_key request.now file.now }
{
    let (_request, _file) = (request, file);
    is_one_of(public, asked)
}

fn answers(
    spec: &CertSpec,
    request: &CertificateRequest,
    file: &[u8],
    public: &Option<Spki<'_>>,
) -> bool
    requires { option_map key_shown public.now ≡ key_file_at file.now }
    ensures { result ≡ (words.matches spec.now request.now && words.has_key request.now file.now) }
{
    let asked = fields_of(request);
    matches_as_read(spec, request, &asked) && has_key_as_read(request, file, public, &asked)
}

/// Says whether the request asks for what the specification asks for, with the key of `file`: `request_matches` and
/// `request_has_key` in one. `public` was read of `file`. Neither the request nor the file is read again.
pub fn request_answers(
    spec: &CertSpec,
    request: &CertificateRequest,
    file: &[u8],
    public: &Option<Spki<'_>>,
) -> bool
    requires { option_map key_shown public.now ≡ key_file_at file.now }
    ensures means { IsTrue result ↔ (Matches spec.now request.now × HasKey request.now file.now) }
    ensures value { result ≡ (words.matches spec.now request.now && words.has_key request.now file.now) }
{
    answers(spec, request, file, public)
}

/// Whether the request's certification request and the file of a private key are readable, and have one public key.
pub fn request_has_key(request: &CertificateRequest, file: &[u8]) -> bool
    ensures means { IsTrue result ↔ HasKey request.now file.now }
    ensures value { result ≡ words.has_key request.now file.now }
{
    has_key(request, file)
}
