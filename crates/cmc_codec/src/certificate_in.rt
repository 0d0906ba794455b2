// The spec of a Certificate, read from JSON in parts, as its members come.
ghost use Rattle.std.specs.Prelude.{◌≡◌, codes, map};
ghost use Rattle.serde_json.specs.View.{view};
ghost use Rattle.cmc_cursor.specs.Members.{Gives};
ghost use Rattle.cmc_cursor.specs.Seen.{shown};
ghost use Rattle.cmc_codec.specs.Given.{next_member_or, needed_at};
ghost use Rattle.cmc_codec.specs.CertificateForm as forms;

use crate::given::{
    Wording, choice, given_choice, given_clean_text, given_count, given_duration, given_flag,
    given_list, given_short_text, needed_name, needed_short_text,
};
use cmc_cursor::{BadField, Fields, at, check_end, fields, optional, required};
use cmc_meta::{Name, Text, Texts};
use cmc_objects::{Algorithm, CertSpec, Encoding, IssuerRef, KeySpec, Rotation};
use serde_json::Value;
use std::alloc::Global;

/// The API version of a Certificate or a CertificateRequest.
#[derive(Clone, Copy, Drop)]
pub enum Api {
    V1,
    V1Alpha2,
}

/// What a certificate is asked for.
#[derive(Drop)]
pub struct Subject {
    pub common_name: Text,
    pub dns_names: Texts,
    pub duration: Option<u64>,
    pub emails: Texts,
    pub ip_addresses: Texts,
}

/// Who signs it, and whether it is a CA's.
#[derive(Drop)]
pub struct Signing {
    pub is_ca: bool,
    pub issuer: IssuerRef,
}

/// Its key, when it is renewed, and how many requests are kept.
#[derive(Clone, Copy)]
pub struct Terms {
    pub key: KeySpec,
    pub renew_before: Option<u64>,
    pub renew_percent: Option<u32>,
    pub history_limit: Option<u32>,
}

/// Where it goes, and what it is for.
#[derive(Drop)]
pub struct Target {
    pub secret_name: Name,
    pub uris: Texts,
    pub usages: Texts,
}

/// The API version, which has to be there.
pub fn needed_api<'a, 'b>(
    alloc: Global,
    rest: Fields<'a, 'b>,
) -> Result<(Api, Fields<'a, 'b>), BadField>
    ensures { Gives (λ p. (p.0, map shown p.1.now)) result (needed_at forms.api_at (codes "apiVersion") (map shown rest.now)) }
{
    let (value, rest) = required(alloc, rest, "apiVersion")?;
    let api = choice(
        alloc,
        value,
        ("cert-manager.io/v1", Api::V1),
        ("cert-manager.io/v1alpha2", Api::V1Alpha2),
    );
    Ok((at(alloc, "apiVersion", api)?, rest))
}

#[tactic(auto, unfolding(crate::specs::CertificateForm::issuer_at))]
fn issuer(alloc: Global, value: &Value) -> Result<IssuerRef, BadField>
    ensures { Gives (λ t. t) result (forms.issuer_at (view value.now)) }
{
    let members = fields(alloc, value)?;
    let (group, rest) = given_short_text(alloc, &members, "group")?;
    let (kind, rest) = given_short_text(alloc, rest, "kind")?;
    let (name, rest) = needed_short_text(alloc, rest, "name")?;
    check_end(alloc, rest)?;
    Ok(IssuerRef { name, kind, group })
}

fn needed_issuer<'a, 'b>(
    alloc: Global,
    rest: Fields<'a, 'b>,
) -> Result<(IssuerRef, Fields<'a, 'b>), BadField>
    ensures { Gives (λ p. (p.0, map shown p.1.now)) result (needed_at forms.issuer_at (codes "issuerRef") (map shown rest.now)) }
{
    let (value, rest) = required(alloc, rest, "issuerRef")?;
    Ok((at(alloc, "issuerRef", issuer(alloc, value))?, rest))
}

#[tactic(auto, unfolding(crate::specs::CertificateForm::key_spec_at))]
fn key(alloc: Global, value: &Value) -> Result<KeySpec, BadField>
    ensures { Gives (λ t. t) result (forms.key_spec_at (view value.now)) }
{
    let members = fields(alloc, value)?;
    let (algorithm, rest) = given_choice(
        alloc,
        &members,
        "algorithm",
        ("RSA", Algorithm::Rsa),
        ("ECDSA", Algorithm::Ecdsa),
    )?;
    let (encoding, rest) = given_choice(
        alloc,
        rest,
        "encoding",
        ("PKCS1", Encoding::Pkcs1),
        ("PKCS8", Encoding::Pkcs8),
    )?;
    let (rotation, rest) = given_choice(
        alloc,
        rest,
        "rotationPolicy",
        ("Always", Rotation::Always),
        ("Never", Rotation::Never),
    )?;
    let (size, rest) = given_count(alloc, rest, "size")?;
    check_end(alloc, rest)?;
    Ok(KeySpec {
        algorithm,
        size,
        encoding,
        rotation,
    })
}

fn given_key<'a, 'b>(
    alloc: Global,
    rest: Fields<'a, 'b>,
) -> Result<(KeySpec, Fields<'a, 'b>), BadField>
    ensures { Gives (λ p. (p.0, map shown p.1.now)) result (next_member_or forms.no_key forms.key_spec_at (codes "privateKey") (map shown rest.now)) }
{
    match optional(alloc, rest, "privateKey")? {
        (None, rest) => {
            let key = KeySpec {
                algorithm: None,
                size: None,
                encoding: None,
                rotation: None,
            };
            Ok((key, rest))
        }
        (Some(value), rest) => Ok((at(alloc, "privateKey", key(alloc, value))?, rest)),
    }
}

#[tactic(auto, unfolding(crate::specs::CertificateForm::subject_in))]
fn read_subject<'a, 'b>(
    alloc: Global,
    emails_name: &str,
    rest: Fields<'a, 'b>,
) -> Result<(Subject, Fields<'a, 'b>), BadField>
    ensures { Gives (λ p. (p.0, map shown p.1.now)) result (forms.subject_in emails_name.now (map shown rest.now)) }
{
    let (common_name, rest) = given_clean_text(alloc, rest, "commonName")?;
    let (dns_names, rest) = given_list(alloc, rest, "dnsNames", Wording::Printable)?;
    let (duration, rest) = given_duration(alloc, rest, "duration")?;
    let (emails, rest) = given_list(alloc, rest, emails_name, Wording::Printable)?;
    let (ip_addresses, rest) = given_list(alloc, rest, "ipAddresses", Wording::Address)?;
    let subject = Subject {
        common_name,
        dns_names,
        duration,
        emails,
        ip_addresses,
    };
    Ok((subject, rest))
}

/// Who signs a certificate, and whether it is a CA's: the members `isCA` and `issuerRef`.
#[tactic(auto, unfolding(crate::specs::CertificateForm::signing_in))]
pub fn read_signing<'a, 'b>(
    alloc: Global,
    rest: Fields<'a, 'b>,
) -> Result<(Signing, Fields<'a, 'b>), BadField>
    ensures { Gives (λ p. (p.0, map shown p.1.now)) result (forms.signing_in (map shown rest.now)) }
{
    let (is_ca, rest) = given_flag(alloc, rest, "isCA")?;
    let (issuer, rest) = needed_issuer(alloc, rest)?;
    Ok((Signing { is_ca, issuer }, rest))
}

#[tactic(auto, unfolding(crate::specs::CertificateForm::terms_in))]
fn read_terms<'a, 'b>(
    alloc: Global,
    rest: Fields<'a, 'b>,
) -> Result<(Terms, Fields<'a, 'b>), BadField>
    ensures { Gives (λ p. (p.0, map shown p.1.now)) result (forms.terms_in (map shown rest.now)) }
{
    let (key, rest) = given_key(alloc, rest)?;
    let (renew_before, rest) = given_duration(alloc, rest, "renewBefore")?;
    let (renew_percent, rest) = given_count(alloc, rest, "renewBeforePercentage")?;
    let (history_limit, rest) = given_count(alloc, rest, "revisionHistoryLimit")?;
    let terms = Terms {
        key,
        renew_before,
        renew_percent,
        history_limit,
    };
    Ok((terms, rest))
}

#[tactic(auto, unfolding(crate::specs::CertificateForm::old_terms_in))]
fn read_old_terms<'a, 'b>(
    alloc: Global,
    rest: Fields<'a, 'b>,
) -> Result<(Terms, Fields<'a, 'b>), BadField>
    ensures { Gives (λ p. (p.0, map shown p.1.now)) result (forms.old_terms_in (map shown rest.now)) }
{
    let (algorithm, rest) = given_choice(
        alloc,
        rest,
        "keyAlgorithm",
        ("rsa", Algorithm::Rsa),
        ("ecdsa", Algorithm::Ecdsa),
    )?;
    let (encoding, rest) = given_choice(
        alloc,
        rest,
        "keyEncoding",
        ("pkcs1", Encoding::Pkcs1),
        ("pkcs8", Encoding::Pkcs8),
    )?;
    let (size, rest) = given_count(alloc, rest, "keySize")?;
    let (renew_before, rest) = given_duration(alloc, rest, "renewBefore")?;
    let terms = Terms {
        key: KeySpec {
            algorithm,
            size,
            encoding,
            rotation: None,
        },
        renew_before,
        renew_percent: None,
        history_limit: None,
    };
    Ok((terms, rest))
}

#[tactic(auto, unfolding(crate::specs::CertificateForm::target_in))]
fn read_target<'a, 'b>(
    alloc: Global,
    uris_name: &str,
    rest: Fields<'a, 'b>,
) -> Result<(Target, Fields<'a, 'b>), BadField>
    ensures { Gives (λ p. (p.0, map shown p.1.now)) result (forms.target_in uris_name.now (map shown rest.now)) }
{
    let (secret_name, rest) = needed_name(alloc, rest, "secretName")?;
    let (uris, rest) = given_list(alloc, rest, uris_name, Wording::Printable)?;
    let (usages, rest) = given_list(alloc, rest, "usages", Wording::Any)?;
    let target = Target {
        secret_name,
        uris,
        usages,
    };
    Ok((target, rest))
}

fn emails_name(api: Api) -> &'static str
    ensures { result.now ≡ forms.emails_name api }
{
    match api {
        Api::V1 => "emailAddresses",
        Api::V1Alpha2 => "emailSANs",
    }
}

fn uris_name(api: Api) -> &'static str
    ensures { result.now ≡ forms.uris_name api }
{
    match api {
        Api::V1 => "uris",
        Api::V1Alpha2 => "uriSANs",
    }
}

fn read_api_terms<'a, 'b>(
    alloc: Global,
    api: Api,
    rest: Fields<'a, 'b>,
) -> Result<(Terms, Fields<'a, 'b>), BadField>
    ensures { Gives (λ p. (p.0, map shown p.1.now)) result (forms.api_terms_in api (map shown rest.now)) }
{
    match api {
        Api::V1 => read_terms(alloc, rest),
        Api::V1Alpha2 => read_old_terms(alloc, rest),
    }
}

fn new_spec(subject: Subject, signing: Signing, terms: Terms, target: Target) -> CertSpec
    ensures { result ≡ forms.spec_of subject signing terms target }
{
    let Subject {
        common_name,
        dns_names,
        duration,
        emails,
        ip_addresses,
    } = subject;
    let Signing { is_ca, issuer } = signing;
    let Target {
        secret_name,
        uris,
        usages,
    } = target;
    CertSpec {
        secret_name,
        issuer,
        common_name,
        dns_names,
        ip_addresses,
        uris,
        emails,
        is_ca,
        usages,
        duration,
        renew_before: terms.renew_before,
        renew_percent: terms.renew_percent,
        key: terms.key,
        history_limit: terms.history_limit,
    }
}

/// The spec of a Certificate (cert-manager.io/v1 `CertificateSpec`, or that of v1alpha2).
#[tactic(auto, unfolding(crate::specs::CertificateForm::spec_at))]
pub fn spec(alloc: Global, api: Api, value: &Value) -> Result<CertSpec, BadField>
    ensures { Gives (λ t. t) result (forms.spec_at api (view value.now)) }
{
    let members = fields(alloc, value)?;
    let (subject, rest) = read_subject(alloc, emails_name(api), &members)?;
    let (signing, rest) = read_signing(alloc, rest)?;
    let (terms, rest) = read_api_terms(alloc, api, rest)?;
    let (target, rest) = read_target(alloc, uris_name(api), rest)?;
    check_end(alloc, rest)?;
    Ok(new_spec(subject, signing, terms, target))
}
