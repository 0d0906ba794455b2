// Objects, read from JSON: the kind decides the form.
ghost use Rattle.std.specs.Prelude.{◌≡◌, [], codes, map, option_map};
ghost use Rattle.serde_json.specs.View.{view};
ghost use Rattle.cmc_cursor.specs.Members.{Gives};
ghost use Rattle.cmc_cursor.specs.Readers.{parts_at, text_at, word_at};
ghost use Rattle.cmc_cursor.specs.Seen.{shown};
ghost use Rattle.cmc_codec.specs.Given.{next_member_or, needed_at};
ghost use Rattle.cmc_codec.specs.MetadataForm.{head_at};
ghost use Rattle.cmc_codec.specs.ObjectForm as forms;

use crate::certificate_in::needed_api;
use crate::metadata_in::{Head, metadata};
use crate::{certificate_in, request_in};
use cmc_cursor::{
    BadField, Fields, at, check_end, fields, member, optional, parts, pass, path_to, required,
    text, word,
};
use cmc_meta::{Text, Texts};
use cmc_objects::{
    CertStatus, Certificate, CertificateRequest, Object, Parts, RequestStatus, Secret, Shared,
};
use serde_json::Value;
use std::alloc::Global;

/// An object that is read, and the resource version that its metadata name.
#[derive(Drop)]
pub struct Applied {
    pub object: Object,
    pub version: Option<u64>,
}

fn needed_head<'a, 'b>(
    alloc: Global,
    rest: Fields<'a, 'b>,
) -> Result<(Head, Fields<'a, 'b>), BadField>
    ensures { Gives (λ p. (p.0, map shown p.1.now)) result (needed_at head_at (codes "metadata") (map shown rest.now)) }
{
    let (value, rest) = required(alloc, rest, "metadata")?;
    Ok((at(alloc, "metadata", metadata(alloc, value))?, rest))
}

fn check_status_last(alloc: Global, rest: Fields<'_, '_>) -> Result<(), BadField>
    ensures { Gives (λ t. t) result (forms.status_last (map shown rest.now)) }
{
    let (status, rest) = optional(alloc, rest, "status")?;
    pass(alloc, "status", status)?;
    check_end(alloc, rest)
}

#[tactic(auto, unfolding(crate::specs::ObjectForm::applied_certificate_in))]
fn certificate(alloc: Global, rest: Fields<'_, '_>) -> Result<Applied, BadField>
    ensures { Gives (λ t. t) result (forms.applied_certificate_in (map shown rest.now)) }
{
    let (api, rest) = needed_api(alloc, rest)?;
    let (_, rest) = required(alloc, rest, "kind")?;
    let (head, rest) = needed_head(alloc, rest)?;
    let (value, rest) = required(alloc, rest, "spec")?;
    let spec = at(alloc, "spec", certificate_in::spec(alloc, api, value))?;
    check_status_last(alloc, rest)?;
    let Head { meta, version } = head;
    Ok(Applied {
        object: Object::of_certificate(
            alloc,
            Certificate {
                meta,
                spec: Shared::new(alloc, spec)?,
                status: Shared::new(alloc, CertStatus::new(alloc))?,
            },
        )?,
        version,
    })
}

#[tactic(auto, unfolding(crate::specs::ObjectForm::applied_request_in))]
fn request(alloc: Global, rest: Fields<'_, '_>) -> Result<Applied, BadField>
    ensures { Gives (λ t. t) result (forms.applied_request_in (map shown rest.now)) }
{
    let (api, rest) = needed_api(alloc, rest)?;
    let (_, rest) = required(alloc, rest, "kind")?;
    let (head, rest) = needed_head(alloc, rest)?;
    let (value, rest) = required(alloc, rest, "spec")?;
    let spec = at(alloc, "spec", request_in::spec(alloc, api, value))?;
    check_status_last(alloc, rest)?;
    let Head { meta, version } = head;
    Ok(Applied {
        object: Object::of_request(
            alloc,
            CertificateRequest {
                meta,
                spec: Shared::new(alloc, spec)?,
                status: Shared::new(alloc, RequestStatus::new(alloc))?,
            },
        )?,
        version,
    })
}

fn given_parts<'a, 'b>(
    alloc: Global,
    rest: Fields<'a, 'b>,
) -> Result<(Parts, Fields<'a, 'b>), BadField>
    ensures { Gives (λ p. (p.0, map shown p.1.now)) result (next_member_or [] parts_at (codes "data") (map shown rest.now)) }
{
    match optional(alloc, rest, "data")? {
        (None, rest) => Ok((Parts::new(alloc), rest)),
        (Some(value), rest) => Ok((at(alloc, "data", parts(alloc, value))?, rest)),
    }
}

fn given_type<'a, 'b>(
    alloc: Global,
    rest: Fields<'a, 'b>,
) -> Result<(Text, Fields<'a, 'b>), BadField>
    ensures { Gives (λ p. (p.0, map shown p.1.now)) result (next_member_or (codes "Opaque") text_at (codes "type") (map shown rest.now)) }
{
    match optional(alloc, rest, "type")? {
        (None, rest) => Ok((Text::from_str(alloc, "Opaque")?, rest)),
        (Some(value), rest) => Ok((at(alloc, "type", text(alloc, value))?, rest)),
    }
}

#[tactic(auto, unfolding(crate::specs::ObjectForm::applied_secret_in))]
fn secret(alloc: Global, rest: Fields<'_, '_>) -> Result<Applied, BadField>
    ensures { Gives (λ t. t) result (forms.applied_secret_in (map shown rest.now)) }
{
    let (value, rest) = required(alloc, rest, "apiVersion")?;
    at(alloc, "apiVersion", word(alloc, value, "v1"))?;
    let (parts, rest) = given_parts(alloc, rest)?;
    let (_, rest) = required(alloc, rest, "kind")?;
    let (head, rest) = needed_head(alloc, rest)?;
    let (status, rest) = optional(alloc, rest, "status")?;
    pass(alloc, "status", status)?;
    let (kind_text, rest) = given_type(alloc, rest)?;
    check_end(alloc, rest)?;
    let Head { meta, version } = head;
    Ok(Applied {
        object: Object::of_secret(
            alloc,
            Secret {
                meta,
                kind_text,
                parts,
            },
        )?,
        version,
    })
}

fn is_any_version(text: &str) -> bool
    ensures { result ≡ forms.is_any_version text.now }
{
    text == "cert-manager.io/v1" || text == "cert-manager.io/v1alpha2" || text == "v1"
}

fn check_any_version(alloc: Global, value: &Value) -> Result<(), BadField>
    ensures { Gives (λ t. t) result (forms.any_version_at (view value.now)) }
{
    match value.as_str() {
        Some(text) if is_any_version(text) => Ok(()),
        _ => Err(BadField::Path(Texts::new(alloc))),
    }
}

#[tactic(auto, unfolding(crate::specs::ObjectForm::stranger_in))]
fn stranger(alloc: Global, rest: Fields<'_, '_>) -> Result<Applied, BadField>
    ensures { Gives (λ t. t) result (forms.stranger_in (map shown rest.now)) }
{
    let (value, rest) = required(alloc, rest, "apiVersion")?;
    at(alloc, "apiVersion", check_any_version(alloc, value))?;
    let (given, rest) = optional(alloc, rest, "data")?;
    pass(alloc, "data", given)?;
    required(alloc, rest, "kind")?;
    Err(BadField::Path(path_to(alloc, "kind")?))
}

fn object(alloc: Global, kind: Option<&str>, rest: Fields<'_, '_>) -> Result<Applied, BadField>
    ensures { Gives (λ t. t) result (forms.object_in (option_map (λ t. t.now) kind.entry) (map shown rest.now)) }
{
    match kind {
        Some("Certificate") => certificate(alloc, rest),
        Some("CertificateRequest") => request(alloc, rest),
        Some("Secret") => secret(alloc, rest),
        _ => stranger(alloc, rest),
    }
}

/// The object that a JSON value stands for, and the resource version that its metadata name: a
/// Certificate or a CertificateRequest of cert-manager.io/v1 or cert-manager.io/v1alpha2, or a
/// Secret of v1, with their defaults. A status is dropped; the fields that the store owns are 0.
///
/// Fails at the first failing path of a walk in depth: members in byte order of their names, a
/// missing member at its place, items of a list in order. A value of another type fails at
/// itself, a member that the form does not have at its name, and a number that is kept as a float
/// at its own path, also inside what is dropped.
#[tactic(auto, unfolding(crate::specs::ObjectForm::applied_at))]
pub fn applied_of(alloc: Global, value: &Value) -> Result<Applied, BadField>
    ensures { Gives (λ t. t) result (forms.applied_at (view value.now)) }
{
    let members = fields(alloc, value)?;
    object(alloc, member(value, "kind"), &members)
}

/// The object alone: [`applied_of`] without the resource version.
pub fn object_of(alloc: Global, value: &Value) -> Result<Object, BadField>
    ensures { Gives (λ t. t) result (forms.object_read_at (view value.now)) }
{
    let Applied { object, .. } = applied_of(alloc, value)?;
    Ok(object)
}
