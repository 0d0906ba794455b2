//! The call that a line shows.
ghost use Rattle.std.specs.Prelude.{◌≡◌, ◌↔◌, None, Some, IfOk, IsTrue, string_bytes};
ghost use Rattle.cmc_lines.specs.declared.line.CallName.TheVariants as names;
ghost use Rattle.cmc_report.specs.Trees.{call_key};
ghost use Rattle.cmc_lines.specs.Shown.{shown_meta, shown_object};
ghost use Rattle.cmc_audit_calls.specs.CallsOfLines as words;
ghost use Rattle.cmc_audit_calls.specs.CallsOfLines.{IsShownCall, IsRead, IsShown, bare_call};

use crate::keys::key_read;
use cmc_lines::CallName;
use cmc_meta::{ObjectMeta, Text};
use cmc_objects::{Call, Object};
use cmc_print::key_word;
use std::alloc::{AllocError, Global};

fn is_bare_meta(meta: &ObjectMeta) -> bool
    ensures { IsTrue result ↔ (shown_meta meta.now ≡ meta.now) }
{
    meta.uid == 0 && meta.version == 0 && meta.generation == 0 && meta.created == 0
}

fn is_bare_object(object: &Object) -> bool
    ensures { IsTrue result ↔ (shown_object object.now ≡ object.now) }
{
    match object {
        Object::Cert(certificate) => is_bare_meta(&certificate.meta),
        Object::Request(request) => is_bare_meta(&request.meta),
        Object::Secret(secret) => is_bare_meta(&secret.meta),
    }
}

fn is_bare(call: &Call) -> bool
    ensures { IsTrue result ↔ (bare_call call.now ≡ call.now) }
{
    match call {
        Call::Create { object, .. } => is_bare_object(object),
        Call::Update { object, .. } => is_bare_object(object),
        Call::UpdateStatus { object, .. } => is_bare_object(object),
        Call::Delete { .. } => true,
        Call::Get { .. } => true,
    }
}

fn text_of(alloc: Global, call: &Call) -> Result<String, AllocError>
    ensures { IfOk result (λ s. string_bytes s ≡ call_key call.now) }
{
    match call {
        Call::Create {
            object,
            generate: true,
        } => {
            let name = object.meta().name.as_str();
            format!(in alloc; "{name}-")
        }
        _ => {
            let key = call.key()?;
            key_word(alloc, &key)
        }
    }
}

fn has_text(alloc: Global, call: &Call, key: &Text) -> Result<bool, AllocError>
    ensures { IfOk result (λ has. IsTrue has ↔ (call_key call.now ≡ key.now)) }
{
    let text = text_of(alloc, call)?;
    Ok(text.as_str() == key.as_str())
}

fn is_shown(alloc: Global, call: &Call, key: &Text) -> Result<bool, AllocError>
    ensures { IfOk result (λ is. IsTrue is ↔ IsShown key.now call.now) }
{
    if !is_bare(call) {
        return Ok(false);
    }
    has_text(alloc, call, key)
}

fn deleted(alloc: Global, key: &Text, version: Option<u64>) -> Result<Option<Call>, AllocError>
    ensures { IfOk result (λ c. c ≡ words.call_of_parts names.Delete key.now None version) }
{
    match key_read(alloc, key.as_str())? {
        Some(key) => Ok(Some(Call::Delete { key, version })),
        None => Ok(None),
    }
}

fn got(alloc: Global, key: &Text) -> Result<Option<Call>, AllocError>
    ensures { IfOk result (λ c. c ≡ words.call_of_parts names.Get key.now None None) }
{
    match key_read(alloc, key.as_str())? {
        Some(key) => Ok(Some(Call::Get { key })),
        None => Ok(None),
    }
}

fn call_of(
    alloc: Global,
    name: CallName,
    key: &Text,
    object: &Option<Object>,
    version: Option<u64>,
) -> Result<Option<Call>, AllocError>
    ensures { IfOk result (λ c. c ≡ words.call_of_parts name key.now object.now version) }
{
    match (name, object, version) {
        (CallName::Create, Some(object), None) => Ok(Some(Call::Create {
            object: object.copy()?,
            generate: false,
        })),
        (CallName::Generate, Some(object), None) => Ok(Some(Call::Create {
            object: object.copy()?,
            generate: true,
        })),
        (CallName::Update, Some(object), Some(version)) => Ok(Some(Call::Update {
            object: object.copy()?,
            version,
        })),
        (CallName::UpdateStatus, Some(object), Some(version)) => Ok(Some(Call::UpdateStatus {
            object: object.copy()?,
            version,
        })),
        (CallName::Delete, None, version) => deleted(alloc, key, version),
        (CallName::Get, None, None) => got(alloc, key),
        _ => Ok(None),
    }
}

fn kept(alloc: Global, call: Call, key: &Text) -> Result<Option<Call>, AllocError>
    ensures { IfOk result (λ shown. IsShownCall key.now (Some call) shown) }
{
    if is_shown(alloc, &call, key)? {
        Ok(Some(call))
    } else {
        Ok(None)
    }
}

/// The call that the parts of a line show, if they show one. An error is one of memory.
pub fn read_call(
    alloc: Global,
    name: CallName,
    key: &Text,
    object: &Option<Object>,
    version: Option<u64>,
) -> Result<Option<Call>, AllocError>
    ensures { IfOk result (λ read. IsRead name key.now object.now version read) }
{
    match call_of(alloc, name, key, object, version)? {
        Some(call) => kept(alloc, call, key),
        None => Ok(None),
    }
}
