//! Keys written as text.
ghost use Rattle.std.specs.Prelude.{◌≡◌, IfOk};
ghost use Rattle.cmc_audit_calls.specs.CallsOfLines as words;

use cmc_meta::{BadName, Key, Kind, Name};
use std::alloc::{AllocError, Global};

fn name_read(alloc: Global, text: &str) -> Result<Option<Name>, AllocError>
    ensures { IfOk result (λ o. o ≡ words.name_read text.now) }
{
    match Name::read(alloc, text) {
        Ok(name) => Ok(Some(name)),
        Err(BadName::NotSubdomain) => Ok(None),
        Err(BadName::NoMemory) => Err(AllocError),
    }
}

fn kind_read(text: &str) -> Option<Kind>
    ensures { result ≡ words.kind_read text.now }
{
    match text {
        "Certificate" => Some(Kind::Certificate),
        "CertificateRequest" => Some(Kind::CertificateRequest),
        "Secret" => Some(Kind::Secret),
        _ => None,
    }
}

fn key_under(alloc: Global, kind: Kind, text: &str) -> Result<Option<Key>, AllocError>
    ensures { IfOk result (λ k. k ≡ words.key_under kind text.now) }
{
    let Some((namespace, name)) = text.split_once('/') else {
        return Ok(None);
    };
    let namespace = name_read(alloc, namespace)?;
    let name = name_read(alloc, name)?;
    match (namespace, name) {
        (Some(namespace), Some(name)) => Ok(Some(Key {
            kind,
            namespace,
            name,
        })),
        _ => Ok(None),
    }
}

/// The key that is written `Kind/namespace/name`. An error is one of memory.
pub(crate) fn key_read(alloc: Global, text: &str) -> Result<Option<Key>, AllocError>
    ensures { IfOk result (λ k. k ≡ words.key_of_printed text.now) }
{
    let Some((kind, rest)) = text.split_once('/') else {
        return Ok(None);
    };
    match kind_read(kind) {
        Some(kind) => key_under(alloc, kind, rest),
        None => Ok(None),
    }
}
