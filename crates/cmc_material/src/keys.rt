// Keys written as text.
ghost use Rattle.std.specs.Prelude.{◌≡◌};
ghost use Rattle.serde_json.specs.View.{view};
ghost use Rattle.cmc_cursor.specs.Members.{Gives};
ghost use Rattle.cmc_material.specs.Keys.{split_slash, kind_in, key_of_kind, key_of_text, key_at};

use cmc_cursor::{BadField, name_of};
use cmc_meta::{Key, Kind, Texts};
use serde_json::Value;
use std::alloc::Global;

/// The kind of that name.
pub fn kind_of(alloc: Global, text: &str) -> Result<Kind, BadField>
    ensures { Gives (λ t. t) result (kind_in text.now) }
{
    match text {
        "Certificate" => Ok(Kind::Certificate),
        "CertificateRequest" => Ok(Kind::CertificateRequest),
        "Secret" => Ok(Kind::Secret),
        _ => Err(BadField::Path(Texts::new(alloc))),
    }
}

fn split(alloc: Global, text: &str) -> Result<(&str, &str), BadField>
    ensures { Gives (λ p. (p.0.now, p.1.now)) result (split_slash text.now) }
{
    match text.split_once('/') {
        Some(parts) => Ok(parts),
        None => Err(BadField::Path(Texts::new(alloc))),
    }
}

/// A namespace and a name, with a slash between them.
#[tactic(auto, unfolding(crate::specs::Keys::key_of_kind))]
pub fn key_under(alloc: Global, kind: Kind, text: &str) -> Result<Key, BadField>
    ensures { Gives (λ t. t) result (key_of_kind kind text.now) }
{
    let (namespace, name) = split(alloc, text)?;
    let namespace = name_of(alloc, namespace)?;
    let name = name_of(alloc, name)?;
    Ok(Key {
        kind,
        namespace,
        name,
    })
}

#[tactic(auto, unfolding(crate::specs::Keys::key_of_text))]
fn key_of(alloc: Global, text: &str) -> Result<Key, BadField>
    ensures { Gives (λ t. t) result (key_of_text text.now) }
{
    let (kind, rest) = split(alloc, text)?;
    let kind = kind_of(alloc, kind)?;
    key_under(alloc, kind, rest)
}

/// A key, written `Kind/namespace/name`.
pub fn key(alloc: Global, value: &Value) -> Result<Key, BadField>
    ensures { Gives (λ t. t) result (key_at (view value.now)) }
{
    match value.as_str() {
        Some(text) => key_of(alloc, text),
        None => Err(BadField::Path(Texts::new(alloc))),
    }
}
