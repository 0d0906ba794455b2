// What a scenario says of keys and issuers.
ghost use Rattle.std.specs.Prelude.{◌≡◌, [], codes};
ghost use Rattle.serde_json.specs.View.{view, members_view};
ghost use Rattle.cmc_cursor.specs.Members.{Gives, under};
ghost use Rattle.cmc_cursor.specs.Seen.{shown_option};
ghost use Rattle.cmc_material.specs.Lists.{member_or};
ghost use Rattle.cmc_material.specs.MaterialRows.{certificate_key_at, certificate_rows_at, material_at, material_with, rows_at};

use crate::keys::key_under;
use crate::rows::{key_rows, reply_rows};
use cmc_cursor::{BadField, at, check_end, fields, optional};
use cmc_meta::{Key, Kind, Texts};
use cmc_objects::{Material, Rows};
use serde_json::{Map, Value};
use std::alloc::Global;

#[tactic(auto, unfolding(crate::specs::MaterialRows::rows_at))]
fn rows(alloc: Global, value: &Value) -> Result<Rows, BadField>
    ensures { Gives (λ t. t) result (rows_at (view value.now)) }
{
    let members = fields(alloc, value)?;
    let (given, rest) = optional(alloc, &members, "keys")?;
    let keys = key_rows(alloc, given)?;
    let (given, rest) = optional(alloc, rest, "replies")?;
    let replies = reply_rows(alloc, given)?;
    check_end(alloc, rest)?;
    Ok(Rows { keys, replies })
}

/// A Certificate, written `namespace/name`.
pub fn certificate(alloc: Global, value: &Value) -> Result<Key, BadField>
    ensures { Gives (λ t. t) result (certificate_key_at (view value.now)) }
{
    match value.as_str() {
        Some(text) => key_under(alloc, Kind::Certificate, text),
        None => Err(BadField::Path(Texts::new(alloc))),
    }
}

#[tactic(auto, unfolding(crate::specs::MaterialRows::certificate_rows_at))]
fn entry(alloc: Global, name: &str, value: &Value) -> Result<(Key, Rows), BadField>
    ensures { Gives (λ t. t) result (certificate_rows_at name.now (view value.now)) }
{
    let certificate = key_under(alloc, Kind::Certificate, name)?;
    let rows = rows(alloc, value)?;
    Ok((certificate, rows))
}

fn named_entry(alloc: Global, name: &str, value: &Value) -> Result<(Key, Rows), BadField>
    ensures { Gives (λ t. t) result (under name.now (certificate_rows_at name.now (view value.now))) }
{
    at(alloc, name, entry(alloc, name, value))
}

fn entries(alloc: Global, members: &Map<String, Value>) -> Result<Material, BadField>
    ensures { Gives (λ t. t) result (material_with [] (members_view members.now.entries)) }
{
    let mut material = Material::new(alloc);
    for (name, value) in members.iter() {
        match named_entry(alloc, name.as_str(), value) {
            Ok((certificate, rows)) => material.set(certificate, rows)?,
            Err(error) => return Err(error),
        }
    }
    Ok(material)
}

fn listed(alloc: Global, value: &Value) -> Result<Material, BadField>
    ensures { Gives (λ t. t) result (material_at (view value.now)) }
{
    match value {
        Value::Object(members) => entries(alloc, members),
        _ => Err(BadField::Path(Texts::new(alloc))),
    }
}

/// The rows of the member `material`, by Certificate.
pub fn material(alloc: Global, value: Option<&Value>) -> Result<Material, BadField>
    ensures { Gives (λ t. t) result (member_or [] (codes "material") material_at (shown_option value.entry)) }
{
    match value {
        None => Ok(Material::new(alloc)),
        Some(value) => at(alloc, "material", listed(alloc, value)),
    }
}
