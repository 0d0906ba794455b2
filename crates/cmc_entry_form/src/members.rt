// Members of a line, looked up by their names.
ghost use Rattle.std.specs.Prelude.{◌≡◌};
ghost use Rattle.serde_json.specs.View.{view};
ghost use Rattle.serde_json.specs.Find.{get};
ghost use Rattle.cmc_cursor.specs.Members.{Gives};
ghost use Rattle.cmc_cursor.specs.Readers.{found, text_at, count_at, bytes_at};
ghost use Rattle.cmc_material.specs.Keys.{key_of_kind, split_slash};
ghost use Rattle.cmc_scenario.specs.Roles.{role_at, role_in, kind_at};
ghost use Rattle.cmc_status_form.specs.ConditionForm.{moment_at};
ghost use Rattle.cmc_entry_form.specs.LineForm.{member_as, named_at, optional_as};

use cmc_cursor::{BadField, bytes, count, name_of};
use cmc_meta::{Bytes, Key, Kind, Texts};
use cmc_objects::Role;
use cmc_scenario::kind;
use cmc_status_form::moment;
use serde_json::Value;
use std::alloc::Global;

/// The member of that name. Fails exactly where there is none.
pub fn member_of<'a>(alloc: Global, value: &'a Value, name: &str) -> Result<&'a Value, BadField>
    ensures { Gives (λ v. view v.now) result (found (get name.now (view value.now))) }
{
    match value.get(name) {
        Some(member) => Ok(member),
        None => Err(BadField::Path(Texts::new(alloc))),
    }
}

/// A text.
pub fn text_of<'a>(alloc: Global, value: &'a Value, name: &str) -> Result<&'a str, BadField>
    ensures { Gives (λ t. t.now) result (member_as text_at name.now (view value.now)) }
{
    let member = member_of(alloc, value, name)?;
    match member.as_str() {
        Some(text) => Ok(text),
        None => Err(BadField::Path(Texts::new(alloc))),
    }
}

/// A number.
pub fn count_of(alloc: Global, value: &Value, name: &str) -> Result<u64, BadField>
    ensures { Gives (λ t. t) result (member_as count_at name.now (view value.now)) }
{
    let member = member_of(alloc, value, name)?;
    count(alloc, member)
}

/// A number that may be left out.
pub fn count_option(alloc: Global, value: &Value, name: &str) -> Result<Option<u64>, BadField>
    ensures { Gives (λ t. t) result (optional_as count_at name.now (view value.now)) }
{
    match value.get(name) {
        Some(member) => Ok(Some(count(alloc, member)?)),
        None => Ok(None),
    }
}

/// Bytes.
pub fn bytes_of(alloc: Global, value: &Value, name: &str) -> Result<Bytes, BadField>
    ensures { Gives (λ t. t) result (member_as bytes_at name.now (view value.now)) }
{
    let member = member_of(alloc, value, name)?;
    bytes(alloc, member)
}

/// Bytes that may be left out.
pub fn bytes_option(alloc: Global, value: &Value, name: &str) -> Result<Option<Bytes>, BadField>
    ensures { Gives (λ t. t) result (optional_as bytes_at name.now (view value.now)) }
{
    match value.get(name) {
        Some(member) => Ok(Some(bytes(alloc, member)?)),
        None => Ok(None),
    }
}

/// A moment, in seconds since 1970-01-01T00:00:00Z.
pub fn moment_of(alloc: Global, value: &Value, name: &str) -> Result<i64, BadField>
    ensures { Gives (λ t. t) result (member_as moment_at name.now (view value.now)) }
{
    let member = member_of(alloc, value, name)?;
    moment(alloc, member)
}

/// A kind by its name.
pub fn kind_of(alloc: Global, value: &Value, name: &str) -> Result<Kind, BadField>
    ensures { Gives (λ t. t) result (member_as kind_at name.now (view value.now)) }
{
    let member = member_of(alloc, value, name)?;
    kind(alloc, member)
}

fn role_named(alloc: Global, text: &str) -> Result<Role, BadField>
    ensures { Gives (λ t. t) result (role_in text.now) }
{
    match text {
        "trigger" => Ok(Role::Trigger),
        "keymanager" => Ok(Role::KeyManager),
        "requestmanager" => Ok(Role::RequestManager),
        "approver" => Ok(Role::Approver),
        "issuer" => Ok(Role::Issuer),
        "issuing" => Ok(Role::Issuing),
        "readiness" => Ok(Role::Readiness),
        "revision" => Ok(Role::Revision),
        _ => Err(BadField::Path(Texts::new(alloc))),
    }
}

/// A role by its name.
pub fn role_of(alloc: Global, value: &Value, name: &str) -> Result<Role, BadField>
    ensures { Gives (λ t. t) result (member_as role_at name.now (view value.now)) }
{
    let text = text_of(alloc, value, name)?;
    role_named(alloc, text)
}

fn split(alloc: Global, text: &str) -> Result<(&str, &str), BadField>
    ensures { Gives (λ p. (p.0.now, p.1.now)) result (split_slash text.now) }
{
    match text.split_once('/') {
        Some(parts) => Ok(parts),
        None => Err(BadField::Path(Texts::new(alloc))),
    }
}

#[tactic(auto, unfolding(cmc_material::specs::Keys::key_of_kind))]
fn key_named(alloc: Global, kind: Kind, text: &str) -> Result<Key, BadField>
    ensures { Gives (λ t. t) result (key_of_kind kind text.now) }
{
    let (namespace, name) = split(alloc, text)?;
    let namespace = name_of(alloc, namespace)?;
    let name = name_of(alloc, name)?;
    Ok(Key {
        kind,
        namespace,
        name,
    })
}

/// A key of that kind, written `namespace/name`.
pub fn named_key(alloc: Global, value: &Value, name: &str, kind: Kind) -> Result<Key, BadField>
    ensures { Gives (λ t. t) result (member_as (named_at kind) name.now (view value.now)) }
{
    let text = text_of(alloc, value, name)?;
    key_named(alloc, kind, text)
}
