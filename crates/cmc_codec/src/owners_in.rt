// Owner references, read from JSON.
ghost use Rattle.std.specs.Prelude.{◌≡◌, decimal, map};
ghost use Rattle.serde_json.specs.View.{view, items_view};
ghost use Rattle.cmc_cursor.specs.Members.{Gives, under};
ghost use Rattle.cmc_cursor.specs.Seen.{shown};
ghost use Rattle.cmc_codec.specs.MetadataForm as forms;

use crate::metadata_in::{found_flag, found_name};
use cmc_cursor::{BadField, Fields, at_place, drop_rest, fields, member};
use cmc_meta::{Kind, OwnerRef, Owners, Texts, number_in};
use serde_json::Value;
use std::alloc::Global;

fn kind_named(text: &str) -> Option<Kind>
    ensures { result ≡ forms.kind_named text.now }
{
    match text {
        "Certificate" => Some(Kind::Certificate),
        "CertificateRequest" => Some(Kind::CertificateRequest),
        "Secret" => Some(Kind::Secret),
        _ => None,
    }
}

fn owner_kind(value: &Value) -> Option<Kind>
    ensures { result ≡ forms.owner_kind (view value.now) }
{
    match member(value, "kind") {
        None => None,
        Some(text) => kind_named(text),
    }
}

fn uid_of(text: &str) -> Option<u64>
    ensures { result ≡ forms.uid_in text.now }
{
    match text.strip_prefix("uid-") {
        Some(digits) => number_in(digits),
        None => None,
    }
}

fn owner_uid(value: &Value) -> Option<u64>
    ensures { result ≡ forms.owner_uid (view value.now) }
{
    match member(value, "uid") {
        Some(text) => uid_of(text),
        None => None,
    }
}

#[tactic(auto, unfolding(crate::specs::MetadataForm::kept_owner))]
fn kept_owner(
    alloc: Global,
    kind: Kind,
    uid: u64,
    rest: Fields<'_, '_>,
) -> Result<OwnerRef, BadField>
    ensures { Gives (λ t. t) result (forms.kept_owner kind uid (map shown rest.now)) }
{
    let (controller, rest) = found_flag(alloc, rest, "controller")?;
    let (name, rest) = found_name(alloc, rest, "name")?;
    drop_rest(alloc, rest)?;
    Ok(OwnerRef {
        kind,
        name,
        uid,
        controller,
    })
}

fn owner_of(
    alloc: Global,
    kind: Option<Kind>,
    uid: Option<u64>,
    rest: Fields<'_, '_>,
) -> Result<Option<OwnerRef>, BadField>
    ensures { Gives (λ t. t) result (forms.owner_in kind uid (map shown rest.now)) }
{
    match (kind, uid) {
        (Some(kind), Some(uid)) => Ok(Some(kept_owner(alloc, kind, uid, rest)?)),
        _ => {
            drop_rest(alloc, rest)?;
            Ok(None)
        }
    }
}

#[tactic(auto, unfolding(crate::specs::MetadataForm::owner_at))]
fn owner(alloc: Global, value: &Value) -> Result<Option<OwnerRef>, BadField>
    ensures { Gives (λ t. t) result (forms.owner_at (view value.now)) }
{
    let members = fields(alloc, value)?;
    owner_of(alloc, owner_kind(value), owner_uid(value), &members)
}

fn owner_item(alloc: Global, place: usize, value: &Value) -> Result<Option<OwnerRef>, BadField>
    ensures { Gives (λ t. t) result (under (decimal place) (forms.owner_at (view value.now))) }
{
    at_place(alloc, place, owner(alloc, value))
}

fn owners_of(alloc: Global, items: &[Value]) -> Result<Owners, BadField>
    ensures { Gives (λ t. t) result (forms.owners_from 0 (items_view items.now)) }
{
    let mut owners = Owners::new(alloc);
    for (place, item) in items.iter().enumerate() {
        match owner_item(alloc, place, item) {
            Ok(None) => {}
            Ok(Some(owner)) => owners.push(owner)?,
            Err(error) => return Err(error),
        }
    }
    Ok(owners)
}

/// The owner references of an object (Kubernetes API conventions, `ownerReferences`). One whose
/// kind is not among those of this store, or whose uid is none of this store, is dropped.
pub fn owners(alloc: Global, value: &Value) -> Result<Owners, BadField>
    ensures { Gives (λ t. t) result (forms.owners_at (view value.now)) }
{
    match value {
        Value::Array(items) => owners_of(alloc, items.as_slice()),
        _ => Err(BadField::Path(Texts::new(alloc))),
    }
}
