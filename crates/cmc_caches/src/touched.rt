//! What writes touch that a role is told of.
ghost use Rattle.std.specs.Option.{option_copied};
ghost use Rattle.std.specs.Prelude.{◌≡◌, ◌≤◌, ◌++◌, ◌∷◌, [], IfOk, OnOk, length, map, reverse, true, false, if◌then◌else◌};
ghost use Rattle.cmc_model.specs.Objects.{object_at};
ghost use Rattle.cmc_model.specs.Writes as spec;
ghost use Rattle.cmc_caches.specs.Affected.{AddsOwners, AreNamed, AreSameBut, AreSameButOf, left_by, owner_uids_of};
ghost use Rattle.cmc_caches.specs.Board.{shown_by};

use crate::shown::Shown;
use cmc_meta::{Key, Kind, Numbers, OwnerRef};
use cmc_model::Write;
use cmc_objects::Object;
use std::alloc::{AllocError, Global};

fn add_key(keys: &mut Vec<Key>, write: &Write, kind: Kind) -> Result<(), AllocError>
    ensures { OnOk result (keys.new.items ≡ (if spec.kind_eq write.now.key.kind kind then keys.old.items ++ write.now.key ∷ [] else keys.old.items)) }
{
    if write.key.kind == kind {
        keys.push(write.key.copy()?)?;
    }
    Ok(())
}

/// The keys that the writes of the kind above the one version and up to the other name. An error is one of
/// memory.
pub(crate) fn written_keys(
    alloc: Global,
    writes: &[Write],
    kind: Kind,
    from: u64,
    to: u64,
) -> Result<Vec<Key>, AllocError>
    requires above { from ≤ to }
    requires within { to ≤ length writes.now }
    ensures same { IfOk result (λ keys. AreSameBut keys.items (left_by writes.now kind from) (left_by writes.now kind to)) }
    ensures named { IfOk result (λ keys. AreNamed kind (reverse writes.now) keys.items) }
{
    let mut keys = Vec::new(alloc);
    for place in from..to {
        add_key(&mut keys, &writes[place as usize], kind)?;
    }
    Ok(keys)
}

fn add_uids(uids: &mut Numbers, owners: &[OwnerRef]) -> Result<(), AllocError>
    ensures { OnOk result (uids.new ≡ uids.old ++ map (λ owner. owner.uid) owners.now) }
{
    for owner in owners {
        uids.push(owner.uid)?;
    }
    Ok(())
}

fn add_owners(uids: &mut Numbers, object: Option<&Object>) -> Result<(), AllocError>
    ensures { OnOk result (uids.new ≡ uids.old ++ owner_uids_of (option_copied object.entry)) }
{
    match object {
        Some(object) => add_uids(uids, object.meta().owners.as_slice()),
        None => Ok(()),
    }
}

/// Whether both stand and have the same owners.
pub(crate) fn have_same_owners(before: Option<&Object>, after: Option<&Object>) -> bool
    ensures { result ≡ true → owner_uids_of (option_copied before.entry) ≡ owner_uids_of (option_copied after.entry) }
{
    match (before, after) {
        (Some(before), Some(after)) => before.meta().owners.same(&after.meta().owners),
        _ => false,
    }
}

/// Adds the owners of both, once where they are the same, as those of an object that is updated mostly are.
fn add_both(
    uids: &mut Numbers,
    before: Option<&Object>,
    after: Option<&Object>,
) -> Result<(), AllocError>
    ensures { OnOk result (AddsOwners (option_copied before.entry) (option_copied after.entry) uids.old uids.new) }
{
    if have_same_owners(before, after) {
        return add_owners(uids, after);
    }
    add_owners(uids, before)?;
    add_owners(uids, after)
}

/// Adds the owners of what stood under the key of the write, and of what is there then, where the key is one of the
/// kind.
fn add_owners_of_kind(
    objects: &Shown<'_>,
    uids: &mut Numbers,
    write: &Write,
    kind: Kind,
) -> Result<(), AllocError>
    ensures hit { OnOk result (spec.kind_eq write.now.key.kind kind ≡ true → AddsOwners (object_at (shown_by objects.now) write.now.key) write.now.object uids.old uids.new) }
    ensures miss { OnOk result (spec.kind_eq write.now.key.kind kind ≡ false → uids.new ≡ uids.old) }
{
    if write.key.kind == kind {
        return add_both(uids, objects.get(&write.key), write.object.as_ref());
    }
    Ok(())
}

/// The uids of all that owned or comes to own an object that the writes of the kind above the one version
/// and up to the other change. What stood in between is itself of one of these writes, so the objects as
/// they were before all of them are all that it looks at. An error is one of memory.
pub(crate) fn touched_owners(
    alloc: Global,
    objects: &Shown<'_>,
    writes: &[Write],
    kind: Kind,
    from: u64,
    to: u64,
) -> Result<Numbers, AllocError>
    requires above { from ≤ to }
    requires within { to ≤ length writes.now }
    requires holds { (shown_by objects.now) ≡ left_by writes.now kind from }
    ensures { IfOk result (λ uids. AreSameButOf uids (left_by writes.now kind from) (left_by writes.now kind to)) }
{
    let mut uids = Numbers::new(alloc);
    for place in from..to {
        add_owners_of_kind(objects, &mut uids, &writes[place as usize], kind)?;
    }
    Ok(uids)
}
