//! The calls of an examination.
ghost use Rattle.std.specs.Prelude.{◌≡◌, IfOk, Some};
ghost use Rattle.cmc_objects.specs.declared.call.Call.TheVariants as calls;
ghost use Rattle.cmc_collect_moves.specs.OwnerKeys.{owner_key};

use cmc_meta::{Key, Name, OwnerRef};
use cmc_objects::Call;
use std::alloc::AllocError;

/// Returns the key of the owner of an object of this namespace.
pub fn owner_key(namespace: &Name, owner: &OwnerRef) -> Result<Key, AllocError>
    ensures { IfOk result (λ k. k ≡ owner_key namespace.now owner.now) }
{
    Ok(Key {
        kind: owner.kind,
        namespace: namespace.copy()?,
        name: owner.name.copy()?,
    })
}

/// Returns the read of the owner of an object of this namespace.
pub fn get_of(namespace: &Name, owner: &OwnerRef) -> Result<Call, AllocError>
    ensures { IfOk result (λ call. call ≡ calls.Get (owner_key namespace.now owner.now)) }
{
    Ok(Call::Get {
        key: owner_key(namespace, owner)?,
    })
}

/// Returns the delete of the key's object at this version.
pub fn delete_of(key: &Key, version: u64) -> Result<Call, AllocError>
    ensures { IfOk result (λ call. call ≡ calls.Delete key.now (Some version)) }
{
    Ok(Call::Delete {
        key: key.copy()?,
        version: Some(version),
    })
}
