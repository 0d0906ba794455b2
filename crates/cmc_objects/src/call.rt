ghost use Rattle.std.specs.Prelude.{◌≡◌, IfOk};
ghost use Rattle.cmc_objects.specs.Calls as calls;

use crate::object::Object;
use cmc_meta::{Key, Name};
use std::alloc::AllocError;

/// A call on the store (Kubernetes API conventions, verbs and optimistic concurrency).
pub enum Call {
    /// Stores a new object. With `generate` the object's name and a dash are the prefix from which its name is made
    /// (Kubernetes API conventions, `generateName`).
    Create { object: Object, generate: bool },
    /// Replaces all but the status of the object that has this version.
    Update { object: Object, version: u64 },
    /// Replaces the status of the object that has this version.
    UpdateStatus { object: Object, version: u64 },
    /// Takes the object away, where a version is named only if it has that version.
    Delete { key: Key, version: Option<u64> },
    /// Reads the object.
    Get { key: Key },
}

impl Drop for Call {
    fn drop(self) {
        match self {
            Call::Create {
                object: _object,
                generate: _generate,
            } => {}
            Call::Update {
                object: _object,
                version: _version,
            } => {}
            Call::UpdateStatus {
                object: _object,
                version: _version,
            } => {}
            Call::Delete {
                key: _key,
                version: _version,
            } => {}
            Call::Get { key: _key } => {}
        }
    }
}

impl Call {
    /// An equal call.
    pub fn copy(&self) -> Result<Call, AllocError>
        ensures { IfOk result (λ c. c ≡ self.now) }
    {
        match self {
            Call::Create { object, generate } => Ok(Call::Create {
                object: object.copy()?,
                generate: *generate,
            }),
            Call::Update { object, version } => Ok(Call::Update {
                object: object.copy()?,
                version: *version,
            }),
            Call::UpdateStatus { object, version } => Ok(Call::UpdateStatus {
                object: object.copy()?,
                version: *version,
            }),
            Call::Delete { key, version } => Ok(Call::Delete {
                key: key.copy()?,
                version: *version,
            }),
            Call::Get { key } => Ok(Call::Get { key: key.copy()? }),
        }
    }

    /// The key that the call names; of a create with a generated name the key under the prefix. An error is one of memory.
    pub fn key(&self) -> Result<Key, AllocError>
        ensures { IfOk result (λ k. k ≡ calls.key_of_call self.now) }
    {
        match self {
            Call::Create {
                object,
                generate: _,
            } => object.key(),
            Call::Update { object, .. } => object.key(),
            Call::UpdateStatus { object, .. } => object.key(),
            Call::Delete { key, .. } => key.copy(),
            Call::Get { key } => key.copy(),
        }
    }
}

/// What the store answers to a call.
pub enum Reply {
    /// The write was accepted as this version of the object of this name.
    Ok { version: u64, name: Name },
    /// The write would have left the object, which has this version, as it was.
    Unchanged { version: u64 },
    /// The object that a Get found.
    Found { object: Object },
    /// The object has another version than the named one.
    Conflict { named: u64, have: u64 },
    /// No object exists under the key; so many writes were accepted before.
    NotFound { at: u64 },
    /// An object of this version stands under the key of a create.
    AlreadyExists { have: u64 },
    /// The admission rule of this number refuses the object.
    Invalid { rule: u32 },
    /// The call of this number was made to fail.
    Unavailable { number: u64 },
}

impl Drop for Reply {
    fn drop(self) {
        match self {
            Reply::Ok {
                version: _version,
                name: _name,
            } => {}
            Reply::Unchanged { version: _version } => {}
            Reply::Found { object: _object } => {}
            Reply::Conflict {
                named: _named,
                have: _have,
            } => {}
            Reply::NotFound { at: _at } => {}
            Reply::AlreadyExists { have: _have } => {}
            Reply::Invalid { rule: _rule } => {}
            Reply::Unavailable { number: _number } => {}
        }
    }
}

impl Reply {
    /// Whether the call was an accepted write.
    pub fn is_accepted(&self) -> bool
        ensures { result ≡ calls.is_accepted self.now }
    {
        matches!(self, Reply::Ok { .. })
    }
}
