//! Accepted writes.
use cmc_meta::Key;
use cmc_objects::Object;

/// One accepted write: the key, and what exists under it from then on.
pub struct Write {
    pub key: Key,
    /// None where the write took the object away.
    pub object: Option<Object>,
}

impl Drop for Write {
    fn drop(self) {
        let Write {
            key: _key,
            object: _object,
        } = self;
    }
}
