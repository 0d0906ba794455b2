ghost use Rattle.std.specs.Prelude.{◌≡◌, ◌↔◌, IsTrue, IfOk};

use crate::name::Name;
use crate::owners::Owners;
use crate::pairs::Pairs;
use std::alloc::AllocError;

/// What every object has (Kubernetes API conventions, `ObjectMeta`).
pub struct ObjectMeta {
    pub namespace: Name,
    pub name: Name,
    /// The version that the create had; 0 in an object that no store has given.
    pub uid: u64,
    /// The resource version: the number of the accepted write that the object comes from.
    pub version: u64,
    /// Rises by one where an update changes the spec.
    pub generation: u64,
    /// The moment of the create, in seconds since 1970-01-01T00:00:00Z.
    pub created: i64,
    pub labels: Pairs,
    pub annotations: Pairs,
    pub owners: Owners,
}

impl ObjectMeta {
    /// Equal metadata.
    pub fn copy(&self) -> Result<ObjectMeta, AllocError>
        ensures { IfOk result (λ m. m ≡ self.now) }
    {
        Ok(ObjectMeta {
            namespace: self.namespace.copy()?,
            name: self.name.copy()?,
            uid: self.uid,
            version: self.version,
            generation: self.generation,
            created: self.created,
            labels: self.labels.copy()?,
            annotations: self.annotations.copy()?,
            owners: self.owners.copy()?,
        })
    }

    /// Whether both are equal in each field.
    pub fn same(&self, other: &ObjectMeta) -> bool
        ensures { IsTrue result ↔ (self.now ≡ other.now) }
    {
        self.namespace.same(&other.namespace)
            && self.name.same(&other.name)
            && self.uid == other.uid
            && self.version == other.version
            && self.generation == other.generation
            && self.created == other.created
            && self.labels.same(&other.labels)
            && self.annotations.same(&other.annotations)
            && self.owners.same(&other.owners)
    }
}

impl Drop for ObjectMeta {
    fn drop(self) {
        let ObjectMeta {
            namespace: _namespace,
            name: _name,
            uid: _uid,
            version: _version,
            generation: _generation,
            created: _created,
            labels: _labels,
            annotations: _annotations,
            owners: _owners,
        } = self;
    }
}
