ghost use Rattle.std.specs.Option.{option_copied};
ghost use Rattle.std.specs.Prelude.{◌≡◌, OnOk, OnErr};
ghost use Rattle.cmc_model.specs.Objects.{no_objects, object_at, with_object, without_object};

use cmc_meta::Key;
use cmc_objects::Object;
use std::alloc::{AllocError, Global};
use std::collections::BTreeMap;
use std::marker::Model;

/// The objects under their keys; contracts see a finite map.
#[derive(Drop)]
pub struct Shelf {
    map: BTreeMap<Key, Object>,
}

impl Model for Shelf {
    ghost use Rattle.std.specs.FinMap as finite;
    ghost use Rattle.cmc_meta.specs.contracts.key.Key as keys;
    ghost use Rattle.cmc_objects.specs.contracts.object.Object as object;
    ghost use Rattle.cmc_model.specs.Objects.{Objects};

    ghost Value = { Objects };

    ghost coded = { finite.code keys.the_row.coded object.the_row.coded };

    ghost view = { λ s. finite.from_entries s.map.entries };
}

impl Shelf {
    ghost use Rattle.std.specs.FinMap as finite;

    /// No objects. It takes no memory.
    pub fn new(alloc: Global) -> Shelf
        ensures { result ≡ no_objects }
    {
        Shelf {
            map: BTreeMap::new(alloc),
        }
    }

    /// The object under the key; `None` exactly where none exists.
    pub fn get(&self, key: &Key) -> Option<&Object>
        ensures { option_copied result ≡ object_at self.now key.now }
    {
        self.map.get(key)
    }

    /// Puts the object under the key, in place of an older one; where memory runs out all is as it was.
    pub fn put(&mut self, key: Key, object: Object) -> Result<(), AllocError>
        ensures ok { OnOk result (self.new ≡ with_object self.old key object) }
        ensures err { OnErr result (self.new ≡ self.old) }
    {
        self.map.insert(key, object)?;
        Ok(())
    }

    /// Takes the object of the key away; where none exists, nothing changes.
    pub fn remove(&mut self, key: &Key)
        ensures { self.new ≡ without_object self.old key.now }
    {
        let _ = self.map.remove(key);
    }

    /// The map that keeps the objects, to go over them in order of key.
    pub fn objects(&self) -> &BTreeMap<Key, Object>
        ensures { finite.entries self.now ≡ result.now.entries }
    {
        let _entries = self.map.iter();
        &self.map
    }
}
