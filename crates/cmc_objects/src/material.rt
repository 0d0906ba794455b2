ghost use Rattle.std.specs.Option.{option_copied};
ghost use Rattle.std.specs.Prelude.{◌≡◌, [], IfOk, OnOk, OnErr};
ghost use Rattle.cmc_objects.specs.Materials.{rows_under, with_rows_of, without_rows};

use crate::rows::Rows;
use cmc_meta::Key;
use std::alloc::{AllocError, Global};
use std::collections::BTreeMap;
use std::marker::Model;

/// What a scenario says of the keys and the issuers of Certificates; contracts see the pairs of a
/// Certificate's key and its rows, in order of key.
pub struct Material {
    map: BTreeMap<Key, Rows>,
    alloc: Global,
}

impl Drop for Material {
    fn drop(self) {
        let Material {
            map: _map,
            alloc: _alloc,
        } = self;
    }
}

impl Model for Material {
    ghost use Rattle.std.specs.Prelude.{List};
    ghost use Rattle.cmc_meta.specs.declared.key.Key.{Key};
    ghost use Rattle.cmc_objects.specs.declared.rows.Rows.{Rows};

    ghost Value = { List (Key × Rows) };

    ghost view = { λ m. m.map.entries };
}

impl Material {
    /// Nothing. It takes no memory.
    pub fn new(alloc: Global) -> Material
        ensures { result ≡ [] }
    {
        Material {
            map: BTreeMap::new(alloc),
            alloc,
        }
    }

    /// The rows of the Certificate; `None` exactly where it has none.
    pub fn get(&self, certificate: &Key) -> Option<&Rows>
        ensures { option_copied result ≡ rows_under self.now certificate.now }
    {
        self.map.get(certificate)
    }

    /// Puts the rows of the Certificate, in place of older ones.
    pub fn set(&mut self, certificate: Key, rows: Rows) -> Result<(), AllocError>
        ensures ok { OnOk result (self.new ≡ with_rows_of self.old certificate rows) }
        ensures err { OnErr result (self.new ≡ self.old) }
    {
        self.map.insert(certificate, rows)?;
        Ok(())
    }

    /// Takes the rows of the Certificate away; where it has none, nothing changes.
    pub fn remove(&mut self, certificate: &Key)
        ensures { self.new ≡ without_rows self.old certificate.now }
    {
        let _ = self.map.remove(certificate);
    }

    /// The map that keeps the rows, to go over them in order of key.
    pub fn as_map(&self) -> &BTreeMap<Key, Rows>
        ensures { result.now.entries ≡ self.now }
    {
        &self.map
    }

    /// An equal material.
    pub fn copy(&self) -> Result<Material, AllocError>
        ensures { IfOk result (λ m. m ≡ self.now) }
    {
        copy_entries(self.alloc, &self.map)
    }
}

fn copy_entries(alloc: Global, entries: &BTreeMap<Key, Rows>) -> Result<Material, AllocError>
    ensures { IfOk result (λ m. m ≡ entries.now.entries) }
{
    let mut material = Material::new(alloc);
    for (certificate, rows) in entries.iter() {
        material.set(certificate.copy()?, rows.copy()?)?;
    }
    Ok(material)
}
