ghost use Rattle.std.specs.Option.{option_copied};
ghost use Rattle.std.specs.Prelude.{◌≡◌, ◌↔◌, ◌&&◌, [], IsTrue, IfOk, IfSome, OnOk, OnErr, nat_eq, option_map};
ghost use Rattle.cmc_der.specs.Keys.{cert_shown, key_shown};
ghost use Rattle.cmc_objects.specs.Kept.{IsKeyOfParts};
ghost use Rattle.cmc_objects.specs.KeyPairs.{IsPairing, pair_among, public_among};
ghost use Rattle.cmc_meta.specs.PairLists.{text_by_key, with_text, without_text};

use crate::kept::{KeptKey, keep_key, key_as_read};
use crate::lookups::part_under;
use crate::pairing::{Pairing, certificate_of, pairing_of, public_in};
use crate::shared::Shared;
use cmc_meta::{Bytes, Text};
use cmc_x509::{CertFields, Spki};
use std::alloc::{AllocError, Global};
use std::collections::BTreeMap;
use std::marker::Model;

/// The data of a Secret: bytes under names; contracts see the pairs in order of name. What is known of its key and its
/// certificate can be kept beside it, so that they are read once for all who look at the Secret.
pub struct Parts {
    map: BTreeMap<Text, Bytes>,
    pairing: Option<Pairing>,
    /// The public key of the key file, if it is kept. Copies share it.
    key: Option<Shared<Option<KeptKey>>>,
}

impl Drop for Parts {
    fn drop(self) {
        let Parts {
            map: _map,
            pairing: _pairing,
            key: _key,
        } = self;
    }
}

impl Model for Parts {
    ghost use Rattle.std.specs.Prelude.{IfSome, List, ℕ};
    ghost use Rattle.cmc_objects.specs.KeyPairs.{IsPairing};
    ghost use Rattle.cmc_objects.specs.Kept.{IsKeyOfParts};

    ghost Value = { List (List ℕ × List ℕ) };

    ghost view = { λ p. p.map.entries };

    ghost invariant = { λ p. (IfSome p.pairing (IsPairing p.map.entries)) × (IfSome p.key (IsKeyOfParts p.map.entries)) };
}

/// Adds a holder of `kept`, and copies no octets.
fn share(
    kept: &Option<Shared<Option<KeptKey>>>,
) -> Result<Option<Shared<Option<KeptKey>>>, AllocError>
    ensures { IfOk result (λ k. k ≡ kept.now) }
{
    match kept {
        None => Ok(None),
        Some(kept) => Ok(Some(kept.copy()?)),
    }
}

impl Parts {
    /// No data. It takes no memory.
    pub fn new(alloc: Global) -> Parts
        ensures { result ≡ [] }
    {
        Parts {
            map: BTreeMap::new(alloc),
            pairing: None,
            key: None,
        }
    }

    /// The bytes under the name; `None` exactly where no pair has it.
    pub fn get(&self, name: &Text) -> Option<&Bytes>
        ensures { option_copied result ≡ text_by_key self.now name.now }
    {
        self.map.get(name)
    }

    /// Puts the bytes under the name, in place of older ones.
    pub fn set(&mut self, name: Text, bytes: Bytes) -> Result<(), AllocError>
        ensures ok { OnOk result (self.new ≡ with_text self.old name bytes) }
        ensures err { OnErr result (self.new ≡ self.old) }
    {
        self.pairing = None;
        self.key = None;
        self.map.insert(name, bytes)?;
        Ok(())
    }

    /// Takes the pair of the name away; where no pair has it, nothing changes.
    pub fn remove(&mut self, name: &Text)
        ensures { self.new ≡ without_text self.old name.now }
    {
        self.pairing = None;
        self.key = None;
        let _ = self.map.remove(name);
    }

    /// The map that keeps the pairs, to go over them in order of name.
    pub fn as_map(&self) -> &BTreeMap<Text, Bytes>
        ensures { result.now.entries ≡ self.now }
    {
        &self.map
    }

    /// Returns the public key of the key file (`tls.key`): as it is kept, or else as it is read now. `None` exactly if
    /// there is no such file or it is not readable.
    pub fn public(&self) -> Option<Spki<'_>>
        ensures { option_map key_shown result ≡ public_among self.now }
    {
        match &self.key {
            Some(kept) => key_as_read(kept),
            None => public_in(part_under(self, "tls.key")),
        }
    }

    /// The fields of the certificate (`tls.crt`), where it and the key (`tls.key`) are there and readable and have one
    /// public key; `None` exactly elsewhere.
    #[tactic(auto, using(crate::proofs::KeyLaws::pair_by_read))]
    pub fn pair(&self) -> Option<CertFields<'_>>
        ensures { option_map cert_shown result ≡ pair_among self.now }
    {
        certificate_of(&self.public(), part_under(self, "tls.crt"))
    }

    /// Whether the key and the certificate are a pair, and its validity: as it is kept, or else as it is read now.
    pub fn pairing(&self) -> Pairing
        ensures { IsPairing self.now result }
    {
        match self.pairing {
            Some(pairing) => pairing,
            None => pairing_of(self.pair()),
        }
    }

    /// The same data, which keeps what is known of its key and its certificate from now on, and its copies too.
    pub fn keep_pairing(self) -> Parts
        ensures { result ≡ self }
    {
        let pairing = self.pairing();
        let Parts {
            map,
            pairing: _pairing,
            key,
        } = self;
        Parts {
            map,
            pairing: Some(pairing),
            key,
        }
    }

    /// Keeps the public key of the key file from now on, for copies too. It reads the file once.
    pub fn keep_key(self, alloc: Global) -> Result<Parts, AllocError>
        ensures { IfOk result (λ p. p ≡ self) }
    {
        if self.key.is_some() {
            return Ok(self);
        }
        let key = Shared::new(alloc, keep_key(alloc, &self.public())?)?;
        let Parts {
            map,
            pairing,
            key: _key,
        } = self;
        Ok(Parts {
            map,
            pairing,
            key: Some(key),
        })
    }

    /// Equal data.
    pub fn copy(&self) -> Result<Parts, AllocError>
        ensures { IfOk result (λ p. p ≡ self.now) }
    {
        Ok(Parts {
            map: self.map.clone()?,
            pairing: self.pairing,
            key: share(&self.key)?,
        })
    }

    /// Whether both have the same pairs.
    pub fn same(&self, other: &Parts) -> bool
        ensures { IsTrue result ↔ (self.now ≡ other.now) }
    {
        *self == *other
    }
}

impl PartialEq for Parts {
    ghost use Rattle.std.proofs.Common.{rules};
    ghost use Rattle.std.specs.Cmp.Lexicographic.{pointwise};
    ghost use Rattle.std.specs.Cmp.Rules.{comparing};

    ghost eq = { pointwise (λ a b. pointwise nat_eq a.0 b.0 && pointwise nat_eq a.1 b.1) };

    ghost laws = { Prim.search (comparing, rules) };

    fn eq(&self, other: &Parts) -> bool {
        self.map == other.map
    }
}
