//! What is read of a private key file and of a certification request, kept beside their octets.
//!
//! What is read borrows from the octets that it is read of, and cannot be kept beside them. So what is kept has octets
//! of its own.
ghost use Rattle.std.specs.Prelude.{◌≡◌, IfOk, option_map};
ghost use Rattle.cmc_der.specs.Keys.{csr_shown, key_shown, names_shown, text_shown};
ghost use Rattle.cmc_objects.specs.Kept.{fields_kept, key_kept, names_kept};

use cmc_meta::Bytes;
use cmc_x509::{CsrFields, KeyKind, Names, Spki};
use std::alloc::{AllocError, Global};

/// A public key with octets of its own (`Spki` has the same parts by reference).
#[derive(Drop)]
pub enum KeptKey {
    Rsa { modulus: Bytes, exponent: Bytes },
    Ec { curve: KeyKind, point: Bytes },
    Other { whole: Bytes },
}

/// What a subject is called, with octets of its own (`Names` has the same by reference).
#[derive(Drop)]
pub struct KeptNames {
    pub common: Option<Bytes>,
    pub alternative: Bytes,
}

/// What is read of a certification request, with octets of its own (`CsrFields` has the same by reference).
#[derive(Drop)]
pub struct KeptFields {
    pub key: KeptKey,
    pub names: KeptNames,
}

impl KeptKey {
    /// Copies the key.
    pub fn of(alloc: Global, key: &Spki<'_>) -> Result<KeptKey, AllocError>
        ensures { IfOk result (λ kept. key_kept kept ≡ key_shown key.now) }
    {
        match key {
            Spki::Rsa { modulus, exponent } => Ok(KeptKey::Rsa {
                modulus: Bytes::from_slice(alloc, modulus)?,
                exponent: Bytes::from_slice(alloc, exponent)?,
            }),
            Spki::Ec { curve, point } => Ok(KeptKey::Ec {
                curve: *curve,
                point: Bytes::from_slice(alloc, point)?,
            }),
            Spki::Other { whole } => Ok(KeptKey::Other {
                whole: Bytes::from_slice(alloc, whole)?,
            }),
        }
    }

    /// Returns the key by reference.
    pub fn as_read(&self) -> Spki<'_>
        ensures { key_shown result ≡ key_kept self.now }
    {
        match self {
            KeptKey::Rsa { modulus, exponent } => Spki::Rsa {
                modulus: modulus.as_slice(),
                exponent: exponent.as_slice(),
            },
            KeptKey::Ec { curve, point } => Spki::Ec {
                curve: *curve,
                point: point.as_slice(),
            },
            KeptKey::Other { whole } => Spki::Other {
                whole: whole.as_slice(),
            },
        }
    }
}

fn text_copied(alloc: Global, text: Option<&[u8]>) -> Result<Option<Bytes>, AllocError>
    ensures { IfOk result (λ kept. kept ≡ text_shown text.entry) }
{
    match text {
        None => Ok(None),
        Some(text) => Ok(Some(Bytes::from_slice(alloc, text)?)),
    }
}

fn text_as_read(text: &Option<Bytes>) -> Option<&[u8]>
    ensures { text_shown result ≡ text.now }
{
    match text {
        None => None,
        Some(text) => Some(text.as_slice()),
    }
}

impl KeptNames {
    fn of(alloc: Global, names: &Names<'_>) -> Result<KeptNames, AllocError>
        ensures { IfOk result (λ kept. names_kept kept ≡ names_shown names.now) }
    {
        Ok(KeptNames {
            common: text_copied(alloc, names.common)?,
            alternative: Bytes::from_slice(alloc, names.alternative)?,
        })
    }

    fn as_read(&self) -> Names<'_>
        ensures { names_shown result ≡ names_kept self.now }
    {
        Names {
            common: text_as_read(&self.common),
            alternative: self.alternative.as_slice(),
        }
    }
}

impl KeptFields {
    /// Copies what is read.
    pub fn of(alloc: Global, fields: &CsrFields<'_>) -> Result<KeptFields, AllocError>
        ensures { IfOk result (λ kept. fields_kept kept ≡ csr_shown fields.now) }
    {
        Ok(KeptFields {
            key: KeptKey::of(alloc, &fields.key)?,
            names: KeptNames::of(alloc, &fields.names)?,
        })
    }

    /// Returns what is read, by reference.
    pub fn as_read(&self) -> CsrFields<'_>
        ensures { csr_shown result ≡ fields_kept self.now }
    {
        CsrFields {
            key: self.key.as_read(),
            names: self.names.as_read(),
        }
    }
}

/// Copies `key`, if there is one.
pub fn keep_key(alloc: Global, key: &Option<Spki<'_>>) -> Result<Option<KeptKey>, AllocError>
    ensures { IfOk result (λ kept. option_map key_kept kept ≡ option_map key_shown key.now) }
{
    match key {
        None => Ok(None),
        Some(key) => Ok(Some(KeptKey::of(alloc, key)?)),
    }
}

/// Returns the key of `kept` by reference, if there is one.
pub fn key_as_read(kept: &Option<KeptKey>) -> Option<Spki<'_>>
    ensures { option_map key_shown result ≡ option_map key_kept kept.now }
{
    match kept {
        None => None,
        Some(kept) => Some(kept.as_read()),
    }
}

/// Copies `fields`, if there are any.
pub fn keep_fields(
    alloc: Global,
    fields: &Option<CsrFields<'_>>,
) -> Result<Option<KeptFields>, AllocError>
    ensures { IfOk result (λ kept. option_map fields_kept kept ≡ option_map csr_shown fields.now) }
{
    match fields {
        None => Ok(None),
        Some(fields) => Ok(Some(KeptFields::of(alloc, fields)?)),
    }
}

/// Returns the fields of `kept` by reference, if there are any.
pub fn fields_as_read(kept: &Option<KeptFields>) -> Option<CsrFields<'_>>
    ensures { option_map csr_shown result ≡ option_map fields_kept kept.now }
{
    match kept {
        None => None,
        Some(kept) => Some(kept.as_read()),
    }
}
