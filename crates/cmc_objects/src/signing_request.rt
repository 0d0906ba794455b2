ghost use Rattle.std.specs.Prelude.{◌≡◌, ◌↔◌, IfOk, IfSome, IsTrue, option_map};
ghost use Rattle.cmc_der.specs.Keys.{csr_shown};
ghost use Rattle.cmc_x509.specs.Lists.{IsValueList};
ghost use Rattle.cmc_x509.specs.ReadCertificates.{request_fields_at};
ghost use Rattle.cmc_objects.specs.Kept.{fields_kept};

use crate::kept::{KeptFields, fields_as_read, keep_fields};
use crate::shared::Shared;
use cmc_meta::Bytes;
use cmc_x509::{CsrFields, read_csr};
use std::alloc::{AllocError, Global};
use std::marker::Model;

/// The DER of a certification request, or octets that stand in its place; contracts see the octets. What is read of them
/// is kept beside them, so that they are read once for all who look.
pub struct SigningRequest {
    octets: Bytes,
    fields: Shared<Option<KeptFields>>,
}

impl Drop for SigningRequest {
    fn drop(self) {
        let SigningRequest {
            octets: _octets,
            fields: _fields,
        } = self;
    }
}

impl Model for SigningRequest {
    ghost use Rattle.std.specs.Prelude.{List, ℕ};
    ghost use Rattle.cmc_objects.specs.Kept.{IsKeptReading};

    ghost Value = { List ℕ };

    ghost view = { λ r. r.octets };

    ghost invariant = { λ r. IsKeptReading r.octets r.fields };
}

/// Reads the octets: `None` exactly if they are no certification request.
fn fields_of<'a>(octets: &'a [u8]) -> Option<CsrFields<'a>>
    ensures { option_map csr_shown result ≡ request_fields_at octets.now }
{
    read_csr(octets).ok()
}

/// Reads the octets, and copies what is read.
fn kept_of(alloc: Global, octets: &[u8]) -> Result<Option<KeptFields>, AllocError>
    ensures { IfOk result (λ kept. option_map fields_kept kept ≡ request_fields_at octets.now) }
{
    keep_fields(alloc, &fields_of(octets))
}

impl SigningRequest {
    /// Takes the octets and reads them, once for all who look at them or at a copy.
    pub fn new(alloc: Global, octets: Bytes) -> Result<SigningRequest, AllocError>
        ensures { IfOk result (λ r. r ≡ octets) }
    {
        let fields = Shared::new(alloc, kept_of(alloc, octets.as_slice())?)?;
        Ok(SigningRequest { octets, fields })
    }

    /// Returns the octets, as a slice.
    pub fn as_slice(&self) -> &[u8]
        ensures { result.now ≡ self.now }
    {
        self.octets.as_slice()
    }

    /// Returns what `new` read: `None` exactly if the octets are no certification request.
    #[tactic(auto, using(crate::proofs::KeptLaws::names_listed))]
    pub fn fields(&self) -> Option<CsrFields<'_>>
        ensures fields { option_map csr_shown result ≡ request_fields_at self.now }
        ensures names { IfSome result (λ fields. IsValueList fields.names.alternative.now) }
    {
        fields_as_read(&self.fields)
    }

    /// Copies the octets, and shares what is read of them.
    pub fn copy(&self) -> Result<SigningRequest, AllocError>
        ensures { IfOk result (λ r. r ≡ self.now) }
    {
        Ok(SigningRequest {
            octets: self.octets.copy()?,
            fields: self.fields.copy()?,
        })
    }

    /// Says whether both have the same octets.
    pub fn same(&self, other: &SigningRequest) -> bool
        ensures { IsTrue result ↔ (self.now ≡ other.now) }
    {
        self.octets.same(&other.octets)
    }
}
