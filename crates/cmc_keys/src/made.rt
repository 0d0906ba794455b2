//! What is given back for a question.
ghost use Rattle.std.specs.Prelude.{◌≡◌, length, IfOk};

use cmc_meta::Bytes;
use cmc_objects::{CsrOrder, KeyOrder, Shared};
use std::alloc::AllocError;
use std::marker::Model;

/// A private key that was made for a question: it is of the algorithm and the size that are asked for, and what
/// the row of the question says.
pub struct Made {
    order: Shared<KeyOrder>,
    bytes: Bytes,
}

impl Drop for Made {
    fn drop(self) {
        let Made {
            order: _order,
            bytes: _bytes,
        } = self;
    }
}

impl Model for Made {
    ghost use Rattle.cmc_keys.specs.Values.{IsKeyValue, KeyMade};

    ghost Value = { KeyMade };

    ghost view = { λ m. record { order = m.order; bytes = m.bytes } };

    ghost invariant = { λ m. IsKeyValue m.order m.bytes };
}

impl Made {
    ghost use Rattle.cmc_keys.specs.Values.{IsKeyValue};

    /// The key of these octets, in DER, as the answer to the question.
    pub fn new(order: Shared<KeyOrder>, bytes: Bytes) -> Made
        requires { IsKeyValue order bytes }
        ensures { result ≡ record { order = order; bytes = bytes } }
    {
        Made { order, bytes }
    }

    /// The question.
    pub fn order(&self) -> &Shared<KeyOrder>
        ensures { result.now ≡ self.now.order }
    {
        &self.order
    }

    /// The file of the private key, in DER.
    pub fn bytes(&self) -> &[u8]
        ensures value { result.now ≡ self.now.bytes }
        ensures answers { IsKeyValue self.now.order self.now.bytes }
    {
        self.bytes.as_slice()
    }

    /// The question and the file, of which is still known that it answers it.
    pub fn into_parts(self) -> (Shared<KeyOrder>, Bytes)
        ensures value { result ≡ (self.order, self.bytes) }
        ensures answers { IsKeyValue self.order self.bytes }
    {
        let Made { order, bytes } = self;
        (order, bytes)
    }

    /// An equal answer.
    pub fn copy(&self) -> Result<Made, AllocError>
        ensures { IfOk result (λ m. m ≡ self.now) }
    {
        let order = self.order.copy()?;
        let bytes = self.bytes.copy()?;
        Ok(Made { order, bytes })
    }
}

/// The signature that was made for a certification request: the SHA-256 digest of its body, 32 octets.
pub struct SignedCsr {
    order: Shared<CsrOrder>,
    signature: Bytes,
}

impl Drop for SignedCsr {
    fn drop(self) {
        let SignedCsr {
            order: _order,
            signature: _signature,
        } = self;
    }
}

impl Model for SignedCsr {
    ghost use Rattle.cmc_keys.specs.Values.{IsCsrValue, CsrSigned};

    ghost Value = { CsrSigned };

    ghost view = { λ s. record { order = s.order; signature = s.signature } };

    ghost invariant = { λ s. IsCsrValue s.order s.signature };
}

impl SignedCsr {
    ghost use Rattle.cmc_keys.specs.Values.{IsCsrValue};

    /// The signature of these octets as the answer to the question.
    pub fn new(order: Shared<CsrOrder>, signature: Bytes) -> SignedCsr
        requires { IsCsrValue order signature }
        ensures { result ≡ record { order = order; signature = signature } }
    {
        SignedCsr { order, signature }
    }

    /// The question.
    pub fn order(&self) -> &Shared<CsrOrder>
        ensures { result.now ≡ self.now.order }
    {
        &self.order
    }

    /// The octets of the signature.
    #[tactic(auto, using(crate::proofs::SignatureLaws::signature_size))]
    pub fn signature(&self) -> &[u8]
        ensures value { result.now ≡ self.now.signature }
        ensures size { length result.now ≡ 32 }
        ensures answers { IsCsrValue self.now.order self.now.signature }
    {
        self.signature.as_slice()
    }

    /// The question and the signature, of which is still known that it answers it.
    pub fn into_parts(self) -> (Shared<CsrOrder>, Bytes)
        ensures value { result ≡ (self.order, self.signature) }
        ensures answers { IsCsrValue self.order self.signature }
    {
        let SignedCsr { order, signature } = self;
        (order, signature)
    }

    /// An equal answer.
    pub fn copy(&self) -> Result<SignedCsr, AllocError>
        ensures { IfOk result (λ s. s ≡ self.now) }
    {
        let order = self.order.copy()?;
        let signature = self.signature.copy()?;
        Ok(SignedCsr { order, signature })
    }
}
