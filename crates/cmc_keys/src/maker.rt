//! Who makes keys and signs requests.
ghost use Rattle.std.specs.Prelude.{◌≡◌, IfOk, IsTrue};
ghost use Rattle.cmc_keys.specs.Kinds.{allows_size};

use crate::made::{Made, SignedCsr};
use cmc_objects::{CsrOrder, KeyOrder, Shared};
use std::alloc::{AllocError, Global};

/// Makes private keys and signs certification requests. Several threads may ask it at once.
pub trait KeyMaker: Sync {
    /// A private key for the question, whose size is one of those that its algorithm has.
    ///
    /// # Errors
    ///
    /// Only where there is no memory.
    fn make(&self, alloc: Global, order: &Shared<KeyOrder>) -> Result<Made, AllocError>
        requires { IsTrue (allows_size order.now.algorithm order.now.size) }
        ensures { IfOk result (λ made. made.order ≡ order.now) };

    /// The signature of a request's body.
    ///
    /// # Errors
    ///
    /// Only where there is no memory.
    fn sign(&self, alloc: Global, order: &Shared<CsrOrder>) -> Result<SignedCsr, AllocError>
        ensures { IfOk result (λ signed. signed.order ≡ order.now) };
}
