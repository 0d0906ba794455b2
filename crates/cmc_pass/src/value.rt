//! What questions are answered with.
ghost use Rattle.std.specs.Prelude.{◌≡◌, IfOk};

use cmc_meta::Bytes;
use cmc_objects::Signing;
use std::alloc::AllocError;

/// The value that answers a question, as a history has it.
pub enum Value {
    /// A private key file, in DER.
    Made(Bytes),
    /// The signature of a signing request's body.
    Signed(Bytes),
    /// What the issuer says.
    Answered(Signing),
    /// Whether a request may be approved.
    Judged(bool),
}

impl Drop for Value {
    fn drop(self) {
        match self {
            Value::Made(_value) => {}
            Value::Signed(_value) => {}
            Value::Answered(_value) => {}
            Value::Judged(_value) => {}
        }
    }
}

impl Value {
    /// An equal value.
    ///
    /// # Errors
    ///
    /// Where there is no memory.
    pub fn copy(&self) -> Result<Value, AllocError>
        ensures { IfOk result (λ v. v ≡ self.now) }
    {
        match self {
            Value::Made(key) => Ok(Value::Made(key.copy()?)),
            Value::Signed(signature) => Ok(Value::Signed(signature.copy()?)),
            Value::Answered(answer) => Ok(Value::Answered(answer.copy()?)),
            Value::Judged(approved) => Ok(Value::Judged(*approved)),
        }
    }
}
