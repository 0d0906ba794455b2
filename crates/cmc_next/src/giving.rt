//! The value of what is given back.
ghost use Rattle.std.specs.Prelude.{◌≡◌, IfOk};
ghost use Rattle.cmc_pass.specs.GivenValues.{value_of};

use cmc_meta::Bytes;
use cmc_pass::{Given, Value};
use std::alloc::{AllocError, Global};

/// A copy of the value that is given back.
///
/// # Errors
///
/// Where there is no memory.
pub fn value_in(alloc: Global, given: &Given) -> Result<Value, AllocError>
    ensures { IfOk result (λ v. v ≡ value_of given.now) }
{
    match given {
        Given::Made(made) => Ok(Value::Made(Bytes::from_slice(alloc, made.bytes())?)),
        Given::Signed(signed) => Ok(Value::Signed(Bytes::from_slice(alloc, signed.signature())?)),
        Given::Answered(answered) => Ok(Value::Answered(answered.answer().copy()?)),
        Given::Judged(judged) => Ok(Value::Judged(judged.yes())),
    }
}
