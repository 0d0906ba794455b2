//! What is given back for work that a pass handed out.
ghost use Rattle.std.specs.Prelude.{◌≡◌, ◌↔◌, IsTrue, IfOk};
ghost use Rattle.cmc_pass.specs.GivenValues.{order_of, value_of};
ghost use Rattle.cmc_pass.specs.Values.{IsValue};

use crate::value::Value;
use cmc_answers::{Answered, Judged};
use cmc_keys::{Made, SignedCsr};
use cmc_objects::Order;
use std::alloc::AllocError;

/// A value with the question that it answers. Each variant keeps by its type that it does.
pub enum Given {
    /// A private key that was made.
    Made(Made),
    /// A signing request's body, signed.
    Signed(SignedCsr),
    /// What an issuer answered.
    Answered(Answered),
    /// A judgement of a request.
    Judged(Judged),
}

impl Drop for Given {
    fn drop(self) {
        match self {
            Given::Made(_value) => {}
            Given::Signed(_value) => {}
            Given::Answered(_value) => {}
            Given::Judged(_value) => {}
        }
    }
}

impl Given {
    /// Whether it answers this question.
    pub fn is_for(&self, order: &Order) -> bool
        ensures { IsTrue result ↔ (order.now ≡ order_of self.now) }
    {
        match (order, self) {
            (Order::Key(asked), Given::Made(made)) => asked.same(made.order()),
            (Order::Csr(asked), Given::Signed(signed)) => asked.same(signed.order()),
            (Order::Sign(asked), Given::Answered(answered)) => asked.same(answered.order()),
            (Order::Judge(asked), Given::Judged(judged)) => asked.same(judged.order()),
            _ => false,
        }
    }

    /// A copy of the question.
    ///
    /// # Errors
    ///
    /// Where there is no memory.
    pub fn order(&self) -> Result<Order, AllocError>
        ensures { IfOk result (λ o. o ≡ order_of self.now) }
    {
        match self {
            Given::Made(made) => Ok(Order::Key(made.order().copy()?)),
            Given::Signed(signed) => Ok(Order::Csr(signed.order().copy()?)),
            Given::Answered(answered) => Ok(Order::Sign(answered.order().copy()?)),
            Given::Judged(judged) => Ok(Order::Judge(judged.order().copy()?)),
        }
    }

    /// The value, which is right for the question.
    pub fn into_value(self) -> Value
        ensures value { result ≡ value_of self }
        ensures right { IsValue (order_of self) (value_of self) }
    {
        match self {
            Given::Made(made) => {
                let (_order, bytes) = made.into_parts();
                Value::Made(bytes)
            }
            Given::Signed(signed) => {
                let (_order, signature) = signed.into_parts();
                Value::Signed(signature)
            }
            Given::Answered(answered) => {
                let (_order, answer) = answered.into_parts();
                Value::Answered(answer)
            }
            Given::Judged(judged) => {
                let (_order, denial) = judged.into_parts();
                Value::Judged(denial.is_none())
            }
        }
    }
}
