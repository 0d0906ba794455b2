//! Answered questions, and who answers them.
ghost use Rattle.std.specs.Prelude.{◌≡◌, IfOk};

use crate::signing::signing_of;
use cmc_objects::{Shared, SignOrder, Signing};
use std::alloc::{AllocError, Global};
use std::marker::Model;

/// A question to an issuer and its answer, which is what the row of the question says, or any where the row is
/// free.
pub struct Answered {
    order: Shared<SignOrder>,
    answer: Signing,
}

impl Drop for Answered {
    fn drop(self) {
        let Answered {
            order: _order,
            answer: _answer,
        } = self;
    }
}

impl Model for Answered {
    ghost use Rattle.cmc_answers.specs.Answers.{IsAnswer, AnsweredQuestion};

    ghost Value = { AnsweredQuestion };

    ghost view = { λ a. record { order = a.order; answer = a.answer } };

    ghost invariant = { λ a. IsAnswer a.order a.answer };
}

impl Answered {
    ghost use Rattle.cmc_answers.specs.Answers.{IsAnswer, AnsweredQuestion};

    /// The question with this answer.
    pub fn new(order: Shared<SignOrder>, answer: Signing) -> Answered
        requires { IsAnswer order answer }
        ensures { result ≡ record { order = order; answer = answer } }
    {
        Answered { order, answer }
    }

    /// The question.
    pub fn order(&self) -> &Shared<SignOrder>
        ensures { result.now ≡ self.now.order }
    {
        &self.order
    }

    /// The answer.
    pub fn answer(&self) -> &Signing
        ensures value { result.now ≡ self.now.answer }
        ensures is_answer { IsAnswer self.now.order self.now.answer }
    {
        &self.answer
    }

    /// The question and the answer.
    pub fn into_parts(self) -> (Shared<SignOrder>, Signing)
        ensures order { result.0 ≡ self.order }
        ensures answer { result.1 ≡ self.answer }
        ensures is_answer { IsAnswer self.order self.answer }
    {
        let Answered { order, answer } = self;
        (order, answer)
    }

    /// An equal value.
    pub fn copy(&self) -> Result<Answered, AllocError>
        ensures { IfOk result (λ a. a ≡ self.now) }
    {
        let answer = self.answer.copy()?;
        Ok(Answered {
            order: self.order.copy()?,
            answer,
        })
    }
}

/// Answers questions to issuers. Several threads may ask one at a time.
pub trait Signer: Sync {
    /// The answer to the question.
    ///
    /// # Errors
    ///
    /// Where there is no memory.
    fn sign(&self, alloc: Global, order: &Shared<SignOrder>) -> Result<Answered, AllocError>
        ensures { IfOk result (λ a. a.order ≡ order.now) };
}

/// Answers each question by its row.
#[derive(Clone, Copy)]
pub struct ScriptedSigner;

impl Signer for ScriptedSigner {
    ghost use Rattle.cmc_answers.specs.Answers.{scripted_answer};

    /// What the row says; to a free row that the issuer has not decided yet.
    fn sign(&self, alloc: Global, order: &Shared<SignOrder>) -> Result<Answered, AllocError>
        ensures { IfOk result (λ a. a ≡ record { order = order.now; answer = scripted_answer order.now }) }
    {
        let answer = signing_of(
            alloc,
            order.row(),
            order.number(),
            order.request(),
            order.now(),
        )?;
        Ok(Answered::new(order.copy()?, answer))
    }
}
