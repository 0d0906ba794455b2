//! Judged questions.
ghost use Rattle.std.specs.Prelude.{◌≡◌, IfOk, is_none};
ghost use Rattle.std.specs.Option.{option_copied};
ghost use Rattle.cmc_answers.specs.Denials as spec;

use crate::denial::Denial;
use crate::judging::denial_of;
use cmc_objects::{JudgeOrder, Shared};
use std::alloc::{AllocError, Global};
use std::marker::Model;

/// A question whether a request may be approved, and its judgement. Only `judge` makes one.
pub struct Judged {
    order: Shared<JudgeOrder>,
    denial: Option<Denial>,
}

impl Drop for Judged {
    fn drop(self) {
        let Judged {
            order: _order,
            denial: _denial,
        } = self;
    }
}

impl Model for Judged {
    ghost use Rattle.std.specs.Prelude.{◌≡◌};
    ghost use Rattle.cmc_answers.specs.Denials.{JudgedQuestion, denial_of};

    ghost Value = { JudgedQuestion };

    ghost view = { λ j. record { order = j.order; denial = j.denial } };

    ghost invariant = { λ j. j.denial ≡ denial_of j.order };
}

impl Judged {
    /// The question.
    pub fn order(&self) -> &Shared<JudgeOrder>
        ensures { result.now ≡ self.now.order }
    {
        &self.order
    }

    /// Whether the request may be approved.
    pub fn yes(&self) -> bool
        ensures value { result ≡ is_none self.now.denial }
        ensures judged { self.now.denial ≡ spec.denial_of self.now.order }
    {
        self.denial.is_none()
    }

    /// Why the request may not be approved; `None` exactly where it may be.
    pub fn denial(&self) -> Option<&Denial>
        ensures value { option_copied result ≡ self.now.denial }
        ensures judged { self.now.denial ≡ spec.denial_of self.now.order }
    {
        self.denial.as_ref()
    }

    /// The question and its judgement.
    pub fn into_parts(self) -> (Shared<JudgeOrder>, Option<Denial>)
        ensures order { result.0 ≡ self.order }
        ensures denial { result.1 ≡ self.denial }
        ensures judged { self.denial ≡ spec.denial_of self.order }
    {
        let Judged { order, denial } = self;
        (order, denial)
    }
}

/// Judges whether the request of the question may be approved. It may be exactly where its signing request is
/// readable, neither its common name nor one of its DNS names is refused, and, where there are policies, one that is
/// for its issuer allows all that it asks for; the duration is 2160 hours where the request has none.
///
/// # Errors
///
/// Where there is no memory.
pub fn judge(alloc: Global, order: Shared<JudgeOrder>) -> Result<Judged, AllocError>
    ensures { IfOk result (λ judged. judged ≡ record { order = order; denial = spec.denial_of order }) }
{
    let denial = denial_of(alloc, &order)?;
    Ok(Judged { order, denial })
}
