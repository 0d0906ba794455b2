//! One check of a chain.
ghost use Rattle.std.specs.Prelude.{◌≡◌, Bool};
ghost use Rattle.std.specs.Fn.{FnReturnsAt};
ghost use Rattle.cmc_policies.specs.declared.facts.Facts.{Facts};
ghost use Rattle.cmc_policies.specs.Judges.{Judges};
ghost use Rattle.cmc_policies.specs.Reasons.{holds, known};

use crate::facts::{Facts, Frame, Reason};

/// A reason, the frame in which it is judged, and the closure that judges facts.
#[derive(Drop)]
pub struct Check<F: Fn(&Facts) -> bool> {
    pub reason: Reason,
    pub frame: Frame,
    pub test: F,
}

impl<F: Fn(&Facts) -> bool> Check<F> {
    /// The check of this reason in this frame. The closure may be called on all facts, and answers whether the
    /// reason holds of them.
    pub fn new(reason: Reason, frame: Frame, test: F) -> Check<F>
        requires callable { F.IsAlwaysCallable test }
        requires answers { (facts : Facts) (answer : Bool) → FnReturnsAt F.Fn test facts answer
            → answer ≡ holds reason frame (known facts) }
        ensures is { result ≡ record { reason = reason; frame = frame; test = test } }
        ensures judges { Judges F.Fn test reason frame }
    {
        Check {
            reason,
            frame,
            test,
        }
    }

    /// Whether the check's reason holds of the facts in its frame.
    pub fn applies(&self, facts: &Facts) -> bool
        requires { Judges F.Fn self.now.test self.now.reason self.now.frame }
        ensures { result ≡ holds self.now.reason self.now.frame (known facts.now) }
    {
        (self.test)(facts)
    }
}
