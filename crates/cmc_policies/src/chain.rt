//! Checks in a row, of which the first that holds decides.
ghost use Rattle.std.specs.Prelude.{◌≡◌, ◌↔◌, List, [], ◌∷◌, IsNone};
ghost use Rattle.cmc_policies.specs.declared.facts.Frame.{Frame};
ghost use Rattle.cmc_policies.specs.declared.facts.Reason.{Reason};
ghost use Rattle.cmc_policies.specs.Judges.{Judges};
ghost use Rattle.cmc_policies.specs.Reasons.{first_holding, known, NoneHolds};

use crate::check::Check;
use crate::facts::{Facts, Reason};

/// A row of checks.
pub trait Chain {
    // The reason and the frame of each check, in order.
    ghost checks: { Self → List (Reason × Frame) };

    // Each check's closure judges facts by its reason and frame.
    ghost judges: { Self → Type 0 };

    /// The reason of the first check that holds of the facts, each in its own frame; None exactly where none
    /// holds.
    fn first(&self, facts: &Facts) -> Option<Reason>
        requires { judges self.now }
        ensures value { result ≡ first_holding (checks self.now) (known facts.now) }
        ensures none { IsNone result ↔ NoneHolds (checks self.now) (known facts.now) };
}

/// The chain of no checks.
#[derive(Clone, Copy)]
pub struct Empty;

/// A check before the rest of a chain.
#[derive(Drop)]
pub struct Link<F: Fn(&Facts) -> bool, R> {
    pub check: Check<F>,
    pub rest: R,
}

impl<F: Fn(&Facts) -> bool, R> Link<F, R> {
    /// The chain that begins with the check.
    pub fn new(check: Check<F>, rest: R) -> Link<F, R>
        ensures { result ≡ record { check = check; rest = rest } }
    {
        Link { check, rest }
    }
}

impl Chain for Empty {
    ghost checks = { λ chain. [] };

    ghost judges = { λ chain. Unit {0} };

    fn first(&self, facts: &Facts) -> Option<Reason> {
        None
    }
}

impl<F: Fn(&Facts) -> bool, R: Chain> Chain for Link<F, R> {
    ghost checks = { λ chain. (chain.check.reason, chain.check.frame) ∷ R.checks chain.rest };

    ghost judges = { λ chain. Judges F.Fn chain.check.test chain.check.reason chain.check.frame
        × R.judges chain.rest };

    fn first(&self, facts: &Facts) -> Option<Reason> {
        if self.check.applies(facts) {
            Some(self.check.reason)
        } else {
            self.rest.first(facts)
        }
    }
}
