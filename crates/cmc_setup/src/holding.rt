// Which informers are held, from one step of a script to the next.
ghost use Rattle.std.specs.Prelude.{◌≡◌, ◌↔◌, IsTrue, MatchOption, Some, true, false, if◌then◌else◌};
ghost use Rattle.cmc_meta.specs.declared.key.Kind.{Kind as KindValue};
ghost use Rattle.cmc_objects.specs.declared.role.Role.{Role as RoleValue};
ghost use Rattle.cmc_setup.specs.HeldInformers.{held_of};
ghost use Rattle.cmc_setup.specs.Holds.{AreHeldInTurn, Held, is_kind_and_role, grip_of, held_after, may_grip, none_held};

use crate::flags::RoleFlags;
use cmc_meta::Kind;
use cmc_objects::{Role, Step, has_informer};

/// The informers that are held: the roles by kind.
#[derive(Clone, Copy)]
pub struct Holding {
    certificates: RoleFlags,
    requests: RoleFlags,
    secrets: RoleFlags,
}

impl Holding {
    /// No informer is held.
    pub fn none() -> Holding
        ensures { (k : KindValue) → (r : RoleValue) → held_of result k r ≡ none_held k r }
    {
        Holding {
            certificates: RoleFlags::none(),
            requests: RoleFlags::none(),
            secrets: RoleFlags::none(),
        }
    }

    fn has(self, kind: Kind, role: Role) -> bool
        ensures { result ≡ held_of self kind role }
    {
        match kind {
            Kind::Certificate => self.certificates.has(role),
            Kind::CertificateRequest => self.requests.has(role),
            Kind::Secret => self.secrets.has(role),
        }
    }

    fn with(self, kind: Kind, role: Role, on: bool) -> Holding
        ensures { (k : KindValue) → (r : RoleValue) → held_of result k r ≡ (if is_kind_and_role kind role k r then on else held_of self k r) }
    {
        match kind {
            Kind::Certificate => Holding {
                certificates: self.certificates.with(role, on),
                ..self
            },
            Kind::CertificateRequest => Holding {
                requests: self.requests.with(role, on),
                ..self
            },
            Kind::Secret => Holding {
                secrets: self.secrets.with(role, on),
                ..self
            },
        }
    }

    // Whether the informer may be held, or released.
    fn may(self, kind: Kind, role: Role, on: bool) -> bool
        ensures { result ≡ may_grip (held_of self) (Some (kind, (role, on))) }
    {
        if on {
            return has_informer(role, kind) && !self.has(kind, role);
        }
        self.has(kind, role)
    }
}

fn grip(step: &Step) -> Option<(Kind, (Role, bool))>
    ensures { result ≡ grip_of step.now }
{
    match step {
        Step::Hold { role, kind } => Some((*kind, (*role, true))),
        Step::Release { role, kind } => Some((*kind, (*role, false))),
        Step::Apply { .. }
        | Step::Delete { .. }
        | Step::Approve { .. }
        | Step::Deny { .. }
        | Step::Answer { .. }
        | Step::Renew { .. }
        | Step::Tick { .. }
        | Step::Stop { .. }
        | Step::Start { .. }
        | Step::Until { .. }
        | Step::Settle => None,
    }
}

/// The informers that are held after the step, where it is in turn.
pub fn gripped(holding: Holding, step: &Step) -> Option<Holding>
    ensures { (held : Held) → ((k : KindValue) → (r : RoleValue) → held_of holding k r ≡ held k r) → MatchOption result (may_grip held (grip_of step.now) ≡ false) (λ next. (may_grip held (grip_of step.now) ≡ true) × ((k : KindValue) → (r : RoleValue) → held_of next k r ≡ held_after held (grip_of step.now) k r)) }
{
    match grip(step) {
        None => Some(holding),
        Some((kind, (role, on))) if holding.may(kind, role, on) => {
            Some(holding.with(kind, role, on))
        }
        Some(_) => None,
    }
}

/// Whether each hold is of an informer that its role has and that is not held when its turn comes, and
/// each release of one that is held.
pub fn are_held_in_turn(steps: &[Step]) -> bool
    ensures { IsTrue result ↔ AreHeldInTurn none_held steps.now }
{
    let mut holding = Holding::none();
    for step in steps {
        match gripped(holding, step) {
            Some(next) => holding = next,
            None => return false,
        }
    }
    true
}
