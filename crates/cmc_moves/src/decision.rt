//! Decisions that are made where there is no world: the acts of roles that decide by what they see alone.
ghost use Rattle.std.specs.Prelude.{◌≡◌, ◌↔◌, IfOk, IsTrue, Some, true};
ghost use Rattle.cmc_pass.specs.declared.pass.Desk.{Desk as DeskValue};
ghost use Rattle.cmc_rules.specs.Acts as acts;
ghost use Rattle.cmc_safety.specs.MayAct.{MayAct};
ghost use Rattle.cmc_moves.specs.Decisions as spec;
ghost use Rattle.cmc_moves.specs.Decisions.{IsDecision, SawSame};

use crate::acts::act_of;
use cmc_meta::Texts;
use cmc_objects::{Material, Role, Rules, Shared};
use cmc_pass::{Act, Desk, Views};
use cmc_policy_rules::Policies;
use cmc_rules::{OpenPass, Stage};
use std::alloc::{AllocError, Global};
use std::marker::Model;

/// What a pass saw as it began. It keeps by its type that the pass's role may decide on it, so that this can be done where
/// there is no world.
pub struct Begun {
    role: Role,
    views: Shared<Views>,
    /// The moment of the begin, in seconds since 1970-01-01T00:00:00Z.
    since: i64,
}

impl Drop for Begun {
    fn drop(self) {
        let Begun {
            role: _role,
            views: _views,
            since: _since,
        } = self;
    }
}

impl Model for Begun {
    ghost use Rattle.cmc_safety.specs.MayAct.{MayAct};
    ghost use Rattle.cmc_moves.specs.Decisions.{BegunPass, bare_desk};

    ghost Value = { BegunPass };

    ghost view = { λ b. record { role = b.role; views = b.views; since = b.since } };

    ghost invariant = { λ b. MayAct b.views b.since bare_desk };
}

/// A decision: what a role does on what a pass saw. It keeps by its type that this is the act of the role, which is one that
/// decides by what it sees alone. Only `decide` makes one.
pub struct Decided {
    begun: Begun,
    act: Act,
}

impl Drop for Decided {
    fn drop(self) {
        let Decided {
            begun: _begun,
            act: _act,
        } = self;
    }
}

impl Model for Decided {
    ghost use Rattle.cmc_moves.specs.Decisions.{Decision, IsDecided};

    ghost Value = { Decision };

    ghost view = { λ d. record { role = d.begun.role; views = d.begun.views; since = d.begun.since; act = d.act } };

    ghost invariant = { λ d. IsDecided (record { role = d.begun.role; views = d.begun.views; since = d.begun.since; act = d.act }) };
}

/// Whether the role decides by what it sees alone, and by nothing on its desk.
pub fn decides_alone(role: Role) -> bool
    ensures { result ≡ spec.decides_alone role }
{
    matches!(role, Role::RequestManager | Role::Issuing)
}

fn is_fresh(stage: &Stage) -> bool
    ensures { result ≡ spec.is_fresh_stage stage.now }
{
    matches!(stage, Stage::Fresh)
}

/// Whether the pass can take a decision: its role decides alone, and nothing of its act was done.
pub fn is_undecided(pass: &OpenPass) -> bool
    ensures { result ≡ spec.is_undecided pass.now }
{
    decides_alone(pass.role) && is_fresh(&pass.stage)
}

/// A desk with nothing on it. It takes no memory.
fn bare_desk(alloc: Global) -> Desk
    ensures { result ≡ spec.bare_desk }
{
    Desk {
        material: Material::new(alloc),
        asked: 0,
        rules: Rules {
            issuers: Texts::new(alloc),
            refuse: Texts::new(alloc),
            policies: Policies::new(alloc),
        },
    }
}

impl Begun {
    /// What the role's pass saw that began at this moment, in seconds since 1970-01-01T00:00:00Z. It asks that the role may
    /// decide on it.
    pub fn new(role: Role, views: Shared<Views>, since: i64) -> Begun
        requires { MayAct views since spec.bare_desk }
        ensures { result ≡ record { role = role; views = views; since = since } }
    {
        Begun { role, views, since }
    }

    /// The role of the pass.
    pub fn role(&self) -> Role
        ensures { result ≡ self.now.role }
    {
        self.role
    }

    /// What the pass saw.
    pub fn views(&self) -> &Views
        ensures { result.now ≡ self.now.views }
    {
        &self.views
    }

    /// The moment at which it began, in seconds since 1970-01-01T00:00:00Z.
    pub fn now(&self) -> i64
        ensures { result ≡ self.now.since }
    {
        self.since
    }

    /// What the role does on it at a desk with nothing on it.
    fn act(&self, alloc: Global) -> Result<Act, AllocError>
        ensures { IfOk result (λ a. a ≡ acts.act self.now.role self.now.views self.now.since spec.bare_desk) }
    {
        let desk = bare_desk(alloc);
        act_of(alloc, self.role, &self.views, self.since, &desk)
    }
}

/// Decides what the role of the pass does on what the pass saw; `None` exactly where the role is one that does not decide by
/// that alone.
pub fn decide(alloc: Global, begun: Begun) -> Result<Option<Decided>, AllocError>
    ensures { IfOk result (λ d. IsDecision begun d) }
{
    if !decides_alone(begun.role) {
        return Ok(None);
    }
    let act = begun.act(alloc)?;
    Ok(Some(Decided { begun, act }))
}

impl Decided {
    /// The role that decided.
    pub fn role(&self) -> Role
        ensures value { result ≡ self.now.role }
        ensures alone { spec.decides_alone self.now.role ≡ true }
    {
        self.begun.role
    }

    /// What it saw.
    pub fn views(&self) -> &Views
        ensures { result.now ≡ self.now.views }
    {
        &self.begun.views
    }

    /// The moment at which the pass began, in seconds since 1970-01-01T00:00:00Z.
    pub fn now(&self) -> i64
        ensures { result ≡ self.now.since }
    {
        self.begun.since
    }

    /// What the role does, whatever lies on its desk.
    pub fn act(&self) -> &Act
        ensures value { result.now ≡ self.now.act }
        ensures decided { (desk : DeskValue) → self.now.act ≡ acts.act self.now.role self.now.views self.now.since desk }
    {
        &self.act
    }

    /// Whether it is on what this pass saw.
    pub fn is_for(&self, pass: &OpenPass) -> bool
        ensures { IsTrue result ↔ SawSame self.now (Some pass.now) }
    {
        self.begun.role.same(pass.role)
            && self.begun.since == pass.since
            && self.begun.views.same(&pass.seen)
    }
}
