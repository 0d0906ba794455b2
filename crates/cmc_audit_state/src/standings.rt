//! How the roles stand.
ghost use Rattle.std.specs.List.{list_any};
ghost use Rattle.std.specs.Prelude.{◌≡◌, IfOk, if◌then◌else◌};
ghost use Rattle.cmc_objects.specs.declared.role.Role.{Role as RoleValue};
ghost use Rattle.cmc_model.specs.Histories.{role_eq};
ghost use Rattle.cmc_rules.specs.Positions.{position_of};
ghost use Rattle.cmc_rules.specs.Memory.{with_position};
ghost use Rattle.cmc_audit_state.specs.Standings.{first_standing, standing_of};

use cmc_meta::Kind;
use cmc_objects::{Positions, Role};
use std::alloc::{AllocError, Global};
use std::marker::Model;

/// How one role stands.
#[derive(Clone, Copy)]
pub struct Standing {
    /// Whether it runs.
    pub running: bool,
    /// The newest accepted write of each kind that it was told of.
    pub told: Positions,
}

/// How each of the eight roles stands. Contracts see the standings in the order of roles.
pub struct Standings {
    /// Eight standings, one for each role, in the order of roles.
    rows: Vec<Standing>,
}

impl Drop for Standings {
    fn drop(self) {
        let Standings { rows: _rows } = self;
    }
}

impl Model for Standings {
    ghost use Rattle.std.specs.Prelude.{◌≡◌, List, length};
    ghost use Rattle.cmc_audit_state.specs.declared.standings.Standing.{Standing};

    ghost Value = { List Standing };

    ghost view = { λ s. s.rows.items };

    ghost invariant = { λ s. length s.rows.items ≡ 8 };
}

impl Standings {
    /// The roles at the beginning: those of the list run, all others are stopped, and nobody was told of anything. An
    /// error is one of memory.
    #[tactic(auto, unfolding(crate::specs::Standings::standing_of))]
    pub fn new(alloc: Global, running: &[Role]) -> Result<Standings, AllocError>
        ensures { IfOk result (λ t. (r : RoleValue) → standing_of t r ≡ first_standing (list_any (λ role. role_eq role r) running.now)) }
    {
        let rows = vec![in alloc;
            first_of(running, Role::Trigger),
            first_of(running, Role::KeyManager),
            first_of(running, Role::RequestManager),
            first_of(running, Role::Approver),
            first_of(running, Role::Issuer),
            first_of(running, Role::Issuing),
            first_of(running, Role::Readiness),
            first_of(running, Role::Revision),
        ]?;
        Ok(Standings { rows })
    }

    /// How the role stands.
    #[tactic(auto, unfolding(crate::specs::Standings::standing_of))]
    pub fn get(&self, role: Role) -> Standing
        ensures { result ≡ standing_of self.now role }
    {
        self.rows[role.rank() as usize]
    }

    /// Lets the role stand so, and changes no other. It takes no memory.
    #[tactic(auto, unfolding(crate::specs::Standings::standing_of))]
    pub fn set(&mut self, role: Role, standing: Standing)
        ensures { (r : RoleValue) → standing_of self.new r ≡ (if role_eq role r then standing else standing_of self.old r) }
    {
        self.rows[role.rank() as usize] = standing;
    }
}

fn is_among(running: &[Role], role: Role) -> bool
    ensures { result ≡ list_any (λ other. role_eq other role) running.now }
{
    running.iter().any(|other| other.rank() == role.rank())
}

fn first_of(running: &[Role], role: Role) -> Standing
    ensures { result ≡ first_standing (list_any (λ other. role_eq other role) running.now) }
{
    first(is_among(running, role))
}

fn first(running: bool) -> Standing
    ensures { result ≡ first_standing running }
{
    Standing {
        running,
        told: Positions {
            certificates: 0,
            requests: 0,
            secrets: 0,
        },
    }
}

/// The number that stands for the kind.
pub fn at_kind(positions: Positions, kind: Kind) -> u64
    ensures { result ≡ position_of kind positions }
{
    match kind {
        Kind::Certificate => positions.certificates,
        Kind::CertificateRequest => positions.requests,
        Kind::Secret => positions.secrets,
    }
}

/// The same numbers, with this one for the kind.
pub fn put_at_kind(positions: Positions, kind: Kind, to: u64) -> Positions
    ensures { result ≡ with_position kind to positions }
{
    match kind {
        Kind::Certificate => Positions {
            certificates: to,
            ..positions
        },
        Kind::CertificateRequest => Positions {
            requests: to,
            ..positions
        },
        Kind::Secret => Positions {
            secrets: to,
            ..positions
        },
    }
}
