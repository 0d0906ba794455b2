//! How the roles stand.
ghost use Rattle.std.specs.List.{list_any};
ghost use Rattle.std.specs.Prelude.{◌≡◌, IfOk, if◌then◌else◌};
ghost use Rattle.cmc_objects.specs.declared.role.Role.{Role as RoleValue};
ghost use Rattle.cmc_model.specs.Histories.{role_eq};
ghost use Rattle.cmc_rules.specs.Memory.{with_position};
ghost use Rattle.cmc_rules.specs.Positions.{position_of};
ghost use Rattle.cmc_held.specs.RoleStates.{first_role_state, kind_flag_of, role_state_of, with_flag};

use cmc_meta::Kind;
use cmc_objects::{Positions, Role};
use std::alloc::{AllocError, Global};
use std::marker::Model;

/// One answer for each kind of objects.
#[derive(Clone, Copy)]
pub struct Flags {
    pub certificates: bool,
    pub requests: bool,
    pub secrets: bool,
}

/// How one role stands.
#[derive(Clone, Copy)]
pub struct RoleState {
    /// Whether it runs.
    pub running: bool,
    /// How many times it has begun.
    pub incarnation: u64,
    /// The newest accepted write of each kind that it was told of.
    pub told: Positions,
    /// The kinds whose deliveries to it are held back.
    pub held: Flags,
    /// How many writes of each kind count for it.
    pub written: Positions,
}

/// How each of the eight roles stands. Contracts see the states in the order of roles.
pub struct RoleStates {
    /// Eight states, one for each role, in the order of roles.
    rows: Vec<RoleState>,
}

impl Drop for RoleStates {
    fn drop(self) {
        let RoleStates { rows: _rows } = self;
    }
}

impl Model for RoleStates {
    ghost use Rattle.std.specs.Prelude.{◌≡◌, List, length};
    ghost use Rattle.cmc_held.specs.declared.role_states.RoleState.{RoleState};

    ghost Value = { List RoleState };

    ghost view = { λ s. s.rows.items };

    ghost invariant = { λ s. length s.rows.items ≡ 8 };
}

impl RoleStates {
    /// The roles at the beginning: those of the list run and have begun once, all others are
    /// stopped, and nobody was told of anything. An error is one of memory.
    #[tactic(auto, unfolding(crate::specs::RoleStates::role_state_of))]
    pub fn new(alloc: Global, running: &[Role]) -> Result<RoleStates, AllocError>
        ensures { IfOk result (λ t. (r : RoleValue) → role_state_of t r ≡ first_role_state (list_any (λ role. role_eq role r) running.now)) }
    {
        let rows = vec![in alloc;
            first_of(running, Role::Trigger),
            first_of(running, Role::KeyManager),
            first_of(running, Role::RequestManager),
            first_of(running, Role::Approver),
            first_of(running, Role::Issuer),
            first_of(running, Role::Issuing),
            first_of(running, Role::Readiness),
            first_of(running, Role::Revision),
        ]?;
        Ok(RoleStates { rows })
    }

    /// How the role stands.
    #[tactic(auto, unfolding(crate::specs::RoleStates::role_state_of))]
    pub fn get(&self, role: Role) -> RoleState
        ensures { result ≡ role_state_of self.now role }
    {
        self.rows[role.rank() as usize]
    }

    /// Lets the role stand so, and changes no other. It takes no memory.
    #[tactic(auto, unfolding(crate::specs::RoleStates::role_state_of))]
    pub fn set(&mut self, role: Role, standing: RoleState)
        ensures { (r : RoleValue) → role_state_of self.new r ≡ (if role_eq role r then standing else role_state_of self.old r) }
    {
        self.rows[role.rank() as usize] = standing;
    }
}

fn is_among(running: &[Role], role: Role) -> bool
    ensures { result ≡ list_any (λ other. role_eq other role) running.now }
{
    running.iter().any(|other| other.rank() == role.rank())
}

fn first_of(running: &[Role], role: Role) -> RoleState
    ensures { result ≡ first_role_state (list_any (λ other. role_eq other role) running.now) }
{
    first(is_among(running, role))
}

fn first(running: bool) -> RoleState
    ensures { result ≡ first_role_state running }
{
    let none = Positions {
        certificates: 0,
        requests: 0,
        secrets: 0,
    };
    let held = Flags {
        certificates: false,
        requests: false,
        secrets: false,
    };
    RoleState {
        running,
        incarnation: if running { 1 } else { 0 },
        told: none,
        held,
        written: none,
    }
}

/// The newest write of the kind that the role was told of.
pub fn told_of(standing: RoleState, kind: Kind) -> u64
    ensures { result ≡ position_of kind standing.told }
{
    at_kind(standing.told, kind)
}

/// The same role, told of the kind up to this write.
pub fn with_told(standing: RoleState, kind: Kind, to: u64) -> RoleState
    ensures { result ≡ record standing { told = with_position kind to standing.told } }
{
    RoleState {
        told: put_at_kind(standing.told, kind, to),
        ..standing
    }
}

/// Whether deliveries of the kind are held back from the role.
pub fn is_held(standing: RoleState, kind: Kind) -> bool
    ensures { result ≡ kind_flag_of kind standing.held }
{
    match kind {
        Kind::Certificate => standing.held.certificates,
        Kind::CertificateRequest => standing.held.requests,
        Kind::Secret => standing.held.secrets,
    }
}

/// The same role, with deliveries of the kind held back or not.
pub fn with_held(standing: RoleState, kind: Kind, held: bool) -> RoleState
    ensures { result ≡ record standing { held = with_flag kind held standing.held } }
{
    RoleState {
        held: put_flag(standing.held, kind, held),
        ..standing
    }
}

/// How many writes of the kind count for the role.
pub fn written_of(standing: RoleState, kind: Kind) -> u64
    ensures { result ≡ position_of kind standing.written }
{
    at_kind(standing.written, kind)
}

/// The same role, with this count of writes of the kind.
pub fn with_written(standing: RoleState, kind: Kind, count: u64) -> RoleState
    ensures { result ≡ record standing { written = with_position kind count standing.written } }
{
    RoleState {
        written: put_at_kind(standing.written, kind, count),
        ..standing
    }
}

/// The number that stands for the kind.
pub fn at_kind(positions: Positions, kind: Kind) -> u64
    ensures { result ≡ position_of kind positions }
{
    match kind {
        Kind::Certificate => positions.certificates,
        Kind::CertificateRequest => positions.requests,
        Kind::Secret => positions.secrets,
    }
}

/// The same numbers, with this one for the kind.
pub fn put_at_kind(positions: Positions, kind: Kind, to: u64) -> Positions
    ensures { result ≡ with_position kind to positions }
{
    match kind {
        Kind::Certificate => Positions {
            certificates: to,
            ..positions
        },
        Kind::CertificateRequest => Positions {
            requests: to,
            ..positions
        },
        Kind::Secret => Positions {
            secrets: to,
            ..positions
        },
    }
}

fn put_flag(flags: Flags, kind: Kind, held: bool) -> Flags
    ensures { result ≡ with_flag kind held flags }
{
    match kind {
        Kind::Certificate => Flags {
            certificates: held,
            ..flags
        },
        Kind::CertificateRequest => Flags {
            requests: held,
            ..flags
        },
        Kind::Secret => Flags {
            secrets: held,
            ..flags
        },
    }
}
