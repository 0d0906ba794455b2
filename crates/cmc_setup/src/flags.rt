// A flag for each role.
ghost use Rattle.std.specs.Prelude.{◌≡◌, ◌==◌, false, if◌then◌else◌};
ghost use Rattle.cmc_objects.specs.declared.role.Role.{Role as RoleValue};
ghost use Rattle.cmc_objects.specs.Roles.{role_rank};
ghost use Rattle.cmc_setup.specs.Flags.{Tells, flag_of};

use crate::roles::contains;
use cmc_objects::Role;

/// A flag for each role, in the order of roles.
#[derive(Clone, Copy)]
pub struct RoleFlags {
    flags: [bool; 8],
}

impl RoleFlags {
    /// No role has its flag.
    #[tactic(auto, using(crate::proofs::FlagLaws::no_flag))]
    pub fn none() -> RoleFlags
        ensures { (r : RoleValue) → flag_of result r ≡ false }
    {
        RoleFlags { flags: [false; 8] }
    }

    /// The roles of the list have their flags.
    pub fn of(roles: &[Role]) -> RoleFlags
        ensures { Tells (flag_of result) roles.now }
    {
        let flags = [
            contains(roles, Role::Trigger),
            contains(roles, Role::KeyManager),
            contains(roles, Role::RequestManager),
            contains(roles, Role::Approver),
            contains(roles, Role::Issuer),
            contains(roles, Role::Issuing),
            contains(roles, Role::Readiness),
            contains(roles, Role::Revision),
        ];
        RoleFlags { flags }
    }

    /// Whether the role has its flag.
    #[tactic(auto, unfolding(crate::specs::Flags::is_on))]
    pub fn has(self, role: Role) -> bool
        ensures { result ≡ flag_of self role }
    {
        self.flags[role.rank() as usize]
    }

    /// The same flags but that of the role, which is `on`.
    #[tactic(auto, unfolding(crate::specs::Flags::is_on))]
    pub fn with(self, role: Role, on: bool) -> RoleFlags
        ensures { (r : RoleValue) → flag_of result r ≡ (if role_rank role == role_rank r then on else flag_of self r) }
    {
        let mut flags = self.flags;
        flags[role.rank() as usize] = on;
        RoleFlags { flags }
    }
}
