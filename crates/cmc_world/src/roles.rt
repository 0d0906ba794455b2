//! The roles in their order.
ghost use Rattle.std.specs.Prelude.{◌≡◌, ◌<◌};
ghost use Rattle.cmc_objects.specs.Roles.{role_rank};

use cmc_objects::Role;

/// The role in this place of their order, from 0.
pub(crate) fn role_in(place: u8) -> Role
    requires { place < 8 }
    ensures { role_rank result ≡ place }
{
    match place {
        0 => Role::Trigger,
        1 => Role::KeyManager,
        2 => Role::RequestManager,
        3 => Role::Approver,
        4 => Role::Issuer,
        5 => Role::Issuing,
        6 => Role::Readiness,
        7 => Role::Revision,
        _ => unreachable!(),
    }
}
