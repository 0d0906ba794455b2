//! The first delivery that brings a role up to date in a kind.
ghost use Rattle.std.specs.Prelude.{◌≡◌, ◌↔◌, IsTrue, false};
ghost use Rattle.cmc_model.specs.Writes.{last_of_kind, writes};
ghost use Rattle.cmc_rules.specs.Positions.{positions};
ghost use Rattle.cmc_kernel.specs.Kept.{on};
ghost use Rattle.cmc_world.specs.KeptLooks.{IsKeptRight};
ghost use Rattle.cmc_kernel.specs.Plain.{IsBehind};
ghost use Rattle.cmc_world.specs.Searches.{FindsKind, FindsDelivery, HasNoneBefore, IsBehindInSome, IsNewest};

use crate::kept::Kept;
use crate::roles::role_in;
use crate::scripts::is_accepted;
use cmc_held::at_kind;
use cmc_kernel::Kernel;
use cmc_meta::Kind;
use cmc_objects::{Positions, Role, has_informer};

/// A role that is behind in a kind.
#[derive(Clone, Copy)]
pub(crate) struct Delivery {
    pub role: Role,
    pub kind: Kind,
}

/// The newest accepted write of each kind.
#[derive(Clone, Copy)]
struct Newest {
    certificate: u64,
    request: u64,
    secret: u64,
}

/// The newest accepted write of each kind. It is asked once for all roles.
fn newest_of(kernel: &Kernel) -> Newest
    ensures { on IsNewest kernel.now result }
{
    let log = kernel.log();
    Newest {
        certificate: log.last_of_kind(Kind::Certificate),
        request: log.last_of_kind(Kind::CertificateRequest),
        secret: log.last_of_kind(Kind::Secret),
    }
}

/// Whether the role, which was told so far, is told of the kind, and has not been told of its newest write, `to`. It asks
/// little, and is asked of every role and kind before most moves.
fn has_news(kernel: &Kernel, told: Positions, role: Role, kind: Kind, to: u64) -> bool
    requires told { told ≡ positions kernel.now.history role }
    requires newest { to ≡ last_of_kind kind (on writes kernel.now) }
    ensures { result ≡ false → on IsBehind kernel.now role kind → ⊥ }
{
    at_kind(told, kind) < to && has_informer(role, kind)
}

/// Whether the role has not been told of the newest write of some kind. Most roles are told apart by this alone.
fn has_any_news(kernel: &Kernel, told: Positions, role: Role, newest: Newest) -> bool
    requires told { told ≡ positions kernel.now.history role }
    requires newest { on IsNewest kernel.now newest }
    ensures { result ≡ false → on IsBehindInSome kernel.now role → ⊥ }
{
    has_news(kernel, told, role, Kind::Certificate, newest.certificate)
        || has_news(kernel, told, role, Kind::CertificateRequest, newest.request)
        || has_news(kernel, told, role, Kind::Secret, newest.secret)
}

/// Whether the role runs, and can be told of the newest write of the kind, `to`, of which it was not told.
fn takes_delivery(kernel: &Kernel, role: Role, kind: Kind, to: u64) -> bool
    requires { to ≡ last_of_kind kind (on writes kernel.now) }
    ensures { IsTrue result ↔ on IsBehind kernel.now role kind }
{
    is_accepted(kernel.judge_delivery(role, kind, to))
}

/// The same, where most are told apart without a question to the world.
fn is_behind(kernel: &Kernel, told: Positions, role: Role, kind: Kind, to: u64) -> bool
    requires told { told ≡ positions kernel.now.history role }
    requires newest { to ≡ last_of_kind kind (on writes kernel.now) }
    ensures { IsTrue result ↔ on IsBehind kernel.now role kind }
{
    if !has_news(kernel, told, role, kind, to) {
        return false;
    }
    takes_delivery(kernel, role, kind, to)
}

/// The first kind in which the role is behind.
fn first_kind(kernel: &Kernel, role: Role, newest: Newest) -> Option<Kind>
    requires { on IsNewest kernel.now newest }
    ensures { on FindsKind kernel.now role result }
{
    let told = kernel.told(role);
    if !has_any_news(kernel, told, role, newest) {
        return None;
    }
    if is_behind(kernel, told, role, Kind::Certificate, newest.certificate) {
        return Some(Kind::Certificate);
    }
    if is_behind(kernel, told, role, Kind::CertificateRequest, newest.request) {
        return Some(Kind::CertificateRequest);
    }
    if is_behind(kernel, told, role, Kind::Secret, newest.secret) {
        return Some(Kind::Secret);
    }
    None
}

/// The first kind in which the role is behind; `None` exactly where it is behind in none.
pub(crate) fn first_kind_of(kernel: &Kernel, role: Role) -> Option<Kind>
    ensures { on FindsKind kernel.now role result }
{
    first_kind(kernel, role, newest_of(kernel))
}

/// The first role that is behind in a kind, with the first such kind; `None` exactly where there is none. No role before the
/// place `told` is behind.
pub(crate) fn first_delivery(kernel: &Kernel, told: u8) -> Option<Delivery>
    requires { HasNoneBefore (on IsBehindInSome kernel.now) told }
    ensures { on FindsDelivery kernel.now result }
{
    let newest = newest_of(kernel);
    for place in told.min(8)..8 {
        let role = role_in(place);
        if let Some(kind) = first_kind(kernel, role, newest) {
            return Some(Delivery { role, kind });
        }
    }
    None
}

/// The same, by the place that is kept, which is kept anew.
pub(crate) fn next_delivery(kernel: &Kernel, kept: &mut Kept) -> Option<Delivery>
    requires kept { on IsKeptRight kernel.now kept.old }
    ensures kept { on IsKeptRight kernel.now kept.new }
    ensures finds { on FindsDelivery kernel.now result }
{
    let found = first_delivery(kernel, kept.told);
    kept.told = match &found {
        Some(delivery) => delivery.role.rank(),
        None => 8,
    };
    found
}
