//! Whether a role may begin a pass: it was told of its own writes, and the pass would not be the one
//! before again.
ghost use Rattle.std.specs.Prelude.{◌≡◌, ◌↔◌, IsTrue, if◌then◌else◌};
ghost use Rattle.cmc_rules.specs.Sameness.{EndsAlike, IsSame, IsStillBehind, own_above};
ghost use Rattle.cmc_objects.specs.Informers.{has_informer};
ghost use Rattle.cmc_held.specs.Dues.{shown_positions};
ghost use Rattle.cmc_held.specs.OneRun.{IsOfOneRun};

use crate::one_run::same_seen;
use crate::role_states::at_kind;
use cmc_meta::Kind;
use cmc_objects::{Positions, Role, has_informer};
use cmc_pass::Views;
use cmc_rules::{Ending, LastPass, Obstacle};

/// The first of the own writes of which the role was not told: the one that is above the position of
/// its kind. `None` exactly where there is none.
#[tactic(auto, unfolding(cmc_rules::specs::Sameness::own_above))]
pub fn own_above(own: Positions, at: Positions) -> Option<u64>
    ensures { result ≡ own_above own at }
{
    if at.certificates < own.certificates {
        return Some(own.certificates);
    }
    if at.requests < own.requests {
        return Some(own.requests);
    }
    if at.secrets < own.secrets {
        return Some(own.secrets);
    }
    None
}

/// Whether a pass that sees `seen` would be the last one again: it sees the same, and would end alike. Both views are of one
/// run.
pub fn is_same(last: &Option<LastPass>, seen: &Views, now: i64, at: Positions) -> bool
    requires { IsOfOneRun last.now seen.now }
    ensures { IsTrue result ↔ IsSame last.now seen.now now at }
{
    match last {
        // Most passes end in a way that is never repeated.
        Some(last) => ends_alike(last.ending, last.since, now, at) && same_seen(&last.seen, seen),
        None => false,
    }
}

fn ends_alike(ending: Ending, since: i64, now: i64, at: Positions) -> bool
    ensures { IsTrue result ↔ EndsAlike ending since now at }
{
    match ending {
        Ending::Open => false,
        Ending::Nothing => since == now,
        Ending::Wrote => false,
        Ending::Refused { obstacle } => is_still_behind(obstacle, at),
    }
}

fn is_still_behind(obstacle: Obstacle, at: Positions) -> bool
    ensures { IsTrue result ↔ IsStillBehind obstacle at }
{
    match obstacle {
        Obstacle::Failure => false,
        Obstacle::Newer { kind, version } => at_kind(at, kind) < version,
    }
}

/// The positions of the kinds that the role is told of, and 0 of each other kind.
pub fn shown_positions(role: Role, told: Positions) -> Positions
    ensures { result ≡ shown_positions role told }
{
    Positions {
        certificates: shown(role, Kind::Certificate, told.certificates),
        requests: shown(role, Kind::CertificateRequest, told.requests),
        secrets: shown(role, Kind::Secret, told.secrets),
    }
}

fn shown(role: Role, kind: Kind, told: u64) -> u64
    ensures { result ≡ (if has_informer role kind then told else 0) }
{
    if has_informer(role, kind) { told } else { 0 }
}
