//! The version for which a key waits: its role may not begin on it before it is told of that.
ghost use Rattle.std.specs.Option.{option_copied};
ghost use Rattle.std.specs.Prelude.{◌≡◌, ◌<◌, ◌≤◌, IfSome};
ghost use Rattle.cmc_held.specs.Remembered.{past_or_new};
ghost use Rattle.cmc_rules.specs.Positions.{position_of};
ghost use Rattle.cmc_waking.specs.Parked as words;
ghost use Rattle.cmc_waking.specs.WakeUps.{IsBarredBy, IsStoppedFor};

use cmc_held::at_kind;
use cmc_meta::Kind;
use cmc_objects::Positions;
use cmc_pass::Views;
use cmc_queue::Parked;
use cmc_rules::{Ending, LastPass, Obstacle, Past};

/// This version of the kind, where the role is not yet told of it; and else the rest.
fn ahead(kind: Kind, version: u64, at: Positions, rest: Option<Parked>) -> Option<Parked>
    ensures { result ≡ words.ahead kind version at rest }
{
    if at_kind(at, kind) < version {
        return Some(Parked { kind, version });
    }
    rest
}

/// The first of the role's own writes of which it is not yet told.
pub(crate) fn own_ahead(own: Positions, at: Positions) -> Option<Parked>
    ensures ahead { result ≡ words.own_ahead own at }
    ensures behind { IfSome result (λ p. position_of p.kind at < p.version) }
    ensures own { IfSome result (λ p. p.version ≤ position_of p.kind own) }
{
    let secrets = ahead(Kind::Secret, own.secrets, at, None);
    let requests = ahead(Kind::CertificateRequest, own.requests, at, secrets);
    ahead(Kind::Certificate, own.certificates, at, requests)
}

/// The write that refused a pass, where the role is not yet told of it.
pub(crate) fn obstacle_ahead(ending: Ending, at: Positions) -> Option<Parked>
    ensures { result ≡ words.obstacle_ahead ending at }
{
    match ending {
        Ending::Refused {
            obstacle: Obstacle::Newer { kind, version },
        } => ahead(kind, version, at, None),
        Ending::Refused {
            obstacle: Obstacle::Failure,
        }
        | Ending::Open
        | Ending::Nothing
        | Ending::Wrote => None,
    }
}

/// What refused the last pass, where this one sees the same.
fn refused_until(last: &Option<LastPass>, seen: &Views, at: Positions) -> Option<Parked>
    ensures until { words.IsRefusedUntil last.now seen.now at result }
    ensures behind { IfSome result (λ p. position_of p.kind at < p.version) }
    ensures stopped { IfSome result (IsStoppedFor last.now seen.now) }
{
    match last {
        None => None,
        // Few passes are refused for a version that is still ahead.
        Some(last) => match obstacle_ahead(last.ending, at) {
            Some(first) if last.seen.same(seen) => Some(first),
            _ => None,
        },
    }
}

/// What the role remembers of its own writes on the key.
fn own_part(before: Option<&Past>, at: Positions) -> Option<Parked>
    ensures ahead { result ≡ words.own_ahead (past_or_new (option_copied before.entry)).own at }
    ensures behind { IfSome result (λ p. position_of p.kind at < p.version) }
    ensures own { IfSome result (λ p. p.version ≤ position_of p.kind (past_or_new (option_copied before.entry)).own) }
{
    let none = Positions {
        certificates: 0,
        requests: 0,
        secrets: 0,
    };
    match before {
        Some(past) => own_ahead(past.own, at),
        None => own_ahead(none, at),
    }
}

/// What the role remembers of its last pass on the key.
fn last_part(before: Option<&Past>, seen: &Views, at: Positions) -> Option<Parked>
    ensures until { words.IsRefusedUntil (past_or_new (option_copied before.entry)).last seen.now at result }
    ensures behind { IfSome result (λ p. position_of p.kind at < p.version) }
    ensures stopped { IfSome result (IsStoppedFor (past_or_new (option_copied before.entry)).last seen.now) }
{
    match before {
        Some(past) => refused_until(&past.last, seen, at),
        None => None,
    }
}

/// What the key waits for.
pub fn parked_until(before: Option<&Past>, seen: &Views, at: Positions) -> Option<Parked>
    ensures until { words.IsParkedUntil (past_or_new (option_copied before.entry)) seen.now at result }
    ensures barred { IfSome result (IsBarredBy (past_or_new (option_copied before.entry)) seen.now at) }
{
    match own_part(before, at) {
        Some(first) => Some(first),
        None => last_part(before, seen, at),
    }
}
