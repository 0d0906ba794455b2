//! The moments at which a role may come to have something to do on what it sees, without seeing anything new.
ghost use Rattle.std.specs.Option.{option_copied};
ghost use Rattle.std.specs.Prelude.{◌≡◌, ◌≤ℤ◌, IfSome, Some};
ghost use Rattle.cmc_match.specs.Facts.{pair_at, pair_in};
ghost use Rattle.cmc_objects.specs.KeyPairs.{begins, ends, is_paired};
ghost use Rattle.cmc_policies.specs.Renewal as spec;
ghost use Rattle.cmc_policies.specs.Renewal.{IsCertificateTime};
ghost use Rattle.cmc_rules.specs.Dates.{IsDatedAnswer, IsDatedOption};
ghost use Rattle.cmc_rules.specs.Sound as rules;
ghost use Rattle.cmc_world.specs.DueMoments.{HasDatedMoments, IsFirstAfter, sooner};

use cmc_meta::{Condition, ConditionKind};
use cmc_objects::{CertStatus, Certificate, CertificateRequest, Pairing, Role, Secret, Shared};
use cmc_pass::Views;
use cmc_policies::{Renew, backoff_until, renewal_time};

/// The moment, where it is yet to come.
fn coming(now: i64, at: i64) -> Option<i64>
    ensures { IsFirstAfter now (λ moment. moment ≡ at) result }
{
    if at <= now { None } else { Some(at) }
}

/// The sooner of two moments.
fn sooner(one: Option<i64>, other: Option<i64>) -> Option<i64>
    ensures { result ≡ sooner one other }
{
    match (one, other) {
        (Some(one), Some(other)) => Some(if one <= other { one } else { other }),
        (Some(one), None) => Some(one),
        (None, other) => other,
    }
}

/// The end of the back-off.
fn end_of_backoff(now: i64, status: &CertStatus) -> Option<i64>
    requires { IsDatedOption status.now.last_failure }
    ensures { IsFirstAfter now (rules.IsEndOfBackoff status.now.last_failure status.now) result }
{
    match status.last_failure {
        None => None,
        Some(last) => coming(now, backoff_until(last, status.attempts)),
    }
}

/// What is known of the pair of a Secret's key and certificate, as it is kept beside its data, or else as it is read now.
#[tactic(auto, unfolding(cmc_match::specs::Facts::pair_in))]
fn pairing_in(secret: &Secret) -> Pairing
    ensures pair { result.pair ≡ is_paired (pair_in secret.now) }
    ensures begins { result.not_before ≡ begins (pair_in secret.now) }
    ensures ends { result.not_after ≡ ends (pair_in secret.now) }
{
    secret.parts.pairing()
}

/// The same, with what is known of the validity of each pair.
fn known_pairing(secret: &Secret) -> Pairing
    ensures pair { result.pair ≡ is_paired (pair_in secret.now) }
    ensures begins { result.not_before ≡ begins (pair_in secret.now) }
    ensures ends { result.not_after ≡ ends (pair_in secret.now) }
    ensures ordered { result.not_before ≤ℤ result.not_after }
    ensures begins_in_range { IsCertificateTime result.not_before }
    ensures ends_in_range { IsCertificateTime result.not_after }
{
    pairing_in(secret)
}

/// The renewal of the certificate that the Secret's key and certificate are a pair with.
fn renewal_in(now: i64, renew: Renew, secret: &Secret) -> Option<i64>
    ensures { IsFirstAfter now (rules.IsRenewal renew (pair_in secret.now)) result }
{
    let known = known_pairing(secret);
    if known.pair {
        return coming(now, renewal_time(known.not_before, known.not_after, renew));
    }
    None
}

/// The same, if there is a Secret.
fn renewal(now: i64, renew: Renew, secret: &Option<Shared<Secret>>) -> Option<i64>
    ensures { IsFirstAfter now (rules.IsRenewal renew (pair_at secret.now)) result }
{
    match secret {
        None => None,
        Some(secret) => renewal_in(now, renew, secret),
    }
}

/// The expiry of that certificate.
fn expiry_in(now: i64, secret: &Secret) -> Option<i64>
    ensures { IsFirstAfter now (rules.IsExpiry (pair_in secret.now)) result }
{
    let known = known_pairing(secret);
    if known.pair {
        return coming(now, known.not_after);
    }
    None
}

/// The same, if there is a Secret.
fn expiry(now: i64, secret: &Option<Shared<Secret>>) -> Option<i64>
    ensures { IsFirstAfter now (rules.IsExpiry (pair_at secret.now)) result }
{
    match secret {
        None => None,
        Some(secret) => expiry_in(now, secret),
    }
}

/// Of a Certificate, the end of its back-off or its renewal.
fn moment_of(now: i64, certificate: &Certificate, secret: &Option<Shared<Secret>>) -> Option<i64>
    requires { IsDatedOption certificate.now.status.last_failure }
    ensures { IsFirstAfter now (rules.IsTriggerMoment (Some certificate.now) secret.now) result }
{
    let spec = &certificate.spec;
    let renew = Renew::by(spec.renew_percent, spec.renew_before);
    sooner(
        end_of_backoff(now, &certificate.status),
        renewal(now, renew, secret),
    )
}

/// A minute after the last transition of the condition.
fn minute_after(now: i64, ready: Option<&Condition>) -> Option<i64>
    requires { IfSome (option_copied ready) (λ condition. IsCertificateTime condition.since) }
    ensures { IsFirstAfter now (rules.IsMinuteAfter (option_copied ready.entry)) result }
{
    match ready {
        None => None,
        Some(ready) => {
            let at = ready.since + 60;
            if at <= now { None } else { Some(at) }
        }
    }
}

/// A minute after the last transition of the request's condition Ready.
fn retry(now: i64, request: &CertificateRequest) -> Option<i64>
    requires { IsDatedAnswer request.now.status }
    ensures { IsFirstAfter now (rules.IsRetry (Some request.now)) result }
{
    minute_after(now, request.status.conditions.get(ConditionKind::Ready))
}

/// The first moment after `now`, in seconds since 1970-01-01T00:00:00Z, at which the role may come to have something to do
/// on what it sees: for the trigger the end of the back-off or the renewal, for the issuer a minute after it was not ready,
/// for readiness the expiry. `None` exactly where there is none.
pub(crate) fn due_after(now: i64, role: Role, seen: &Views) -> Option<i64>
    requires { HasDatedMoments seen.now }
    ensures { IsFirstAfter now (rules.IsDueMoment role seen.now) result }
{
    match role {
        Role::Trigger => match &seen.certificate {
            Some(certificate) => moment_of(now, certificate, &seen.secret),
            None => None,
        },
        Role::Issuer => match &seen.request {
            Some(request) => retry(now, request),
            None => None,
        },
        Role::Readiness => expiry(now, &seen.secret),
        Role::KeyManager | Role::RequestManager | Role::Approver | Role::Issuing | Role::Revision =>
            None,
    }
}
