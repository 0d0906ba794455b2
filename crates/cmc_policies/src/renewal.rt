//! When a certificate is renewed, and when a failed issuance is tried again.
ghost use Rattle.std.specs.Prelude.{◌≡◌, ◌*◌, ◌/◌, ◌^◌, ◌<◌, ◌≤◌, pos, ◌+ℤ◌, ◌≤ℤ◌};
ghost use Rattle.cmc_policies.specs.Renewal as spec;
ghost use Rattle.cmc_policies.specs.Renewal.{IsCertificateTime};

/// When a certificate is renewed (cert-manager.io/v1, `renewBefore` and `renewBeforePercentage`).
#[derive(Clone, Copy)]
pub enum Renew {
    /// As the specification says nothing of it.
    Default,
    /// So many seconds before its end.
    Before(u64),
    /// When so much of its lifetime is left, in percent.
    Percent(u32),
}

impl Renew {
    /// How a specification has its certificate renewed: by `renewBeforePercentage`, where that is given, else by
    /// `renewBefore` in seconds, else as it says nothing.
    pub fn by(percent: Option<u32>, before: Option<u64>) -> Renew
        ensures { result ≡ spec.renew_by percent before }
    {
        match (percent, before) {
            (Some(part), _) => Renew::Percent(part),
            (None, Some(seconds)) => Renew::Before(seconds),
            (None, None) => Renew::Default,
        }
    }
}

// The seconds before the end of a lifetime at which the renewal begins.
fn lead(lifetime: u64, renew: Renew) -> u64
    requires { lifetime < 2 ^ 40 }
    ensures value { result ≡ spec.lead lifetime renew }
    ensures within { result ≤ lifetime }
{
    match renew {
        Renew::Before(seconds) if 0 < seconds && seconds < lifetime => seconds,
        Renew::Percent(part) if 0 < part && part < 100 => (part as u64 * lifetime + 99) / 100,
        _ => (lifetime + 2) / 3,
    }
}

/// The moment from which a certificate of that validity is to be renewed: `Before` seconds before its end, where
/// that is more than nothing and less than the lifetime; when `Percent` of the lifetime is left, from 1 to 99; and
/// else at two thirds of the lifetime; the last two cut down to whole seconds. All times are seconds since
/// 1970-01-01T00:00:00Z.
pub fn renewal_time(not_before: i64, not_after: i64, renew: Renew) -> i64
    requires ordered { not_before ≤ℤ not_after }
    requires begins_in_range { IsCertificateTime not_before }
    requires ends_in_range { IsCertificateTime not_after }
    ensures value { result ≡ spec.renewal not_before not_after renew }
    ensures two_thirds { renew ≡ Renew.Default → result
        ≡ not_before +ℤ pos (2 * spec.lifetime not_before not_after / 3) }
{
    not_after - lead((not_after - not_before) as u64, renew) as i64
}

fn backoff_hours(attempts: Option<u32>) -> u32
    ensures value { result ≡ spec.backoff_hours attempts }
    ensures bound { result ≤ 32 }
{
    match attempts {
        None | Some(0 | 1) => 1,
        Some(2) => 2,
        Some(3) => 4,
        Some(4) => 8,
        Some(5) => 16,
        Some(_) => 32,
    }
}

/// The moment up to which no further issuance is tried, after the last of so many failed attempts: an hour later
/// for none or one, twice as long for each attempt more, and 32 hours later at most.
pub fn backoff_until(last: i64, attempts: Option<u32>) -> i64
    requires { IsCertificateTime last }
    ensures { result ≡ spec.backoff last attempts }
{
    last + backoff_hours(attempts) as i64 * 3600
}
