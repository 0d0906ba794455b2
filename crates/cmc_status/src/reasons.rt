//! Why a Certificate is not ready, and how long its certificate is valid.
ghost use Rattle.std.specs.Option.{option_copied};
ghost use Rattle.std.specs.Prelude.{◌≡◌, if◌then◌else◌, None, Some};
ghost use Rattle.cmc_match.specs.Facts.{pair_at};
ghost use Rattle.cmc_policies.specs.Reasons.{first_of, known};
ghost use Rattle.cmc_policies.specs.Renewal.{renewal};
ghost use Rattle.cmc_rules.specs.Chains.{readiness_chain, readiness_reason};
ghost use Rattle.cmc_rules.specs.Readiness as spec;

use cmc_match::facts_for;
use cmc_objects::{Certificate, CertificateRequest, Secret, Shared};
use cmc_policies::{Chain, Check, Empty, Facts, Frame, Link, Reason, Renew, renewal_time};

// The row of checks. Each closure captures no more than the frame.
fn first_reason(frame: Frame, facts: &Facts) -> Option<Reason>
    ensures { result ≡ first_of readiness_chain frame (known facts.now) }
{
    let absent = Check::new(Reason::DoesNotExist, frame, |facts: &Facts| !facts.secret);
    let missing = Check::new(Reason::MissingData, frame, |facts: &Facts| !facts.filled);
    let unpaired = Check::new(Reason::InvalidKeyPair, frame, |facts: &Facts| !facts.pair);
    let unfit = Check::new(Reason::SecretMismatch, frame, |facts: &Facts| !facts.kind);
    let changed = Check::new(
        Reason::RequestChanged,
        frame,
        |facts: &Facts| !facts.request,
    );
    let expired = Check::new(
        Reason::Expired,
        frame,
        move |facts: &Facts| facts.is_expired(frame),
    );
    let of_request = Link::new(unfit, Link::new(changed, Link::new(expired, Empty)));
    Link::new(absent, Link::new(missing, Link::new(unpaired, of_request))).first(facts)
}

/// What the status says of the certificate that exists: when it begins and ends, and when it is renewed.
#[derive(Clone, Copy)]
pub struct Times {
    pub not_before: Option<i64>,
    pub not_after: Option<i64>,
    pub renewal: Option<i64>,
}

fn times_of(facts: Facts, renew: Renew) -> Times
    ensures before { result.not_before ≡ (if facts.pair then Some facts.not_before else None) }
    ensures after { result.not_after ≡ (if facts.pair then Some facts.not_after else None) }
    ensures renewal { result.renewal ≡ (if facts.pair then Some (renewal facts.not_before facts.not_after renew) else None) }
{
    if facts.pair {
        Times {
            not_before: Some(facts.not_before),
            not_after: Some(facts.not_after),
            renewal: Some(renewal_time(facts.not_before, facts.not_after, renew)),
        }
    } else {
        Times {
            not_before: None,
            not_after: None,
            renewal: None,
        }
    }
}

/// Why a Certificate is not ready, and the times of the certificate that exists.
#[derive(Clone, Copy)]
pub struct Judged {
    pub reason: Option<Reason>,
    pub times: Times,
}

/// Why the Certificate is not ready, judged in the frame: the first that holds of DoesNotExist, MissingData,
/// InvalidKeyPair, SecretMismatch, RequestChanged, Expired, of its Secret and the current one of its requests. `None`
/// exactly where it is ready. And the times of the certificate that the Secret's key is a pair with, none where there is
/// no pair. Key, certificate and certification request are read once for all of this.
pub fn judge(
    frame: Frame,
    certificate: &Certificate,
    secret: Option<&Shared<Secret>>,
    requests: &[Shared<CertificateRequest>],
) -> Judged
    ensures reason { result.reason ≡ readiness_reason frame certificate.now (option_copied secret.entry) requests.now }
    ensures before { result.times.not_before ≡ spec.begins_at (pair_at (option_copied secret.entry)) }
    ensures after { result.times.not_after ≡ spec.ends_at (pair_at (option_copied secret.entry)) }
    ensures renewal { result.times.renewal ≡ spec.renews_at frame.renew (pair_at (option_copied secret.entry)) }
{
    let facts = facts_for(certificate, secret, requests);
    Judged {
        reason: first_reason(frame, &facts),
        times: times_of(facts, frame.renew),
    }
}
