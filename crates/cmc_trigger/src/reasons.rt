//! Why a Certificate must be issued.
ghost use Rattle.std.specs.Prelude.{◌≡◌};
ghost use Rattle.cmc_policies.specs.Reasons.{first_of, known};
ghost use Rattle.cmc_rules.specs.Chains.{trigger_chain, trigger_reason};

use cmc_match::facts_for;
use cmc_objects::{Certificate, CertificateRequest, Secret, Shared};
use cmc_policies::{Chain, Check, Empty, Facts, Frame, Link, Reason};

// The row of checks. Each closure captures no more than the frame.
fn first_reason(frame: Frame, facts: &Facts) -> Option<Reason>
    ensures { result ≡ first_of trigger_chain frame (known facts.now) }
{
    let absent = Check::new(Reason::DoesNotExist, frame, |facts: &Facts| !facts.secret);
    let missing = Check::new(Reason::MissingData, frame, |facts: &Facts| !facts.filled);
    let unpaired = Check::new(Reason::InvalidKeyPair, frame, |facts: &Facts| !facts.pair);
    let foreign = Check::new(
        Reason::IncorrectIssuer,
        frame,
        |facts: &Facts| !facts.issuer,
    );
    let other = Check::new(
        Reason::IncorrectCertificate,
        frame,
        |facts: &Facts| !facts.owner,
    );
    let unfit = Check::new(Reason::SecretMismatch, frame, |facts: &Facts| !facts.kind);
    let changed = Check::new(
        Reason::RequestChanged,
        frame,
        |facts: &Facts| !facts.request,
    );
    let due = Check::new(
        Reason::Renewing,
        frame,
        move |facts: &Facts| facts.is_due(frame),
    );
    let of_request = Link::new(unfit, Link::new(changed, Link::new(due, Empty)));
    let of_owner = Link::new(foreign, Link::new(other, of_request));
    Link::new(absent, Link::new(missing, Link::new(unpaired, of_owner))).first(facts)
}

/// Why the Certificate must be issued, judged in the frame: the first reason of the row that holds of its Secret
/// and of the current one of its requests.
pub fn reason_for(
    frame: Frame,
    certificate: &Certificate,
    secret: &Option<Shared<Secret>>,
    requests: &[Shared<CertificateRequest>],
) -> Option<Reason>
    ensures { result ≡ trigger_reason frame certificate.now secret.now requests.now }
{
    first_reason(frame, &facts_for(certificate, secret.as_ref(), requests))
}
