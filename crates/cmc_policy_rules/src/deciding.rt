//! What a list of policies decides.
ghost use Rattle.std.specs.Prelude.{◌≡◌, position};
ghost use Rattle.cmc_policy_rules.specs.Decisions as spec;

use crate::allowing::allows;
use crate::decision::Decision;
use crate::names::matches_any;
use crate::policies::Policies;
use crate::policy::Policy;
use crate::wanted::Wanted;

/// What the policies decide of the request: `Yes` by the first that is for its issuer and allows all of it; `No`,
/// where some are for its issuer and none of them allows it, by the first of these, with the first field that it
/// does not allow; `Unbound` where none is for its issuer (approver-policy: one policy that allows a request is
/// enough).
pub fn decide(policies: &Policies, wanted: &Wanted) -> Decision
    ensures { result ≡ spec.decision policies.now wanted.now }
{
    let policies = policies.as_slice();
    if let Some(place) = first_passing(policies, wanted) {
        return Decision::Yes {
            place: place as u64,
        };
    }
    match first_bound(policies, wanted) {
        Some(place) => match allows(&policies[place], wanted) {
            Err(field) => Decision::No {
                place: place as u64,
                field,
            },
            Ok(()) => unreachable!(),
        },
        None => Decision::Unbound,
    }
}

fn first_passing(policies: &[Policy], wanted: &Wanted) -> Option<usize>
    ensures { result ≡ position (λ policy. spec.is_allowed_by policy wanted.now) policies.now }
{
    policies.iter().position(|policy| passes(policy, wanted))
}

fn first_bound(policies: &[Policy], wanted: &Wanted) -> Option<usize>
    ensures { result ≡ position (λ policy. spec.is_bound policy wanted.now) policies.now }
{
    policies.iter().position(|policy| is_bound(policy, wanted))
}

fn is_bound(policy: &Policy, wanted: &Wanted) -> bool
    ensures { result ≡ spec.is_bound policy.now wanted.now }
{
    matches_any(policy.issuers.as_slice(), wanted.issuer.as_slice())
}

fn passes(policy: &Policy, wanted: &Wanted) -> bool
    ensures { result ≡ spec.is_allowed_by policy.now wanted.now }
{
    is_bound(policy, wanted) && allows(policy, wanted).is_ok()
}
