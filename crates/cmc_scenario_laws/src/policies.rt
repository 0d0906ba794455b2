// The laws of policies, and what they rest on: the octets of addresses are bytes.
ghost use Rattle.base64.specs.GeneralPurpose.{IsBytes};
ghost use Rattle.cmc_scenario_laws.specs.Policies.{AreOctetLists, HasAddressOctets, HaveOctets, IsApproverReadAgain, IsPolicyReadAgain};

use crate::laws::are_bytes;
use cmc_objects::Rules;
use cmc_policy_rules::{Pattern, Policy};

fn has_bytes(pattern: &Pattern)
    ensures { IsBytes pattern.now }
{
    are_bytes(pattern.as_slice());
}

fn are_octets(patterns: &[Pattern])
    ensures { AreOctetLists patterns.now }
{
    if let [first, rest @ ..] = patterns {
        has_bytes(first);
        are_octets(rest);
    }
}

fn has_octets(policy: &Policy)
    ensures { HasAddressOctets policy.now }
{
    match &policy.ips {
        None => {}
        Some(patterns) => are_octets(patterns.as_slice()),
    }
}

/// The octets of the addresses of all policies are bytes. The call changes nothing.
pub fn have_octets(policies: &[Policy])
    ensures { HaveOctets policies.now }
{
    if let [first, rest @ ..] = policies {
        has_octets(first);
        have_octets(rest);
    }
}

/// A law: what is printed of a policy that was read, all of whose texts are UTF-8, is read again, as
/// the same policy. The call changes nothing.
#[tactic(auto, using(crate::proofs::ApproversAgain::policy_law))]
pub fn printed_policy_is_read(policy: &Policy)
    ensures { IsPolicyReadAgain policy.now }
{
    has_octets(policy);
}

/// The same of an approver with its policies.
#[tactic(auto, using(crate::proofs::ApproversAgain::approver_law))]
pub fn printed_approver_is_read(rules: &Rules)
    ensures { IsApproverReadAgain rules.now }
{
    have_octets(rules.policies.as_slice());
}
