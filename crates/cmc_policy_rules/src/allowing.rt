//! What one policy allows.
ghost use Rattle.std.specs.Prelude.{◌≡◌, Some, None, MatchResult};
ghost use Rattle.cmc_policy_rules.specs.Allowed as spec;

use crate::decision::Field;
use crate::names::{allows_addresses, allows_name, allows_names, has_each};
use crate::policy::Policy;
use crate::wanted::Wanted;

// The order in which fields are looked at.
const FIELDS: [Field; 12] = [
    Field::CommonName,
    Field::DnsNames,
    Field::IpAddresses,
    Field::Uris,
    Field::EmailAddresses,
    Field::Usages,
    Field::IsCA,
    Field::MinDuration,
    Field::MaxDuration,
    Field::Algorithm,
    Field::MinSize,
    Field::MaxSize,
];

/// Whether the policy allows all that the request asks for: names by their patterns, addresses and usages by
/// whole entries, a certificate authority where the policy has it, durations and sizes within their bounds, which
/// are included, and the algorithm (approver-policy, `allowed` and `constraints`). The error is the first field, in
/// the order of `Field`, that it does not allow. Nothing is said of the issuer.
pub fn allows(policy: &Policy, wanted: &Wanted) -> Result<(), Field>
    ensures { MatchResult result (λ done. spec.refused_field policy.now wanted.now ≡ None)
        (λ field. spec.refused_field policy.now wanted.now ≡ Some field) }
{
    for field in FIELDS {
        if !allows_field(policy, wanted, field) {
            return Err(field);
        }
    }
    Ok(())
}

fn allows_field(policy: &Policy, wanted: &Wanted, field: Field) -> bool
    ensures { result ≡ spec.allows field policy.now wanted.now }
{
    match field {
        Field::CommonName => allows_name(&policy.common, &wanted.common),
        Field::DnsNames => allows_names(&policy.dns, &wanted.dns),
        Field::IpAddresses => allows_addresses(&policy.ips, &wanted.ips),
        Field::Uris => allows_names(&policy.uris, &wanted.uris),
        Field::EmailAddresses => allows_names(&policy.emails, &wanted.emails),
        Field::Usages => has_each(&policy.usages, &wanted.usages),
        Field::IsCA => !wanted.ca || policy.ca,
        Field::MinDuration => is_at_least(policy.min, wanted.duration),
        Field::MaxDuration => is_at_most(policy.max, wanted.duration),
        Field::Algorithm => has_algorithm(policy.algorithm, wanted.rsa),
        Field::MinSize => has_min_size(policy.min_size, wanted.rsa, wanted.size),
        Field::MaxSize => has_max_size(policy.max_size, wanted.rsa, wanted.size),
    }
}

fn is_at_least(bound: Option<u64>, seconds: u64) -> bool
    ensures { result ≡ spec.is_at_least bound seconds }
{
    match bound {
        Some(least) => least <= seconds,
        None => true,
    }
}

fn is_at_most(bound: Option<u64>, seconds: u64) -> bool
    ensures { result ≡ spec.is_at_most bound seconds }
{
    match bound {
        Some(most) => seconds <= most,
        None => true,
    }
}

fn has_algorithm(algorithm: Option<bool>, rsa: Option<bool>) -> bool
    ensures { result ≡ spec.has_algorithm algorithm rsa }
{
    match algorithm {
        Some(stated) => rsa == Some(stated),
        None => true,
    }
}

fn has_min_size(bound: Option<u32>, rsa: Option<bool>, size: u32) -> bool
    ensures { result ≡ spec.has_min_size bound rsa size }
{
    match bound {
        Some(least) => rsa.is_some() && least <= size,
        None => true,
    }
}

fn has_max_size(bound: Option<u32>, rsa: Option<bool>, size: u32) -> bool
    ensures { result ≡ spec.has_max_size bound rsa size }
{
    match bound {
        Some(most) => rsa.is_some() && size <= most,
        None => true,
    }
}
