//! The rules on a Certificate's name and spec. Each function is true where its rule fails.
ghost use Rattle.std.specs.Prelude.{◌≡◌, ◌-◌, ◌^◌, min};
ghost use Rattle.std.specs.List.{list_any};
ghost use Rattle.cmc_model.specs.Admission as rules;

use cmc_meta::{Text, Texts};
use cmc_objects::{Algorithm, CertSpec, Certificate};

/// It names nothing.
pub fn has_no_name(spec: &CertSpec) -> bool
    ensures { result ≡ rules.has_no_name spec.now }
{
    spec.common_name.as_slice().is_empty()
        && spec.dns_names.as_slice().is_empty()
        && spec.ip_addresses.as_slice().is_empty()
        && spec.uris.as_slice().is_empty()
        && spec.emails.as_slice().is_empty()
}

/// The common name has more than 64 bytes.
pub fn is_common_name_long(spec: &CertSpec) -> bool
    ensures { result ≡ rules.is_common_name_long spec.now }
{
    spec.common_name.as_slice().len() > 64
}

/// The duration is below 1 hour or above 876,000 hours.
pub fn is_duration_outside(spec: &CertSpec) -> bool
    ensures { result ≡ rules.is_duration_outside spec.now }
{
    let duration = spec.duration_at_use();
    duration < 3_600 || duration > 3_153_600_000
}

/// Renewal is less than 5 minutes before the end.
pub fn is_renewal_short(spec: &CertSpec) -> bool
    ensures { result ≡ rules.is_renewal_short spec.now }
{
    match spec.renew_before {
        None => false,
        Some(before) => before < 300,
    }
}

/// Renewal is not after the beginning.
pub fn is_renewal_long(spec: &CertSpec) -> bool
    ensures { result ≡ rules.is_renewal_long spec.now }
{
    match spec.renew_before {
        None => false,
        Some(before) => before >= spec.duration_at_use(),
    }
}

fn is_size_of(algorithm: Algorithm, size: u32) -> bool
    ensures { result ≡ rules.is_size_of algorithm size }
{
    match algorithm {
        Algorithm::Rsa => size == 2048 || size == 3072 || size == 4096 || size == 8192,
        Algorithm::Ecdsa => size == 256 || size == 384 || size == 521,
    }
}

/// The size is none that a key of the algorithm may have.
pub fn is_key_size_wrong(spec: &CertSpec) -> bool
    ensures { result ≡ rules.is_key_size_wrong spec.now }
{
    !is_size_of(spec.key.algorithm_at_use(), spec.key.size_at_use())
}

/// No CertificateRequest would be kept.
pub fn keeps_no_request(spec: &CertSpec) -> bool
    ensures { result ≡ rules.keeps_no_request spec.now }
{
    match spec.history_limit {
        None => false,
        Some(limit) => limit == 0,
    }
}

/// The name has more than 240 bytes.
fn is_name_long(c: &Certificate) -> bool
    ensures { result ≡ rules.is_name_long c.now }
{
    c.meta.name.as_slice().len() > 240
}

fn are_many(names: &Texts) -> bool
    ensures { result ≡ rules.are_many names.now }
{
    names.as_slice().len() > 100
}

/// The bytes of all texts, or the greatest u64 where they are more.
fn bytes_of(texts: &[Text]) -> u64
    ensures { result ≡ min (rules.bytes_of texts.now) (2 ^ 64 - 1) }
{
    let mut bytes = 0u64;
    for text in texts {
        bytes = bytes.saturating_add(text.as_slice().len() as u64);
    }
    bytes
}

/// The bytes of all names, or the greatest u64 where they are more.
fn bytes_of_names(spec: &CertSpec) -> u64
    ensures { result ≡ min (rules.bytes_of_names spec.now) (2 ^ 64 - 1) }
{
    (spec.common_name.as_slice().len() as u64)
        .saturating_add(bytes_of(spec.dns_names.as_slice()))
        .saturating_add(bytes_of(spec.ip_addresses.as_slice()))
        .saturating_add(bytes_of(spec.uris.as_slice()))
        .saturating_add(bytes_of(spec.emails.as_slice()))
}

/// A list has more than 100 names, or all names together have more than 16,384 bytes.
fn has_many_names(spec: &CertSpec) -> bool
    ensures { result ≡ rules.has_many_names spec.now }
{
    are_many(&spec.dns_names)
        || are_many(&spec.ip_addresses)
        || are_many(&spec.uris)
        || are_many(&spec.emails)
        || bytes_of_names(spec) > 16_384
}

fn is_usage_wrong(usage: &Text) -> bool
    ensures { result ≡ rules.is_usage_wrong usage.now }
{
    usage.as_slice().is_empty() || usage.as_slice().len() > 64
}

fn has_wrong_usage(usages: &[Text]) -> bool
    ensures { result ≡ list_any rules.is_usage_wrong usages.now }
{
    usages.iter().any(|usage| is_usage_wrong(usage))
}

/// There are more than 40 usages, or one does not have 1 to 64 bytes.
fn are_usages_wrong(spec: &CertSpec) -> bool
    ensures { result ≡ rules.are_usages_wrong spec.now }
{
    spec.usages.as_slice().len() > 40 || has_wrong_usage(spec.usages.as_slice())
}

/// The name is too long, or there are too many names or usages, or too long ones.
pub fn is_outside_limits(c: &Certificate) -> bool
    ensures { result ≡ rules.is_outside_limits c.now }
{
    is_name_long(c) || has_many_names(&c.spec) || are_usages_wrong(&c.spec)
}

/// Renewal is given both by seconds and by percent.
pub fn has_both_renewals(spec: &CertSpec) -> bool
    ensures { result ≡ rules.has_both_renewals spec.now }
{
    spec.renew_before.is_some() && spec.renew_percent.is_some()
}

fn is_part_wrong(percent: u32, duration: u64) -> bool
    ensures { result ≡ rules.is_part_wrong percent duration }
{
    percent == 0 || percent > 99 || duration.saturating_mul(u64::from(percent)) < 30_000
}

/// The percentage is not 1 to 99, or that part of the duration is below 5 minutes.
pub fn is_percent_wrong(spec: &CertSpec) -> bool
    ensures { result ≡ rules.is_percent_wrong spec.now }
{
    match spec.renew_percent {
        None => false,
        Some(percent) => is_part_wrong(percent, spec.duration_at_use()),
    }
}
