// The forms of what a scenario says of its approver, of keys and issuers, and in a step.
ghost use Rattle.std.specs.List.{list_all};
ghost use Rattle.std.specs.Prelude.{◌≡◌, not};
ghost use Rattle.cmc_objects.specs.Requests.{is_duration_form, is_lifetime, is_row_form};
ghost use Rattle.cmc_setup.specs.Forms as spec;
ghost use Rattle.cmc_setup.specs.ObjectForms.{is_object_form};

use crate::object_forms::{is_duration, is_object};
use cmc_meta::{Key, Kind};
use cmc_objects::{KeyRow, Material, Rows, Rules, SignRow, Step};
use cmc_policy_rules::{Pattern, Patterns, Policy};
use std::collections::BTreeMap;

const LONGEST_LIST: usize = 100;

const LONGEST_LIFETIME: u64 = 3_153_600_000;

const LONGEST_BEFORE: u64 = 86_400;

fn is_pattern(pattern: &Pattern) -> bool
    ensures { result ≡ spec.is_pattern_form pattern.now }
{
    let length = pattern.as_slice().len();
    1 <= length && length <= 253
}

fn is_address(pattern: &Pattern) -> bool
    ensures { result ≡ spec.is_address_form pattern.now }
{
    let octets = pattern.as_slice();
    octets.len() == 4 || octets.len() == 16 || octets == b"*".as_slice()
}

fn have_pattern_form(patterns: &[Pattern]) -> bool
    ensures { result ≡ list_all spec.is_pattern_form patterns.now }
{
    patterns.iter().all(|pattern| is_pattern(pattern))
}

fn have_address_form(patterns: &[Pattern]) -> bool
    ensures { result ≡ list_all spec.is_address_form patterns.now }
{
    patterns.iter().all(|pattern| is_address(pattern))
}

fn are_patterns(patterns: &Patterns) -> bool
    ensures { result ≡ spec.is_short_list spec.is_pattern_form patterns.now }
{
    let items = patterns.as_slice();
    items.len() <= LONGEST_LIST && have_pattern_form(items)
}

fn are_addresses(patterns: &Patterns) -> bool
    ensures { result ≡ spec.is_short_list spec.is_address_form patterns.now }
{
    let items = patterns.as_slice();
    items.len() <= LONGEST_LIST && have_address_form(items)
}

fn may_be_patterns(patterns: &Option<Patterns>) -> bool
    ensures { result ≡ spec.is_short_option spec.is_pattern_form patterns.now }
{
    match patterns {
        None => true,
        Some(patterns) => are_patterns(patterns),
    }
}

fn may_be_addresses(patterns: &Option<Patterns>) -> bool
    ensures { result ≡ spec.is_short_option spec.is_address_form patterns.now }
{
    match patterns {
        None => true,
        Some(patterns) => are_addresses(patterns),
    }
}

fn are_names(policy: &Policy) -> bool
    ensures { result ≡ spec.are_names_formed policy.now }
{
    may_be_patterns(&policy.common)
        && may_be_patterns(&policy.dns)
        && may_be_addresses(&policy.ips)
        && may_be_patterns(&policy.uris)
        && may_be_patterns(&policy.emails)
}

fn is_policy(policy: &Policy) -> bool
    ensures { result ≡ spec.is_policy_form policy.now }
{
    are_names(policy)
        && are_patterns(&policy.issuers)
        && are_patterns(&policy.usages)
        && is_duration(policy.min)
        && is_duration(policy.max)
}

fn have_policy_form(policies: &[Policy]) -> bool
    ensures { result ≡ list_all spec.is_policy_form policies.now }
{
    policies.iter().all(|policy| is_policy(policy))
}

/// Whether a scenario can say this of its approver: at most 100 policies, with lists of at most 100
/// patterns of 1 to 253 bytes each, those of addresses four or sixteen octets or `*`, and durations of
/// at most 999,999,999 hours.
pub fn is_approver(rules: &Rules) -> bool
    ensures { result ≡ spec.is_approver_form rules.now }
{
    let policies = rules.policies.as_slice();
    policies.len() <= LONGEST_LIST && have_policy_form(policies)
}

fn is_certificate(key: &Key) -> bool
    ensures { result ≡ spec.is_certificate key.now }
{
    matches!(key.kind, Kind::Certificate)
}

fn is_key_row(row: &KeyRow) -> bool
    ensures { result ≡ spec.is_key_row_form row.now }
{
    !matches!(row, KeyRow::Default)
}

fn is_long_enough(seconds: Option<u64>) -> bool
    ensures { result ≡ is_lifetime seconds }
{
    match seconds {
        None => true,
        Some(seconds) => 1 <= seconds && seconds <= LONGEST_LIFETIME,
    }
}

fn is_sign_row(row: &SignRow) -> bool
    ensures { result ≡ is_row_form row.now }
{
    match row {
        SignRow::Issue {
            seconds,
            before,
            ..
        } => is_long_enough(*seconds) && *before <= LONGEST_BEFORE,
        SignRow::Pending | SignRow::Fail { .. } | SignRow::Raw { .. } | SignRow::Free => true,
    }
}

fn have_key_form(rows: &[KeyRow]) -> bool
    ensures { result ≡ list_all spec.is_key_row_form rows.now }
{
    rows.iter().all(|row| is_key_row(row))
}

fn have_sign_form(rows: &[SignRow]) -> bool
    ensures { result ≡ list_all is_row_form rows.now }
{
    rows.iter().all(|row| is_sign_row(row))
}

fn are_rows(rows: &Rows) -> bool
    ensures { result ≡ spec.is_rows_form rows.now }
{
    have_key_form(rows.keys.as_slice()) && have_sign_form(rows.replies.as_slice())
}

fn is_entry(certificate: &Key, rows: &Rows) -> bool
    ensures { result ≡ spec.is_entry_form (certificate.now, rows.now) }
{
    is_certificate(certificate) && are_rows(rows)
}

fn are_entries(map: &BTreeMap<Key, Rows>) -> bool
    ensures { result ≡ list_all spec.is_entry_form map.now.entries }
{
    for (certificate, rows) in map.iter() {
        if !is_entry(certificate, rows) {
            return false;
        }
    }
    true
}

/// Whether a scenario can say this of keys and issuers, free rows aside: rows of Certificates, each
/// key row named, and lifetimes of 1 to 3,153,600,000 seconds that begin at most 86,400 seconds early.
pub fn is_material(material: &Material) -> bool
    ensures { result ≡ spec.is_material_form material.now }
{
    are_entries(material.as_map())
}

fn is_free(row: &SignRow) -> bool
    ensures { spec.is_said row.now ≡ not result }
{
    matches!(row, SignRow::Free)
}

fn is_step(step: &Step) -> bool
    ensures { result ≡ spec.is_step_form step.now }
{
    match step {
        Step::Apply { object, .. } => is_object(object),
        Step::Approve { certificate, .. }
        | Step::Deny { certificate, .. }
        | Step::Renew { certificate } => is_certificate(certificate),
        Step::Answer {
            certificate,
            row,
            ..
        } => is_certificate(certificate) && !is_free(row) && is_sign_row(row),
        Step::Delete { .. }
        | Step::Tick { .. }
        | Step::Stop { .. }
        | Step::Start { .. }
        | Step::Hold { .. }
        | Step::Release { .. }
        | Step::Until { .. }
        | Step::Settle => true,
    }
}

/// Whether each step that applies an object applies one that a scenario can, each that approves, denies,
/// answers or renews names a Certificate, and each that answers does so by a row that a scenario can say.
pub fn are_steps(steps: &[Step]) -> bool
    ensures { result ≡ list_all spec.is_step_form steps.now }
{
    steps.iter().all(|step| is_step(step))
}
