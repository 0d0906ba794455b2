// Approval policies.
ghost use Rattle.std.specs.Prelude.{◌≡◌, [], codes, false, map, IfOk};
ghost use Rattle.serde_json.specs.View.{view, items_view};
ghost use Rattle.cmc_time.specs.DurationTexts.{duration_seconds};
ghost use Rattle.cmc_x509_build.specs.Addresses.{octets_of_address};
ghost use Rattle.cmc_setup.specs.Forms.{is_pattern_form};
ghost use Rattle.cmc_cursor.specs.Members.{Gives};
ghost use Rattle.cmc_cursor.specs.Readers.{flag_at, found, text_at};
ghost use Rattle.cmc_cursor.specs.Seen.{shown, shown_option};
ghost use Rattle.cmc_material.specs.Lists.{items_from, member_option, member_or, numbered_below};
ghost use Rattle.cmc_material.specs.Approvers.{address_in, address_pattern_at, addresses_at, duration_at, every_issuer, is_rsa_at, is_rsa_in, limits_in, named_in, pattern_at, patterns_at, policy_at, policy_of, policies_at};

use crate::optional::small_count_option;
use cmc_cursor::{BadField, Fields, at, check_end, fields, flag, optional, path_to, required};
use cmc_meta::Texts;
use cmc_policy_rules::{Pattern, Patterns, Policies, Policy};
use cmc_time::read_duration;
use cmc_x509_build::address_at;
use serde_json::Value;
use std::alloc::{AllocError, Global};
use std::net::IpAddr;

const LONGEST_LIST: usize = 100;

/// The members of a policy up to the addresses.
#[derive(Drop)]
pub struct Named {
    pub algorithm: Option<bool>,
    pub common: Option<Patterns>,
    pub dns: Option<Patterns>,
    pub emails: Option<Patterns>,
    pub ips: Option<Patterns>,
}

/// Those from there up to the sizes.
#[derive(Drop)]
pub struct Limits {
    pub ca: bool,
    pub issuers: Patterns,
    pub max: Option<u64>,
    pub max_size: Option<u32>,
    pub min: Option<u64>,
    pub min_size: Option<u32>,
}

fn is_pattern(text: &str) -> bool
    ensures { result ≡ is_pattern_form text.now }
{
    1 <= text.len() && text.len() <= 253
}

#[tactic(auto, unfolding(crate::specs::Approvers::pattern_at))]
fn pattern(alloc: Global, value: &Value) -> Result<Pattern, BadField>
    ensures { Gives (λ t. t) result (pattern_at (view value.now)) }
{
    match value.as_str() {
        Some(text) if is_pattern(text) => Ok(Pattern::from_slice(alloc, text.as_bytes())?),
        _ => Err(BadField::Path(Texts::new(alloc))),
    }
}

fn octets(alloc: Global, address: IpAddr) -> Result<Pattern, AllocError>
    ensures { IfOk result (λ p. p ≡ octets_of_address address) }
{
    match address {
        IpAddr::V4(address) => Pattern::from_slice(alloc, &address.octets()),
        IpAddr::V6(address) => Pattern::from_slice(alloc, &address.octets()),
    }
}

fn address_of(alloc: Global, text: &str) -> Result<Pattern, BadField>
    ensures { Gives (λ t. t) result (address_in text.now) }
{
    if text == "*" {
        return Ok(Pattern::from_slice(alloc, text.as_bytes())?);
    }
    match address_at(text) {
        Some(address) => Ok(octets(alloc, address)?),
        None => Err(BadField::Path(Texts::new(alloc))),
    }
}

#[tactic(auto, unfolding(crate::specs::Approvers::address_pattern_at))]
fn address(alloc: Global, value: &Value) -> Result<Pattern, BadField>
    ensures { Gives (λ t. t) result (address_pattern_at (view value.now)) }
{
    match value.as_str() {
        Some(text) => address_of(alloc, text),
        None => Err(BadField::Path(Texts::new(alloc))),
    }
}

#[tactic(auto, unfolding(crate::specs::Lists::numbered_below))]
fn numbered_pattern(alloc: Global, place: usize, value: &Value) -> Result<Pattern, BadField>
    ensures { Gives (λ t. t) result (numbered_below 100 pattern_at place (view value.now)) }
{
    let name = place.to_string(alloc)?;
    if place < LONGEST_LIST {
        return at(alloc, name.as_str(), pattern(alloc, value));
    }
    Err(BadField::Path(path_to(alloc, name.as_str())?))
}

#[tactic(auto, unfolding(crate::specs::Lists::numbered_below))]
fn numbered_address(alloc: Global, place: usize, value: &Value) -> Result<Pattern, BadField>
    ensures { Gives (λ t. t) result (numbered_below 100 address_pattern_at place (view value.now)) }
{
    let name = place.to_string(alloc)?;
    if place < LONGEST_LIST {
        return at(alloc, name.as_str(), address(alloc, value));
    }
    Err(BadField::Path(path_to(alloc, name.as_str())?))
}

fn patterns_of(alloc: Global, items: &[Value]) -> Result<Patterns, BadField>
    ensures { Gives (λ t. t) result (items_from (numbered_below 100 pattern_at) 0 (items_view items.now)) }
{
    let mut patterns = Patterns::new(alloc);
    for (place, item) in items.iter().enumerate() {
        match numbered_pattern(alloc, place, item) {
            Ok(pattern) => patterns.push(pattern)?,
            Err(error) => return Err(error),
        }
    }
    Ok(patterns)
}

fn addresses_of(alloc: Global, items: &[Value]) -> Result<Patterns, BadField>
    ensures { Gives (λ t. t) result (items_from (numbered_below 100 address_pattern_at) 0 (items_view items.now)) }
{
    let mut patterns = Patterns::new(alloc);
    for (place, item) in items.iter().enumerate() {
        match numbered_address(alloc, place, item) {
            Ok(pattern) => patterns.push(pattern)?,
            Err(error) => return Err(error),
        }
    }
    Ok(patterns)
}

fn patterns(alloc: Global, value: &Value) -> Result<Patterns, BadField>
    ensures { Gives (λ t. t) result (patterns_at (view value.now)) }
{
    match value {
        Value::Array(items) => patterns_of(alloc, items.as_slice()),
        _ => Err(BadField::Path(Texts::new(alloc))),
    }
}

fn addresses(alloc: Global, value: &Value) -> Result<Patterns, BadField>
    ensures { Gives (λ t. t) result (addresses_at (view value.now)) }
{
    match value {
        Value::Array(items) => addresses_of(alloc, items.as_slice()),
        _ => Err(BadField::Path(Texts::new(alloc))),
    }
}

fn patterns_option(
    alloc: Global,
    name: &str,
    value: Option<&Value>,
) -> Result<Option<Patterns>, BadField>
    ensures { Gives (λ t. t) result (member_option name.now patterns_at (shown_option value.entry)) }
{
    match value {
        None => Ok(None),
        Some(value) => Ok(Some(at(alloc, name, patterns(alloc, value))?)),
    }
}

fn addresses_option(
    alloc: Global,
    name: &str,
    value: Option<&Value>,
) -> Result<Option<Patterns>, BadField>
    ensures { Gives (λ t. t) result (member_option name.now addresses_at (shown_option value.entry)) }
{
    match value {
        None => Ok(None),
        Some(value) => Ok(Some(at(alloc, name, addresses(alloc, value))?)),
    }
}

fn every_issuer_pattern(alloc: Global) -> Result<Patterns, AllocError>
    ensures { IfOk result (λ p. p ≡ every_issuer) }
{
    let mut patterns = Patterns::new(alloc);
    patterns.push(Pattern::from_slice(alloc, b"*")?)?;
    Ok(patterns)
}

fn issuers_or_all(alloc: Global, value: Option<&Value>) -> Result<Patterns, BadField>
    ensures { Gives (λ t. t) result (member_or every_issuer (codes "issuers") patterns_at (shown_option value.entry)) }
{
    match value {
        None => Ok(every_issuer_pattern(alloc)?),
        Some(value) => at(alloc, "issuers", patterns(alloc, value)),
    }
}

fn usages_or_none(alloc: Global, value: Option<&Value>) -> Result<Patterns, BadField>
    ensures { Gives (λ t. t) result (member_or [] (codes "usages") patterns_at (shown_option value.entry)) }
{
    match value {
        None => Ok(Patterns::new(alloc)),
        Some(value) => at(alloc, "usages", patterns(alloc, value)),
    }
}

/// Whether it is RSA that has this name.
fn names_rsa(alloc: Global, text: &str) -> Result<bool, BadField>
    ensures { Gives (λ t. t) result (is_rsa_in text.now) }
{
    match text {
        "RSA" => Ok(true),
        "ECDSA" => Ok(false),
        _ => Err(BadField::Path(Texts::new(alloc))),
    }
}

fn is_rsa(alloc: Global, value: &Value) -> Result<bool, BadField>
    ensures { Gives (λ t. t) result (is_rsa_at (view value.now)) }
{
    match value.as_str() {
        Some(text) => names_rsa(alloc, text),
        None => Err(BadField::Path(Texts::new(alloc))),
    }
}

fn algorithm(alloc: Global, value: Option<&Value>) -> Result<Option<bool>, BadField>
    ensures { Gives (λ t. t) result (member_option (codes "algorithm") is_rsa_at (shown_option value.entry)) }
{
    match value {
        None => Ok(None),
        Some(value) => Ok(Some(at(alloc, "algorithm", is_rsa(alloc, value))?)),
    }
}

fn duration_of(alloc: Global, text: &str) -> Result<u64, BadField>
    ensures { Gives (λ t. t) result (found (duration_seconds text.now)) }
{
    match read_duration(text) {
        Ok(seconds) => Ok(seconds),
        Err(_) => Err(BadField::Path(Texts::new(alloc))),
    }
}

fn duration(alloc: Global, value: &Value) -> Result<u64, BadField>
    ensures { Gives (λ t. t) result (duration_at (view value.now)) }
{
    match value.as_str() {
        Some(text) => duration_of(alloc, text),
        None => Err(BadField::Path(Texts::new(alloc))),
    }
}

fn duration_option(
    alloc: Global,
    name: &str,
    value: Option<&Value>,
) -> Result<Option<u64>, BadField>
    ensures { Gives (λ t. t) result (member_option name.now duration_at (shown_option value.entry)) }
{
    match value {
        None => Ok(None),
        Some(value) => Ok(Some(at(alloc, name, duration(alloc, value))?)),
    }
}

fn flag_or_false(alloc: Global, name: &str, value: Option<&Value>) -> Result<bool, BadField>
    ensures { Gives (λ t. t) result (member_or false name.now flag_at (shown_option value.entry)) }
{
    match value {
        None => Ok(false),
        Some(value) => at(alloc, name, flag(alloc, value)),
    }
}

#[tactic(auto, unfolding(crate::specs::Approvers::named_in))]
fn named_members<'a, 'b>(
    alloc: Global,
    rest: Fields<'a, 'b>,
) -> Result<(Named, Fields<'a, 'b>), BadField>
    ensures { Gives (λ p. (p.0, map shown p.1.now)) result (named_in (map shown rest.now)) }
{
    let (given, rest) = optional(alloc, rest, "algorithm")?;
    let algorithm = algorithm(alloc, given)?;
    let (given, rest) = optional(alloc, rest, "commonName")?;
    let common = patterns_option(alloc, "commonName", given)?;
    let (given, rest) = optional(alloc, rest, "dnsNames")?;
    let dns = patterns_option(alloc, "dnsNames", given)?;
    let (given, rest) = optional(alloc, rest, "emailAddresses")?;
    let emails = patterns_option(alloc, "emailAddresses", given)?;
    let (given, rest) = optional(alloc, rest, "ipAddresses")?;
    let ips = addresses_option(alloc, "ipAddresses", given)?;
    let named = Named {
        algorithm,
        common,
        dns,
        emails,
        ips,
    };
    Ok((named, rest))
}

#[tactic(auto, unfolding(crate::specs::Approvers::limits_in))]
fn limit_members<'a, 'b>(
    alloc: Global,
    rest: Fields<'a, 'b>,
) -> Result<(Limits, Fields<'a, 'b>), BadField>
    ensures { Gives (λ p. (p.0, map shown p.1.now)) result (limits_in (map shown rest.now)) }
{
    let (given, rest) = optional(alloc, rest, "isCA")?;
    let ca = flag_or_false(alloc, "isCA", given)?;
    let (given, rest) = optional(alloc, rest, "issuers")?;
    let issuers = issuers_or_all(alloc, given)?;
    let (given, rest) = optional(alloc, rest, "maxDuration")?;
    let max = duration_option(alloc, "maxDuration", given)?;
    let (given, rest) = optional(alloc, rest, "maxSize")?;
    let max_size = small_count_option(alloc, "maxSize", given)?;
    let (given, rest) = optional(alloc, rest, "minDuration")?;
    let min = duration_option(alloc, "minDuration", given)?;
    let (given, rest) = optional(alloc, rest, "minSize")?;
    let min_size = small_count_option(alloc, "minSize", given)?;
    let limits = Limits {
        ca,
        issuers,
        max,
        max_size,
        min,
        min_size,
    };
    Ok((limits, rest))
}

fn policy_name(alloc: Global, value: &Value) -> Result<Pattern, BadField>
    ensures { Gives (λ t. t) result (text_at (view value.now)) }
{
    match value.as_str() {
        Some(text) => Ok(Pattern::from_slice(alloc, text.as_bytes())?),
        None => Err(BadField::Path(Texts::new(alloc))),
    }
}

fn put_together(
    named: Named,
    limits: Limits,
    name: Pattern,
    uris: Option<Patterns>,
    usages: Patterns,
) -> Policy
    ensures { result ≡ policy_of named limits name uris usages }
{
    let Named {
        algorithm,
        common,
        dns,
        emails,
        ips,
    } = named;
    let Limits {
        ca,
        issuers,
        max,
        max_size,
        min,
        min_size,
    } = limits;
    Policy {
        name,
        issuers,
        common,
        dns,
        ips,
        uris,
        emails,
        usages,
        ca,
        min,
        max,
        algorithm,
        min_size,
        max_size,
    }
}

#[tactic(auto, unfolding(crate::specs::Approvers::policy_at))]
fn policy(alloc: Global, value: &Value) -> Result<Policy, BadField>
    ensures { Gives (λ t. t) result (policy_at (view value.now)) }
{
    let members = fields(alloc, value)?;
    let (named, rest) = named_members(alloc, &members)?;
    let (limits, rest) = limit_members(alloc, rest)?;
    let (given, rest) = required(alloc, rest, "name")?;
    let name = at(alloc, "name", policy_name(alloc, given))?;
    let (given, rest) = optional(alloc, rest, "uris")?;
    let uris = patterns_option(alloc, "uris", given)?;
    let (given, rest) = optional(alloc, rest, "usages")?;
    let usages = usages_or_none(alloc, given)?;
    check_end(alloc, rest)?;
    Ok(put_together(named, limits, name, uris, usages))
}

#[tactic(auto, unfolding(crate::specs::Lists::numbered_below))]
fn numbered_policy(alloc: Global, place: usize, value: &Value) -> Result<Policy, BadField>
    ensures { Gives (λ t. t) result (numbered_below 100 policy_at place (view value.now)) }
{
    let name = place.to_string(alloc)?;
    if place < LONGEST_LIST {
        return at(alloc, name.as_str(), policy(alloc, value));
    }
    Err(BadField::Path(path_to(alloc, name.as_str())?))
}

fn policies_of(alloc: Global, items: &[Value]) -> Result<Policies, BadField>
    ensures { Gives (λ t. t) result (items_from (numbered_below 100 policy_at) 0 (items_view items.now)) }
{
    let mut policies = Policies::new(alloc);
    for (place, item) in items.iter().enumerate() {
        match numbered_policy(alloc, place, item) {
            Ok(policy) => policies.push(policy)?,
            Err(error) => return Err(error),
        }
    }
    Ok(policies)
}

fn listed(alloc: Global, value: &Value) -> Result<Policies, BadField>
    ensures { Gives (λ t. t) result (policies_at (view value.now)) }
{
    match value {
        Value::Array(items) => policies_of(alloc, items.as_slice()),
        _ => Err(BadField::Path(Texts::new(alloc))),
    }
}

/// The policies of the member `policies`, at most 100.
pub fn policies(alloc: Global, value: Option<&Value>) -> Result<Policies, BadField>
    ensures { Gives (λ t. t) result (member_or [] (codes "policies") policies_at (shown_option value.entry)) }
{
    match value {
        None => Ok(Policies::new(alloc)),
        Some(value) => at(alloc, "policies", listed(alloc, value)),
    }
}
