//! Tests of one sort of names.
ghost use Rattle.std.specs.Prelude.{◌≡◌};
ghost use Rattle.std.specs.List.{list_all};
ghost use Rattle.std.specs.Option.{option_to_list};
ghost use Rattle.std.specs.Str.{bytes_eq};
ghost use Rattle.cmc_policy_rules.specs.Allowed as spec;

use crate::matching::matches;
use crate::pattern::Pattern;
use crate::patterns::Patterns;

/// Whether some pattern matches the text.
pub fn matches_any(patterns: &[Pattern], text: &[u8]) -> bool
    ensures { result ≡ spec.matches_any patterns.now text.now }
{
    patterns
        .iter()
        .any(|pattern| matches(pattern.as_slice(), text))
}

fn is_entry(entry: &Pattern, text: &[u8]) -> bool
    ensures { result ≡ bytes_eq entry.now text.now }
{
    entry.as_slice() == text
}

/// Whether a text of the list has just these bytes.
pub fn has_entry(list: &[Pattern], text: &[u8]) -> bool
    ensures { result ≡ spec.has_entry list.now text.now }
{
    list.iter().any(|entry| is_entry(entry, text))
}

fn matches_each(patterns: &[Pattern], names: &[Pattern]) -> bool
    ensures { result ≡ list_all (λ name. spec.matches_any patterns.now name) names.now }
{
    names
        .iter()
        .all(|name| matches_any(patterns, name.as_slice()))
}

fn has_address(list: &[Pattern], octets: &[u8]) -> bool
    ensures { result ≡ spec.has_address list.now octets.now }
{
    has_entry(list, octets) || has_entry(list, b"*")
}

fn has_each_address(list: &[Pattern], addresses: &[Pattern]) -> bool
    ensures { result ≡ list_all (λ octets. spec.has_address list.now octets) addresses.now }
{
    addresses
        .iter()
        .all(|address| has_address(list, address.as_slice()))
}

/// Whether the names are allowed by the policy's list of patterns.
pub fn allows_names(allowed: &Option<Patterns>, names: &Patterns) -> bool
    ensures { result ≡ spec.allows_names allowed.now names.now }
{
    match allowed {
        Some(patterns) => matches_each(patterns.as_slice(), names.as_slice()),
        None => names.as_slice().is_empty(),
    }
}

/// Whether the name, where there is one, is allowed.
pub fn allows_name(allowed: &Option<Patterns>, name: &Option<Pattern>) -> bool
    ensures { result ≡ spec.allows_names allowed.now (option_to_list name.now) }
{
    match (allowed, name) {
        (_, None) => true,
        (Some(patterns), Some(text)) => matches_any(patterns.as_slice(), text.as_slice()),
        (None, Some(_)) => false,
    }
}

/// Whether the addresses are allowed by the policy's list.
pub fn allows_addresses(allowed: &Option<Patterns>, addresses: &Patterns) -> bool
    ensures { result ≡ spec.allows_addresses allowed.now addresses.now }
{
    match allowed {
        Some(list) => has_each_address(list.as_slice(), addresses.as_slice()),
        None => addresses.as_slice().is_empty(),
    }
}

/// Whether each of the texts stands in the list.
pub fn has_each(list: &Patterns, texts: &Patterns) -> bool
    ensures { result ≡ list_all (λ text. spec.has_entry list.now text) texts.now }
{
    let list = list.as_slice();
    texts
        .as_slice()
        .iter()
        .all(|text| has_entry(list, text.as_slice()))
}
