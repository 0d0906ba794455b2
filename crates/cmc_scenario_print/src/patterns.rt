// Patterns of policies as texts.
ghost use Rattle.std.specs.Prelude.{◌≡◌, length, codes, map, string_bytes, IfOk, OnOk};
ghost use Rattle.std.specs.Net.Addr.{segments_of};
ghost use Rattle.std.specs.Net.Text.{ipv4_text, hex_groups_text};
ghost use Rattle.std.specs.Str.Lossy.{utf8_lossy};
ghost use Rattle.cmc_print.specs.Puts.{put_option, put_list};
ghost use Rattle.cmc_print.specs.Trees.{data_of, members_of};
ghost use Rattle.cmc_scenario_print.specs.Defaults.{put_unless, is_every_issuer};
ghost use Rattle.cmc_scenario_print.specs.PolicyTrees.{address_text, address_tree, addresses_tree, pattern_tree, patterns_tree};

use cmc_policy_rules::{Pattern, Patterns};
use cmc_print::{Members, Tree, Trees};
use std::alloc::{AllocError, Global};
use std::net::{Ipv4Addr, Ipv6Addr};

fn ipv4_word(alloc: Global, octets: &[u8]) -> Result<String, AllocError>
    requires { length octets.now ≡ 4 }
    ensures { IfOk result (λ s. string_bytes s ≡ ipv4_text octets.now) }
{
    let mut address = [0; 4];
    address.copy_from_slice(octets);
    Ipv4Addr::from_octets(address).to_string(alloc)
}

fn ipv6_word(alloc: Global, octets: &[u8]) -> Result<String, AllocError>
    requires { length octets.now ≡ 16 }
    ensures { IfOk result (λ s. string_bytes s ≡ hex_groups_text (segments_of octets.now)) }
{
    let mut address = [0; 16];
    address.copy_from_slice(octets);
    Ipv6Addr::from_octets(address).hex_groups().to_string(alloc)
}

fn address_word(alloc: Global, pattern: &[u8]) -> Result<String, AllocError>
    ensures { IfOk result (λ s. string_bytes s ≡ address_text pattern.now) }
{
    if pattern.len() == 4 {
        return ipv4_word(alloc, pattern);
    }
    if pattern.len() == 16 {
        return ipv6_word(alloc, pattern);
    }
    String::from_utf8_lossy(alloc, pattern)
}

fn address(alloc: Global, pattern: &Pattern) -> Result<Tree, AllocError>
    ensures { IfOk result (λ t. data_of t ≡ address_tree pattern.now) }
{
    let text = address_word(alloc, pattern.as_slice())?;
    Tree::text(alloc, text.as_str())
}

fn addresses(alloc: Global, patterns: &[Pattern]) -> Result<Tree, AllocError>
    ensures { IfOk result (λ t. data_of t ≡ addresses_tree patterns.now) }
{
    let mut trees = Trees::new(alloc);
    for pattern in patterns {
        trees.push(address(alloc, pattern)?)?;
    }
    Ok(Tree::list(trees))
}

/// A pattern as a text.
pub fn pattern_text(alloc: Global, pattern: &Pattern) -> Result<Tree, AllocError>
    ensures { IfOk result (λ t. data_of t ≡ pattern_tree pattern.now) }
{
    let text = String::from_utf8_lossy(alloc, pattern.as_slice())?;
    Tree::text(alloc, text.as_str())
}

fn texts(alloc: Global, patterns: &[Pattern]) -> Result<Tree, AllocError>
    ensures { IfOk result (λ t. data_of t ≡ patterns_tree patterns.now) }
{
    let mut trees = Trees::new(alloc);
    for pattern in patterns {
        trees.push(pattern_text(alloc, pattern)?)?;
    }
    Ok(Tree::list(trees))
}

/// Puts a list of patterns, where there is one.
pub fn put_patterns_option(
    members: &mut Members,
    alloc: Global,
    name: &str,
    patterns: &Option<Patterns>,
) -> Result<(), AllocError>
    ensures { OnOk result (members_of members.new ≡ put_option patterns_tree name.now patterns.now (members_of members.old)) }
{
    match patterns {
        None => Ok(()),
        Some(patterns) => {
            let tree = texts(alloc, patterns.as_slice())?;
            members.put(alloc, name, tree)
        }
    }
}

/// Puts a list of addresses, where there is one.
pub fn put_addresses_option(
    members: &mut Members,
    alloc: Global,
    name: &str,
    patterns: &Option<Patterns>,
) -> Result<(), AllocError>
    ensures { OnOk result (members_of members.new ≡ put_option addresses_tree name.now patterns.now (members_of members.old)) }
{
    match patterns {
        None => Ok(()),
        Some(patterns) => {
            let tree = addresses(alloc, patterns.as_slice())?;
            members.put(alloc, name, tree)
        }
    }
}

/// Puts a list of patterns, unless it is empty.
pub fn put_patterns(
    members: &mut Members,
    alloc: Global,
    name: &str,
    patterns: &[Pattern],
) -> Result<(), AllocError>
    ensures { OnOk result (members_of members.new ≡ put_list patterns_tree name.now patterns.now (members_of members.old)) }
{
    if patterns.is_empty() {
        return Ok(());
    }
    let tree = texts(alloc, patterns)?;
    members.put(alloc, name, tree)
}

fn is_for_every_issuer(patterns: &[Pattern]) -> bool
    ensures { result ≡ is_every_issuer patterns.now }
{
    match patterns {
        [issuer] => issuer.as_slice() == b"*".as_slice(),
        _ => false,
    }
}

/// Puts the issuers that a policy is for, unless it is for all.
pub fn put_policy_issuers(
    members: &mut Members,
    alloc: Global,
    patterns: &[Pattern],
) -> Result<(), AllocError>
    ensures { OnOk result (members_of members.new ≡ put_unless (is_every_issuer patterns.now) patterns_tree (codes "issuers") patterns.now (members_of members.old)) }
{
    if is_for_every_issuer(patterns) {
        return Ok(());
    }
    let tree = texts(alloc, patterns)?;
    members.put(alloc, "issuers", tree)
}
