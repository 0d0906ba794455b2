// Policies as JSON.
ghost use Rattle.std.specs.Prelude.{◌≡◌, codes, IfOk, OnOk};
ghost use Rattle.cmc_print.specs.Puts.{put_option, put_list};
ghost use Rattle.cmc_print.specs.Trees.{data_of, members_of};
ghost use Rattle.cmc_scenario_print.specs.PolicyTrees.{algorithm_text, key_algorithm_tree, policies_tree, policy_tree, put_limits, put_allowed_names};

use crate::patterns::{
    pattern_text, put_addresses_option, put_patterns, put_patterns_option, put_policy_issuers,
};
use cmc_policy_rules::Policy;
use cmc_print::{
    Members, Tree, Trees, put_duration, put_if_true, put_small_count_option, put_text,
};
use std::alloc::{AllocError, Global};

fn algorithm_word(is_rsa: bool) -> &'static str
    ensures { result.now ≡ algorithm_text is_rsa }
{
    if is_rsa { "RSA" } else { "ECDSA" }
}

fn put_algorithm(
    members: &mut Members,
    alloc: Global,
    algorithm: Option<bool>,
) -> Result<(), AllocError>
    ensures { OnOk result (members_of members.new ≡ put_option key_algorithm_tree (codes "algorithm") algorithm (members_of members.old)) }
{
    match algorithm {
        None => Ok(()),
        Some(is_rsa) => put_text(members, alloc, "algorithm", algorithm_word(is_rsa)),
    }
}

#[tactic(auto, unfolding(crate::specs::PolicyTrees::put_allowed_names))]
fn add_names(members: &mut Members, alloc: Global, policy: &Policy) -> Result<(), AllocError>
    ensures { OnOk result (members_of members.new ≡ put_allowed_names policy.now (members_of members.old)) }
{
    put_algorithm(members, alloc, policy.algorithm)?;
    put_patterns_option(members, alloc, "commonName", &policy.common)?;
    put_patterns_option(members, alloc, "dnsNames", &policy.dns)?;
    put_patterns_option(members, alloc, "emailAddresses", &policy.emails)?;
    put_addresses_option(members, alloc, "ipAddresses", &policy.ips)
}

#[tactic(auto, unfolding(crate::specs::PolicyTrees::put_limits))]
fn add_limits(members: &mut Members, alloc: Global, policy: &Policy) -> Result<(), AllocError>
    ensures { OnOk result (members_of members.new ≡ put_limits policy.now (members_of members.old)) }
{
    put_if_true(members, alloc, "isCA", policy.ca)?;
    put_policy_issuers(members, alloc, policy.issuers.as_slice())?;
    put_duration(members, alloc, "maxDuration", policy.max)?;
    put_small_count_option(members, alloc, "maxSize", policy.max_size)?;
    put_duration(members, alloc, "minDuration", policy.min)?;
    put_small_count_option(members, alloc, "minSize", policy.min_size)
}

#[tactic(auto, unfolding(crate::specs::PolicyTrees::policy_tree))]
fn policy_of(alloc: Global, policy: &Policy) -> Result<Tree, AllocError>
    ensures { IfOk result (λ t. data_of t ≡ policy_tree policy.now) }
{
    let mut members = Members::new(alloc);
    add_names(&mut members, alloc, policy)?;
    add_limits(&mut members, alloc, policy)?;
    let name = pattern_text(alloc, &policy.name)?;
    members.put(alloc, "name", name)?;
    put_patterns_option(&mut members, alloc, "uris", &policy.uris)?;
    put_patterns(&mut members, alloc, "usages", policy.usages.as_slice())?;
    Ok(Tree::object(members))
}

fn list(alloc: Global, policies: &[Policy]) -> Result<Tree, AllocError>
    ensures { IfOk result (λ t. data_of t ≡ policies_tree policies.now) }
{
    let mut trees = Trees::new(alloc);
    for policy in policies {
        trees.push(policy_of(alloc, policy)?)?;
    }
    Ok(Tree::list(trees))
}

/// Puts a list of policies, unless it is empty.
pub fn put_policies(
    members: &mut Members,
    alloc: Global,
    policies: &[Policy],
) -> Result<(), AllocError>
    ensures { OnOk result (members_of members.new ≡ put_list policies_tree (codes "policies") policies.now (members_of members.old)) }
{
    if policies.is_empty() {
        return Ok(());
    }
    let tree = list(alloc, policies)?;
    members.put(alloc, "policies", tree)
}
