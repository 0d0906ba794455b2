//! What no clause says: that approval policies are copied where memory is ample.
use crate::checks::passes;
use crate::values::{patterns, policy};
use cmc_policy_rules::{Policies, Policy};
use std::alloc::{AllocError, Global};
use std::test::Fail;

fn policy_of(alloc: Global) -> Result<Policy, AllocError> {
    let mut policy = policy(alloc, "shops", "ca-*", "*.example.com")?;
    policy.usages = patterns(alloc, "server auth")?;
    policy.max = Some(7_776_000);
    policy.algorithm = Some(true);
    policy.min_size = Some(2048);
    Ok(policy)
}

fn policies(alloc: Global) -> Result<Policies, AllocError> {
    let mut policies = Policies::new(alloc);
    policies.push(policy_of(alloc)?)?;
    Ok(policies)
}

/// How many policies the copy has, and whether it is the same.
fn copied(policies: &Policies) -> Result<(usize, bool), AllocError> {
    let copied = policies.copy()?;
    Ok((copied.as_slice().len(), copied.same(policies)))
}

#[test]
fn copies_policies(rt: HostRuntime) -> Result<(), Fail> {
    let policies = policies(rt.alloc())?;
    let (count, is_same) = copied(&policies)?;
    passes(&rt, "one policy", count == 1);
    passes(&rt, "the same", is_same);
    Ok(())
}
