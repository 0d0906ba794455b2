//! Patterns and policies: worked rows.
use crate::checks::{passes, tells};
use crate::values::{patterns, policy};
use cmc_policy_rules::{
    Decision, Field, Pattern, Patterns, Policies, Policy, Wanted, allows, decide, matches,
};
use std::alloc::{AllocError, Global};
use std::test::Fail;

static PATTERNS: [(&str, &str, bool); 10] = [
    ("a*b", "ab", true),
    ("a*b", "a", false),
    ("*", "", true),
    ("a*a", "a", false),
    ("*.example.com", "example.com", false),
    ("*.example.com", "a.example.com.example.com", true),
    ("a*b*c", "abbc", true),
    ("a*b*c", "acb", false),
    ("", "", true),
    ("**", "a", true),
];

#[test]
fn matches_patterns(rt: HostRuntime) {
    for (pattern, text, want) in &PATTERNS {
        let fits = matches(pattern.as_bytes(), text.as_bytes());
        passes(&rt, pattern, fits == *want);
    }
}

/// The word 126 times, and then the end.
fn repeated(alloc: Global, word: &[u8], end: &[u8]) -> Result<Vec<u8>, AllocError> {
    let mut text = Vec::new(alloc);
    for _ in 0..126 {
        text.extend_from_slice(word)?;
    }
    text.extend_from_slice(end)?;
    Ok(text)
}

#[test]
fn matches_long_texts(rt: HostRuntime) -> Result<(), Fail> {
    let pattern = repeated(rt.alloc(), b"a*", b"b")?;
    let mut text = repeated(rt.alloc(), b"aa", b"")?;
    passes(&rt, "a long text", !matches(&pattern, &text));
    text.push(b'b')?;
    passes(&rt, "a longer text", matches(&pattern, &text));
    Ok(())
}

fn policy_of(alloc: Global, issuers: &str, most: u64) -> Result<Policy, AllocError> {
    let mut policy = policy(alloc, "shops", issuers, "*example.com")?;
    policy.usages = patterns(alloc, "server auth")?;
    policy.max = Some(most);
    Ok(policy)
}

fn wanted(alloc: Global) -> Result<Wanted, AllocError> {
    let issuer = Pattern::from_slice(alloc, b"ca")?;
    let dns = patterns(alloc, "www.example.com")?;
    let usages = patterns(alloc, "server auth")?;
    Ok(Wanted {
        issuer,
        common: None,
        dns,
        ips: Patterns::new(alloc),
        uris: Patterns::new(alloc),
        emails: Patterns::new(alloc),
        usages,
        ca: false,
        duration: 7_776_000,
        rsa: Some(false),
        size: 256,
    })
}

fn refusal(alloc: Global, wanted: &Wanted, most: u64) -> Result<Option<Field>, AllocError> {
    Ok(allows(&policy_of(alloc, "*", most)?, wanted).err())
}

#[test]
fn allows_by_bounds(rt: HostRuntime) -> Result<(), Fail> {
    let alloc = rt.alloc();
    let wanted = wanted(alloc)?;
    let refused = refusal(alloc, &wanted, 7_776_000)?;
    passes(&rt, "90 days", refused.is_none());
    let refused = refusal(alloc, &wanted, 7_775_999)?;
    passes(&rt, "a second less", refused == Some(Field::MaxDuration));
    Ok(())
}

fn told(decision: Decision) -> &'static str {
    match decision {
        Decision::Unbound => "unbound",
        Decision::No {
            place: 1,
            field: Field::MaxDuration,
        } => "the second refuses the duration",
        Decision::Yes { place: 2 } => "the third allows",
        _ => "another decision",
    }
}

/// One policy more, for requests to these issuers.
fn add(alloc: Global, policies: &mut Policies, issuers: &str, most: u64) -> Result<(), AllocError> {
    policies.push(policy_of(alloc, issuers, most)?)
}

#[test]
fn decides_by_the_first(rt: HostRuntime) -> Result<(), Fail> {
    let alloc = rt.alloc();
    let wanted = wanted(alloc)?;
    let mut policies = Policies::new(alloc);
    tells(&rt, "none", told(decide(&policies, &wanted)), "unbound");
    for (issuers, most, want) in &DECISIONS {
        add(alloc, &mut policies, issuers, *most)?;
        tells(&rt, issuers, told(decide(&policies, &wanted)), want);
    }
    Ok(())
}

/// The issuers of one policy more, its longest duration, and what is then decided.
static DECISIONS: [(&str, u64, &str); 3] = [
    ("other", 7_776_000, "unbound"),
    ("c*", 1, "the second refuses the duration"),
    ("*", 7_776_000, "the third allows"),
];
