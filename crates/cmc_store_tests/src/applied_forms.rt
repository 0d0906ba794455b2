// Which Certificates a scenario can apply, by rows of which each has at most one part out of its form.
use crate::checks::passes;
use cmc_meta::{Numbers, Texts};
use cmc_objects::{CertSpec, CertStatus, Certificate, Material, Object, Rules, Shared, Step};
use cmc_policy_rules::Policies;
use cmc_scenario::{Roles, Steps, is_setup};
use cmc_tests::values::{column, least_spec, new_meta, number, text, texts};
use std::alloc::Global;
use std::test::Fail;

/// What varies of the Certificate: its common name, DNS name, address, URI, and how long before its end it is renewed, in
/// seconds; and whether a scenario can apply it.
static ROWS: [&str; 9] = [
    "all in form|web|example.com|192.0.2.1|spiffe://example.com/web|3599999996400|applied",
    "an empty common name||example.com|2001:db8::1|a|0|applied",
    "a control character in the common name|we\tb|example.com|192.0.2.1|a|0|refused",
    "a DNS name of 253 bytes|web|aaaaaaaaaaaaaaaaaaaaaaaaaaaaaaaaaaaaaaaaaaaaaaaaaaaaaaaaaaaaaaaaaaaaaaaaaaaaaaaaaaaaaaaaaaaaaaaaaaaaaaaaaaaaaaaaaaaaaaaaaaaaaaaaaaaaaaaaaaaaaaaaaaaaaaaaaaaaaaaaaaaaaaaaaaaaaaaaaaaaaaaaaaaaaaaaaaaaaaaaaaaaaaaaaaaaaaaaaaaaaaaaaaaaaaaaaaaaaaaaaaaaaaaaaaaaa|192.0.2.1|a|0|applied",
    "a DNS name of 254 bytes|web|aaaaaaaaaaaaaaaaaaaaaaaaaaaaaaaaaaaaaaaaaaaaaaaaaaaaaaaaaaaaaaaaaaaaaaaaaaaaaaaaaaaaaaaaaaaaaaaaaaaaaaaaaaaaaaaaaaaaaaaaaaaaaaaaaaaaaaaaaaaaaaaaaaaaaaaaaaaaaaaaaaaaaaaaaaaaaaaaaaaaaaaaaaaaaaaaaaaaaaaaaaaaaaaaaaaaaaaaaaaaaaaaaaaaaaaaaaaaaaaaaaaaaaaaaaaaaa|192.0.2.1|a|0|refused",
    "a DNS name that is no ASCII|web|b\u{fc}ro.example|192.0.2.1|a|0|refused",
    "an empty URI|web|example.com|192.0.2.1||0|refused",
    "an octet of 256|web|example.com|256.1.1.1|a|0|refused",
    "a renewal too early|web|example.com|192.0.2.1|a|3599999996401|refused",
];

// The lists are filled where they stand, so that no `?` lets a spec go.
fn fill(alloc: Global, spec: &mut CertSpec, row: &str) -> Result<(), Fail> {
    spec.common_name = text(alloc, column(row, 1))?;
    spec.ip_addresses = texts(alloc, column(row, 3))?;
    spec.uris = texts(alloc, column(row, 4))?;
    spec.renew_before = number(column(row, 5));
    Ok(())
}

fn spec(alloc: Global, row: &str) -> Result<CertSpec, Fail> {
    let mut spec = least_spec(alloc, "web-tls", column(row, 2))?;
    fill(alloc, &mut spec, row)?;
    Ok(spec)
}

fn certificate(alloc: Global, row: &str) -> Result<Certificate, Fail> {
    let meta = new_meta(alloc, "web")?;
    Ok(Certificate {
        meta,
        spec: Shared::new(alloc, spec(alloc, row)?)?,
        status: Shared::new(alloc, CertStatus::new(alloc))?,
    })
}

/// The script that applies the Certificate of the row.
fn script(alloc: Global, row: &str) -> Result<Steps, Fail> {
    let object = Object::of_certificate(alloc, certificate(alloc, row)?)?;
    let mut steps = Steps::new(alloc);
    steps.push(Step::Apply {
        object,
        version: None,
    })?;
    Ok(steps)
}

/// Whether a scenario that does no more than this script is one.
fn is_scenario(alloc: Global, script: &Steps) -> bool {
    let approver = Rules {
        issuers: Texts::new(alloc),
        refuse: Texts::new(alloc),
        policies: Policies::new(alloc),
    };
    let material = Material::new(alloc);
    is_setup(
        100,
        100,
        1_893_456_000,
        &Roles::new(alloc),
        &Numbers::new(alloc),
        &approver,
        &material,
        script,
    )
}

fn is_applied(alloc: Global, row: &str) -> Result<bool, Fail> {
    let script = script(alloc, row)?;
    Ok(is_scenario(alloc, &script))
}

#[test]
fn applies_what_has_the_form(rt: HostRuntime) -> Result<(), Fail> {
    for row in &ROWS {
        let expected = column(row, 6) == "applied";
        passes(&rt, row, is_applied(rt.alloc(), row)? == expected);
    }
    Ok(())
}
