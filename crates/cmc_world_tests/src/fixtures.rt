//! Scenarios and the values that their passes wait for.
use cmc_answers::{ScriptedSigner, Signer, judge};
use cmc_keys::{KeyMaker, ScriptedKeys, is_allowed_size};
use cmc_meta::{Kind, Numbers, Texts};
use cmc_objects::{CertStatus, Certificate, Material, Object, Order, Role, Rules, Shared, Step};
use cmc_pass::Given;
use cmc_policy_rules::Policies;
use cmc_setup::{Roles, Scenario, Steps, is_setup};
use cmc_tests::values::{key, least_spec, new_meta, texts};
use cmc_world::Stepped;
use std::alloc::Global;
use std::test::Fail;

/// A Certificate that was not stored yet, with this name, Secret and DNS name.
pub(crate) fn certificate(
    alloc: Global,
    word: &str,
    secret: &str,
    host: &str,
) -> Result<Certificate, Fail> {
    let meta = new_meta(alloc, word)?;
    Ok(Certificate {
        meta,
        spec: Shared::new(alloc, least_spec(alloc, secret, host)?)?,
        status: Shared::new(alloc, CertStatus::new(alloc))?,
    })
}

/// The step that applies the Certificate.
pub(crate) fn apply(alloc: Global, certificate: Certificate) -> Result<Step, Fail> {
    Ok(Step::Apply {
        object: Object::of_certificate(alloc, certificate)?,
        version: None,
    })
}

/// The step that applies such a Certificate.
pub(crate) fn applied(alloc: Global, word: &str, secret: &str, host: &str) -> Result<Step, Fail> {
    apply(alloc, certificate(alloc, word, secret, host)?)
}

/// Puts the step after those of the script, where there is one.
pub(crate) fn put(steps: &mut Steps, step: Result<Step, Fail>) -> Result<(), Fail> {
    steps.push(step?)?;
    Ok(())
}

fn scenario_of(
    events: u64,
    window: u64,
    roles: Roles,
    faults: Numbers,
    approver: Rules,
    material: Material,
    script: Steps,
) -> Result<Scenario, Fail> {
    if is_setup(
        events,
        window,
        1_893_456_000,
        &roles,
        &faults,
        &approver,
        &material,
        &script,
    ) {
        return Ok(Scenario::new(
            events,
            window,
            1_893_456_000,
            roles,
            faults,
            approver,
            material,
            script,
        ));
    }
    Err(Fail::from("no scenario"))
}

/// The eight roles in their order.
pub(crate) static ROLES: [Role; 8] = [
    Role::Trigger,
    Role::KeyManager,
    Role::RequestManager,
    Role::Approver,
    Role::Issuer,
    Role::Issuing,
    Role::Readiness,
    Role::Revision,
];

fn all_roles(alloc: Global) -> Result<Roles, Fail> {
    let mut roles = Roles::new(alloc);
    for role in &ROLES {
        roles.add(*role)?;
    }
    Ok(roles)
}

/// An approver that judges the requests of every issuer, and refuses none.
fn any_issuer(alloc: Global) -> Result<Rules, Fail> {
    Ok(Rules {
        issuers: texts(alloc, "*")?,
        refuse: Texts::new(alloc),
        policies: Policies::new(alloc),
    })
}

/// A scenario with all roles, and with an approver of every issuer.
pub(crate) fn whole_scenario(
    alloc: Global,
    events: u64,
    window: u64,
    faults: Numbers,
    material: Material,
    script: Steps,
) -> Result<Scenario, Fail> {
    let roles = all_roles(alloc)?;
    let approver = any_issuer(alloc)?;
    scenario_of(events, window, roles, faults, approver, material, script)
}

/// A scenario with all roles, and with an approver of no issuer, in which a user denies the first request of the Certificate
/// `web` once all is at rest.
pub(crate) fn denied_scenario(alloc: Global) -> Result<Scenario, Fail> {
    let mut steps = Steps::new(alloc);
    put(&mut steps, applied(alloc, "web", "web-tls", "example.com"))?;
    steps.push(Step::Settle)?;
    steps.push(Step::Deny {
        certificate: key(alloc, Kind::Certificate, "web")?,
        revision: 1,
    })?;
    steps.push(Step::Settle)?;
    let roles = all_roles(alloc)?;
    let approver = Rules {
        issuers: Texts::new(alloc),
        refuse: Texts::new(alloc),
        policies: Policies::new(alloc),
    };
    let none = Material::new(alloc);
    let faults = Numbers::new(alloc);
    scenario_of(400, 1000, roles, faults, approver, none, steps)
}

/// The value of the question, as the scenario's own maker and signer have it.
pub(crate) fn value_of(alloc: Global, order: &Order) -> Result<Given, Fail> {
    match order {
        Order::Key(asked) => {
            if is_allowed_size(asked.algorithm, asked.size) {
                return Ok(Given::Made(ScriptedKeys.make(alloc, asked)?));
            }
            Err(Fail::from("no size"))
        }
        Order::Csr(asked) => Ok(Given::Signed(ScriptedKeys.sign(alloc, asked)?)),
        Order::Sign(asked) => Ok(Given::Answered(ScriptedSigner.sign(alloc, asked)?)),
        Order::Judge(asked) => Ok(Given::Judged(judge(alloc, asked.copy()?)?)),
    }
}

/// The same; the question is dropped after it.
pub(crate) fn value_then(alloc: Global, order: Order) -> Result<Given, Fail> {
    value_of(alloc, &order)
}

/// Whether the move was made; the answer is dropped after it.
pub(crate) fn is_done(answer: Stepped) -> bool {
    answer.is_done()
}
