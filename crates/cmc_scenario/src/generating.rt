// A scenario that asks for many Certificates at once.
ghost use Rattle.std.specs.Prelude.{◌≡◌, ◌++◌, ◌∷◌, [], ◌<◌, ◌≤◌, true, IfOk, OnOk, string_bytes};
ghost use Rattle.cmc_time.specs.Texts.{four_digits, two_digits};
ghost use Rattle.cmc_meta.specs.Names.{is_subdomain};
ghost use Rattle.cmc_objects.specs.Objects.{no_cert_status};
ghost use Rattle.cmc_scenario.specs.Loads.{load_host, load_meta, load_name, load_secret, load_setup, load_spec, load_step, loads, rests};

use crate::members::USUAL_MOMENT;
use crate::roles::every_role;
use cmc_material::usual_approver;
use cmc_meta::{BadName, Conditions, Name, Numbers, ObjectMeta, Owners, Pairs, Text, Texts};
use cmc_objects::{
    Algorithm, CertSpec, CertStatus, Certificate, IssuerRef, KeySpec, Material, Object, Shared,
    Step,
};
use cmc_setup::{Roles, Scenario, Steps};
use std::alloc::{AllocError, Global};

// 60 days.
const LONG_TIME: u64 = 5_184_000;

fn push_two_digits(text: &mut String, number: u32) -> Result<(), AllocError>
    requires { number < 100 }
    ensures { OnOk result (string_bytes text.new ≡ string_bytes text.old ++ two_digits number) }
{
    text.push((b'0' + (number / 10) as u8) as char)?;
    text.push((b'0' + (number % 10) as u8) as char)?;
    Ok(())
}

fn name_of(alloc: Global, number: u32) -> Result<String, AllocError>
    requires { number < 10000 }
    ensures { IfOk result (λ t. string_bytes t ≡ load_name number) }
{
    let mut text = String::from_str(alloc, "c")?;
    push_two_digits(&mut text, number / 100)?;
    push_two_digits(&mut text, number % 100)?;
    Ok(text)
}

fn secret_of(alloc: Global, number: u32) -> Result<String, AllocError>
    requires { number < 10000 }
    ensures { IfOk result (λ t. string_bytes t ≡ load_secret number) }
{
    let mut text = name_of(alloc, number)?;
    text.push_str("-tls")?;
    Ok(text)
}

fn hosts(alloc: Global, number: u32) -> Result<Texts, AllocError>
    requires { number < 10000 }
    ensures { IfOk result (λ t. t ≡ load_host number ∷ []) }
{
    let mut text = name_of(alloc, number)?;
    text.push_str(".example")?;
    let mut names = Texts::new(alloc);
    names.push(Text::from_str(alloc, text.as_str())?)?;
    Ok(names)
}

fn named(alloc: Global, text: &str) -> Result<Name, AllocError>
    requires { is_subdomain text.now ≡ true }
    ensures { IfOk result (λ n. n ≡ text.now) }
{
    match Name::read(alloc, text) {
        Ok(name) => Ok(name),
        Err(BadName::NoMemory) => Err(AllocError),
        Err(BadName::NotSubdomain) => unreachable!(),
    }
}

fn object_name(alloc: Global, number: u32) -> Result<Name, AllocError>
    requires { number < 10000 }
    ensures { IfOk result (λ n. n ≡ load_name number) }
{
    let text = name_of(alloc, number)?;
    named(alloc, text.as_str())
}

fn secret_name(alloc: Global, number: u32) -> Result<Name, AllocError>
    requires { number < 10000 }
    ensures { IfOk result (λ n. n ≡ load_secret number) }
{
    let text = secret_of(alloc, number)?;
    named(alloc, text.as_str())
}

#[tactic(auto, unfolding(cmc_meta::specs::Names::is_label))]
fn meta(alloc: Global, number: u32) -> Result<ObjectMeta, AllocError>
    requires { number < 10000 }
    ensures { IfOk result (λ m. m ≡ load_meta number) }
{
    let namespace = named(alloc, "load")?;
    let name = object_name(alloc, number)?;
    Ok(ObjectMeta {
        namespace,
        name,
        uid: 0,
        version: 0,
        generation: 0,
        created: 0,
        labels: Pairs::new(alloc),
        annotations: Pairs::new(alloc),
        owners: Owners::new(alloc),
    })
}

fn spec(alloc: Global, number: u32) -> Result<CertSpec, AllocError>
    requires { number < 10000 }
    ensures { IfOk result (λ s. s ≡ load_spec number) }
{
    let secret_name = secret_name(alloc, number)?;
    let dns_names = hosts(alloc, number)?;
    let name = Text::from_str(alloc, "ca")?;
    Ok(CertSpec {
        secret_name,
        issuer: IssuerRef {
            name,
            kind: None,
            group: None,
        },
        common_name: Text::new(alloc),
        dns_names,
        ip_addresses: Texts::new(alloc),
        uris: Texts::new(alloc),
        emails: Texts::new(alloc),
        is_ca: false,
        usages: Texts::new(alloc),
        duration: None,
        renew_before: None,
        key: KeySpec {
            algorithm: Some(Algorithm::Ecdsa),
            size: None,
            encoding: None,
            rotation: None,
        },
        renew_percent: None,
        history_limit: Some(1),
    })
}

fn status(alloc: Global) -> CertStatus
    ensures { result ≡ no_cert_status }
{
    CertStatus {
        conditions: Conditions::new(alloc),
        last_failure: None,
        attempts: None,
        not_before: None,
        not_after: None,
        renewal: None,
        revision: None,
        next_key: None,
    }
}

fn load(alloc: Global, number: u32) -> Result<Step, AllocError>
    requires { number < 10000 }
    ensures { IfOk result (λ s. s ≡ load_step number) }
{
    let meta = meta(alloc, number)?;
    let spec = Shared::new(alloc, spec(alloc, number)?)?;
    let status = Shared::new(alloc, status(alloc))?;
    Ok(Step::Apply {
        object: Object::of_certificate(alloc, Certificate { meta, spec, status })?,
        version: None,
    })
}

fn load_steps(alloc: Global, count: u32) -> Result<Steps, AllocError>
    requires { count ≤ 200 }
    ensures { IfOk result (λ s. s ≡ loads count) }
{
    let mut steps = Steps::new(alloc);
    for place in 0..count {
        steps.push(load(alloc, place + 1)?)?;
    }
    Ok(steps)
}

fn script(alloc: Global, count: u32) -> Result<Steps, AllocError>
    requires { count ≤ 200 }
    ensures { IfOk result (λ s. s ≡ loads count ++ rests) }
{
    let mut steps = load_steps(alloc, count)?;
    steps.push(Step::Settle)?;
    steps.push(Step::Tick { seconds: LONG_TIME })?;
    steps.push(Step::Settle)?;
    Ok(steps)
}

/// The scenario of 1 to 200 Certificates `c0001`, `c0002` and so on in the namespace `load`, all applied
/// at once: each asks the issuer `ca` for an ECDSA certificate of the DNS name `c0001.example` and so on,
/// in the Secret `c0001-tls` and so on, and keeps one request. Then all comes to rest, 60 days go by, and
/// all comes to rest again. A history has room for 1,000 entries for each Certificate, and 1,000 more;
/// all else is as where a scenario says nothing.
pub fn generate(alloc: Global, count: u32) -> Result<Scenario, AllocError>
    requires some { 1 ≤ count }
    requires few { count ≤ 200 }
    ensures { IfOk result (λ s. s ≡ load_setup count) }
{
    let script = script(alloc, count)?;
    let roles = every_role(alloc)?;
    let approver = usual_approver(alloc)?;
    Ok(Scenario::new(
        1_000 * count as u64 + 1_000,
        1_000,
        USUAL_MOMENT,
        roles,
        Numbers::new(alloc),
        approver,
        Material::new(alloc),
        script,
    ))
}
