//! The question for a signature, and the certification request that it signs.
ghost use Rattle.std.specs.Prelude.{◌≡◌, IfOk};
ghost use Rattle.cmc_der.specs.Keys.{key_shown};
ghost use Rattle.cmc_rules.specs.RequestManager as table;

use cmc_meta::Bytes;
use cmc_objects::{CertSpec, Certificate, CsrOrder, Order, Shared};
use cmc_pass::Act;
use cmc_x509::Spki;
use cmc_x509_build::{NameSet, csr_body};
use std::alloc::{AllocError, Global};

fn name_set(spec: &CertSpec) -> Result<NameSet, AllocError>
    ensures { IfOk result (λ names. names ≡ table.name_set spec.now) }
{
    Ok(NameSet {
        common: spec.common_name.copy()?,
        dns: spec.dns_names.copy()?,
        ips: spec.ip_addresses.copy()?,
        uris: spec.uris.copy()?,
        emails: spec.emails.copy()?,
    })
}

/// The body of a certification request with the names that the specification asks for and this public key.
#[tactic(auto, unfolding(cmc_rules::specs::RequestManager::body_of))]
pub fn body_of(alloc: Global, spec: &CertSpec, key: &Spki<'_>) -> Result<Bytes, AllocError>
    ensures { IfOk result (λ body. body ≡ table.body_of spec.now (key_shown key.now)) }
{
    let names = name_set(spec)?;
    csr_body(alloc, key, &names)
}

/// The question for the signature of that body by the key of this file, whose public key it is.
#[tactic(auto, unfolding(cmc_rules::specs::RequestManager::ask_signature))]
pub fn ask_signature(
    alloc: Global,
    certificate: &Certificate,
    file: &Bytes,
    key: &Spki<'_>,
) -> Result<Act, AllocError>
    ensures { IfOk result (λ a. a ≡ table.ask_signature certificate.now file.now (key_shown key.now)) }
{
    let body = body_of(alloc, &certificate.spec, key)?;
    let order = CsrOrder {
        key: file.copy()?,
        body,
    };
    Ok(Act::Ask(Order::Csr(Shared::new(alloc, order)?)))
}
