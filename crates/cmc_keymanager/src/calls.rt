//! What the controller writes.
ghost use Rattle.std.specs.Prelude.{◌≡◌, [], IfOk, codes};
ghost use Rattle.cmc_meta.specs.PairLists.{with_text};
ghost use Rattle.cmc_rules.specs.KeyManager as table;

use cmc_meta::{Bytes, Key, Kind, Name, Pairs, Text};
use cmc_next::owned_meta;
use cmc_objects::{Call, CertStatus, Certificate, Object, Parts, Secret, Shared};
use cmc_pass::Act;
use std::alloc::{AllocError, Global};

fn status_with(name: Option<Name>, status: &CertStatus) -> Result<CertStatus, AllocError>
    ensures { IfOk result (λ s. s ≡ record status.now { next_key = name }) }
{
    Ok(CertStatus {
        conditions: status.conditions.copy()?,
        last_failure: status.last_failure,
        attempts: status.attempts,
        not_before: status.not_before,
        not_after: status.not_after,
        renewal: status.renewal,
        revision: status.revision,
        next_key: name,
    })
}

fn with_next_key(
    alloc: Global,
    name: Option<Name>,
    certificate: &Certificate,
) -> Result<Certificate, AllocError>
    ensures { IfOk result (λ c. c ≡ record certificate.now { status = record certificate.now.status { next_key = name } }) }
{
    let status = status_with(name, &certificate.status)?;
    Ok(Certificate {
        meta: certificate.meta.copy()?,
        spec: certificate.spec.copy()?,
        status: Shared::new(alloc, status)?,
    })
}

/// The status update, at the version of the Certificate, that names the next key, or none.
#[tactic(auto, unfolding(cmc_rules::specs::KeyManager::name_call))]
pub fn name_call(
    alloc: Global,
    name: Option<Name>,
    certificate: &Certificate,
) -> Result<Act, AllocError>
    ensures { IfOk result (λ a. a ≡ table.name_call name certificate.now) }
{
    let object = Object::of_certificate(alloc, with_next_key(alloc, name, certificate)?)?;
    Ok(Act::Call(Call::UpdateStatus {
        object,
        version: certificate.meta.version,
    }))
}

/// The deletion of the key, at its version.
#[tactic(auto, unfolding(cmc_rules::specs::KeyManager::drop_call))]
pub fn drop_call(secret: &Secret) -> Result<Act, AllocError>
    ensures { IfOk result (λ a. a ≡ table.drop_call secret.now) }
{
    Ok(Act::Call(Call::Delete {
        key: Key {
            kind: Kind::Secret,
            namespace: secret.meta.namespace.copy()?,
            name: secret.meta.name.copy()?,
        },
        version: Some(secret.meta.version),
    }))
}

fn next_label(alloc: Global) -> Result<Pairs, AllocError>
    ensures { IfOk result (λ p. p ≡ with_text [] (codes "cert-manager.io/next-private-key") (codes "true")) }
{
    let name = Text::from_str(alloc, "cert-manager.io/next-private-key")?;
    let text = Text::from_str(alloc, "true")?;
    let mut labels = Pairs::new(alloc);
    labels.set(name, text)?;
    Ok(labels)
}

fn key_part(alloc: Global, file: Bytes) -> Result<Parts, AllocError>
    ensures { IfOk result (λ p. p ≡ with_text [] (codes "tls.key") file) }
{
    let name = Text::from_str(alloc, "tls.key")?;
    let mut parts = Parts::new(alloc);
    parts.set(name, file)?;
    Ok(parts)
}

#[tactic(auto, unfolding(cmc_rules::specs::KeyManager::key_secret))]
fn key_secret(alloc: Global, certificate: &Certificate, file: Bytes) -> Result<Secret, AllocError>
    ensures { IfOk result (λ s. s ≡ table.key_secret certificate.now file) }
{
    let parts = key_part(alloc, file)?;
    let labels = next_label(alloc)?;
    let meta = owned_meta(alloc, certificate, labels, Pairs::new(alloc))?;
    Ok(Secret {
        meta,
        kind_text: Text::from_str(alloc, "Opaque")?,
        parts,
    })
}

/// The create of an opaque Secret that holds this key alone, with the label of a next key and owned by the Certificate,
/// under a name that is generated.
#[tactic(auto, unfolding(cmc_rules::specs::KeyManager::make_call))]
pub fn make_call(alloc: Global, certificate: &Certificate, file: Bytes) -> Result<Call, AllocError>
    ensures { IfOk result (λ c. c ≡ table.make_call certificate.now file) }
{
    let object = Object::of_secret(alloc, key_secret(alloc, certificate, file)?)?;
    Ok(Call::Create {
        object,
        generate: true,
    })
}
