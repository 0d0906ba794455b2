//! The metadata of what controllers make for a Certificate.
ghost use Rattle.std.specs.Prelude.{◌≡◌, ◌∷◌, [], IfOk};
ghost use Rattle.cmc_rules.specs.Owners as owning;

use cmc_meta::{Kind, ObjectMeta, OwnerRef, Owners, Pairs};
use cmc_objects::Certificate;
use std::alloc::{AllocError, Global};

#[tactic(auto, unfolding(cmc_rules::specs::Owners::owner_of))]
fn owner_of(certificate: &Certificate) -> Result<OwnerRef, AllocError>
    ensures { IfOk result (λ o. o ≡ owning.owner_of certificate.now) }
{
    Ok(OwnerRef {
        kind: Kind::Certificate,
        name: certificate.meta.name.copy()?,
        uid: certificate.meta.uid,
        controller: true,
    })
}

fn owners(alloc: Global, certificate: &Certificate) -> Result<Owners, AllocError>
    ensures { IfOk result (λ o. o ≡ owning.owner_of certificate.now ∷ []) }
{
    let mut owners = Owners::new(alloc);
    owners.push(owner_of(certificate)?)?;
    Ok(owners)
}

/// Metadata of a new object in the Certificate's namespace, with these labels and annotations. The Certificate alone
/// owns it, as its controller, and its name is the Certificate's: with a dash after it, it is the prefix of the name
/// that the store generates (Kubernetes API conventions, `generateName`).
#[tactic(auto, unfolding(cmc_rules::specs::Owners::owned_meta))]
pub fn owned_meta(
    alloc: Global,
    certificate: &Certificate,
    labels: Pairs,
    annotations: Pairs,
) -> Result<ObjectMeta, AllocError>
    ensures { IfOk result (λ m. m ≡ owning.owned_meta certificate.now labels annotations) }
{
    let owners = owners(alloc, certificate)?;
    Ok(ObjectMeta {
        namespace: certificate.meta.namespace.copy()?,
        name: certificate.meta.name.copy()?,
        uid: 0,
        version: 0,
        generation: 0,
        created: 0,
        labels,
        annotations,
        owners,
    })
}
