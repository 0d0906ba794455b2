//! The Secret that the controller writes.
ghost use Rattle.std.specs.Prelude.{◌≡◌, [], IfOk, OnOk, codes, pos};
ghost use Rattle.cmc_meta.specs.PairLists.{with_text};
ghost use Rattle.cmc_rules.specs.Issuance as table;

use cmc_meta::{Bytes, ObjectMeta, Owners, Pairs, Text};
use cmc_objects::{Call, Certificate, Object, Parts, Secret, Shared};
use std::alloc::{AllocError, Global};

/// What the target's Secret is given: a private key and a certificate, and the CA's, which is empty where there is
/// none; all in DER. The certificate of an issuer, or one that stands in.
#[derive(Clone, Copy)]
pub struct Content<'a> {
    pub stand_in: bool,
    pub key: &'a Bytes,
    pub certificate: &'a Bytes,
    pub ca: &'a Bytes,
}

fn put_mark(alloc: Global, marks: &mut Pairs, name: &str, text: &str) -> Result<(), AllocError>
    ensures { OnOk result (marks.new ≡ with_text marks.old name.now text.now) }
{
    let name = Text::from_str(alloc, name)?;
    let text = Text::from_str(alloc, text)?;
    marks.set(name, text)
}

#[tactic(auto, unfolding(cmc_rules::specs::Issuance::signed_marks))]
fn signed_marks(alloc: Global, certificate: &Certificate, marks: Pairs) -> Result<Pairs, AllocError>
    ensures { IfOk result (λ p. p ≡ table.signed_marks certificate.now marks) }
{
    let mut marks = marks;
    let issuer = &certificate.spec.issuer;
    put_mark(
        alloc,
        &mut marks,
        "cert-manager.io/certificate-name",
        certificate.meta.name.as_str(),
    )?;
    put_mark(
        alloc,
        &mut marks,
        "cert-manager.io/issuer-name",
        issuer.name.as_str(),
    )?;
    put_mark(
        alloc,
        &mut marks,
        "cert-manager.io/issuer-kind",
        issuer.kind_at_use(),
    )?;
    put_mark(
        alloc,
        &mut marks,
        "cert-manager.io/issuer-group",
        issuer.group_at_use(),
    )?;
    Ok(marks)
}

fn put_stand_in(alloc: Global, marks: &mut Pairs) -> Result<(), AllocError>
    ensures { OnOk result (marks.new ≡ with_text marks.old (codes "cert-manager.io/temporary-certificate") (codes "true")) }
{
    put_mark(
        alloc,
        marks,
        "cert-manager.io/temporary-certificate",
        "true",
    )
}

#[tactic(auto, using(crate::proofs::PairLists::taken_out))]
fn drop_mark(marks: &mut Pairs, name: &Text) -> Result<(), AllocError>
    ensures { OnOk result (marks.new ≡ table.without name.now marks.old) }
{
    let _count = marks.as_map().len();
    marks.remove(name)
}

fn drop_stand_in(alloc: Global, marks: &mut Pairs) -> Result<(), AllocError>
    ensures { OnOk result (marks.new ≡ table.without (codes "cert-manager.io/temporary-certificate") marks.old) }
{
    let name = Text::from_str(alloc, "cert-manager.io/temporary-certificate")?;
    drop_mark(marks, &name)
}

#[tactic(auto, unfolding(cmc_rules::specs::Issuance::marks))]
fn marks(
    alloc: Global,
    stand_in: bool,
    certificate: &Certificate,
    old: Pairs,
) -> Result<Pairs, AllocError>
    ensures { IfOk result (λ p. p ≡ table.marks stand_in certificate.now old) }
{
    let mut pairs = signed_marks(alloc, certificate, old)?;
    if stand_in {
        put_stand_in(alloc, &mut pairs)?;
    } else {
        drop_stand_in(alloc, &mut pairs)?;
    }
    Ok(pairs)
}

fn put_part(alloc: Global, parts: &mut Parts, name: &str, bytes: &Bytes) -> Result<(), AllocError>
    ensures { OnOk result (parts.new ≡ with_text parts.old name.now bytes.now) }
{
    let name = Text::from_str(alloc, name)?;
    parts.set(name, bytes.copy()?)
}

#[tactic(auto, using(crate::proofs::PairLists::taken_out))]
fn drop_part(parts: &mut Parts, name: &Text)
    ensures { parts.new ≡ table.without name.now parts.old }
{
    let _count = parts.as_map().len();
    parts.remove(name);
}

fn put_ca(alloc: Global, parts: &mut Parts, ca: &Bytes) -> Result<(), AllocError>
    ensures { OnOk result (parts.new ≡ table.with_ca ca.now parts.old) }
{
    let name = Text::from_str(alloc, "ca.crt")?;
    match ca.as_slice() {
        [] => drop_part(parts, &name),
        _ => parts.set(name, ca.copy()?)?,
    }
    Ok(())
}

#[tactic(auto, unfolding(cmc_rules::specs::Issuance::filled))]
fn filled(alloc: Global, content: &Content<'_>, parts: Parts) -> Result<Parts, AllocError>
    ensures { IfOk result (λ p. p ≡ table.filled content.now.key.now content.now.certificate.now content.now.ca.now parts) }
{
    let mut parts = parts;
    put_part(alloc, &mut parts, "tls.key", content.key)?;
    put_part(alloc, &mut parts, "tls.crt", content.certificate)?;
    put_ca(alloc, &mut parts, content.ca)?;
    Ok(parts)
}

fn new_meta(
    certificate: &Certificate,
    annotations: Pairs,
    alloc: Global,
) -> Result<ObjectMeta, AllocError>
    ensures { IfOk result (λ m. m ≡ record {
      namespace = certificate.now.meta.namespace;
      name = certificate.now.spec.secret_name;
      uid = 0;
      version = 0;
      generation = 0;
      created = pos 0;
      labels = [];
      annotations = annotations;
      owners = [];
    }) }
{
    Ok(ObjectMeta {
        namespace: certificate.meta.namespace.copy()?,
        name: certificate.spec.secret_name.copy()?,
        uid: 0,
        version: 0,
        generation: 0,
        created: 0,
        labels: Pairs::new(alloc),
        annotations,
        owners: Owners::new(alloc),
    })
}

#[tactic(auto, unfolding(cmc_rules::specs::Issuance::new_target))]
fn new_target(
    alloc: Global,
    certificate: &Certificate,
    content: &Content<'_>,
) -> Result<Secret, AllocError>
    ensures { IfOk result (λ s. s ≡ table.new_target content.now.stand_in certificate.now content.now.key.now content.now.certificate.now content.now.ca.now) }
{
    let annotations = marks(alloc, content.stand_in, certificate, Pairs::new(alloc))?;
    let meta = new_meta(certificate, annotations, alloc)?;
    let parts = filled(alloc, content, Parts::new(alloc))?;
    Ok(Secret {
        meta,
        kind_text: Text::from_str(alloc, "kubernetes.io/tls")?,
        parts,
    })
}

fn old_meta(
    alloc: Global,
    certificate: &Certificate,
    stand_in: bool,
    meta: &ObjectMeta,
) -> Result<ObjectMeta, AllocError>
    ensures { IfOk result (λ m. m ≡ record meta.now { annotations = table.marks stand_in certificate.now meta.now.annotations }) }
{
    let mut changed = meta.copy()?;
    changed.annotations = marks(alloc, stand_in, certificate, meta.annotations.copy()?)?;
    Ok(changed)
}

#[tactic(auto, unfolding(cmc_rules::specs::Issuance::old_target))]
fn old_target(
    alloc: Global,
    certificate: &Certificate,
    content: &Content<'_>,
    old: &Secret,
) -> Result<Secret, AllocError>
    ensures { IfOk result (λ s. s ≡ table.old_target content.now.stand_in certificate.now content.now.key.now content.now.certificate.now content.now.ca.now old.now) }
{
    let meta = old_meta(alloc, certificate, content.stand_in, &old.meta)?;
    let parts = filled(alloc, content, old.parts.copy()?)?;
    Ok(Secret {
        meta,
        kind_text: old.kind_text.copy()?,
        parts,
    })
}

/// The create of the Certificate's Secret, or its update at the version that it has, with this content. What it does
/// not name stays.
#[tactic(auto, unfolding(cmc_rules::specs::Issuance::secret_call))]
pub fn secret_call(
    alloc: Global,
    certificate: &Certificate,
    content: &Content<'_>,
    target: &Option<Shared<Secret>>,
) -> Result<Call, AllocError>
    ensures { IfOk result (λ c. c ≡ table.secret_call content.now.stand_in certificate.now content.now.key.now content.now.certificate.now content.now.ca.now target.now) }
{
    match target {
        None => Ok(Call::Create {
            object: Object::of_secret(alloc, new_target(alloc, certificate, content)?)?,
            generate: false,
        }),
        Some(old) => Ok(Call::Update {
            object: Object::of_secret(alloc, old_target(alloc, certificate, content, old)?)?,
            version: old.meta.version,
        }),
    }
}
