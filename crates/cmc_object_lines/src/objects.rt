// Objects, written.
ghost use Rattle.std.specs.Prelude.{◌≡◌, map, codes, Some, OnOk};
ghost use Rattle.serde_json.specs.Data.{string, object};
ghost use Rattle.cmc_objects.specs.declared.object.Object.TheVariants.{Cert};
ghost use Rattle.cmc_print.specs.Printed.{owner_tree, owners_tree, meta_tree, condition_tree, conditions_tree, issuer_tree, key_members, spec_tree, status_members, object_tree};
ghost use Rattle.cmc_print.specs.Words.{algorithm_name, encoding_name, rotation_name};
ghost use Rattle.cmc_writer.specs.Additions.{with_value, with_values, with_row, with_rows};
ghost use Rattle.cmc_writer.specs.Rows.{list_row, object_row};
ghost use Rattle.cmc_object_lines.specs.ObjectRows.{meta_rows, condition_rows, first_rows, middle_rows, last_rows, attempt_rows, moment_rows, cert_rows, has_key_terms, has_moments, has_status};
ghost use Rattle.std.specs.Prelude.{option_map};

use crate::rows::{
    count_option_row, duration_row, moment_option_row, moment_row, pairs_row,
    small_count_option_row, some_text_row, text_option_row, texts_row, true_row,
};
use cmc_meta::{Condition, Name, ObjectMeta, OwnerRef};
use cmc_objects::{
    Algorithm, CertSpec, CertStatus, Certificate, Encoding, IssuerRef, KeySpec, Rotation,
};
use cmc_print::{
    algorithm_word, condition_word, encoding_word, kind_word, rotation_word, tri_word, uid_word,
};
use cmc_writer::Printer;
use std::alloc::{AllocError, Global};

#[tactic(auto, using(crate::proofs::Laws::owner_written))]
fn write_owner(printer: &mut Printer, alloc: Global, owner: &OwnerRef) -> Result<(), AllocError>
    ensures { OnOk result (printer.new ≡ with_value printer.old (owner_tree owner.now)) }
{
    printer.begin_object()?;
    true_row(printer, "controller", owner.controller)?;
    printer.text_row("kind", kind_word(owner.kind))?;
    printer.text_row("name", owner.name.as_str())?;
    let uid = uid_word(alloc, owner.uid)?;
    printer.text_row("uid", uid.as_str())?;
    printer.end_object()
}

fn add_owners(printer: &mut Printer, alloc: Global, owners: &[OwnerRef]) -> Result<(), AllocError>
    ensures { OnOk result (printer.new ≡ with_values printer.old (map owner_tree owners.now)) }
{
    for owner in owners {
        write_owner(printer, alloc, owner)?;
    }
    Ok(())
}

#[tactic(auto, using(cmc_writer::proofs::Written::list_written))]
fn write_owners(printer: &mut Printer, alloc: Global, owners: &[OwnerRef]) -> Result<(), AllocError>
    ensures { OnOk result (printer.new ≡ with_value printer.old (owners_tree owners.now)) }
{
    printer.begin_array()?;
    add_owners(printer, alloc, owners)?;
    printer.end_array()
}

#[tactic(auto, unfolding(cmc_writer::specs::Additions::with_row))]
fn owners_row(printer: &mut Printer, alloc: Global, owners: &[OwnerRef]) -> Result<(), AllocError>
    ensures { OnOk result (printer.new ≡ with_row printer.old (codes "ownerReferences") (list_row owners_tree owners.now)) }
{
    if owners.is_empty() {
        return Ok(());
    }
    printer.name("ownerReferences")?;
    write_owners(printer, alloc, owners)
}

fn add_meta(printer: &mut Printer, alloc: Global, meta: &ObjectMeta) -> Result<(), AllocError>
    ensures { OnOk result (printer.new ≡ with_rows printer.old (meta_rows meta.now)) }
{
    pairs_row(printer, "annotations", meta.annotations.as_map())?;
    pairs_row(printer, "labels", meta.labels.as_map())?;
    printer.text_row("name", meta.name.as_str())?;
    printer.text_row("namespace", meta.namespace.as_str())?;
    owners_row(printer, alloc, meta.owners.as_slice())
}

#[tactic(auto, using(crate::proofs::Laws::meta_written))]
fn write_meta(printer: &mut Printer, alloc: Global, meta: &ObjectMeta) -> Result<(), AllocError>
    ensures { OnOk result (printer.new ≡ with_value printer.old (meta_tree meta.now)) }
{
    printer.begin_object()?;
    add_meta(printer, alloc, meta)?;
    printer.end_object()
}

#[tactic(auto, using(crate::proofs::Laws::issuer_written))]
fn write_issuer(printer: &mut Printer, issuer: &IssuerRef) -> Result<(), AllocError>
    ensures { OnOk result (printer.new ≡ with_value printer.old (issuer_tree issuer.now)) }
{
    printer.begin_object()?;
    text_option_row(printer, "group", &issuer.group)?;
    text_option_row(printer, "kind", &issuer.kind)?;
    printer.text_row("name", issuer.name.as_str())?;
    printer.end_object()
}

#[tactic(auto, using(cmc_writer::proofs::Written::member_written))]
pub fn issuer_row(printer: &mut Printer, issuer: &IssuerRef) -> Result<(), AllocError>
    ensures { OnOk result (printer.new ≡ with_row printer.old (codes "issuerRef") (Some (issuer_tree issuer.now))) }
{
    printer.name("issuerRef")?;
    write_issuer(printer, issuer)
}

#[tactic(auto, unfolding(cmc_writer::specs::Additions::with_row))]
fn algorithm_row(printer: &mut Printer, algorithm: Option<Algorithm>) -> Result<(), AllocError>
    ensures { OnOk result (printer.new ≡ with_row printer.old (codes "algorithm") (option_map (λ a. string (algorithm_name a)) algorithm)) }
{
    match algorithm {
        None => Ok(()),
        Some(algorithm) => printer.text_row("algorithm", algorithm_word(algorithm)),
    }
}

#[tactic(auto, unfolding(cmc_writer::specs::Additions::with_row))]
fn encoding_row(printer: &mut Printer, encoding: Option<Encoding>) -> Result<(), AllocError>
    ensures { OnOk result (printer.new ≡ with_row printer.old (codes "encoding") (option_map (λ e. string (encoding_name e)) encoding)) }
{
    match encoding {
        None => Ok(()),
        Some(encoding) => printer.text_row("encoding", encoding_word(encoding)),
    }
}

#[tactic(auto, unfolding(cmc_writer::specs::Additions::with_row))]
fn rotation_row(printer: &mut Printer, rotation: Option<Rotation>) -> Result<(), AllocError>
    ensures { OnOk result (printer.new ≡ with_row printer.old (codes "rotationPolicy") (option_map (λ r. string (rotation_name r)) rotation)) }
{
    match rotation {
        None => Ok(()),
        Some(rotation) => printer.text_row("rotationPolicy", rotation_word(rotation)),
    }
}

#[tactic(auto, using(crate::proofs::Laws::key_written))]
fn write_key(printer: &mut Printer, key: &KeySpec) -> Result<(), AllocError>
    ensures { OnOk result (printer.new ≡ with_value printer.old (object (key_members key.now))) }
{
    printer.begin_object()?;
    algorithm_row(printer, key.algorithm)?;
    encoding_row(printer, key.encoding)?;
    rotation_row(printer, key.rotation)?;
    small_count_option_row(printer, "size", key.size)?;
    printer.end_object()
}

fn has_terms(key: &KeySpec) -> bool
    ensures { result ≡ has_key_terms key.now }
{
    key.algorithm.is_some()
        || (key.encoding.is_some() || (key.rotation.is_some() || key.size.is_some()))
}

#[tactic(auto, using(crate::proofs::Laws::key_row), unfolding(cmc_writer::specs::Additions::with_row))]
fn key_row(printer: &mut Printer, key: &KeySpec) -> Result<(), AllocError>
    ensures { OnOk result (printer.new ≡ with_row printer.old (codes "privateKey") (object_row (key_members key.now))) }
{
    if !has_terms(key) {
        return Ok(());
    }
    printer.name("privateKey")?;
    write_key(printer, key)
}

fn add_first(printer: &mut Printer, alloc: Global, spec: &CertSpec) -> Result<(), AllocError>
    ensures { OnOk result (printer.new ≡ with_rows printer.old (first_rows spec.now)) }
{
    some_text_row(printer, "commonName", spec.common_name.as_str())?;
    texts_row(printer, "dnsNames", spec.dns_names.as_slice())?;
    duration_row(printer, alloc, "duration", spec.duration)?;
    texts_row(printer, "emailAddresses", spec.emails.as_slice())?;
    texts_row(printer, "ipAddresses", spec.ip_addresses.as_slice())?;
    true_row(printer, "isCA", spec.is_ca)
}

fn add_middle(printer: &mut Printer, alloc: Global, spec: &CertSpec) -> Result<(), AllocError>
    ensures { OnOk result (printer.new ≡ with_rows printer.old (middle_rows spec.now)) }
{
    issuer_row(printer, &spec.issuer)?;
    key_row(printer, &spec.key)?;
    duration_row(printer, alloc, "renewBefore", spec.renew_before)?;
    small_count_option_row(printer, "renewBeforePercentage", spec.renew_percent)?;
    small_count_option_row(printer, "revisionHistoryLimit", spec.history_limit)
}

fn add_last(printer: &mut Printer, spec: &CertSpec) -> Result<(), AllocError>
    ensures { OnOk result (printer.new ≡ with_rows printer.old (last_rows spec.now)) }
{
    printer.text_row("secretName", spec.secret_name.as_str())?;
    texts_row(printer, "uris", spec.uris.as_slice())?;
    texts_row(printer, "usages", spec.usages.as_slice())
}

#[tactic(auto, using(crate::proofs::Laws::spec_written))]
fn write_spec(printer: &mut Printer, alloc: Global, spec: &CertSpec) -> Result<(), AllocError>
    ensures { OnOk result (printer.new ≡ with_value printer.old (spec_tree spec.now)) }
{
    printer.begin_object()?;
    add_first(printer, alloc, spec)?;
    add_middle(printer, alloc, spec)?;
    add_last(printer, spec)?;
    printer.end_object()
}

fn add_condition(
    printer: &mut Printer,
    alloc: Global,
    condition: &Condition,
) -> Result<(), AllocError>
    ensures { OnOk result (printer.new ≡ with_rows printer.old (condition_rows condition.now)) }
{
    moment_row(printer, alloc, "lastTransitionTime", condition.since)?;
    printer.text_row("message", condition.message.as_str())?;
    printer.text_row("reason", condition.reason.as_str())?;
    printer.text_row("status", tri_word(condition.status))?;
    printer.text_row("type", condition_word(condition.kind))
}

#[tactic(auto, using(crate::proofs::Laws::condition_written))]
fn write_condition(
    printer: &mut Printer,
    alloc: Global,
    condition: &Condition,
) -> Result<(), AllocError>
    ensures { OnOk result (printer.new ≡ with_value printer.old (condition_tree condition.now)) }
{
    printer.begin_object()?;
    add_condition(printer, alloc, condition)?;
    printer.end_object()
}

fn add_conditions(
    printer: &mut Printer,
    alloc: Global,
    conditions: &[Condition],
) -> Result<(), AllocError>
    ensures { OnOk result (printer.new ≡ with_values printer.old (map condition_tree conditions.now)) }
{
    for condition in conditions {
        write_condition(printer, alloc, condition)?;
    }
    Ok(())
}

#[tactic(auto, using(cmc_writer::proofs::Written::list_written))]
fn write_conditions(
    printer: &mut Printer,
    alloc: Global,
    conditions: &[Condition],
) -> Result<(), AllocError>
    ensures { OnOk result (printer.new ≡ with_value printer.old (conditions_tree conditions.now)) }
{
    printer.begin_array()?;
    add_conditions(printer, alloc, conditions)?;
    printer.end_array()
}

#[tactic(auto, unfolding(cmc_writer::specs::Additions::with_row))]
pub fn conditions_row(
    printer: &mut Printer,
    alloc: Global,
    conditions: &[Condition],
) -> Result<(), AllocError>
    ensures { OnOk result (printer.new ≡ with_row printer.old (codes "conditions") (list_row conditions_tree conditions.now)) }
{
    if conditions.is_empty() {
        return Ok(());
    }
    printer.name("conditions")?;
    write_conditions(printer, alloc, conditions)
}

#[tactic(auto, unfolding(cmc_writer::specs::Additions::with_row))]
fn next_key_row(printer: &mut Printer, name: &Option<Name>) -> Result<(), AllocError>
    ensures { OnOk result (printer.new ≡ with_row printer.old (codes "nextPrivateKeySecretName") (option_map string name.now)) }
{
    match name {
        None => Ok(()),
        Some(name) => printer.text_row("nextPrivateKeySecretName", name.as_str()),
    }
}

fn add_attempts(printer: &mut Printer, alloc: Global, status: &CertStatus) -> Result<(), AllocError>
    ensures { OnOk result (printer.new ≡ with_rows printer.old (attempt_rows status.now)) }
{
    conditions_row(printer, alloc, status.conditions.as_slice())?;
    small_count_option_row(printer, "failedIssuanceAttempts", status.attempts)?;
    moment_option_row(printer, alloc, "lastFailureTime", status.last_failure)?;
    next_key_row(printer, &status.next_key)
}

fn add_moments(printer: &mut Printer, alloc: Global, status: &CertStatus) -> Result<(), AllocError>
    ensures { OnOk result (printer.new ≡ with_rows printer.old (moment_rows status.now)) }
{
    moment_option_row(printer, alloc, "notAfter", status.not_after)?;
    moment_option_row(printer, alloc, "notBefore", status.not_before)?;
    moment_option_row(printer, alloc, "renewalTime", status.renewal)?;
    count_option_row(printer, "revision", status.revision)
}

#[tactic(auto, using(crate::proofs::Laws::status_written))]
fn write_status(printer: &mut Printer, alloc: Global, status: &CertStatus) -> Result<(), AllocError>
    ensures { OnOk result (printer.new ≡ with_value printer.old (object (status_members status.now))) }
{
    printer.begin_object()?;
    add_attempts(printer, alloc, status)?;
    add_moments(printer, alloc, status)?;
    printer.end_object()
}

fn has_moments(status: &CertStatus) -> bool
    ensures { result ≡ has_moments status.now }
{
    status.last_failure.is_some()
        || (status.not_after.is_some() || (status.not_before.is_some() || status.renewal.is_some()))
}

fn has_status(status: &CertStatus) -> bool
    ensures { result ≡ has_status status.now }
{
    !status.conditions.as_slice().is_empty()
        || (status.attempts.is_some()
            || (has_moments(status) || (status.next_key.is_some() || status.revision.is_some())))
}

#[tactic(auto, using(crate::proofs::Laws::status_row), unfolding(cmc_writer::specs::Additions::with_row))]
fn status_row(printer: &mut Printer, alloc: Global, status: &CertStatus) -> Result<(), AllocError>
    ensures { OnOk result (printer.new ≡ with_row printer.old (codes "status") (object_row (status_members status.now))) }
{
    if !has_status(status) {
        return Ok(());
    }
    printer.name("status")?;
    write_status(printer, alloc, status)
}

#[tactic(auto, unfolding(cmc_writer::specs::Additions::with_row))]
pub fn meta_row(printer: &mut Printer, alloc: Global, meta: &ObjectMeta) -> Result<(), AllocError>
    ensures { OnOk result (printer.new ≡ with_row printer.old (codes "metadata") (Some (meta_tree meta.now))) }
{
    printer.name("metadata")?;
    write_meta(printer, alloc, meta)
}

#[tactic(auto, unfolding(cmc_writer::specs::Additions::with_row))]
fn spec_row(printer: &mut Printer, alloc: Global, spec: &CertSpec) -> Result<(), AllocError>
    ensures { OnOk result (printer.new ≡ with_row printer.old (codes "spec") (Some (spec_tree spec.now))) }
{
    printer.name("spec")?;
    write_spec(printer, alloc, spec)
}

fn add_cert(
    printer: &mut Printer,
    alloc: Global,
    certificate: &Certificate,
) -> Result<(), AllocError>
    ensures { OnOk result (printer.new ≡ with_rows printer.old (cert_rows certificate.now)) }
{
    printer.text_row("apiVersion", "cert-manager.io/v1")?;
    printer.text_row("kind", "Certificate")?;
    meta_row(printer, alloc, &certificate.meta)?;
    spec_row(printer, alloc, &certificate.spec)?;
    status_row(printer, alloc, &certificate.status)
}

/// A Certificate.
#[tactic(auto, using(crate::proofs::Laws::cert_written))]
pub fn write_cert(
    printer: &mut Printer,
    alloc: Global,
    certificate: &Certificate,
) -> Result<(), AllocError>
    ensures { OnOk result (printer.new ≡ with_value printer.old (object_tree (Cert certificate.now))) }
{
    printer.begin_object()?;
    add_cert(printer, alloc, certificate)?;
    printer.end_object()
}
