// Requests and Secrets, written.
ghost use Rattle.std.specs.Prelude.{◌≡◌, codes, Some, OnOk};
ghost use Rattle.serde_json.specs.Data.{object};
ghost use Rattle.cmc_objects.specs.declared.object.Object.TheVariants.{Request, Secret as SecretVariant};
ghost use Rattle.cmc_print.specs.Printed.{request_tree, request_status_members, object_tree};
ghost use Rattle.cmc_writer.specs.Additions.{with_value, with_row, with_rows};
ghost use Rattle.cmc_writer.specs.Rows.{object_row};
ghost use Rattle.cmc_object_lines.specs.ObjectRows.{request_spec_rows, request_status_rows, has_request_status, request_rows, secret_rows};

use crate::objects::{conditions_row, issuer_row, meta_row, write_cert};
use crate::rows::{
    bytes_row, duration_row, moment_option_row, parts_row, some_bytes_row, texts_row, true_row,
};
use cmc_objects::{CertificateRequest, Object, RequestSpec, RequestStatus, Secret};
use cmc_writer::Printer;
use std::alloc::{AllocError, Global};

fn add_request_spec(
    printer: &mut Printer,
    alloc: Global,
    spec: &RequestSpec,
) -> Result<(), AllocError>
    ensures { OnOk result (printer.new ≡ with_rows printer.old (request_spec_rows spec.now)) }
{
    duration_row(printer, alloc, "duration", spec.duration)?;
    true_row(printer, "isCA", spec.is_ca)?;
    issuer_row(printer, &spec.issuer)?;
    bytes_row(printer, alloc, "request", spec.request.as_slice())?;
    texts_row(printer, "usages", spec.usages.as_slice())
}

#[tactic(auto, using(crate::proofs::Laws::request_spec_written))]
fn write_request_spec(
    printer: &mut Printer,
    alloc: Global,
    spec: &RequestSpec,
) -> Result<(), AllocError>
    ensures { OnOk result (printer.new ≡ with_value printer.old (request_tree spec.now)) }
{
    printer.begin_object()?;
    add_request_spec(printer, alloc, spec)?;
    printer.end_object()
}

#[tactic(auto, using(cmc_writer::proofs::Written::member_written))]
fn request_spec_row(
    printer: &mut Printer,
    alloc: Global,
    spec: &RequestSpec,
) -> Result<(), AllocError>
    ensures { OnOk result (printer.new ≡ with_row printer.old (codes "spec") (Some (request_tree spec.now))) }
{
    printer.name("spec")?;
    write_request_spec(printer, alloc, spec)
}

fn add_request_status(
    printer: &mut Printer,
    alloc: Global,
    status: &RequestStatus,
) -> Result<(), AllocError>
    ensures { OnOk result (printer.new ≡ with_rows printer.old (request_status_rows status.now)) }
{
    some_bytes_row(printer, alloc, "ca", status.ca.as_slice())?;
    some_bytes_row(printer, alloc, "certificate", status.certificate.as_slice())?;
    conditions_row(printer, alloc, status.conditions.as_slice())?;
    moment_option_row(printer, alloc, "failureTime", status.failure)
}

#[tactic(auto, using(crate::proofs::Laws::request_status_written))]
fn write_request_status(
    printer: &mut Printer,
    alloc: Global,
    status: &RequestStatus,
) -> Result<(), AllocError>
    ensures { OnOk result (printer.new ≡ with_value printer.old (object (request_status_members status.now))) }
{
    printer.begin_object()?;
    add_request_status(printer, alloc, status)?;
    printer.end_object()
}

fn has_request_status(status: &RequestStatus) -> bool
    ensures { result ≡ has_request_status status.now }
{
    !status.ca.as_slice().is_empty()
        || (!status.certificate.as_slice().is_empty()
            || (!status.conditions.as_slice().is_empty() || status.failure.is_some()))
}

#[tactic(auto, using(crate::proofs::Laws::request_status_row), unfolding(cmc_writer::specs::Additions::with_row))]
fn request_status_row(
    printer: &mut Printer,
    alloc: Global,
    status: &RequestStatus,
) -> Result<(), AllocError>
    ensures { OnOk result (printer.new ≡ with_row printer.old (codes "status") (object_row (request_status_members status.now))) }
{
    if !has_request_status(status) {
        return Ok(());
    }
    printer.name("status")?;
    write_request_status(printer, alloc, status)
}

fn add_request(
    printer: &mut Printer,
    alloc: Global,
    request: &CertificateRequest,
) -> Result<(), AllocError>
    ensures { OnOk result (printer.new ≡ with_rows printer.old (request_rows request.now)) }
{
    printer.text_row("apiVersion", "cert-manager.io/v1")?;
    printer.text_row("kind", "CertificateRequest")?;
    meta_row(printer, alloc, &request.meta)?;
    request_spec_row(printer, alloc, &request.spec)?;
    request_status_row(printer, alloc, &request.status)
}

#[tactic(auto, using(crate::proofs::Laws::request_written))]
fn write_request(
    printer: &mut Printer,
    alloc: Global,
    request: &CertificateRequest,
) -> Result<(), AllocError>
    ensures { OnOk result (printer.new ≡ with_value printer.old (object_tree (Request request.now))) }
{
    printer.begin_object()?;
    add_request(printer, alloc, request)?;
    printer.end_object()
}

fn add_secret(printer: &mut Printer, alloc: Global, secret: &Secret) -> Result<(), AllocError>
    ensures { OnOk result (printer.new ≡ with_rows printer.old (secret_rows secret.now)) }
{
    printer.text_row("apiVersion", "v1")?;
    parts_row(printer, alloc, "data", secret.parts.as_map())?;
    printer.text_row("kind", "Secret")?;
    meta_row(printer, alloc, &secret.meta)?;
    printer.text_row("type", secret.kind_text.as_str())
}

#[tactic(auto, using(crate::proofs::Laws::secret_written))]
fn write_secret(printer: &mut Printer, alloc: Global, secret: &Secret) -> Result<(), AllocError>
    ensures { OnOk result (printer.new ≡ with_value printer.old (object_tree (SecretVariant secret.now))) }
{
    printer.begin_object()?;
    add_secret(printer, alloc, secret)?;
    printer.end_object()
}

/// An object of any kind.
pub fn write_object(printer: &mut Printer, alloc: Global, object: &Object) -> Result<(), AllocError>
    ensures { OnOk result (printer.new ≡ with_value printer.old (object_tree object.now)) }
{
    match object {
        Object::Cert(certificate) => write_cert(printer, alloc, certificate),
        Object::Request(request) => write_request(printer, alloc, request),
        Object::Secret(secret) => write_secret(printer, alloc, secret),
    }
}
