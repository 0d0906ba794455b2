// Handed-out work and its answers, written.
ghost use Rattle.std.specs.Prelude.{◌≡◌, ◌++◌, codes, Some, OnOk};
ghost use Rattle.serde_json.specs.Data.{string};
ghost use Rattle.cmc_print.specs.Words.{name_text};
ghost use Rattle.cmc_report.specs.Trees.{key_order_tree, csr_order_tree, sign_order_tree, judge_order_tree, order_tree, issued_tree, answer_tree};
ghost use Rattle.cmc_report.specs.Rows.{failed_tree, issued_rows, pending_tree};
ghost use Rattle.cmc_writer.specs.Additions.{with_value, with_row, with_rows};

use cmc_meta::{Key, ObjectMeta};
use cmc_object_lines::{bytes_row, some_bytes_row};
use cmc_objects::{CsrOrder, JudgeOrder, KeyOrder, Order, SignOrder, Signing};
use cmc_writer::Printer;
use std::alloc::{AllocError, Global};

/// `namespace/name`
pub fn write_name(printer: &mut Printer, key: &Key) -> Result<(), AllocError>
    ensures { OnOk result (printer.new ≡ with_value printer.old (string (name_text key.now))) }
{
    printer.pair(key.namespace.as_str(), key.name.as_str())
}

/// The Certificate, as `namespace/name`.
#[tactic(auto, using(cmc_writer::proofs::Written::member_written))]
pub fn certificate_row(printer: &mut Printer, key: &Key) -> Result<(), AllocError>
    ensures { OnOk result (printer.new ≡ with_row printer.old (codes "certificate") (Some (string (name_text key.now)))) }
{
    printer.name("certificate")?;
    write_name(printer, key)
}

fn write_object_name(printer: &mut Printer, meta: &ObjectMeta) -> Result<(), AllocError>
    ensures { OnOk result (printer.new ≡ with_value printer.old (string (meta.now.namespace ++ (codes "/" ++ meta.now.name)))) }
{
    printer.pair(meta.namespace.as_str(), meta.name.as_str())
}

#[tactic(auto, using(cmc_writer::proofs::Written::member_written))]
fn request_row(printer: &mut Printer, meta: &ObjectMeta) -> Result<(), AllocError>
    ensures { OnOk result (printer.new ≡ with_row printer.old (codes "request") (Some (string (meta.now.namespace ++ (codes "/" ++ meta.now.name))))) }
{
    printer.name("request")?;
    write_object_name(printer, meta)
}

#[tactic(auto, using(crate::proofs::OrderLaws::key_order_written))]
fn write_key_order(printer: &mut Printer, order: &KeyOrder) -> Result<(), AllocError>
    ensures { OnOk result (printer.new ≡ with_value printer.old (key_order_tree order.now)) }
{
    printer.begin_object()?;
    certificate_row(printer, &order.certificate)?;
    printer.text_row("is", "key")?;
    printer.count_row("number", order.number)?;
    printer.end_object()
}

#[tactic(auto, using(crate::proofs::OrderLaws::csr_order_written))]
fn write_csr_order(printer: &mut Printer, alloc: Global, order: &CsrOrder) -> Result<(), AllocError>
    ensures { OnOk result (printer.new ≡ with_value printer.old (csr_order_tree order.now)) }
{
    printer.begin_object()?;
    bytes_row(printer, alloc, "body", order.body.as_slice())?;
    printer.text_row("is", "csr")?;
    bytes_row(printer, alloc, "key", order.key.as_slice())?;
    printer.end_object()
}

#[tactic(auto, using(crate::proofs::OrderLaws::sign_order_written))]
fn write_sign_order(printer: &mut Printer, order: &SignOrder) -> Result<(), AllocError>
    ensures { OnOk result (printer.new ≡ with_value printer.old (sign_order_tree order.now)) }
{
    printer.begin_object()?;
    printer.text_row("is", "sign")?;
    printer.count_row("number", order.number())?;
    request_row(printer, &order.request().meta)?;
    printer.count_row("version", order.request().meta.version)?;
    printer.end_object()
}

#[tactic(auto, using(crate::proofs::OrderLaws::judge_order_written))]
fn write_judge_order(printer: &mut Printer, order: &JudgeOrder) -> Result<(), AllocError>
    ensures { OnOk result (printer.new ≡ with_value printer.old (judge_order_tree order.now)) }
{
    printer.begin_object()?;
    printer.text_row("is", "judge")?;
    request_row(printer, &order.request.meta)?;
    printer.count_row("version", order.request.meta.version)?;
    printer.end_object()
}

fn write_order(printer: &mut Printer, alloc: Global, order: &Order) -> Result<(), AllocError>
    ensures { OnOk result (printer.new ≡ with_value printer.old (order_tree order.now)) }
{
    match order {
        Order::Key(order) => write_key_order(printer, order),
        Order::Csr(order) => write_csr_order(printer, alloc, order),
        Order::Sign(order) => write_sign_order(printer, order),
        Order::Judge(order) => write_judge_order(printer, order),
    }
}

/// What was asked.
#[tactic(auto, using(cmc_writer::proofs::Written::member_written))]
pub fn order_row(printer: &mut Printer, alloc: Global, order: &Order) -> Result<(), AllocError>
    ensures { OnOk result (printer.new ≡ with_row printer.old (codes "order") (Some (order_tree order.now))) }
{
    printer.name("order")?;
    write_order(printer, alloc, order)
}

fn add_issued(
    printer: &mut Printer,
    alloc: Global,
    certificate: &[u8],
    ca: &[u8],
) -> Result<(), AllocError>
    ensures { OnOk result (printer.new ≡ with_rows printer.old (issued_rows certificate.now ca.now)) }
{
    some_bytes_row(printer, alloc, "ca", ca)?;
    bytes_row(printer, alloc, "certificate", certificate)?;
    printer.text_row("is", "issued")
}

#[tactic(auto, using(crate::proofs::OrderLaws::issued_written))]
fn write_issued(
    printer: &mut Printer,
    alloc: Global,
    certificate: &[u8],
    ca: &[u8],
) -> Result<(), AllocError>
    ensures { OnOk result (printer.new ≡ with_value printer.old (issued_tree certificate.now ca.now)) }
{
    printer.begin_object()?;
    add_issued(printer, alloc, certificate, ca)?;
    printer.end_object()
}

#[tactic(auto, using(crate::proofs::OrderLaws::pending_written))]
fn write_pending(printer: &mut Printer) -> Result<(), AllocError>
    ensures { OnOk result (printer.new ≡ with_value printer.old pending_tree) }
{
    printer.begin_object()?;
    printer.text_row("is", "pending")?;
    printer.end_object()
}

#[tactic(auto, using(crate::proofs::OrderLaws::failed_written))]
fn write_failed(printer: &mut Printer, message: &str) -> Result<(), AllocError>
    ensures { OnOk result (printer.new ≡ with_value printer.old (failed_tree message.now)) }
{
    printer.begin_object()?;
    printer.text_row("is", "failed")?;
    printer.text_row("message", message)?;
    printer.end_object()
}

fn write_answer(printer: &mut Printer, alloc: Global, answer: &Signing) -> Result<(), AllocError>
    ensures { OnOk result (printer.new ≡ with_value printer.old (answer_tree answer.now)) }
{
    match answer {
        Signing::Issued { certificate, ca } => write_issued(
            printer,
            alloc,
            certificate.as_slice(),
            ca.as_slice(),
        ),
        Signing::Pending => write_pending(printer),
        Signing::Failed { message } => write_failed(printer, message.as_str()),
    }
}

/// What an issuer answered.
#[tactic(auto, using(cmc_writer::proofs::Written::member_written))]
pub fn answer_row(printer: &mut Printer, alloc: Global, answer: &Signing) -> Result<(), AllocError>
    ensures { OnOk result (printer.new ≡ with_row printer.old (codes "answer") (Some (answer_tree answer.now))) }
{
    printer.name("answer")?;
    write_answer(printer, alloc, answer)
}
