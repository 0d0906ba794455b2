// Handed-out work and its answers.
ghost use Rattle.std.specs.Prelude.{◌≡◌};
ghost use Rattle.serde_json.specs.View.{view};
ghost use Rattle.cmc_cursor.specs.Members.{Gives};
ghost use Rattle.cmc_entry_form.specs.LineForm as spec;
ghost use Rattle.cmc_entry_form.specs.LineForm.{answer_at, answer_read_in, csr_order_in, failed_in, issued_in, judge_order_in, key_order_in, order_at, order_in, sign_order_in};

use crate::members::{bytes_of, bytes_option, count_of, named_key, text_of};
use cmc_cursor::BadField;
use cmc_lines::PrintedOrder;
use cmc_meta::{Bytes, Kind, Text, Texts};
use cmc_objects::Signing;
use serde_json::Value;
use std::alloc::Global;

#[tactic(auto, unfolding(crate::specs::LineForm::key_order_in))]
fn key_order(alloc: Global, value: &Value) -> Result<PrintedOrder, BadField>
    ensures { Gives (λ t. t) result (key_order_in (view value.now)) }
{
    let certificate = named_key(alloc, value, "certificate", Kind::Certificate)?;
    let number = count_of(alloc, value, "number")?;
    Ok(PrintedOrder::Key {
        certificate,
        number,
    })
}

#[tactic(auto, unfolding(crate::specs::LineForm::csr_order_in))]
fn csr_order(alloc: Global, value: &Value) -> Result<PrintedOrder, BadField>
    ensures { Gives (λ t. t) result (csr_order_in (view value.now)) }
{
    let key = bytes_of(alloc, value, "key")?;
    let body = bytes_of(alloc, value, "body")?;
    Ok(PrintedOrder::Csr { key, body })
}

#[tactic(auto, unfolding(crate::specs::LineForm::sign_order_in))]
fn sign_order(alloc: Global, value: &Value) -> Result<PrintedOrder, BadField>
    ensures { Gives (λ t. t) result (sign_order_in (view value.now)) }
{
    let number = count_of(alloc, value, "number")?;
    let request = named_key(alloc, value, "request", Kind::CertificateRequest)?;
    let version = count_of(alloc, value, "version")?;
    Ok(PrintedOrder::Sign {
        number,
        request,
        version,
    })
}

#[tactic(auto, unfolding(crate::specs::LineForm::judge_order_in))]
fn judge_order(alloc: Global, value: &Value) -> Result<PrintedOrder, BadField>
    ensures { Gives (λ t. t) result (judge_order_in (view value.now)) }
{
    let request = named_key(alloc, value, "request", Kind::CertificateRequest)?;
    let version = count_of(alloc, value, "version")?;
    Ok(PrintedOrder::Judge { request, version })
}

fn order_named(alloc: Global, value: &Value, word: &str) -> Result<PrintedOrder, BadField>
    ensures { Gives (λ t. t) result (order_in (view value.now) word.now) }
{
    match word {
        "key" => key_order(alloc, value),
        "csr" => csr_order(alloc, value),
        "sign" => sign_order(alloc, value),
        "judge" => judge_order(alloc, value),
        _ => Err(BadField::Path(Texts::new(alloc))),
    }
}

/// A question.
#[tactic(auto, unfolding(crate::specs::LineForm::order_at))]
pub fn order(alloc: Global, value: &Value) -> Result<PrintedOrder, BadField>
    ensures { Gives (λ t. t) result (order_at (view value.now)) }
{
    let word = text_of(alloc, value, "is")?;
    order_named(alloc, value, word)
}

fn or_empty(alloc: Global, bytes: Option<Bytes>) -> Bytes
    ensures { result ≡ spec.or_empty bytes }
{
    match bytes {
        Some(bytes) => bytes,
        None => Bytes::new(alloc),
    }
}

#[tactic(auto, unfolding(crate::specs::LineForm::issued_in))]
fn issued(alloc: Global, value: &Value) -> Result<Signing, BadField>
    ensures { Gives (λ t. t) result (issued_in (view value.now)) }
{
    let certificate = bytes_of(alloc, value, "certificate")?;
    let ca = bytes_option(alloc, value, "ca")?;
    Ok(Signing::Issued {
        certificate,
        ca: or_empty(alloc, ca),
    })
}

#[tactic(auto, unfolding(crate::specs::LineForm::failed_in))]
fn failed(alloc: Global, value: &Value) -> Result<Signing, BadField>
    ensures { Gives (λ t. t) result (failed_in (view value.now)) }
{
    let text = text_of(alloc, value, "message")?;
    let message = Text::from_str(alloc, text)?;
    Ok(Signing::Failed { message })
}

fn answer_named(alloc: Global, value: &Value, word: &str) -> Result<Signing, BadField>
    ensures { Gives (λ t. t) result (answer_read_in (view value.now) word.now) }
{
    match word {
        "issued" => issued(alloc, value),
        "pending" => Ok(Signing::Pending),
        "failed" => failed(alloc, value),
        _ => Err(BadField::Path(Texts::new(alloc))),
    }
}

/// An issuer's answer.
#[tactic(auto, unfolding(crate::specs::LineForm::answer_at))]
pub fn answer(alloc: Global, value: &Value) -> Result<Signing, BadField>
    ensures { Gives (λ t. t) result (answer_at (view value.now)) }
{
    let word = text_of(alloc, value, "is")?;
    answer_named(alloc, value, word)
}
