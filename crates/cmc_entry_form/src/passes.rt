// The lines of passes.
ghost use Rattle.std.specs.Prelude.{◌≡◌, codes};
ghost use Rattle.serde_json.specs.View.{view};
ghost use Rattle.cmc_cursor.specs.Members.{Gives};
ghost use Rattle.cmc_cursor.specs.Readers.{flag_at};
ghost use Rattle.cmc_entry_form.specs.LineForm.{answer_at, ask_in, begin_in, cause_at, cause_named as named_cause, end_in, judged_in, made_in, member_as, order_at, pass_in, positions_at, signed_line_in, told_answer_in};

use crate::members::{bytes_of, count_of, member_of, moment_of, named_key, role_of};
use crate::orders::{answer, order};
use cmc_cursor::{BadField, flag};
use cmc_lines::{PrintedLine, PrintedOrder};
use cmc_meta::Texts;
use cmc_objects::{Cause, Positions, Signing, kind_of_work};
use serde_json::Value;
use std::alloc::Global;

#[tactic(auto, unfolding(crate::specs::LineForm::positions_at))]
fn positions(alloc: Global, value: &Value) -> Result<Positions, BadField>
    ensures { Gives (λ t. t) result (positions_at (view value.now)) }
{
    let certificates = count_of(alloc, value, "Certificate")?;
    let requests = count_of(alloc, value, "CertificateRequest")?;
    let secrets = count_of(alloc, value, "Secret")?;
    Ok(Positions {
        certificates,
        requests,
        secrets,
    })
}

fn positions_of(alloc: Global, value: &Value) -> Result<Positions, BadField>
    ensures { Gives (λ t. t) result (member_as positions_at (codes "at") (view value.now)) }
{
    let member = member_of(alloc, value, "at")?;
    positions(alloc, member)
}

#[tactic(auto, unfolding(crate::specs::LineForm::begin_in))]
fn begin(alloc: Global, value: &Value) -> Result<PrintedLine, BadField>
    ensures { Gives (λ t. t) result (begin_in (view value.now)) }
{
    let pass = count_of(alloc, value, "pass")?;
    let role = role_of(alloc, value, "role")?;
    let key = named_key(alloc, value, "key", kind_of_work(role))?;
    let at = positions_of(alloc, value)?;
    let now = moment_of(alloc, value, "now")?;
    Ok(PrintedLine::Begin {
        pass,
        role,
        key,
        at,
        now,
    })
}

fn order_of(alloc: Global, value: &Value) -> Result<PrintedOrder, BadField>
    ensures { Gives (λ t. t) result (member_as order_at (codes "order") (view value.now)) }
{
    let member = member_of(alloc, value, "order")?;
    order(alloc, member)
}

#[tactic(auto, unfolding(crate::specs::LineForm::ask_in))]
fn ask(alloc: Global, value: &Value) -> Result<PrintedLine, BadField>
    ensures { Gives (λ t. t) result (ask_in (view value.now)) }
{
    let pass = count_of(alloc, value, "pass")?;
    let order = order_of(alloc, value)?;
    Ok(PrintedLine::Ask { pass, order })
}

#[tactic(auto, unfolding(crate::specs::LineForm::made_in))]
fn made(alloc: Global, value: &Value) -> Result<PrintedLine, BadField>
    ensures { Gives (λ t. t) result (made_in (view value.now)) }
{
    let pass = count_of(alloc, value, "pass")?;
    let key = bytes_of(alloc, value, "key")?;
    Ok(PrintedLine::Made { pass, key })
}

#[tactic(auto, unfolding(crate::specs::LineForm::signed_line_in))]
fn signed(alloc: Global, value: &Value) -> Result<PrintedLine, BadField>
    ensures { Gives (λ t. t) result (signed_line_in (view value.now)) }
{
    let pass = count_of(alloc, value, "pass")?;
    let signature = bytes_of(alloc, value, "signature")?;
    Ok(PrintedLine::Signed { pass, signature })
}

fn answer_of(alloc: Global, value: &Value) -> Result<Signing, BadField>
    ensures { Gives (λ t. t) result (member_as answer_at (codes "answer") (view value.now)) }
{
    let member = member_of(alloc, value, "answer")?;
    answer(alloc, member)
}

#[tactic(auto, unfolding(crate::specs::LineForm::told_answer_in))]
fn answered(alloc: Global, value: &Value) -> Result<PrintedLine, BadField>
    ensures { Gives (λ t. t) result (told_answer_in (view value.now)) }
{
    let pass = count_of(alloc, value, "pass")?;
    let answer = answer_of(alloc, value)?;
    Ok(PrintedLine::Answered { pass, answer })
}

fn judgement(alloc: Global, value: &Value) -> Result<bool, BadField>
    ensures { Gives (λ t. t) result (member_as flag_at (codes "yes") (view value.now)) }
{
    let member = member_of(alloc, value, "yes")?;
    flag(alloc, member)
}

#[tactic(auto, unfolding(crate::specs::LineForm::judged_in))]
fn judged(alloc: Global, value: &Value) -> Result<PrintedLine, BadField>
    ensures { Gives (λ t. t) result (judged_in (view value.now)) }
{
    let pass = count_of(alloc, value, "pass")?;
    let yes = judgement(alloc, value)?;
    Ok(PrintedLine::Judged { pass, yes })
}

fn cause_named(alloc: Global, word: &str) -> Result<Cause, BadField>
    ensures { Gives (λ t. t) result (named_cause word.now) }
{
    match word {
        "wrote" => Ok(Cause::Wrote),
        "nothing" => Ok(Cause::Nothing),
        _ => Err(BadField::Path(Texts::new(alloc))),
    }
}

#[tactic(auto, unfolding(crate::specs::LineForm::cause_at))]
fn cause(alloc: Global, value: &Value) -> Result<Cause, BadField>
    ensures { Gives (λ t. t) result (cause_at (view value.now)) }
{
    match value.as_str() {
        Some(word) => cause_named(alloc, word),
        None => Ok(Cause::Stopper(count_of(alloc, value, "entry")?)),
    }
}

fn cause_of(alloc: Global, value: &Value) -> Result<Cause, BadField>
    ensures { Gives (λ t. t) result (member_as cause_at (codes "cause") (view value.now)) }
{
    let member = member_of(alloc, value, "cause")?;
    cause(alloc, member)
}

#[tactic(auto, unfolding(crate::specs::LineForm::end_in))]
fn end(alloc: Global, value: &Value) -> Result<PrintedLine, BadField>
    ensures { Gives (λ t. t) result (end_in (view value.now)) }
{
    let pass = count_of(alloc, value, "pass")?;
    let cause = cause_of(alloc, value)?;
    Ok(PrintedLine::End { pass, cause })
}

/// The line of a pass, of this word.
pub fn pass(alloc: Global, value: &Value, word: &str) -> Result<PrintedLine, BadField>
    ensures { Gives (λ t. t) result (pass_in (view value.now) word.now) }
{
    match word {
        "begin" => begin(alloc, value),
        "ask" => ask(alloc, value),
        "made" => made(alloc, value),
        "signed" => signed(alloc, value),
        "answered" => answered(alloc, value),
        "judged" => judged(alloc, value),
        "end" => end(alloc, value),
        _ => Err(BadField::Path(Texts::new(alloc))),
    }
}
