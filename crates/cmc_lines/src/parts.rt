// The parts of a line as JSON trees.
ghost use Rattle.std.specs.Prelude.{◌≡◌, codes, IfOk, OnOk};
ghost use Rattle.serde_json.specs.Data.{string, put};
ghost use Rattle.cmc_print.specs.Trees.{data_of, members_of};
ghost use Rattle.cmc_print.specs.Words.{name_text};
ghost use Rattle.cmc_report.specs.Trees.{answer_tree, cause_tree, conflict_tree, issued_tree, lone, positions_tree, who_tree};
ghost use Rattle.cmc_report.specs.Rows.{failed_tree, pending_tree};
ghost use Rattle.cmc_lines.specs.LineTree.{asked_tree, put_asked_request, replied_tree, word_of};
ghost use Rattle.cmc_lines.specs.declared.line.PrintedOrder.TheVariants as asked;
ghost use Rattle.cmc_lines.specs.declared.line.PrintedReply.TheVariants as printed;

use crate::line::{CallName, PrintedOrder, PrintedReply};
use cmc_meta::{Key, Name};
use cmc_objects::{Cause, Positions, Signing, Who};
use cmc_print::{Members, Tree, name_word, put_bytes, put_count, put_some_bytes, put_text};
use std::alloc::{AllocError, Global};

/// The word for a call.
pub fn call_word(call: CallName) -> &'static str
    ensures { result.now ≡ word_of call }
{
    match call {
        CallName::Create => "create",
        CallName::Generate => "generate",
        CallName::Update => "update",
        CallName::UpdateStatus => "updateStatus",
        CallName::Delete => "delete",
        CallName::Get => "get",
    }
}

/// The text `namespace/name` under a name.
pub fn put_name(
    members: &mut Members,
    alloc: Global,
    name: &str,
    key: &Key,
) -> Result<(), AllocError>
    ensures { OnOk result (members_of members.new ≡ put name.now (string (name_text key.now)) (members_of members.old)) }
{
    let text = name_word(alloc, key)?;
    put_text(members, alloc, name, text.as_str())
}

// ---- replies

fn lone_tree(alloc: Global, name: &str, number: u64) -> Result<Tree, AllocError>
    ensures { IfOk result (λ t. data_of t ≡ lone name.now number) }
{
    let mut members = Members::new(alloc);
    put_count(&mut members, alloc, name, number)?;
    Ok(Tree::object(members))
}

fn created_tree(alloc: Global, name: &Name, version: u64) -> Result<Tree, AllocError>
    ensures { IfOk result (λ t. data_of t ≡ replied_tree (printed.Created name.now version)) }
{
    let mut members = Members::new(alloc);
    put_count(&mut members, alloc, "ok", version)?;
    put_text(&mut members, alloc, "name", name.as_str())?;
    Ok(Tree::object(members))
}

#[tactic(auto, unfolding(cmc_report::specs::Trees::conflict_tree))]
fn versions_tree(alloc: Global, named: u64, have: u64) -> Result<Tree, AllocError>
    ensures { IfOk result (λ t. data_of t ≡ conflict_tree named have) }
{
    let mut versions = Members::new(alloc);
    put_count(&mut versions, alloc, "have", have)?;
    put_count(&mut versions, alloc, "named", named)?;
    let mut members = Members::new(alloc);
    members.put(alloc, "conflict", Tree::object(versions))?;
    Ok(Tree::object(members))
}

/// A reply as a JSON tree.
pub fn reply_tree(alloc: Global, reply: &PrintedReply) -> Result<Tree, AllocError>
    ensures { IfOk result (λ t. data_of t ≡ replied_tree reply.now) }
{
    match reply {
        PrintedReply::Created { name, version } => created_tree(alloc, name, *version),
        PrintedReply::Ok { version } => lone_tree(alloc, "ok", *version),
        PrintedReply::Unchanged { version } => lone_tree(alloc, "unchanged", *version),
        PrintedReply::Found { version } => lone_tree(alloc, "found", *version),
        PrintedReply::Conflict { named, have } => versions_tree(alloc, *named, *have),
        PrintedReply::NotFound { at } => lone_tree(alloc, "notFound", *at),
        PrintedReply::AlreadyExists { have } => lone_tree(alloc, "alreadyExists", *have),
        PrintedReply::Invalid { rule } => lone_tree(alloc, "invalid", *rule as u64),
        PrintedReply::Unavailable { number } => lone_tree(alloc, "unavailable", *number),
    }
}

/// By whom a call is, as a JSON tree.
pub fn who_of(alloc: Global, who: Who) -> Result<Tree, AllocError>
    ensures { IfOk result (λ t. data_of t ≡ who_tree who) }
{
    match who {
        Who::User => Tree::text(alloc, "user"),
        Who::Pass(number) => Ok(Tree::count(number)),
    }
}

// ---- work that is handed out

fn key_order(alloc: Global, certificate: &Key, number: u64) -> Result<Tree, AllocError>
    ensures { IfOk result (λ t. data_of t ≡ asked_tree (asked.Key certificate.now number)) }
{
    let mut members = Members::new(alloc);
    put_text(&mut members, alloc, "is", "key")?;
    put_name(&mut members, alloc, "certificate", certificate)?;
    put_count(&mut members, alloc, "number", number)?;
    Ok(Tree::object(members))
}

fn csr_order(alloc: Global, key: &[u8], body: &[u8]) -> Result<Tree, AllocError>
    ensures { IfOk result (λ t. data_of t ≡ asked_tree (asked.Csr key.now body.now)) }
{
    let mut members = Members::new(alloc);
    put_text(&mut members, alloc, "is", "csr")?;
    put_bytes(&mut members, alloc, "body", body)?;
    put_bytes(&mut members, alloc, "key", key)?;
    Ok(Tree::object(members))
}

fn put_request(
    members: &mut Members,
    alloc: Global,
    request: &Key,
    version: u64,
) -> Result<(), AllocError>
    ensures { OnOk result (members_of members.new ≡ put_asked_request request.now version (members_of members.old)) }
{
    put_name(members, alloc, "request", request)?;
    put_count(members, alloc, "version", version)
}

fn sign_order(alloc: Global, number: u64, request: &Key, version: u64) -> Result<Tree, AllocError>
    ensures { IfOk result (λ t. data_of t ≡ asked_tree (asked.Sign number request.now version)) }
{
    let mut members = Members::new(alloc);
    put_text(&mut members, alloc, "is", "sign")?;
    put_count(&mut members, alloc, "number", number)?;
    put_request(&mut members, alloc, request, version)?;
    Ok(Tree::object(members))
}

fn judge_order(alloc: Global, request: &Key, version: u64) -> Result<Tree, AllocError>
    ensures { IfOk result (λ t. data_of t ≡ asked_tree (asked.Judge request.now version)) }
{
    let mut members = Members::new(alloc);
    put_text(&mut members, alloc, "is", "judge")?;
    put_request(&mut members, alloc, request, version)?;
    Ok(Tree::object(members))
}

/// A question as a JSON tree.
pub fn order_tree(alloc: Global, order: &PrintedOrder) -> Result<Tree, AllocError>
    ensures { IfOk result (λ t. data_of t ≡ asked_tree order.now) }
{
    match order {
        PrintedOrder::Key {
            certificate,
            number,
        } => key_order(alloc, certificate, *number),
        PrintedOrder::Csr { key, body } => csr_order(alloc, key.as_slice(), body.as_slice()),
        PrintedOrder::Sign {
            number,
            request,
            version,
        } => sign_order(alloc, *number, request, *version),
        PrintedOrder::Judge { request, version } => judge_order(alloc, request, *version),
    }
}

#[tactic(auto, unfolding(cmc_report::specs::Trees::issued_tree))]
fn issued(alloc: Global, certificate: &[u8], ca: &[u8]) -> Result<Tree, AllocError>
    ensures { IfOk result (λ t. data_of t ≡ issued_tree certificate.now ca.now) }
{
    let mut members = Members::new(alloc);
    put_text(&mut members, alloc, "is", "issued")?;
    put_bytes(&mut members, alloc, "certificate", certificate)?;
    put_some_bytes(&mut members, alloc, "ca", ca)?;
    Ok(Tree::object(members))
}

fn pending(alloc: Global) -> Result<Tree, AllocError>
    ensures { IfOk result (λ t. data_of t ≡ pending_tree) }
{
    let mut members = Members::new(alloc);
    put_text(&mut members, alloc, "is", "pending")?;
    Ok(Tree::object(members))
}

fn failed(alloc: Global, message: &str) -> Result<Tree, AllocError>
    ensures { IfOk result (λ t. data_of t ≡ failed_tree message.now) }
{
    let mut members = Members::new(alloc);
    put_text(&mut members, alloc, "is", "failed")?;
    put_text(&mut members, alloc, "message", message)?;
    Ok(Tree::object(members))
}

/// An issuer's answer as a JSON tree.
pub fn answer_of(alloc: Global, answer: &Signing) -> Result<Tree, AllocError>
    ensures { IfOk result (λ t. data_of t ≡ answer_tree answer.now) }
{
    match answer {
        Signing::Issued { certificate, ca } => issued(alloc, certificate.as_slice(), ca.as_slice()),
        Signing::Pending => pending(alloc),
        Signing::Failed { message } => failed(alloc, message.as_str()),
    }
}

// ---- passes

/// How far a pass sees, as a JSON tree.
#[tactic(auto, unfolding(cmc_report::specs::Trees::positions_tree))]
pub fn positions_of(alloc: Global, at: Positions) -> Result<Tree, AllocError>
    ensures { IfOk result (λ t. data_of t ≡ positions_tree at) }
{
    let mut members = Members::new(alloc);
    put_count(&mut members, alloc, "Certificate", at.certificates)?;
    put_count(&mut members, alloc, "CertificateRequest", at.requests)?;
    put_count(&mut members, alloc, "Secret", at.secrets)?;
    Ok(Tree::object(members))
}

/// How a pass ended, as a JSON tree.
pub fn cause_of(alloc: Global, cause: Cause) -> Result<Tree, AllocError>
    ensures { IfOk result (λ t. data_of t ≡ cause_tree cause) }
{
    match cause {
        Cause::Wrote => Tree::text(alloc, "wrote"),
        Cause::Nothing => Tree::text(alloc, "nothing"),
        Cause::Stopper(entry) => lone_tree(alloc, "entry", entry),
    }
}
