// A line as a JSON tree.
ghost use Rattle.std.specs.Prelude.{◌≡◌, codes, IfOk, OnOk};
ghost use Rattle.serde_json.specs.Data.{string, put};
ghost use Rattle.cmc_print.specs.Trees.{data_of, members_of};
ghost use Rattle.cmc_report.specs.Trees.{put_begin, put_named, put_told};
ghost use Rattle.cmc_lines.specs.LineTree as spec;
ghost use Rattle.cmc_lines.specs.LineTree.{put_given, put_line};
ghost use Rattle.cmc_lines.specs.declared.line.PrintedLine.TheVariants as lines;

use crate::line::{CallName, PrintedLine, PrintedOrder, PrintedReply};
use crate::parts::{
    answer_of, call_word, cause_of, order_tree, positions_of, put_name, reply_tree, who_of,
};
use cmc_meta::{Key, Kind};
use cmc_objects::{Cause, Object, Positions, Role, Signing, Who};
use cmc_print::{
    Members, Tree, kind_word, put_bytes, put_count, put_count_option, put_text, put_time,
    role_word, tree_of,
};
use std::alloc::{AllocError, Global};

fn put_object(
    members: &mut Members,
    alloc: Global,
    object: &Option<Object>,
) -> Result<(), AllocError>
    ensures { OnOk result (members_of members.new ≡ put_given object.now (members_of members.old)) }
{
    match object {
        None => Ok(()),
        Some(object) => {
            let tree = tree_of(alloc, object)?;
            members.put(alloc, "object", tree)
        }
    }
}

fn put_call_head(
    members: &mut Members,
    alloc: Global,
    call: CallName,
    key: &str,
) -> Result<(), AllocError>
    ensures { OnOk result (members_of members.new ≡ spec.put_call_head call key.now (members_of members.old)) }
{
    put_text(members, alloc, "is", "call")?;
    put_text(members, alloc, "call", call_word(call))?;
    put_text(members, alloc, "key", key)
}

fn put_call_body(
    members: &mut Members,
    alloc: Global,
    object: &Option<Object>,
    version: Option<u64>,
    reply: &PrintedReply,
    who: Who,
) -> Result<(), AllocError>
    ensures { OnOk result (members_of members.new ≡ spec.put_call_body object.now version reply.now who (members_of members.old)) }
{
    put_object(members, alloc, object)?;
    let reply = reply_tree(alloc, reply)?;
    members.put(alloc, "reply", reply)?;
    put_count_option(members, alloc, "version", version)?;
    let who = who_of(alloc, who)?;
    members.put(alloc, "who", who)
}

#[tactic(auto, unfolding(cmc_report::specs::Trees::put_told))]
fn put_told_by(
    members: &mut Members,
    alloc: Global,
    word: &str,
    role: Role,
    kind: Kind,
    to: u64,
) -> Result<(), AllocError>
    ensures { OnOk result (members_of members.new ≡ put_told role kind to (put (codes "is") (string word.now) (members_of members.old))) }
{
    put_text(members, alloc, "is", word)?;
    put_text(members, alloc, "role", role_word(role))?;
    put_text(members, alloc, "kind", kind_word(kind))?;
    put_count(members, alloc, "to", to)
}

fn put_pass(members: &mut Members, alloc: Global, word: &str, pass: u64) -> Result<(), AllocError>
    ensures { OnOk result (members_of members.new ≡ put_named word.now pass (members_of members.old)) }
{
    put_text(members, alloc, "is", word)?;
    put_count(members, alloc, "pass", pass)
}

#[tactic(auto, unfolding(cmc_report::specs::Trees::put_begin))]
fn put_beginning(
    members: &mut Members,
    alloc: Global,
    role: Role,
    key: &Key,
    at: Positions,
    now: i64,
) -> Result<(), AllocError>
    ensures { OnOk result (members_of members.new ≡ put_begin role key.now at now (members_of members.old)) }
{
    put_text(members, alloc, "role", role_word(role))?;
    put_name(members, alloc, "key", key)?;
    let positions = positions_of(alloc, at)?;
    members.put(alloc, "at", positions)?;
    put_time(members, alloc, "now", now)
}

fn put_question(
    members: &mut Members,
    alloc: Global,
    pass: u64,
    order: &PrintedOrder,
) -> Result<(), AllocError>
    ensures { OnOk result (members_of members.new ≡ put_line (lines.Ask pass order.now) (members_of members.old)) }
{
    put_pass(members, alloc, "ask", pass)?;
    let order = order_tree(alloc, order)?;
    members.put(alloc, "order", order)
}

fn put_answer(
    members: &mut Members,
    alloc: Global,
    pass: u64,
    answer: &Signing,
) -> Result<(), AllocError>
    ensures { OnOk result (members_of members.new ≡ put_line (lines.Answered pass answer.now) (members_of members.old)) }
{
    put_pass(members, alloc, "answered", pass)?;
    let answer = answer_of(alloc, answer)?;
    members.put(alloc, "answer", answer)
}

fn put_end(members: &mut Members, alloc: Global, pass: u64, cause: Cause) -> Result<(), AllocError>
    ensures { OnOk result (members_of members.new ≡ put_line (lines.End pass cause) (members_of members.old)) }
{
    put_pass(members, alloc, "end", pass)?;
    let cause = cause_of(alloc, cause)?;
    members.put(alloc, "cause", cause)
}

fn put_script(members: &mut Members, alloc: Global, step: u64) -> Result<(), AllocError>
    ensures { OnOk result (members_of members.new ≡ put_line (lines.Script step) (members_of members.old)) }
{
    put_text(members, alloc, "is", "script")?;
    put_count(members, alloc, "step", step)
}

fn put_key_file(
    members: &mut Members,
    alloc: Global,
    pass: u64,
    key: &[u8],
) -> Result<(), AllocError>
    ensures { OnOk result (members_of members.new ≡ put_line (lines.Made pass key.now) (members_of members.old)) }
{
    put_pass(members, alloc, "made", pass)?;
    put_bytes(members, alloc, "key", key)
}

fn put_signature(
    members: &mut Members,
    alloc: Global,
    pass: u64,
    signature: &[u8],
) -> Result<(), AllocError>
    ensures { OnOk result (members_of members.new ≡ put_line (lines.Signed pass signature.now) (members_of members.old)) }
{
    put_pass(members, alloc, "signed", pass)?;
    put_bytes(members, alloc, "signature", signature)
}

fn put_judgement(
    members: &mut Members,
    alloc: Global,
    pass: u64,
    yes: bool,
) -> Result<(), AllocError>
    ensures { OnOk result (members_of members.new ≡ put_line (lines.Judged pass yes) (members_of members.old)) }
{
    put_pass(members, alloc, "judged", pass)?;
    members.put(alloc, "yes", Tree::flag(yes))
}

fn put_stop(members: &mut Members, alloc: Global, role: Role) -> Result<(), AllocError>
    ensures { OnOk result (members_of members.new ≡ put_line (lines.Stop role) (members_of members.old)) }
{
    put_text(members, alloc, "is", "stop")?;
    put_text(members, alloc, "role", role_word(role))
}

fn put_start(members: &mut Members, alloc: Global, role: Role, at: u64) -> Result<(), AllocError>
    ensures { OnOk result (members_of members.new ≡ put_line (lines.Start role at) (members_of members.old)) }
{
    put_text(members, alloc, "is", "start")?;
    put_text(members, alloc, "role", role_word(role))?;
    put_count(members, alloc, "at", at)
}

fn put_tick(members: &mut Members, alloc: Global, now: i64) -> Result<(), AllocError>
    ensures { OnOk result (members_of members.new ≡ put_line (lines.Tick now) (members_of members.old)) }
{
    put_text(members, alloc, "is", "tick")?;
    put_time(members, alloc, "now", now)
}

fn put_said(members: &mut Members, alloc: Global, line: &PrintedLine) -> Result<(), AllocError>
    ensures { OnOk result (members_of members.new ≡ put_line line.now (members_of members.old)) }
{
    match line {
        PrintedLine::Script { step } => put_script(members, alloc, *step),
        PrintedLine::Call {
            call,
            key,
            object,
            version,
            reply,
            who,
        } => {
            put_call_head(members, alloc, *call, key.as_str())?;
            put_call_body(members, alloc, object, *version, reply, *who)
        }
        PrintedLine::Deliver { role, kind, to } => {
            put_told_by(members, alloc, "deliver", *role, *kind, *to)
        }
        PrintedLine::List { role, kind, to } => {
            put_told_by(members, alloc, "list", *role, *kind, *to)
        }
        PrintedLine::Begin {
            pass,
            role,
            key,
            at,
            now,
        } => {
            put_pass(members, alloc, "begin", *pass)?;
            put_beginning(members, alloc, *role, key, *at, *now)
        }
        PrintedLine::Ask { pass, order } => put_question(members, alloc, *pass, order),
        PrintedLine::Made { pass, key } => put_key_file(members, alloc, *pass, key.as_slice()),
        PrintedLine::Signed { pass, signature } => {
            put_signature(members, alloc, *pass, signature.as_slice())
        }
        PrintedLine::Answered { pass, answer } => put_answer(members, alloc, *pass, answer),
        PrintedLine::Judged { pass, yes } => put_judgement(members, alloc, *pass, *yes),
        PrintedLine::End { pass, cause } => put_end(members, alloc, *pass, *cause),
        PrintedLine::Stop { role } => put_stop(members, alloc, *role),
        PrintedLine::Start { role, at } => put_start(members, alloc, *role, *at),
        PrintedLine::Tick { now } => put_tick(members, alloc, *now),
    }
}

/// The line of this number as a JSON tree.
#[tactic(auto, unfolding(crate::specs::LineTree::line_tree))]
pub fn tree_of_line(alloc: Global, number: u64, line: &PrintedLine) -> Result<Tree, AllocError>
    ensures { IfOk result (λ t. data_of t ≡ spec.line_tree number line.now) }
{
    let mut members = Members::new(alloc);
    put_count(&mut members, alloc, "n", number)?;
    put_said(&mut members, alloc, line)?;
    Ok(Tree::object(members))
}
