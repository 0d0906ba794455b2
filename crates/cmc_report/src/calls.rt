// Calls and replies, written.
ghost use Rattle.std.specs.Prelude.{◌≡◌, codes, Some, OnOk};
ghost use Rattle.serde_json.specs.Data.{string, object, put, no_members};
ghost use Rattle.cmc_objects.specs.Objects.{key_of};
ghost use Rattle.cmc_objects.specs.declared.entry.Entry.TheVariants.{Call as Called};
ghost use Rattle.cmc_print.specs.Trees.{natural};
ghost use Rattle.cmc_print.specs.Printed.{object_tree};
ghost use Rattle.cmc_print.specs.Words.{key_text};
ghost use Rattle.cmc_report.specs.Trees.{lone, ok_members, conflict_tree, reply_tree, who_tree, call_key, call_name, call_tree, entry_tree};
ghost use Rattle.cmc_report.specs.Rows as spec;
ghost use Rattle.cmc_report.specs.Rows.{ok_rows, call_body, call_head};
ghost use Rattle.cmc_writer.specs.Additions.{with_value, with_row, with_rows};

use cmc_meta::{Key, Name};
use cmc_object_lines::write_object;
use cmc_objects::{Call, Object, Reply, Who};
use cmc_print::kind_word;
use cmc_writer::Printer;
use std::alloc::{AllocError, Global};

fn write_key(printer: &mut Printer, key: &Key) -> Result<(), AllocError>
    ensures { OnOk result (printer.new ≡ with_value printer.old (string (key_text key.now))) }
{
    printer.triple(
        kind_word(key.kind),
        key.namespace.as_str(),
        key.name.as_str(),
    )
}

fn write_object_key(printer: &mut Printer, object: &Object) -> Result<(), AllocError>
    ensures { OnOk result (printer.new ≡ with_value printer.old (string (key_text (key_of object.now)))) }
{
    let meta = object.meta();
    printer.triple(
        kind_word(object.kind()),
        meta.namespace.as_str(),
        meta.name.as_str(),
    )
}

fn write_call_key(printer: &mut Printer, call: &Call) -> Result<(), AllocError>
    ensures { OnOk result (printer.new ≡ with_value printer.old (string (call_key call.now))) }
{
    match call {
        Call::Create {
            object,
            generate: false,
        } => write_object_key(printer, object),
        Call::Create {
            object,
            generate: true,
        } => printer.ended(object.meta().name.as_str(), "-"),
        Call::Update { object, .. } => write_object_key(printer, object),
        Call::UpdateStatus { object, .. } => write_object_key(printer, object),
        Call::Delete { key, .. } => write_key(printer, key),
        Call::Get { key } => write_key(printer, key),
    }
}

#[tactic(auto, using(cmc_writer::proofs::Written::member_written))]
fn key_row(printer: &mut Printer, call: &Call) -> Result<(), AllocError>
    ensures { OnOk result (printer.new ≡ with_row printer.old (codes "key") (Some (string (call_key call.now)))) }
{
    printer.name("key")?;
    write_call_key(printer, call)
}

/// An object with one number.
#[tactic(auto, using(crate::proofs::CallLaws::lone_written))]
pub fn write_lone(printer: &mut Printer, name: &str, number: u64) -> Result<(), AllocError>
    ensures { OnOk result (printer.new ≡ with_value printer.old (lone name.now number)) }
{
    printer.begin_object()?;
    printer.count_row(name, number)?;
    printer.end_object()
}

#[tactic(auto, using(crate::proofs::CallLaws::conflict_written))]
fn write_versions(printer: &mut Printer, named: u64, have: u64) -> Result<(), AllocError>
    ensures { OnOk result (printer.new ≡ with_value printer.old (object (put (codes "named") (natural named) (put (codes "have") (natural have) no_members)))) }
{
    printer.begin_object()?;
    printer.count_row("have", have)?;
    printer.count_row("named", named)?;
    printer.end_object()
}

#[tactic(auto, using(cmc_writer::proofs::Written::member_written))]
fn conflict_row(printer: &mut Printer, named: u64, have: u64) -> Result<(), AllocError>
    ensures { OnOk result (printer.new ≡ with_row printer.old (codes "conflict") (Some (object (put (codes "named") (natural named) (put (codes "have") (natural have) no_members))))) }
{
    printer.name("conflict")?;
    write_versions(printer, named, have)
}

#[tactic(auto, using(crate::proofs::CallLaws::conflict_around))]
fn write_conflict(printer: &mut Printer, named: u64, have: u64) -> Result<(), AllocError>
    ensures { OnOk result (printer.new ≡ with_value printer.old (conflict_tree named have)) }
{
    printer.begin_object()?;
    conflict_row(printer, named, have)?;
    printer.end_object()
}

#[tactic(auto, unfolding(cmc_writer::specs::Additions::with_row))]
fn name_row(printer: &mut Printer, call: &Call, name: &Name) -> Result<(), AllocError>
    ensures { OnOk result (printer.new ≡ with_row printer.old (codes "name") (spec.name_row call.now name.now)) }
{
    match call {
        Call::Create { .. } => printer.text_row("name", name.as_str()),
        _ => Ok(()),
    }
}

#[tactic(auto, using(crate::proofs::CallLaws::ok_written))]
fn write_accepted(
    printer: &mut Printer,
    call: &Call,
    version: u64,
    name: &Name,
) -> Result<(), AllocError>
    ensures { OnOk result (printer.new ≡ with_value printer.old (object (ok_members call.now version name.now))) }
{
    printer.begin_object()?;
    name_row(printer, call, name)?;
    printer.count_row("ok", version)?;
    printer.end_object()
}

#[tactic(auto, unfolding(crate::specs::Trees::reply_tree))]
fn write_reply(printer: &mut Printer, call: &Call, reply: &Reply) -> Result<(), AllocError>
    ensures { OnOk result (printer.new ≡ with_value printer.old (reply_tree call.now reply.now)) }
{
    match reply {
        Reply::Ok { version, name } => write_accepted(printer, call, *version, name),
        Reply::Unchanged { version } => write_lone(printer, "unchanged", *version),
        Reply::Found { object } => write_lone(printer, "found", object.meta().version),
        Reply::Conflict { named, have } => write_conflict(printer, *named, *have),
        Reply::NotFound { at } => write_lone(printer, "notFound", *at),
        Reply::AlreadyExists { have } => write_lone(printer, "alreadyExists", *have),
        Reply::Invalid { rule } => write_lone(printer, "invalid", *rule as u64),
        Reply::Unavailable { number } => write_lone(printer, "unavailable", *number),
    }
}

#[tactic(auto, using(cmc_writer::proofs::Written::member_written))]
fn reply_row(printer: &mut Printer, call: &Call, reply: &Reply) -> Result<(), AllocError>
    ensures { OnOk result (printer.new ≡ with_row printer.old (codes "reply") (Some (reply_tree call.now reply.now))) }
{
    printer.name("reply")?;
    write_reply(printer, call, reply)
}

fn verb(call: &Call) -> &'static str
    ensures { result.now ≡ call_name call.now }
{
    match call {
        Call::Create {
            object: _,
            generate: false,
        } => "create",
        Call::Create {
            object: _,
            generate: true,
        } => "generate",
        Call::Update { .. } => "update",
        Call::UpdateStatus { .. } => "updateStatus",
        Call::Delete { .. } => "delete",
        Call::Get { .. } => "get",
    }
}

#[tactic(auto, using(cmc_writer::proofs::Written::member_written))]
fn object_row(printer: &mut Printer, alloc: Global, object: &Object) -> Result<(), AllocError>
    ensures { OnOk result (printer.new ≡ with_row printer.old (codes "object") (Some (object_tree object.now))) }
{
    printer.name("object")?;
    write_object(printer, alloc, object)
}

#[tactic(auto, unfolding(cmc_writer::specs::Additions::with_row))]
fn written_row(printer: &mut Printer, alloc: Global, call: &Call) -> Result<(), AllocError>
    ensures { OnOk result (printer.new ≡ with_row printer.old (codes "object") (spec.written_row call.now)) }
{
    match call {
        Call::Create {
            object,
            generate: _,
        } => object_row(printer, alloc, object),
        Call::Update { object, .. } => object_row(printer, alloc, object),
        Call::UpdateStatus { object, .. } => object_row(printer, alloc, object),
        Call::Delete { .. } | Call::Get { .. } => Ok(()),
    }
}

#[tactic(auto, unfolding(cmc_writer::specs::Additions::with_row))]
fn version_row(printer: &mut Printer, call: &Call) -> Result<(), AllocError>
    ensures { OnOk result (printer.new ≡ with_row printer.old (codes "version") (spec.version_row call.now)) }
{
    match call {
        Call::Update { version, .. } => printer.count_row("version", *version),
        Call::UpdateStatus { version, .. } => printer.count_row("version", *version),
        Call::Delete {
            version: Some(version),
            ..
        } => printer.count_row("version", *version),
        _ => Ok(()),
    }
}

fn who_row(printer: &mut Printer, who: Who) -> Result<(), AllocError>
    ensures { OnOk result (printer.new ≡ with_row printer.old (codes "who") (Some (who_tree who))) }
{
    match who {
        Who::User => printer.text_row("who", "user"),
        Who::Pass(number) => printer.count_row("who", number),
    }
}

fn add_head(printer: &mut Printer, number: u64, call: &Call) -> Result<(), AllocError>
    ensures { OnOk result (printer.new ≡ with_rows printer.old (call_head number call.now)) }
{
    printer.text_row("call", verb(call))?;
    printer.text_row("is", "call")?;
    key_row(printer, call)?;
    printer.count_row("n", number)
}

fn add_body(
    printer: &mut Printer,
    alloc: Global,
    call: &Call,
    reply: &Reply,
) -> Result<(), AllocError>
    ensures { OnOk result (printer.new ≡ with_rows printer.old (call_body call.now reply.now)) }
{
    written_row(printer, alloc, call)?;
    reply_row(printer, call, reply)?;
    version_row(printer, call)
}

/// The entry of a call.
#[tactic(auto, using(crate::proofs::CallLaws::entry_of_call))]
pub fn write_call(
    printer: &mut Printer,
    alloc: Global,
    number: u64,
    who: Who,
    call: &Call,
    reply: &Reply,
) -> Result<(), AllocError>
    ensures { OnOk result (printer.new ≡ with_value printer.old (entry_tree number (Called who call.now reply.now))) }
{
    printer.begin_object()?;
    add_head(printer, number, call)?;
    add_body(printer, alloc, call, reply)?;
    who_row(printer, who)?;
    printer.end_object()
}

/// Writes the entry of a call by whom the word `who` names.
#[tactic(auto, using(crate::proofs::CallLaws::call_written))]
pub fn write_call_by(
    printer: &mut Printer,
    alloc: Global,
    number: u64,
    who: &str,
    call: &Call,
    reply: &Reply,
) -> Result<(), AllocError>
    ensures { OnOk result (printer.new ≡ with_value printer.old (call_tree number (string who.now) call.now reply.now)) }
{
    printer.begin_object()?;
    add_head(printer, number, call)?;
    add_body(printer, alloc, call, reply)?;
    printer.text_row("who", who)?;
    printer.end_object()
}
