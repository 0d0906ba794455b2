//! The entries of a collection as lines.
ghost use Rattle.std.specs.Prelude.{◌≡◌, [], Some, codes, IfOk, OnOk, string_bytes};
ghost use Rattle.cmc_print.specs.Trees.{line_of};
ghost use Rattle.cmc_collect_run.specs.Printed.{collect_tree, count_rows, counts_tree, entry_tree, deletes, told_rows, told_tree};
ghost use Rattle.cmc_writer.specs.Additions.{with_row, with_rows, with_value};

use cmc_collect_moves::{delete_of, get_of};
use cmc_collector::CollectEntry;
use cmc_meta::Kind;
use cmc_print::kind_word;
use cmc_report::write_call_by;
use cmc_writer::Printer;
use std::alloc::{AllocError, Global};

fn add_told(
    printer: &mut Printer,
    word: &str,
    number: u64,
    kind: Kind,
    to: u64,
) -> Result<(), AllocError>
    ensures { OnOk result (printer.new ≡ with_rows printer.old (told_rows word.now number kind to)) }
{
    printer.text_row("is", word)?;
    printer.text_row("kind", kind_word(kind))?;
    printer.count_row("n", number)?;
    printer.count_row("to", to)
}

#[tactic(auto, using(crate::proofs::PrintLaws::told_written))]
fn write_told(
    printer: &mut Printer,
    word: &str,
    number: u64,
    kind: Kind,
    to: u64,
) -> Result<(), AllocError>
    ensures { OnOk result (printer.new ≡ with_value printer.old (told_tree word.now number kind to)) }
{
    printer.begin_object()?;
    add_told(printer, word, number, kind, to)?;
    printer.end_object()
}

#[tactic(auto, unfolding(crate::specs::Printed::entry_tree))]
fn write_entry(
    printer: &mut Printer,
    alloc: Global,
    number: u64,
    entry: &CollectEntry,
) -> Result<(), AllocError>
    ensures { OnOk result (printer.new ≡ with_value printer.old (entry_tree number entry.now)) }
{
    match entry {
        CollectEntry::User { call, reply } => {
            write_call_by(printer, alloc, number, "user", call, reply)
        }
        CollectEntry::Deliver { kind, to } => write_told(printer, "deliver", number, *kind, *to),
        CollectEntry::List { kind, to } => write_told(printer, "list", number, *kind, *to),
        CollectEntry::Look { key, owner, reply } => {
            let call = get_of(&key.namespace, owner)?;
            write_call_by(printer, alloc, number, "collector", &call, reply)
        }
        CollectEntry::Delete {
            key,
            version,
            reply,
        } => {
            let call = delete_of(key, *version)?;
            write_call_by(printer, alloc, number, "collector", &call, reply)
        }
    }
}

/// The line of the entry of that number, and the printer for the next.
#[tactic(auto, using(crate::proofs::PrintLaws::line_written))]
pub(crate) fn entry_line(
    alloc: Global,
    mut printer: Printer,
    number: u64,
    entry: &CollectEntry,
) -> Result<(String, Printer), AllocError>
    requires { printer ≡ [] }
    ensures line { IfOk result (λ r. string_bytes r.0 ≡ line_of (entry_tree number entry.now)) }
    ensures empty { IfOk result (λ r. r.1 ≡ []) }
{
    write_entry(&mut printer, alloc, number, entry)?;
    printer.into_line(alloc)
}

/// Whether the collector deleted an object.
pub(crate) fn deletes(entry: &CollectEntry) -> bool
    ensures { result ≡ deletes entry.now }
{
    match entry {
        CollectEntry::Delete { reply, .. } => reply.is_accepted(),
        _ => false,
    }
}

fn add_counts(printer: &mut Printer, deleted: u64, objects: u64) -> Result<(), AllocError>
    ensures { OnOk result (printer.new ≡ with_rows printer.old (count_rows deleted objects)) }
{
    printer.count_row("deleted", deleted)?;
    printer.count_row("objects", objects)
}

#[tactic(auto, using(crate::proofs::PrintLaws::counts_written))]
fn write_counts(printer: &mut Printer, deleted: u64, objects: u64) -> Result<(), AllocError>
    ensures { OnOk result (printer.new ≡ with_value printer.old (counts_tree deleted objects)) }
{
    printer.begin_object()?;
    add_counts(printer, deleted, objects)?;
    printer.end_object()
}

#[tactic(auto, using(cmc_writer::proofs::Written::member_written))]
fn counts_row(printer: &mut Printer, deleted: u64, objects: u64) -> Result<(), AllocError>
    ensures { OnOk result (printer.new ≡ with_row printer.old (codes "collect") (Some (counts_tree deleted objects))) }
{
    printer.name("collect")?;
    write_counts(printer, deleted, objects)
}

#[tactic(auto, using(crate::proofs::PrintLaws::collect_written))]
fn write_collect(printer: &mut Printer, deleted: u64, objects: u64) -> Result<(), AllocError>
    ensures { OnOk result (printer.new ≡ with_value printer.old (collect_tree deleted objects)) }
{
    printer.begin_object()?;
    counts_row(printer, deleted, objects)?;
    printer.end_object()
}

/// The last line: how many objects the collector deleted, and how many exist.
#[tactic(auto, using(crate::proofs::PrintLaws::line_written))]
pub(crate) fn collect_line(alloc: Global, deleted: u64, objects: u64) -> Result<String, AllocError>
    ensures { IfOk result (λ s. string_bytes s ≡ line_of (collect_tree deleted objects)) }
{
    let mut printer = Printer::new(alloc);
    write_collect(&mut printer, deleted, objects)?;
    let (line, _printer) = printer.into_line(alloc)?;
    Ok(line)
}
