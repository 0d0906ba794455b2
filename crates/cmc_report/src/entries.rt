// The entries of a history as lines.
ghost use Rattle.std.specs.Prelude.{◌≡◌, [], codes, Some, IfOk, OnOk, string_bytes};
ghost use Rattle.serde_json.specs.Data.{string};
ghost use Rattle.cmc_objects.specs.declared.entry.Entry.TheVariants as entries;
ghost use Rattle.cmc_print.specs.Trees.{line_of};
ghost use Rattle.cmc_print.specs.Words.{name_text};
ghost use Rattle.cmc_report.specs.Trees.{cause_tree, entry_tree, positions_tree};
ghost use Rattle.cmc_report.specs.Rows.{begin_head, begin_tail, position_rows, told_head, told_tail, told_tree};
ghost use Rattle.cmc_writer.specs.Additions.{with_value, with_row, with_rows};

use crate::calls::{write_call, write_lone};
use crate::orders::{answer_row, order_row, write_name};
use cmc_meta::{Key, Kind};
use cmc_object_lines::{bytes_row, moment_row};
use cmc_objects::{Cause, Entry, Order, Positions, Role, Signing};
use cmc_print::{kind_word, role_word};
use cmc_writer::Printer;
use std::alloc::{AllocError, Global};

#[tactic(auto, using(crate::proofs::EntryLaws::entry_written))]
fn write_script(printer: &mut Printer, number: u64, step: u64) -> Result<(), AllocError>
    ensures { OnOk result (printer.new ≡ with_value printer.old (entry_tree number (entries.Script step))) }
{
    printer.begin_object()?;
    printer.text_row("is", "script")?;
    printer.count_row("n", number)?;
    printer.count_row("step", step)?;
    printer.end_object()
}

fn add_told_head(
    printer: &mut Printer,
    word: &str,
    number: u64,
    kind: Kind,
) -> Result<(), AllocError>
    ensures { OnOk result (printer.new ≡ with_rows printer.old (told_head word.now number kind)) }
{
    printer.text_row("is", word)?;
    printer.text_row("kind", kind_word(kind))?;
    printer.count_row("n", number)
}

fn add_told_tail(printer: &mut Printer, role: Role, to: u64) -> Result<(), AllocError>
    ensures { OnOk result (printer.new ≡ with_rows printer.old (told_tail role to)) }
{
    printer.text_row("role", role_word(role))?;
    printer.count_row("to", to)
}

#[tactic(auto, using(crate::proofs::EntryLaws::told_written))]
fn write_told(
    printer: &mut Printer,
    word: &str,
    number: u64,
    role: Role,
    kind: Kind,
    to: u64,
) -> Result<(), AllocError>
    ensures { OnOk result (printer.new ≡ with_value printer.old (told_tree word.now number role kind to)) }
{
    printer.begin_object()?;
    add_told_head(printer, word, number, kind)?;
    add_told_tail(printer, role, to)?;
    printer.end_object()
}

fn add_positions(printer: &mut Printer, at: Positions) -> Result<(), AllocError>
    ensures { OnOk result (printer.new ≡ with_rows printer.old (position_rows at)) }
{
    printer.count_row("Certificate", at.certificates)?;
    printer.count_row("CertificateRequest", at.requests)?;
    printer.count_row("Secret", at.secrets)
}

#[tactic(auto, using(crate::proofs::EntryLaws::positions_written))]
fn write_positions(printer: &mut Printer, at: Positions) -> Result<(), AllocError>
    ensures { OnOk result (printer.new ≡ with_value printer.old (positions_tree at)) }
{
    printer.begin_object()?;
    add_positions(printer, at)?;
    printer.end_object()
}

#[tactic(auto, using(cmc_writer::proofs::Written::member_written))]
fn positions_row(printer: &mut Printer, at: Positions) -> Result<(), AllocError>
    ensures { OnOk result (printer.new ≡ with_row printer.old (codes "at") (Some (positions_tree at))) }
{
    printer.name("at")?;
    write_positions(printer, at)
}

#[tactic(auto, using(cmc_writer::proofs::Written::member_written))]
fn key_row(printer: &mut Printer, key: &Key) -> Result<(), AllocError>
    ensures { OnOk result (printer.new ≡ with_row printer.old (codes "key") (Some (string (name_text key.now)))) }
{
    printer.name("key")?;
    write_name(printer, key)
}

fn add_begin_head(
    printer: &mut Printer,
    number: u64,
    key: &Key,
    at: Positions,
) -> Result<(), AllocError>
    ensures { OnOk result (printer.new ≡ with_rows printer.old (begin_head number key.now at)) }
{
    positions_row(printer, at)?;
    printer.text_row("is", "begin")?;
    key_row(printer, key)?;
    printer.count_row("n", number)
}

fn add_begin_tail(
    printer: &mut Printer,
    alloc: Global,
    pass: u64,
    role: Role,
    now: i64,
) -> Result<(), AllocError>
    ensures { OnOk result (printer.new ≡ with_rows printer.old (begin_tail pass role now)) }
{
    moment_row(printer, alloc, "now", now)?;
    printer.count_row("pass", pass)?;
    printer.text_row("role", role_word(role))
}

#[tactic(auto, using(crate::proofs::EntryLaws::entry_written))]
fn write_begin(
    printer: &mut Printer,
    alloc: Global,
    number: u64,
    pass: u64,
    role: Role,
    key: &Key,
    at: Positions,
    now: i64,
) -> Result<(), AllocError>
    ensures { OnOk result (printer.new ≡ with_value printer.old (entry_tree number (entries.Begin pass role key.now at now))) }
{
    printer.begin_object()?;
    add_begin_head(printer, number, key, at)?;
    add_begin_tail(printer, alloc, pass, role, now)?;
    printer.end_object()
}

#[tactic(auto, using(crate::proofs::EntryLaws::entry_written))]
fn write_ask(
    printer: &mut Printer,
    alloc: Global,
    number: u64,
    pass: u64,
    order: &Order,
) -> Result<(), AllocError>
    ensures { OnOk result (printer.new ≡ with_value printer.old (entry_tree number (entries.Ask pass order.now))) }
{
    printer.begin_object()?;
    printer.text_row("is", "ask")?;
    printer.count_row("n", number)?;
    order_row(printer, alloc, order)?;
    printer.count_row("pass", pass)?;
    printer.end_object()
}

#[tactic(auto, using(crate::proofs::EntryLaws::entry_written))]
fn write_made(
    printer: &mut Printer,
    alloc: Global,
    number: u64,
    pass: u64,
    key: &[u8],
) -> Result<(), AllocError>
    ensures { OnOk result (printer.new ≡ with_value printer.old (entry_tree number (entries.Made pass key.now))) }
{
    printer.begin_object()?;
    printer.text_row("is", "made")?;
    bytes_row(printer, alloc, "key", key)?;
    printer.count_row("n", number)?;
    printer.count_row("pass", pass)?;
    printer.end_object()
}

#[tactic(auto, using(crate::proofs::EntryLaws::entry_written))]
fn write_signed(
    printer: &mut Printer,
    alloc: Global,
    number: u64,
    pass: u64,
    signature: &[u8],
) -> Result<(), AllocError>
    ensures { OnOk result (printer.new ≡ with_value printer.old (entry_tree number (entries.Signed pass signature.now))) }
{
    printer.begin_object()?;
    printer.text_row("is", "signed")?;
    printer.count_row("n", number)?;
    printer.count_row("pass", pass)?;
    bytes_row(printer, alloc, "signature", signature)?;
    printer.end_object()
}

#[tactic(auto, using(crate::proofs::EntryLaws::entry_written))]
fn write_answered(
    printer: &mut Printer,
    alloc: Global,
    number: u64,
    pass: u64,
    answer: &Signing,
) -> Result<(), AllocError>
    ensures { OnOk result (printer.new ≡ with_value printer.old (entry_tree number (entries.Answered pass answer.now))) }
{
    printer.begin_object()?;
    answer_row(printer, alloc, answer)?;
    printer.text_row("is", "answered")?;
    printer.count_row("n", number)?;
    printer.count_row("pass", pass)?;
    printer.end_object()
}

#[tactic(auto, using(crate::proofs::EntryLaws::entry_written))]
fn write_judged(printer: &mut Printer, number: u64, pass: u64, yes: bool) -> Result<(), AllocError>
    ensures { OnOk result (printer.new ≡ with_value printer.old (entry_tree number (entries.Judged pass yes))) }
{
    printer.begin_object()?;
    printer.text_row("is", "judged")?;
    printer.count_row("n", number)?;
    printer.count_row("pass", pass)?;
    printer.flag_row("yes", yes)?;
    printer.end_object()
}

fn write_cause(printer: &mut Printer, cause: Cause) -> Result<(), AllocError>
    ensures { OnOk result (printer.new ≡ with_value printer.old (cause_tree cause)) }
{
    match cause {
        Cause::Wrote => printer.text("wrote"),
        Cause::Nothing => printer.text("nothing"),
        Cause::Stopper(entry) => write_lone(printer, "entry", entry),
    }
}

#[tactic(auto, using(cmc_writer::proofs::Written::member_written))]
fn cause_row(printer: &mut Printer, cause: Cause) -> Result<(), AllocError>
    ensures { OnOk result (printer.new ≡ with_row printer.old (codes "cause") (Some (cause_tree cause))) }
{
    printer.name("cause")?;
    write_cause(printer, cause)
}

#[tactic(auto, using(crate::proofs::EntryLaws::entry_written))]
fn write_end(printer: &mut Printer, number: u64, pass: u64, cause: Cause) -> Result<(), AllocError>
    ensures { OnOk result (printer.new ≡ with_value printer.old (entry_tree number (entries.End pass cause))) }
{
    printer.begin_object()?;
    cause_row(printer, cause)?;
    printer.text_row("is", "end")?;
    printer.count_row("n", number)?;
    printer.count_row("pass", pass)?;
    printer.end_object()
}

#[tactic(auto, using(crate::proofs::EntryLaws::entry_written))]
fn write_stop(printer: &mut Printer, number: u64, role: Role) -> Result<(), AllocError>
    ensures { OnOk result (printer.new ≡ with_value printer.old (entry_tree number (entries.Stop role))) }
{
    printer.begin_object()?;
    printer.text_row("is", "stop")?;
    printer.count_row("n", number)?;
    printer.text_row("role", role_word(role))?;
    printer.end_object()
}

#[tactic(auto, using(crate::proofs::EntryLaws::entry_written))]
fn write_start(printer: &mut Printer, number: u64, role: Role, at: u64) -> Result<(), AllocError>
    ensures { OnOk result (printer.new ≡ with_value printer.old (entry_tree number (entries.Start role at))) }
{
    printer.begin_object()?;
    printer.count_row("at", at)?;
    printer.text_row("is", "start")?;
    printer.count_row("n", number)?;
    printer.text_row("role", role_word(role))?;
    printer.end_object()
}

#[tactic(auto, using(crate::proofs::EntryLaws::entry_written))]
fn write_tick(printer: &mut Printer, alloc: Global, number: u64, now: i64) -> Result<(), AllocError>
    ensures { OnOk result (printer.new ≡ with_value printer.old (entry_tree number (entries.Tick now))) }
{
    printer.begin_object()?;
    printer.text_row("is", "tick")?;
    printer.count_row("n", number)?;
    moment_row(printer, alloc, "now", now)?;
    printer.end_object()
}

#[tactic(auto, using(crate::proofs::EntryLaws::deliver_is))]
fn write_deliver(
    printer: &mut Printer,
    number: u64,
    role: Role,
    kind: Kind,
    to: u64,
) -> Result<(), AllocError>
    ensures { OnOk result (printer.new ≡ with_value printer.old (entry_tree number (entries.Deliver role kind to))) }
{
    write_told(printer, "deliver", number, role, kind, to)
}

#[tactic(auto, using(crate::proofs::EntryLaws::list_is))]
fn write_list(
    printer: &mut Printer,
    number: u64,
    role: Role,
    kind: Kind,
    to: u64,
) -> Result<(), AllocError>
    ensures { OnOk result (printer.new ≡ with_value printer.old (entry_tree number (entries.List role kind to))) }
{
    write_told(printer, "list", number, role, kind, to)
}

fn write_entry(
    printer: &mut Printer,
    alloc: Global,
    number: u64,
    entry: &Entry,
) -> Result<(), AllocError>
    ensures { OnOk result (printer.new ≡ with_value printer.old (entry_tree number entry.now)) }
{
    match entry {
        Entry::Script { step } => write_script(printer, number, *step),
        Entry::Call { who, call, reply } => write_call(printer, alloc, number, *who, call, reply),
        Entry::Deliver { role, kind, to } => write_deliver(printer, number, *role, *kind, *to),
        Entry::List { role, kind, to } => write_list(printer, number, *role, *kind, *to),
        Entry::Begin {
            pass,
            role,
            key,
            at,
            now,
        } => write_begin(printer, alloc, number, *pass, *role, key, *at, *now),
        Entry::Ask { pass, order } => write_ask(printer, alloc, number, *pass, order),
        Entry::Made { pass, key } => write_made(printer, alloc, number, *pass, key.as_slice()),
        Entry::Signed { pass, signature } => write_signed(
            printer,
            alloc,
            number,
            *pass,
            signature.as_slice(),
        ),
        Entry::Answered { pass, answer } => write_answered(printer, alloc, number, *pass, answer),
        Entry::Judged { pass, yes } => write_judged(printer, number, *pass, *yes),
        Entry::End { pass, cause } => write_end(printer, number, *pass, *cause),
        Entry::Stop { role } => write_stop(printer, number, *role),
        Entry::Start { role, at } => write_start(printer, number, *role, *at),
        Entry::Tick { now } => write_tick(printer, alloc, number, *now),
    }
}

/// The line of the entry of that number, and the printer for the next.
#[tactic(auto, using(crate::proofs::CallLaws::line_written))]
pub fn entry_line(
    alloc: Global,
    mut printer: Printer,
    number: u64,
    entry: &Entry,
) -> Result<(String, Printer), AllocError>
    requires { printer ≡ [] }
    ensures line { IfOk result (λ r. string_bytes r.0 ≡ line_of (entry_tree number entry.now)) }
    ensures empty { IfOk result (λ r. r.1 ≡ []) }
{
    write_entry(&mut printer, alloc, number, entry)?;
    printer.into_line(alloc)
}
