// Members that may be left out.
ghost use Rattle.std.specs.Prelude.{◌≡◌, map, Some, option_map, OnOk};
ghost use Rattle.std.specs.Map.{keys_of};
ghost use Rattle.std.specs.Cmp.Lexicographic.{slice_cmp};
ghost use Rattle.std.specs.List.Sorted.{IsStrictlySortedBy};
ghost use Rattle.std.specs.Ordering.{nat_cmp};
ghost use Rattle.cmc_object_lines.specs.ObjectRows.{pair_rows};
ghost use Rattle.serde_json.specs.Data.{string};
ghost use Rattle.cmc_print.specs.Printed.{moment_tree, duration_tree};
ghost use Rattle.cmc_print.specs.Puts.{strings, base64_text, map_tree};
ghost use Rattle.cmc_print.specs.Trees.{natural};
ghost use Rattle.cmc_writer.specs.Additions.{with_value, with_values, with_row, with_rows};
ghost use Rattle.cmc_writer.specs.Rows.{list_row, true_row};

use base64::engine::general_purpose::STANDARD;
use cmc_meta::{Bytes, Text};
use cmc_print::moment_word;
use cmc_time::print_duration;
use cmc_writer::Printer;
use std::alloc::{AllocError, Global};
use std::collections::BTreeMap;

/// A text, unless it is empty.
#[tactic(auto, unfolding(cmc_writer::specs::Additions::with_row))]
pub fn some_text_row(printer: &mut Printer, name: &str, text: &str) -> Result<(), AllocError>
    ensures { OnOk result (printer.new ≡ with_row printer.old name.now (list_row string text.now)) }
{
    if text.is_empty() {
        return Ok(());
    }
    printer.text_row(name, text)
}

/// A text, where there is one.
#[tactic(auto, unfolding(cmc_writer::specs::Additions::with_row))]
pub fn text_option_row(
    printer: &mut Printer,
    name: &str,
    text: &Option<Text>,
) -> Result<(), AllocError>
    ensures { OnOk result (printer.new ≡ with_row printer.old name.now (option_map string text.now)) }
{
    match text {
        None => Ok(()),
        Some(text) => printer.text_row(name, text.as_str()),
    }
}

/// A number, where there is one.
#[tactic(auto, unfolding(cmc_writer::specs::Additions::with_row))]
pub fn count_option_row(
    printer: &mut Printer,
    name: &str,
    count: Option<u64>,
) -> Result<(), AllocError>
    ensures { OnOk result (printer.new ≡ with_row printer.old name.now (option_map natural count)) }
{
    match count {
        None => Ok(()),
        Some(count) => printer.count_row(name, count),
    }
}

/// The same of a smaller number.
#[tactic(auto, unfolding(cmc_writer::specs::Additions::with_row))]
pub fn small_count_option_row(
    printer: &mut Printer,
    name: &str,
    count: Option<u32>,
) -> Result<(), AllocError>
    ensures { OnOk result (printer.new ≡ with_row printer.old name.now (option_map natural count)) }
{
    match count {
        None => Ok(()),
        Some(count) => printer.count_row(name, count as u64),
    }
}

/// `true`, where it is true.
#[tactic(auto, unfolding(cmc_writer::specs::Additions::with_row))]
pub fn true_row(printer: &mut Printer, name: &str, flag: bool) -> Result<(), AllocError>
    ensures { OnOk result (printer.new ≡ with_row printer.old name.now (true_row flag)) }
{
    if flag {
        return printer.flag_row(name, true);
    }
    Ok(())
}

/// A duration, where there is one.
#[tactic(auto, unfolding(cmc_writer::specs::Additions::with_row))]
pub fn duration_row(
    printer: &mut Printer,
    alloc: Global,
    name: &str,
    seconds: Option<u64>,
) -> Result<(), AllocError>
    ensures { OnOk result (printer.new ≡ with_row printer.old name.now (option_map duration_tree seconds)) }
{
    match seconds {
        None => Ok(()),
        Some(seconds) => {
            let text = print_duration(alloc, seconds)?;
            printer.text_row(name, text.as_str())
        }
    }
}

/// A moment.
#[tactic(auto, unfolding(cmc_writer::specs::Additions::with_row))]
pub fn moment_row(
    printer: &mut Printer,
    alloc: Global,
    name: &str,
    at: i64,
) -> Result<(), AllocError>
    ensures { OnOk result (printer.new ≡ with_row printer.old name.now (Some (moment_tree at))) }
{
    let text = moment_word(alloc, at)?;
    printer.text_row(name, text.as_str())
}

/// A moment, where there is one.
#[tactic(auto, unfolding(cmc_writer::specs::Additions::with_row))]
pub fn moment_option_row(
    printer: &mut Printer,
    alloc: Global,
    name: &str,
    at: Option<i64>,
) -> Result<(), AllocError>
    ensures { OnOk result (printer.new ≡ with_row printer.old name.now (option_map moment_tree at)) }
{
    match at {
        None => Ok(()),
        Some(at) => moment_row(printer, alloc, name, at),
    }
}

fn add_texts(printer: &mut Printer, texts: &[Text]) -> Result<(), AllocError>
    ensures { OnOk result (printer.new ≡ with_values printer.old (map string texts.now)) }
{
    for text in texts {
        printer.text(text.as_str())?;
    }
    Ok(())
}

#[tactic(auto, using(cmc_writer::proofs::Written::list_written))]
fn write_texts(printer: &mut Printer, texts: &[Text]) -> Result<(), AllocError>
    ensures { OnOk result (printer.new ≡ with_value printer.old (strings texts.now)) }
{
    printer.begin_array()?;
    add_texts(printer, texts)?;
    printer.end_array()
}

/// A list of texts, unless it is empty.
#[tactic(auto, unfolding(cmc_writer::specs::Additions::with_row))]
pub fn texts_row(printer: &mut Printer, name: &str, texts: &[Text]) -> Result<(), AllocError>
    ensures { OnOk result (printer.new ≡ with_row printer.old name.now (list_row strings texts.now)) }
{
    if texts.is_empty() {
        return Ok(());
    }
    printer.name(name)?;
    write_texts(printer, texts)
}

fn add_pairs(printer: &mut Printer, pairs: &BTreeMap<Text, Text>) -> Result<(), AllocError>
    ensures rows { OnOk result (printer.new ≡ with_rows printer.old (pair_rows string pairs.now.entries)) }
    ensures order { OnOk result (IsStrictlySortedBy (slice_cmp nat_cmp) (keys_of pairs.now.entries)) }
{
    for (name, text) in pairs.iter() {
        printer.text_row(name.as_str(), text.as_str())?;
    }
    Ok(())
}

#[tactic(auto, using(crate::proofs::Pairs::pairs_written))]
fn write_pairs(printer: &mut Printer, pairs: &BTreeMap<Text, Text>) -> Result<(), AllocError>
    ensures { OnOk result (printer.new ≡ with_value printer.old (map_tree string pairs.now.entries)) }
{
    printer.begin_object()?;
    add_pairs(printer, pairs)?;
    printer.end_object()
}

/// A map of texts, unless it is empty.
#[tactic(auto, unfolding(cmc_writer::specs::Additions::with_row))]
pub fn pairs_row(
    printer: &mut Printer,
    name: &str,
    pairs: &BTreeMap<Text, Text>,
) -> Result<(), AllocError>
    ensures { OnOk result (printer.new ≡ with_row printer.old name.now (list_row (map_tree string) pairs.now.entries)) }
{
    if pairs.is_empty() {
        return Ok(());
    }
    printer.name(name)?;
    write_pairs(printer, pairs)
}

/// Bytes as standard base64.
#[tactic(auto, unfolding(cmc_writer::specs::Additions::with_row))]
pub fn bytes_row(
    printer: &mut Printer,
    alloc: Global,
    name: &str,
    bytes: &[u8],
) -> Result<(), AllocError>
    ensures { OnOk result (printer.new ≡ with_row printer.old name.now (Some (base64_text bytes.now))) }
{
    let text = STANDARD.encode(alloc, bytes)?;
    printer.text_row(name, text.as_str())
}

/// The same, unless there are none.
#[tactic(auto, unfolding(cmc_writer::specs::Additions::with_row))]
pub fn some_bytes_row(
    printer: &mut Printer,
    alloc: Global,
    name: &str,
    bytes: &[u8],
) -> Result<(), AllocError>
    ensures { OnOk result (printer.new ≡ with_row printer.old name.now (list_row base64_text bytes.now)) }
{
    if bytes.is_empty() {
        return Ok(());
    }
    bytes_row(printer, alloc, name, bytes)
}

fn add_parts(
    printer: &mut Printer,
    alloc: Global,
    parts: &BTreeMap<Text, Bytes>,
) -> Result<(), AllocError>
    ensures rows { OnOk result (printer.new ≡ with_rows printer.old (pair_rows base64_text parts.now.entries)) }
    ensures order { OnOk result (IsStrictlySortedBy (slice_cmp nat_cmp) (keys_of parts.now.entries)) }
{
    for (name, bytes) in parts.iter() {
        bytes_row(printer, alloc, name.as_str(), bytes.as_slice())?;
    }
    Ok(())
}

#[tactic(auto, using(crate::proofs::Pairs::pairs_written))]
fn write_parts(
    printer: &mut Printer,
    alloc: Global,
    parts: &BTreeMap<Text, Bytes>,
) -> Result<(), AllocError>
    ensures { OnOk result (printer.new ≡ with_value printer.old (map_tree base64_text parts.now.entries)) }
{
    printer.begin_object()?;
    add_parts(printer, alloc, parts)?;
    printer.end_object()
}

/// A map of bytes as standard base64, unless it is empty.
#[tactic(auto, unfolding(cmc_writer::specs::Additions::with_row))]
pub fn parts_row(
    printer: &mut Printer,
    alloc: Global,
    name: &str,
    parts: &BTreeMap<Text, Bytes>,
) -> Result<(), AllocError>
    ensures { OnOk result (printer.new ≡ with_row printer.old name.now (list_row (map_tree base64_text) parts.now.entries)) }
{
    if parts.is_empty() {
        return Ok(());
    }
    printer.name(name)?;
    write_parts(printer, alloc, parts)
}
