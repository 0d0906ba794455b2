// Lines of entries.
ghost use Rattle.std.specs.Prelude.{◌≡◌, ◌↔◌, MatchOption, IsTrue, IfOk, Ok};
ghost use Rattle.std.specs.Str.{IsUtf8};
ghost use Rattle.serde_json.specs.Data.{Data};
ghost use Rattle.serde_json.specs.View.{view};
ghost use Rattle.cmc_print.specs.Trees.{data_of};
ghost use Rattle.cmc_line_reading.specs.Histories.{IsJson, IsLine, IsLineOf, IsTextOf};
ghost use Rattle.cmc_entry_form.specs.LineForm.{line_at};

use crate::nesting::is_shallow;
use cmc_cursor::BadField;
use cmc_entry_form::{entry_of, line_is_formed};
use cmc_lines::{PrintedLine, tree_of_line};
use cmc_print::Tree;
use serde_json::Value;
use std::alloc::{AllocError, Global};

// ---- JSON

/// The value of a JSON text (RFC 8259). `None` exactly where the text is none.
#[tactic(auto, using(crate::proofs::Compared::never_read))]
pub fn value_of(alloc: Global, text: &[u8]) -> Result<Option<Value>, AllocError>
    ensures { IfOk result (λ o. MatchOption o ((d : Data) → IsJson text.now d → ⊥) (λ v. IsJson text.now (view v))) }
{
    match Value::from_slice(alloc, text) {
        Ok(value) => Ok(Some(value)),
        Err(error) if error.is_memory() => Err(AllocError),
        Err(_) => Ok(None),
    }
}

/// Whether the text is the compact text of the tree, and is read as it.
#[tactic(auto, using(crate::proofs::Compared::printed_is, crate::proofs::Compared::printed_is_not, crate::proofs::Compared::too_deep))]
pub fn is_text_of(alloc: Global, tree: Tree, text: &[u8]) -> Result<bool, AllocError>
    requires { IsUtf8 text.now }
    ensures { IfOk result (λ b. IsTrue b ↔ IsTextOf (data_of tree) text.now) }
{
    let value = tree.into_value();
    if !is_shallow(&value) {
        return Ok(false);
    }
    let printed = value.to_string(alloc)?;
    Ok(printed.as_bytes() == text)
}

// ---- lines of entries

#[tactic(auto, using(crate::proofs::Compared::printed_line, crate::proofs::Compared::not_printed))]
fn compared(
    alloc: Global,
    number: u64,
    text: &[u8],
    value: &Value,
    line: PrintedLine,
) -> Result<Option<PrintedLine>, AllocError>
    requires json { IsJson text.now (view value.now) }
    requires read { line_at (view value.now) ≡ Ok line }
    ensures { IfOk result (λ o. MatchOption o (IsLine number text.now → ⊥) (IsLineOf number text.now)) }
{
    line_is_formed(&line);
    let tree = tree_of_line(alloc, number, &line)?;
    if is_text_of(alloc, tree, text)? {
        return Ok(Some(line));
    }
    Ok(None)
}

/// What the line of the entry of this number says, whose value is at hand. `None` exactly where the text
/// is not the line of such an entry that is of its form.
pub fn entry_line(
    alloc: Global,
    number: u64,
    text: &[u8],
    value: &Value,
) -> Result<Option<PrintedLine>, AllocError>
    requires { IsJson text.now (view value.now) }
    ensures { IfOk result (λ o. MatchOption o (IsLine number text.now → ⊥) (IsLineOf number text.now)) }
{
    match entry_of(alloc, value) {
        Ok(line) => compared(alloc, number, text, value, line),
        Err(BadField::Path(_)) => Ok(None),
        Err(BadField::NoMemory) => Err(AllocError),
    }
}
