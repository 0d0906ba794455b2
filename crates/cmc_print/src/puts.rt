// Members that may be left out.
ghost use Rattle.std.specs.Prelude.{◌≡◌, IfOk, OnOk, OnErr};
ghost use Rattle.serde_json.specs.Data.{boolean, string, put};
ghost use Rattle.cmc_print.specs.Puts.{put_option, put_list, put_true, put_object, strings, base64_text, map_tree};
ghost use Rattle.cmc_print.specs.Printed.{moment_tree, duration_tree};
ghost use Rattle.cmc_print.specs.Trees.{natural, data_of, members_of};

use crate::tree::{Members, Tree, Trees};
use crate::words::moment_word;
use base64::engine::general_purpose::STANDARD;
use cmc_meta::{Bytes, Text};
use cmc_time::print_duration;
use std::alloc::{AllocError, Global};
use std::collections::BTreeMap;

/// Puts a text.
pub fn put_text(
    members: &mut Members,
    alloc: Global,
    name: &str,
    text: &str,
) -> Result<(), AllocError>
    ensures ok { OnOk result (members_of members.new ≡ put name.now (string text.now) (members_of members.old)) }
    ensures err { OnErr result (members_of members.new ≡ members_of members.old) }
{
    let tree = Tree::text(alloc, text)?;
    members.put(alloc, name, tree)
}

/// Puts a text, unless it is empty.
pub fn put_some_text(
    members: &mut Members,
    alloc: Global,
    name: &str,
    text: &str,
) -> Result<(), AllocError>
    ensures ok { OnOk result (members_of members.new ≡ put_list string name.now text.now (members_of members.old)) }
    ensures err { OnErr result (members_of members.new ≡ members_of members.old) }
{
    if text.is_empty() {
        return Ok(());
    }
    put_text(members, alloc, name, text)
}

/// Puts a number.
pub fn put_count(
    members: &mut Members,
    alloc: Global,
    name: &str,
    number: u64,
) -> Result<(), AllocError>
    ensures ok { OnOk result (members_of members.new ≡ put name.now (natural number) (members_of members.old)) }
    ensures err { OnErr result (members_of members.new ≡ members_of members.old) }
{
    members.put(alloc, name, Tree::count(number))
}

/// Puts a number, where there is one.
pub fn put_count_option(
    members: &mut Members,
    alloc: Global,
    name: &str,
    number: Option<u64>,
) -> Result<(), AllocError>
    ensures ok { OnOk result (members_of members.new ≡ put_option natural name.now number (members_of members.old)) }
    ensures err { OnErr result (members_of members.new ≡ members_of members.old) }
{
    match number {
        None => Ok(()),
        Some(number) => put_count(members, alloc, name, number),
    }
}

/// The same of a smaller number.
pub fn put_small_count_option(
    members: &mut Members,
    alloc: Global,
    name: &str,
    number: Option<u32>,
) -> Result<(), AllocError>
    ensures ok { OnOk result (members_of members.new ≡ put_option natural name.now number (members_of members.old)) }
    ensures err { OnErr result (members_of members.new ≡ members_of members.old) }
{
    match number {
        None => Ok(()),
        Some(number) => put_count(members, alloc, name, number as u64),
    }
}

/// Puts `true`, where it is true.
pub fn put_if_true(
    members: &mut Members,
    alloc: Global,
    name: &str,
    flag: bool,
) -> Result<(), AllocError>
    ensures ok { OnOk result (members_of members.new ≡ put_true name.now flag (members_of members.old)) }
    ensures err { OnErr result (members_of members.new ≡ members_of members.old) }
{
    if flag {
        return members.put(alloc, name, Tree::flag(true));
    }
    Ok(())
}

/// Puts a duration as Go's time.Duration prints it, where there is one.
pub fn put_duration(
    members: &mut Members,
    alloc: Global,
    name: &str,
    seconds: Option<u64>,
) -> Result<(), AllocError>
    ensures ok { OnOk result (members_of members.new ≡ put_option duration_tree name.now seconds (members_of members.old)) }
    ensures err { OnErr result (members_of members.new ≡ members_of members.old) }
{
    match seconds {
        None => Ok(()),
        Some(seconds) => {
            let text = print_duration(alloc, seconds)?;
            put_text(members, alloc, name, text.as_str())
        }
    }
}

/// Puts a moment, where there is one.
pub fn put_moment(
    members: &mut Members,
    alloc: Global,
    name: &str,
    at: Option<i64>,
) -> Result<(), AllocError>
    ensures ok { OnOk result (members_of members.new ≡ put_option moment_tree name.now at (members_of members.old)) }
    ensures err { OnErr result (members_of members.new ≡ members_of members.old) }
{
    match at {
        None => Ok(()),
        Some(at) => {
            let text = moment_word(alloc, at)?;
            put_text(members, alloc, name, text.as_str())
        }
    }
}

/// Puts bytes as standard base64.
pub fn put_bytes(
    members: &mut Members,
    alloc: Global,
    name: &str,
    bytes: &[u8],
) -> Result<(), AllocError>
    ensures ok { OnOk result (members_of members.new ≡ put name.now (base64_text bytes.now) (members_of members.old)) }
    ensures err { OnErr result (members_of members.new ≡ members_of members.old) }
{
    let text = STANDARD.encode(alloc, bytes)?;
    put_text(members, alloc, name, text.as_str())
}

/// Puts bytes as standard base64, unless there are none.
pub fn put_some_bytes(
    members: &mut Members,
    alloc: Global,
    name: &str,
    bytes: &[u8],
) -> Result<(), AllocError>
    ensures ok { OnOk result (members_of members.new ≡ put_list base64_text name.now bytes.now (members_of members.old)) }
    ensures err { OnErr result (members_of members.new ≡ members_of members.old) }
{
    if bytes.is_empty() {
        return Ok(());
    }
    put_bytes(members, alloc, name, bytes)
}

/// A list of texts.
pub fn texts_tree(alloc: Global, texts: &[Text]) -> Result<Tree, AllocError>
    ensures { IfOk result (λ t. data_of t ≡ strings texts.now) }
{
    let mut trees = Trees::new(alloc);
    for text in texts {
        trees.push(Tree::text(alloc, text.as_str())?)?;
    }
    Ok(Tree::list(trees))
}

/// Puts a list of texts, unless it is empty.
pub fn put_texts(
    members: &mut Members,
    alloc: Global,
    name: &str,
    texts: &[Text],
) -> Result<(), AllocError>
    ensures ok { OnOk result (members_of members.new ≡ put_list strings name.now texts.now (members_of members.old)) }
    ensures err { OnErr result (members_of members.new ≡ members_of members.old) }
{
    if texts.is_empty() {
        return Ok(());
    }
    let tree = texts_tree(alloc, texts)?;
    members.put(alloc, name, tree)
}

/// Puts an object, unless it has no members.
pub fn put_members(
    members: &mut Members,
    alloc: Global,
    name: &str,
    inner: Members,
) -> Result<(), AllocError>
    ensures ok { OnOk result (members_of members.new ≡ put_object name.now (members_of inner) (members_of members.old)) }
    ensures err { OnErr result (members_of members.new ≡ members_of members.old) }
{
    if inner.is_empty() {
        return Ok(());
    }
    members.put(alloc, name, Tree::object(inner))
}

fn pairs_tree(alloc: Global, pairs: &BTreeMap<Text, Text>) -> Result<Tree, AllocError>
    ensures { IfOk result (λ t. data_of t ≡ map_tree string pairs.now.entries) }
{
    let mut members = Members::new(alloc);
    for (name, text) in pairs.iter() {
        put_text(&mut members, alloc, name.as_str(), text.as_str())?;
    }
    Ok(Tree::object(members))
}

/// Puts a map of texts, unless it is empty.
pub fn put_pairs(
    members: &mut Members,
    alloc: Global,
    name: &str,
    pairs: &BTreeMap<Text, Text>,
) -> Result<(), AllocError>
    ensures ok { OnOk result (members_of members.new ≡ put_list (map_tree string) name.now pairs.now.entries (members_of members.old)) }
    ensures err { OnErr result (members_of members.new ≡ members_of members.old) }
{
    if pairs.is_empty() {
        return Ok(());
    }
    let tree = pairs_tree(alloc, pairs)?;
    members.put(alloc, name, tree)
}

fn parts_tree(alloc: Global, parts: &BTreeMap<Text, Bytes>) -> Result<Tree, AllocError>
    ensures { IfOk result (λ t. data_of t ≡ map_tree base64_text parts.now.entries) }
{
    let mut members = Members::new(alloc);
    for (name, bytes) in parts.iter() {
        put_bytes(&mut members, alloc, name.as_str(), bytes.as_slice())?;
    }
    Ok(Tree::object(members))
}

/// Puts a map of bytes as standard base64, unless it is empty.
pub fn put_parts(
    members: &mut Members,
    alloc: Global,
    name: &str,
    parts: &BTreeMap<Text, Bytes>,
) -> Result<(), AllocError>
    ensures ok { OnOk result (members_of members.new ≡ put_list (map_tree base64_text) name.now parts.now.entries (members_of members.old)) }
    ensures err { OnErr result (members_of members.new ≡ members_of members.old) }
{
    if parts.is_empty() {
        return Ok(());
    }
    let tree = parts_tree(alloc, parts)?;
    members.put(alloc, name, tree)
}

/// Puts a moment, in seconds since 1970-01-01T00:00:00Z.
pub fn put_time(members: &mut Members, alloc: Global, name: &str, at: i64) -> Result<(), AllocError>
    ensures ok { OnOk result (members_of members.new ≡ put name.now (moment_tree at) (members_of members.old)) }
    ensures err { OnErr result (members_of members.new ≡ members_of members.old) }
{
    let text = moment_word(alloc, at)?;
    put_text(members, alloc, name, text.as_str())
}
