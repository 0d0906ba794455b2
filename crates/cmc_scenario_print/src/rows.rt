// The rows of Certificates as JSON.
ghost use Rattle.std.specs.Prelude.{◌≡◌, codes, IfOk, OnOk};
ghost use Rattle.serde_json.specs.Data.{put};
ghost use Rattle.cmc_print.specs.Puts.{put_list};
ghost use Rattle.cmc_print.specs.Trees.{data_of, members_of};
ghost use Rattle.cmc_print.specs.Words.{name_text};
ghost use Rattle.cmc_objects.specs.declared.rows.SignRow.TheVariants as signs;
ghost use Rattle.cmc_scenario_print.specs.RowTrees.{key_row_members, key_row_tree, key_rows_tree, material_tree, rows_tree, sign_row_members, sign_row_tree, sign_rows_tree};

use crate::unless::{put_count_unless, put_message_unless_usual};
use cmc_meta::{Bytes, Key};
use cmc_objects::{KeyRow, Material, Rows, SignRow};
use cmc_print::{
    Members, Tree, Trees, name_word, put_bytes, put_count, put_count_option, put_some_bytes,
    put_text,
};
use std::alloc::{AllocError, Global};
use std::collections::BTreeMap;

fn key_row(alloc: Global, row: &KeyRow) -> Result<Tree, AllocError>
    ensures { IfOk result (λ t. data_of t ≡ key_row_tree row.now) }
{
    let mut members = Members::new(alloc);
    match row {
        KeyRow::Synthetic(number) => put_count(&mut members, alloc, "synthetic", *number)?,
        KeyRow::Der(bytes) => put_bytes(&mut members, alloc, "der", bytes.as_slice())?,
        KeyRow::Default | KeyRow::Free => {}
    }
    Ok(Tree::object(members))
}

fn key_rows(alloc: Global, rows: &[KeyRow]) -> Result<Tree, AllocError>
    ensures { IfOk result (λ t. data_of t ≡ key_rows_tree rows.now) }
{
    let mut trees = Trees::new(alloc);
    for row in rows {
        trees.push(key_row(alloc, row)?)?;
    }
    Ok(Tree::list(trees))
}

#[tactic(auto, unfolding(crate::specs::RowTrees::sign_row_members))]
fn issue(
    alloc: Global,
    seconds: Option<u64>,
    before: u64,
    serial: Option<u64>,
    key: Option<u64>,
    ca: &Bytes,
) -> Result<Members, AllocError>
    ensures { IfOk result (λ m. members_of m ≡ sign_row_members (signs.Issue seconds before serial key ca.now)) }
{
    let mut members = Members::new(alloc);
    put_count_unless(&mut members, alloc, "before", 0, before)?;
    put_some_bytes(&mut members, alloc, "ca", ca.as_slice())?;
    put_count_option(&mut members, alloc, "key", key)?;
    put_text(&mut members, alloc, "reply", "issue")?;
    put_count_option(&mut members, alloc, "seconds", seconds)?;
    put_count_option(&mut members, alloc, "serial", serial)?;
    Ok(members)
}

#[tactic(auto, unfolding(crate::specs::RowTrees::sign_row_members))]
fn refusal(alloc: Global, message: &str) -> Result<Members, AllocError>
    ensures { IfOk result (λ m. members_of m ≡ sign_row_members (signs.Fail message.now)) }
{
    let mut members = Members::new(alloc);
    put_message_unless_usual(&mut members, alloc, message)?;
    put_text(&mut members, alloc, "reply", "fail")?;
    Ok(members)
}

#[tactic(auto, unfolding(crate::specs::RowTrees::sign_row_members))]
fn raw(alloc: Global, der: &Bytes) -> Result<Members, AllocError>
    ensures { IfOk result (λ m. members_of m ≡ sign_row_members (signs.Raw der.now)) }
{
    let mut members = Members::new(alloc);
    put_bytes(&mut members, alloc, "der", der.as_slice())?;
    put_text(&mut members, alloc, "reply", "raw")?;
    Ok(members)
}

#[tactic(auto, unfolding(crate::specs::RowTrees::sign_row_members))]
fn pending(alloc: Global) -> Result<Members, AllocError>
    ensures { IfOk result (λ m. members_of m ≡ sign_row_members signs.Pending) }
{
    let mut members = Members::new(alloc);
    put_text(&mut members, alloc, "reply", "pending")?;
    Ok(members)
}

#[tactic(auto, unfolding(crate::specs::RowTrees::sign_row_members))]
fn reply_members(alloc: Global, row: &SignRow) -> Result<Members, AllocError>
    ensures { IfOk result (λ m. members_of m ≡ sign_row_members row.now) }
{
    match row {
        SignRow::Issue {
            seconds,
            before,
            serial,
            key,
            ca,
        } => issue(alloc, *seconds, *before, *serial, *key, ca),
        SignRow::Pending => pending(alloc),
        SignRow::Fail { message } => refusal(alloc, message.as_str()),
        SignRow::Raw { der } => raw(alloc, der),
        SignRow::Free => Ok(Members::new(alloc)),
    }
}

/// The row of one question to an issuer.
pub fn reply_row(alloc: Global, row: &SignRow) -> Result<Tree, AllocError>
    ensures { IfOk result (λ t. data_of t ≡ sign_row_tree row.now) }
{
    Ok(Tree::object(reply_members(alloc, row)?))
}

fn reply_rows(alloc: Global, rows: &[SignRow]) -> Result<Tree, AllocError>
    ensures { IfOk result (λ t. data_of t ≡ sign_rows_tree rows.now) }
{
    let mut trees = Trees::new(alloc);
    for row in rows {
        trees.push(reply_row(alloc, row)?)?;
    }
    Ok(Tree::list(trees))
}

fn put_keys(members: &mut Members, alloc: Global, rows: &[KeyRow]) -> Result<(), AllocError>
    ensures { OnOk result (members_of members.new ≡ put_list key_rows_tree (codes "keys") rows.now (members_of members.old)) }
{
    if rows.is_empty() {
        return Ok(());
    }
    let tree = key_rows(alloc, rows)?;
    members.put(alloc, "keys", tree)
}

fn put_replies(members: &mut Members, alloc: Global, rows: &[SignRow]) -> Result<(), AllocError>
    ensures { OnOk result (members_of members.new ≡ put_list sign_rows_tree (codes "replies") rows.now (members_of members.old)) }
{
    if rows.is_empty() {
        return Ok(());
    }
    let tree = reply_rows(alloc, rows)?;
    members.put(alloc, "replies", tree)
}

#[tactic(auto, unfolding(crate::specs::RowTrees::rows_tree))]
fn rows_of(alloc: Global, rows: &Rows) -> Result<Tree, AllocError>
    ensures { IfOk result (λ t. data_of t ≡ rows_tree rows.now) }
{
    let mut members = Members::new(alloc);
    put_keys(&mut members, alloc, rows.keys.as_slice())?;
    put_replies(&mut members, alloc, rows.replies.as_slice())?;
    Ok(Tree::object(members))
}

fn put_entry(
    members: &mut Members,
    alloc: Global,
    certificate: &Key,
    rows: &Rows,
) -> Result<(), AllocError>
    ensures { OnOk result (members_of members.new ≡ put (name_text certificate.now) (rows_tree rows.now) (members_of members.old)) }
{
    let name = name_word(alloc, certificate)?;
    let tree = rows_of(alloc, rows)?;
    members.put(alloc, name.as_str(), tree)
}

fn entries(alloc: Global, material: &BTreeMap<Key, Rows>) -> Result<Tree, AllocError>
    ensures { IfOk result (λ t. data_of t ≡ material_tree material.now.entries) }
{
    let mut members = Members::new(alloc);
    for (certificate, rows) in material.iter() {
        put_entry(&mut members, alloc, certificate, rows)?;
    }
    Ok(Tree::object(members))
}

/// Puts the rows of all Certificates, unless there are none.
pub fn put_material(
    members: &mut Members,
    alloc: Global,
    material: &Material,
) -> Result<(), AllocError>
    ensures { OnOk result (members_of members.new ≡ put_list material_tree (codes "material") material.now (members_of members.old)) }
{
    if material.as_map().is_empty() {
        return Ok(());
    }
    let tree = entries(alloc, material.as_map())?;
    members.put(alloc, "material", tree)
}
