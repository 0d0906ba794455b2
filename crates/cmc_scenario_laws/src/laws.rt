// The laws, and what they rest on: the octets of rows are bytes.
ghost use Rattle.std.specs.List.{AllByRecursion};
ghost use Rattle.base64.specs.GeneralPurpose.{IsBytes};
ghost use Rattle.cmc_scenario_laws.specs.Keys.{IsCertificateReadAgain, IsKeyReadAgain};
ghost use Rattle.cmc_scenario_laws.specs.Rows.{AreInOrder, AreReadAgain, HasEntryBytes, HasKeyBytes, HasReplyBytes, HaveRowBytes, IsMaterialReadAgain, IsReplyReadAgain};

use cmc_meta::Key;
use cmc_objects::{KeyRow, Material, Rows, SignRow};
use std::collections::BTreeMap;

/// The items of a slice of bytes are bytes. The call changes nothing.
pub fn are_bytes(bytes: &[u8])
    ensures { IsBytes bytes.now }
{
    let _bytes = bytes;
}

fn key_row_has_bytes(row: &KeyRow)
    ensures { HasKeyBytes row.now }
{
    if let KeyRow::Der(bytes) = row {
        are_bytes(bytes.as_slice());
    }
}

fn key_rows_have_bytes(rows: &[KeyRow])
    ensures { AllByRecursion HasKeyBytes rows.now }
{
    if let [first, rest @ ..] = rows {
        key_row_has_bytes(first);
        key_rows_have_bytes(rest);
    }
}

/// The octets of a reply row are bytes. The call changes nothing.
pub fn reply_has_bytes(row: &SignRow)
    ensures { HasReplyBytes row.now }
{
    match row {
        SignRow::Issue { ca, .. } => are_bytes(ca.as_slice()),
        SignRow::Raw { der } => are_bytes(der.as_slice()),
        SignRow::Pending | SignRow::Fail { .. } | SignRow::Free => {}
    }
}

fn replies_have_bytes(rows: &[SignRow])
    ensures { AllByRecursion HasReplyBytes rows.now }
{
    if let [first, rest @ ..] = rows {
        reply_has_bytes(first);
        replies_have_bytes(rest);
    }
}

fn rows_have_bytes(rows: &Rows)
    ensures { HaveRowBytes rows.now }
{
    key_rows_have_bytes(rows.keys.as_slice());
    replies_have_bytes(rows.replies.as_slice());
}

/// A law: what is printed of a reply row that was read is read again, as the same row. The call
/// changes nothing.
#[tactic(auto, using(crate::proofs::RowLaws::reply_again))]
pub fn printed_reply_is_read(row: &SignRow)
    ensures { IsReplyReadAgain row.now }
{
    reply_has_bytes(row);
}

/// A law: what is printed of the rows of a Certificate that were read is read again, as the same
/// rows. The call changes nothing.
#[tactic(auto, using(crate::proofs::RowLaws::rows_again))]
pub fn printed_rows_are_read(rows: &Rows)
    ensures { AreReadAgain rows.now }
{
    rows_have_bytes(rows);
}

/// A law: what is printed of a key that was read, `Kind/namespace/name`, is read again, as the same
/// key. The call changes nothing.
#[tactic(auto, using(crate::proofs::KeyLaws::key_again))]
pub fn printed_key_is_read(key: &Key)
    ensures { IsKeyReadAgain key.now }
{
    let _key = key;
}

/// The same of the key of a Certificate, `namespace/name`.
#[tactic(auto, using(crate::proofs::KeyLaws::certificate_again))]
pub fn printed_certificate_is_read(key: &Key)
    ensures { IsCertificateReadAgain key.now }
{
    let _key = key;
}

/// The octets of all rows are bytes. The call changes nothing.
pub fn entries_have_bytes(material: &BTreeMap<Key, Rows>)
    ensures { AllByRecursion HasEntryBytes material.now.entries }
{
    for (_, rows) in material.iter() {
        rows_have_bytes(rows);
    }
}

/// The rows of all Certificates stand in order of key. The call changes nothing.
#[tactic(auto, using(crate::proofs::RowOrder::in_order))]
pub fn rows_in_order(material: &Material)
    ensures { AreInOrder material.now }
{
    let _len = material.as_map().len();
}

/// A law: what is printed of the rows of all Certificates that were read is read again, as the same
/// rows. The call changes nothing.
#[tactic(auto, using(crate::proofs::MaterialLaws::whole_again))]
pub fn printed_material_is_read(material: &Material)
    ensures { IsMaterialReadAgain material.now }
{
    entries_have_bytes(material.as_map());
    rows_in_order(material);
}
