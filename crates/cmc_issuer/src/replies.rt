//! The answers that a scenario sets out for a request.
ghost use Rattle.std.specs.BTreeMap.{is_at};
ghost use Rattle.std.specs.Option.{option_copied};
ghost use Rattle.std.specs.Prelude.{◌≡◌, IfOk, slice_get, unwrap_or};
ghost use Rattle.cmc_meta.specs.Keys.{key_cmp};
ghost use Rattle.cmc_meta.specs.declared.key.Kind.TheVariants.{Certificate};
ghost use Rattle.cmc_objects.specs.Materials.{rows_under};
ghost use Rattle.cmc_rules.specs.Desks as desks;
ghost use Rattle.cmc_rules.specs.Issuer as table;
ghost use Rattle.cmc_rules.specs.Orders as orders;

use cmc_match::text_under;
use cmc_meta::{Bytes, Key, Kind, Name};
use cmc_objects::{CertificateRequest, Material, Rows, SignRow};
use std::alloc::{AllocError, Global};

fn certificate_named(request: &CertificateRequest) -> &[u8]
    ensures { result.now ≡ desks.certificate_named request.now }
{
    match text_under(
        &request.meta.annotations,
        "cert-manager.io/certificate-name",
    ) {
        None => request.meta.name.as_slice(),
        Some(name) => name.as_slice(),
    }
}

// The name comes from an annotation, which may be no name that a key can have: so parts are compared, and no key is
// made.
fn is_key_of(namespace: &Name, name: &[u8], key: &Key) -> bool
    ensures { result ≡ is_at (key_cmp (record { kind = Certificate; namespace = namespace.now; name = name.now })) key.now }
{
    Kind::Certificate
        .cmp(&key.kind)
        .then(namespace.as_slice().cmp(key.namespace.as_slice()))
        .then(name.cmp(key.name.as_slice()))
        .is_eq()
}

fn rows_of<'a>(material: &'a Material, namespace: &Name, name: &[u8]) -> Option<&'a Rows>
    ensures { option_copied result ≡ rows_under material.now (record { kind = Certificate; namespace = namespace.now; name = name.now }) }
{
    for (key, rows) in material.as_map().iter() {
        if is_key_of(namespace, name, key) {
            return Some(rows);
        }
    }
    None
}

fn default_row(alloc: Global) -> SignRow
    ensures { result ≡ orders.default_row }
{
    SignRow::Issue {
        seconds: None,
        before: 0,
        serial: None,
        key: None,
        ca: Bytes::new(alloc),
    }
}

fn last_in(rows: &[SignRow]) -> Option<&SignRow>
    ensures { unwrap_or (option_copied result) orders.default_row ≡ orders.last_or orders.default_row rows.now }
{
    rows.last()
}

fn last_row(alloc: Global, rows: &[SignRow]) -> Result<SignRow, AllocError>
    ensures { IfOk result (λ r. r ≡ orders.last_or orders.default_row rows.now) }
{
    match last_in(rows) {
        None => Ok(default_row(alloc)),
        Some(row) => row.copy(),
    }
}

fn row_in(alloc: Global, rows: &[SignRow], asked: u64) -> Result<SignRow, AllocError>
    ensures { IfOk result (λ r. r ≡ unwrap_or (slice_get rows.now asked) (orders.last_or orders.default_row rows.now)) }
{
    match rows.get(asked as usize) {
        None => last_row(alloc, rows),
        Some(row) => row.copy(),
    }
}

/// The answer that is set out for the question about the request before which that many were asked for its Certificate:
/// the one in that place, counted from 0, past the end the last one, and where there is none a certificate of the request alone.
#[tactic(auto, unfolding(cmc_rules::specs::Orders::reply_row))]
pub fn reply_row(
    alloc: Global,
    material: &Material,
    request: &CertificateRequest,
    asked: u64,
) -> Result<SignRow, AllocError>
    ensures { IfOk result (λ r. r ≡ orders.reply_row material.now (table.certificate_of request.now) asked) }
{
    match rows_of(
        material,
        &request.meta.namespace,
        certificate_named(request),
    ) {
        None => Ok(default_row(alloc)),
        Some(rows) => row_in(alloc, rows.replies.as_slice(), asked),
    }
}
