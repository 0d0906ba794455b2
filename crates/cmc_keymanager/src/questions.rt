//! The question for a key.
ghost use Rattle.std.specs.Prelude.{◌≡◌, ◌<◌, ◌^◌, IfOk, slice_get, unwrap_or};
ghost use Rattle.cmc_objects.specs.Objects.{key_of};
ghost use Rattle.cmc_objects.specs.declared.object.Object.TheVariants as objects;
ghost use Rattle.cmc_objects.specs.declared.rows.KeyRow.TheVariants.{Default};
ghost use Rattle.cmc_rules.specs.KeyManager as table;
ghost use Rattle.cmc_rules.specs.Orders as orders;

use cmc_meta::{Key, Kind};
use cmc_objects::{Certificate, KeyOrder, KeyRow, Material, Order, Shared};
use cmc_pass::{Act, Desk};
use std::alloc::{AllocError, Global};

fn row_at(rows: &[KeyRow], asked: u64) -> Result<KeyRow, AllocError>
    ensures { IfOk result (λ r. r ≡ unwrap_or (slice_get rows.now asked) Default) }
{
    match rows.get(asked as usize) {
        None => Ok(KeyRow::Default),
        Some(row) => row.copy(),
    }
}

#[tactic(auto, unfolding(cmc_rules::specs::Orders::key_row))]
fn key_row(material: &Material, certificate: &Key, asked: u64) -> Result<KeyRow, AllocError>
    ensures { IfOk result (λ r. r ≡ orders.key_row material.now certificate.now asked) }
{
    match material.get(certificate) {
        None => Ok(KeyRow::Default),
        Some(rows) => row_at(rows.keys.as_slice(), asked),
    }
}

fn key_of_certificate(certificate: &Certificate) -> Result<Key, AllocError>
    ensures { IfOk result (λ k. k ≡ key_of (objects.Cert certificate.now)) }
{
    Ok(Key {
        kind: Kind::Certificate,
        namespace: certificate.meta.namespace.copy()?,
        name: certificate.meta.name.copy()?,
    })
}

#[tactic(auto, unfolding(cmc_rules::specs::KeyManager::key_order))]
fn key_order(certificate: &Certificate, desk: &Desk) -> Result<KeyOrder, AllocError>
    requires { desk.now.asked < 2 ^ 63 }
    ensures { IfOk result (λ o. o ≡ table.key_order certificate.now desk.now) }
{
    let key = key_of_certificate(certificate)?;
    let row = key_row(&desk.material, &key, desk.asked)?;
    Ok(KeyOrder {
        number: desk.asked + 1,
        certificate: key,
        algorithm: certificate.spec.key.algorithm_at_use(),
        size: certificate.spec.key.size_at_use(),
        encoding: certificate.spec.key.encoding_at_use(),
        row,
    })
}

/// The question for a key of the kind that the Certificate asks for: the one after those that were asked, with its
/// row.
#[tactic(auto, unfolding(cmc_rules::specs::KeyManager::ask_key))]
pub fn ask_key(alloc: Global, certificate: &Certificate, desk: &Desk) -> Result<Act, AllocError>
    requires { desk.now.asked < 2 ^ 63 }
    ensures { IfOk result (λ a. a ≡ table.ask_key certificate.now desk.now) }
{
    let order = key_order(certificate, desk)?;
    Ok(Act::Ask(Order::Key(Shared::new(alloc, order)?)))
}
