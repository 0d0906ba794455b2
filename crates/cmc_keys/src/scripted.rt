//! The keys and signatures of a scenario.
ghost use Rattle.std.specs.Prelude.{◌≡◌, ◌≢◌, ℕ, List, take, IfOk, IsTrue};
ghost use Rattle.std.specs.Int.{w64, from_be_bytes};
ghost use Rattle.std.specs.String.{string_bytes};
ghost use Rattle.sha2.specs.Sha256.{sha256};
ghost use Rattle.cmc_objects.specs.declared.orders.KeyOrder.{KeyOrder};
ghost use Rattle.cmc_keys.specs.Kinds.{allows_size};
ghost use Rattle.cmc_keys.specs.Values as spec;
ghost use Rattle.cmc_keys.specs.Values.{IsScripted, IsKeyValue};

use crate::kinds::is_key_of;
use crate::made::{Made, SignedCsr};
use crate::maker::KeyMaker;
use crate::synthetic::synthetic_key;
use cmc_meta::Bytes;
use cmc_objects::{CsrOrder, KeyOrder, KeyRow, Shared};
use sha2::{Digest, Sha256};
use std::alloc::{AllocError, Global};

fn digest_of(octets: &[u8]) -> [u8; 32]
    ensures { result ≡ sha256 octets.now }
{
    let mut hasher = Sha256::new();
    hasher.update(octets);
    hasher.finalize()
}

// What the question is called.
fn order_text(alloc: Global, order: &KeyOrder) -> Result<String, AllocError>
    ensures { IfOk result (λ text. string_bytes text ≡ spec.order_text order.now) }
{
    let namespace = order.certificate.namespace.as_str();
    let name = order.certificate.name.as_str();
    format!(in alloc; "{namespace}/{name}#{}", order.number)
}

// The number that the first eight octets spell, the highest first.
fn first_eight(octets: [u8; 32]) -> u64
    ensures { result ≡ from_be_bytes w64 (take 8 octets) }
{
    u64::from_be_bytes([
        octets[0], octets[1], octets[2], octets[3], octets[4], octets[5], octets[6], octets[7],
    ])
}

// The number of the stand-in key of a question.
#[tactic(auto, unfolding(crate::specs::Values::usual_number))]
fn usual_number(alloc: Global, order: &KeyOrder) -> Result<u64, AllocError>
    ensures { IfOk result (λ number. number ≡ spec.usual_number order.now) }
{
    let text = order_text(alloc, order)?;
    Ok(first_eight(digest_of(text.as_bytes())))
}

// The stand-in key that the question asks for, of this number.
fn asked_key(alloc: Global, order: &KeyOrder, number: u64) -> Result<Bytes, AllocError>
    requires { IsTrue (allows_size order.now.algorithm order.now.size) }
    ensures { IfOk result (λ bytes. bytes ≡ spec.asked_key order.now number) }
{
    synthetic_key(alloc, order.algorithm, order.size, order.encoding, number)
}

fn usual_key(alloc: Global, order: &KeyOrder) -> Result<Bytes, AllocError>
    requires { IsTrue (allows_size order.now.algorithm order.now.size) }
    ensures { IfOk result (λ bytes. bytes ≡ spec.usual_key order.now) }
{
    let number = usual_number(alloc, order)?;
    asked_key(alloc, order, number)
}

// The key file of a row, where it is a key of the algorithm and the size that are asked for.
fn key_of_file(alloc: Global, order: &KeyOrder, file: &Bytes) -> Result<Bytes, AllocError>
    requires { IsTrue (allows_size order.now.algorithm order.now.size) }
    ensures { IfOk result (λ bytes. spec.IsOfFile order.now file.now bytes) }
{
    if is_key_of(order.algorithm, order.size, file.as_slice()) {
        file.copy()
    } else {
        usual_key(alloc, order)
    }
}

// The key that the row says; of a free row the usual one.
fn key_of_row(alloc: Global, order: &KeyOrder) -> Result<Bytes, AllocError>
    requires { IsTrue (allows_size order.now.algorithm order.now.size) }
    ensures { IfOk result (λ bytes. IsScripted order.now bytes) }
{
    match &order.row {
        KeyRow::Default => usual_key(alloc, order),
        KeyRow::Synthetic(number) => asked_key(alloc, order, *number),
        KeyRow::Der(file) => key_of_file(alloc, order, file),
        KeyRow::Free => usual_key(alloc, order),
    }
}

/// Makes the keys that the rows of a scenario say, and signs by the SHA-256 digest alone.
///
/// A row `Der` that is no key of the algorithm and the size that are asked for counts as `Default`; so does a free
/// row. `Default` is the stand-in key whose number is the first eight octets, the highest first, of the SHA-256
/// digest of `<namespace>/<name>#<number of the question>`.
#[derive(Clone, Copy)]
pub struct ScriptedKeys;

impl KeyMaker for ScriptedKeys {
    #[tactic(auto, using(crate::proofs::ScriptedLaws::scripted_answers))]
    fn make(&self, alloc: Global, order: &Shared<KeyOrder>) -> Result<Made, AllocError>
        requires { IsTrue (allows_size order.now.algorithm order.now.size) }
        ensures order { IfOk result (λ made. made.order ≡ order.now) }
        ensures value { IfOk result (λ made. IsScripted order.now made.bytes) }
    {
        let bytes = key_of_row(alloc, order)?;
        let order = order.copy()?;
        Ok(Made::new(order, bytes))
    }

    fn sign(&self, alloc: Global, order: &Shared<CsrOrder>) -> Result<SignedCsr, AllocError>
        ensures { IfOk result (λ signed. signed.order ≡ order.now) }
    {
        let signature = Bytes::from_slice(alloc, &digest_of(order.body.as_slice()))?;
        let order = order.copy()?;
        Ok(SignedCsr::new(order, signature))
    }
}

/// A law: a question has one key, unless its row is free.
pub fn one_key_value()
    ensures { (order : KeyOrder) (first second : List ℕ) → order.row ≢ KeyRow.Free →
        IsKeyValue order first → IsKeyValue order second → first ≡ second }
{}
