//! The algorithm and the size of a key.
ghost use Rattle.std.specs.Prelude.{◌≡◌, ◌↔◌, IsTrue, Some};
ghost use Rattle.cmc_der.specs.Keys.{key_shown};
ghost use Rattle.cmc_keys.specs.Kinds as spec;
ghost use Rattle.cmc_keys.specs.Kinds.{IsKeyOf};

use cmc_objects::Algorithm;
use cmc_x509::{KeyKind, Spki, key_public};

/// Whether a key of this algorithm may be asked for in this size (cert-manager.io/v1 API reference,
/// `privateKey.size`): RSA moduli of 2048, 3072, 4096 and 8192 bits, and the curves P-256, P-384 and P-521.
pub fn is_allowed_size(algorithm: Algorithm, size: u32) -> bool
    ensures { result ≡ spec.allows_size algorithm size }
{
    match algorithm {
        Algorithm::Rsa => size == 2048 || (size == 3072 || (size == 4096 || size == 8192)),
        Algorithm::Ecdsa => size == 256 || (size == 384 || size == 521),
    }
}

fn algorithm_of(kind: KeyKind) -> Algorithm
    ensures { result ≡ spec.algorithm_of kind }
{
    match kind {
        KeyKind::Rsa { bits: _ } => Algorithm::Rsa,
        KeyKind::P256 | KeyKind::P384 | KeyKind::P521 => Algorithm::Ecdsa,
    }
}

fn size_of(kind: KeyKind) -> u32
    ensures { result ≡ spec.size_of kind }
{
    match kind {
        KeyKind::Rsa { bits } => bits,
        KeyKind::P256 => 256,
        KeyKind::P384 => 384,
        KeyKind::P521 => 521,
    }
}

fn is_same_algorithm(left: Algorithm, right: Algorithm) -> bool
    ensures { result ≡ spec.is_same_algorithm left right }
{
    match (left, right) {
        (Algorithm::Rsa, Algorithm::Rsa) => true,
        (Algorithm::Ecdsa, Algorithm::Ecdsa) => true,
        _ => false,
    }
}

fn is_kind_of(algorithm: Algorithm, size: u32, kind: Option<KeyKind>) -> bool
    ensures { result ≡ spec.is_kind_of algorithm size kind }
{
    match kind {
        None => false,
        Some(kind) => is_same_algorithm(algorithm_of(kind), algorithm) && size_of(kind) == size,
    }
}

/// Whether the public key has this algorithm and size. It takes no memory.
pub fn is_public_of(algorithm: Algorithm, size: u32, key: &Spki<'_>) -> bool
    ensures { result ≡ spec.is_public_of algorithm size (Some (key_shown key.now)) }
{
    is_kind_of(algorithm, size, key.kind())
}

#[tactic(auto, unfolding(crate::specs::Kinds::is_key_of))]
fn fits(algorithm: Algorithm, size: u32, octets: &[u8]) -> bool
    ensures { result ≡ spec.is_key_of algorithm size octets.now }
{
    match key_public(octets) {
        None => false,
        Some(key) => is_public_of(algorithm, size, &key),
    }
}

/// Whether the octets are a file of a private key (RSAPrivateKey, ECPrivateKey or PrivateKeyInfo, in DER) whose
/// public key has this algorithm and size. It takes no memory.
pub fn is_key_of(algorithm: Algorithm, size: u32, octets: &[u8]) -> bool
    ensures means { IsTrue result ↔ IsKeyOf algorithm size octets.now }
    ensures value { result ≡ spec.is_key_of algorithm size octets.now }
{
    fits(algorithm, size, octets)
}
