//! Public keys.
ghost use Rattle.std.specs.Prelude.{◌≡◌, ◌≢◌, ◌++◌, ◌∷◌, [], OnOk};
ghost use Rattle.cmc_der.specs.Keys.{key_shown, OtherKey};
ghost use Rattle.cmc_x509_build.specs.Octets as spec;
ghost use Rattle.cmc_x509_build.specs.declared.oids.TheConstants.{RSA_ENCRYPTION, EC_PUBLIC_KEY};
ghost use Rattle.cmc_der.specs.Builders.{value};

use crate::oids;
use crate::pieces::{push_bits, push_integer, push_value};
use cmc_der::{KeyKind, Spki};
use std::alloc::{AllocError, Global};

// Room for an AlgorithmIdentifier and what stands round a key: one that needs more grows.
const AROUND: usize = 64;

fn push_rsa(
    alloc: Global,
    octets: &mut Vec<u8>,
    modulus: &[u8],
    exponent: &[u8],
) -> Result<(), AllocError>
    ensures { OnOk result (octets.new.items
        ≡ octets.old.items ++ spec.rsa_octets modulus.now exponent.now) }
{
    let mut numbers = Vec::with_capacity(alloc, modulus.len() + AROUND)?;
    push_integer(&mut numbers, modulus)?;
    push_integer(&mut numbers, exponent)?;
    push_value(octets, 48, &numbers)
}

fn push_curve(octets: &mut Vec<u8>, curve: KeyKind) -> Result<(), AllocError>
    ensures { OnOk result (octets.new.items ≡ octets.old.items ++ value 6 (spec.curve_oid curve)) }
{
    match curve {
        KeyKind::P256 => push_value(octets, 6, &oids::SECP256R1),
        KeyKind::P384 => push_value(octets, 6, &oids::SECP384R1),
        KeyKind::P521 => push_value(octets, 6, &oids::SECP521R1),
        KeyKind::Rsa { .. } => push_value(octets, 6, &[]),
    }
}

// SubjectPublicKeyInfo of the algorithm with its parameter, and the octets of a key.
fn push_key(alloc: Global, octets: &mut Vec<u8>, named: &[u8], key: &[u8]) -> Result<(), AllocError>
    ensures { OnOk result (octets.new.items
        ≡ octets.old.items ++ value 48 (value 48 named.now ++ value 3 (0 ∷ key.now))) }
{
    let mut parts = Vec::with_capacity(alloc, key.len() + AROUND)?;
    push_value(&mut parts, 48, named)?;
    push_bits(&mut parts, key)?;
    push_value(octets, 48, &parts)
}

fn push_rsa_key(
    alloc: Global,
    octets: &mut Vec<u8>,
    modulus: &[u8],
    exponent: &[u8],
) -> Result<(), AllocError>
    ensures { OnOk result (octets.new.items ≡ octets.old.items
        ++ spec.key_info RSA_ENCRYPTION (value 5 []) (spec.rsa_octets modulus.now exponent.now)) }
{
    let mut named = Vec::with_capacity(alloc, AROUND)?;
    push_value(&mut named, 6, &oids::RSA_ENCRYPTION)?;
    push_value(&mut named, 5, &[])?;
    let mut key = Vec::new(alloc);
    push_rsa(alloc, &mut key, modulus, exponent)?;
    push_key(alloc, octets, &named, &key)
}

fn push_curve_key(
    alloc: Global,
    octets: &mut Vec<u8>,
    curve: KeyKind,
    point: &[u8],
) -> Result<(), AllocError>
    ensures { OnOk result (octets.new.items ≡ octets.old.items
        ++ spec.key_info EC_PUBLIC_KEY (value 6 (spec.curve_oid curve)) point.now) }
{
    let mut named = Vec::with_capacity(alloc, AROUND)?;
    push_value(&mut named, 6, &oids::EC_PUBLIC_KEY)?;
    push_curve(&mut named, curve)?;
    push_key(alloc, octets, &named, point)
}

/// SubjectPublicKeyInfo of the key (RFC 5280, 4.1.2.7): that of another algorithm is copied as it is.
#[tactic(auto, unfolding(crate::specs::Octets::spki_octets))]
pub fn push_spki(alloc: Global, octets: &mut Vec<u8>, key: &Spki<'_>) -> Result<(), AllocError>
    ensures { OnOk result (octets.new.items ≡ octets.old.items ++ spec.spki_octets (key_shown key.now)) }
{
    match *key {
        Spki::Rsa { modulus, exponent } => push_rsa_key(alloc, octets, modulus, exponent),
        Spki::Ec { curve, point } => push_curve_key(alloc, octets, curve, point),
        Spki::Other { whole } => octets.extend_from_slice(whole),
    }
}
