//! Stand-in keys.
ghost use Rattle.std.specs.Prelude.{◌≡◌, ◌^◌, ◌<◌, ◌≤◌, ◌∷◌, ◌++◌, ℕ, length, IfOk, IsTrue};
ghost use Rattle.cmc_objects.specs.declared.key_spec.Algorithm.{Algorithm};
ghost use Rattle.cmc_objects.specs.declared.key_spec.Encoding.{Encoding};
ghost use Rattle.cmc_keys.specs.Kinds.{allows_size, IsKeyOf};
ghost use Rattle.cmc_keys.specs.Synthetic as spec;

use crate::{files, oids};
use cmc_meta::Bytes;
use cmc_objects::{Algorithm, Encoding};
use std::alloc::{AllocError, Global};

// The octets that hold so many bits.
fn width_of(size: u32) -> usize
    requires { size < 2 ^ 14 }
    ensures { result ≡ spec.width_of size }
{
    ((size + 7) / 8) as usize
}

// The number in so many octets, the highest first.
#[tactic(auto, unfolding(crate::specs::Synthetic::number_octets))]
fn number_octets(alloc: Global, width: usize, number: u64) -> Result<Vec<u8>, AllocError>
    requires { 8 ≤ width }
    ensures { IfOk result (λ octets. octets.items ≡ spec.number_octets width number) }
{
    let mut octets = vec![in alloc; 0; width - 8]?;
    octets.extend_from_slice(&number.to_be_bytes())?;
    Ok(octets)
}

#[tactic(auto, using(crate::proofs::SyntheticLaws::number_size))]
fn modulus_of(alloc: Global, size: u32, number: u64) -> Result<Vec<u8>, AllocError>
    requires least { 72 ≤ size }
    requires most { size < 2 ^ 14 }
    ensures value { IfOk result (λ octets. octets.items ≡ spec.modulus_of size number) }
    ensures short { IfOk result (λ octets. length octets.items < 2 ^ 12) }
{
    let mut modulus = Vec::from_slice(alloc, &[128])?;
    modulus.extend_from_slice(&number_octets(alloc, width_of(size) - 1, number)?)?;
    Ok(modulus)
}

#[tactic(auto, using(crate::proofs::SyntheticLaws::number_size))]
fn secret_of(alloc: Global, size: u32, number: u64) -> Result<Vec<u8>, AllocError>
    requires least { 72 ≤ size }
    requires most { size < 2 ^ 14 }
    ensures value { IfOk result (λ octets. octets.items ≡ spec.private_octets_of size number) }
    ensures short { IfOk result (λ octets. length octets.items < 2 ^ 12) }
{
    number_octets(alloc, width_of(size), number)
}

fn point_of(alloc: Global, coordinate: &[u8]) -> Result<Vec<u8>, AllocError>
    requires { length coordinate.now < 2 ^ 12 }
    ensures value { IfOk result (λ point. point.items ≡ 4 ∷ (coordinate.now ++ coordinate.now)) }
    ensures short { IfOk result (λ point. length point.items < 2 ^ 14) }
{
    let mut point = Vec::from_slice(alloc, &[4])?;
    point.extend_from_slice(coordinate)?;
    point.extend_from_slice(coordinate)?;
    Ok(point)
}

// The OID of the curve of this width.
fn curve_oid(size: u32) -> &'static [u8]
    ensures value { result.now ≡ spec.curve_oid_of_size size }
    ensures short { length result.now ≤ 8 }
{
    if size == 256 {
        &oids::SECP256R1
    } else if size == 384 {
        &oids::SECP384R1
    } else {
        &oids::SECP521R1
    }
}

#[tactic(auto, using(crate::proofs::SyntheticLaws::files_short))]
fn rsa_key(alloc: Global, size: u32, encoding: Encoding, number: u64) -> Result<Vec<u8>, AllocError>
    requires least { 72 ≤ size }
    requires most { size < 2 ^ 14 }
    ensures { IfOk result (λ file. file.items ≡ spec.synthetic_key Algorithm.Rsa size encoding number) }
{
    let modulus = modulus_of(alloc, size, number)?;
    let file = files::rsa_private_key(alloc, &modulus)?;
    match encoding {
        Encoding::Pkcs1 => Ok(file),
        Encoding::Pkcs8 => files::private_key_info(alloc, &oids::RSA_ENCRYPTION, 5, &[], &file),
    }
}

#[tactic(auto, using(crate::proofs::FileLaws::bare_ec_size))]
fn ec_key(alloc: Global, size: u32, encoding: Encoding, number: u64) -> Result<Vec<u8>, AllocError>
    requires least { 72 ≤ size }
    requires most { size < 2 ^ 14 }
    ensures { IfOk result (λ file. file.items ≡ spec.synthetic_key Algorithm.Ecdsa size encoding number) }
{
    let secret = secret_of(alloc, size, number)?;
    let point = point_of(alloc, &secret)?;
    let curve = curve_oid(size);
    match encoding {
        Encoding::Pkcs1 => files::ec_private_key(alloc, curve, &secret, &point),
        Encoding::Pkcs8 => {
            let file = files::bare_ec_private_key(alloc, &secret, &point)?;
            files::private_key_info(alloc, &oids::EC_PUBLIC_KEY, 6, curve, &file)
        }
    }
}

fn written(
    alloc: Global,
    algorithm: Algorithm,
    size: u32,
    encoding: Encoding,
    number: u64,
) -> Result<Bytes, AllocError>
    requires { IsTrue (allows_size algorithm size) }
    ensures { IfOk result (λ file. file ≡ spec.synthetic_key algorithm size encoding number) }
{
    let file = match algorithm {
        Algorithm::Rsa => rsa_key(alloc, size, encoding, number)?,
        Algorithm::Ecdsa => ec_key(alloc, size, encoding, number)?,
    };
    Bytes::from_slice(alloc, &file)
}

/// The file of the stand-in key of this number, in DER.
///
/// Its private octets and both coordinates of its point are the number, the highest octet first, or its modulus is
/// the octet 80, zeros, and the number in its last eight octets. It is read as a key of the algorithm and the size.
///
/// # Errors
///
/// Only where there is no memory.
pub fn synthetic_key(
    alloc: Global,
    algorithm: Algorithm,
    size: u32,
    encoding: Encoding,
    number: u64,
) -> Result<Bytes, AllocError>
    requires { IsTrue (allows_size algorithm size) }
    ensures octets { IfOk result (λ file. file ≡ spec.synthetic_key algorithm size encoding number) }
    ensures is_key { IfOk result (λ file. IsKeyOf algorithm size file) }
{
    written(alloc, algorithm, size, encoding, number)
}

/// A law: the stand-in key of each number is a key of the algorithm and the size that it is made for.
pub fn synthetic_keys_fit()
    ensures { (algorithm : Algorithm) (size : ℕ) (encoding : Encoding) (number : ℕ) →
        IsTrue (allows_size algorithm size) →
        IsKeyOf algorithm size (spec.synthetic_key algorithm size encoding number) }
{}
