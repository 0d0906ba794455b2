//! Files of private keys, written in DER.
ghost use Rattle.std.specs.Prelude.{◌≡◌, ◌≢◌, ◌+◌, ◌%◌, ◌^◌, ◌<◌, ◌∷◌, [], length, IfOk, OnOk};
ghost use Rattle.cmc_der.specs.Builders.{value_added, value_begun, value_closed};
ghost use Rattle.cmc_keys.specs.Files as spec;

use cmc_der::Writer;
use std::alloc::{AllocError, Global};

// Three INTEGERs of 1 more.
fn put_three_ones(writer: &mut Writer, alloc: Global) -> Result<(), AllocError>
    requires { writer.old.len + 27 < 2 ^ 31 }
    ensures { OnOk result (writer.new
        ≡ value_added 2 (1 ∷ []) 1 (value_added 2 (1 ∷ []) 1 (value_added 2 (1 ∷ []) 1 writer.old))) }
{
    writer.integer(alloc, &[1])?;
    writer.integer(alloc, &[1])?;
    writer.integer(alloc, &[1])?;
    Ok(())
}

/// RSAPrivateKey of this modulus and the public exponent 65537 (RFC 8017, A.1.2).
#[tactic(auto, unfolding(crate::specs::Files::rsa_private_key))]
pub fn rsa_private_key(alloc: Global, modulus: &[u8]) -> Result<Vec<u8>, AllocError>
    requires { length modulus.now < 2 ^ 16 }
    ensures { IfOk result (λ file. file.items ≡ spec.rsa_private_key modulus.now) }
{
    let mut writer = Writer::new(alloc);
    writer.begin(alloc, 48)?;
    writer.integer(alloc, &[0])?;
    writer.integer(alloc, modulus)?;
    writer.integer(alloc, &[1, 0, 1])?;
    put_three_ones(&mut writer, alloc)?;
    put_three_ones(&mut writer, alloc)?;
    writer.end(alloc)?;
    Ok(writer.finish())
}

// [1] with the point, and the end of the key.
fn put_public_key(writer: &mut Writer, alloc: Global, point: &[u8]) -> Result<(), AllocError>
    requires { writer.old.len + length point.now + 16 < 2 ^ 31 }
    ensures { OnOk result (writer.new
        ≡ value_closed (value_added 3 (0 ∷ point.now) (length point.now) (value_begun 161 writer.old))) }
{
    writer.begin(alloc, 161)?;
    writer.bits(alloc, point)?;
    writer.end(alloc)?;
    Ok(())
}

/// ECPrivateKey with its curve and its point (RFC 5915, 3).
#[tactic(auto, unfolding(crate::specs::Files::ec_private_key))]
pub fn ec_private_key(
    alloc: Global,
    curve: &[u8],
    secret: &[u8],
    point: &[u8],
) -> Result<Vec<u8>, AllocError>
    requires curve { length curve.now < 2 ^ 16 }
    requires secret { length secret.now < 2 ^ 16 }
    requires point { length point.now < 2 ^ 16 }
    ensures { IfOk result (λ file. file.items ≡ spec.ec_private_key curve.now secret.now point.now) }
{
    let mut writer = Writer::new(alloc);
    writer.begin(alloc, 48)?;
    writer.integer(alloc, &[1])?;
    writer.octets(alloc, 4, secret)?;
    writer.begin(alloc, 160)?;
    writer.oid(alloc, curve)?;
    writer.end(alloc)?;
    put_public_key(&mut writer, alloc, point)?;
    writer.end(alloc)?;
    Ok(writer.finish())
}

/// ECPrivateKey without its curve, for which what stands around it names one.
#[tactic(auto, unfolding(crate::specs::Files::bare_ec_private_key))]
pub fn bare_ec_private_key(
    alloc: Global,
    secret: &[u8],
    point: &[u8],
) -> Result<Vec<u8>, AllocError>
    requires secret { length secret.now < 2 ^ 16 }
    requires point { length point.now < 2 ^ 16 }
    ensures { IfOk result (λ file. file.items ≡ spec.bare_ec_private_key secret.now point.now) }
{
    let mut writer = Writer::new(alloc);
    writer.begin(alloc, 48)?;
    writer.integer(alloc, &[1])?;
    writer.octets(alloc, 4, secret)?;
    put_public_key(&mut writer, alloc, point)?;
    writer.end(alloc)?;
    Ok(writer.finish())
}

/// PrivateKeyInfo of the key, with the OID of its algorithm and a parameter of this tag (RFC 5208, 5).
#[tactic(auto, unfolding(crate::specs::Files::private_key_info))]
pub fn private_key_info(
    alloc: Global,
    algorithm: &[u8],
    tag: u8,
    parameter: &[u8],
    key: &[u8],
) -> Result<Vec<u8>, AllocError>
    requires tag { tag % 32 ≢ 31 }
    requires algorithm { length algorithm.now < 2 ^ 16 }
    requires parameter { length parameter.now < 2 ^ 16 }
    requires key { length key.now < 2 ^ 20 }
    ensures { IfOk result (λ file. file.items
        ≡ spec.private_key_info algorithm.now tag parameter.now key.now) }
{
    let mut writer = Writer::new(alloc);
    writer.begin(alloc, 48)?;
    writer.integer(alloc, &[0])?;
    writer.begin(alloc, 48)?;
    writer.oid(alloc, algorithm)?;
    writer.octets(alloc, tag, parameter)?;
    writer.end(alloc)?;
    writer.octets(alloc, 4, key)?;
    writer.end(alloc)?;
    Ok(writer.finish())
}
