//! Files of private keys, and the public key that each states.
ghost use Rattle.std.specs.Prelude.{◌≡◌, ◌↔◌, ℕ, List, Option, None, Some, IfOk, IfSome, IsErr, IsNone};
ghost use Rattle.cmc_der.specs.declared.fields.KeyKind.{KeyKind};
ghost use Rattle.cmc_der.specs.Keys.{PublicKey, key_shown, text_shown};
ghost use Rattle.cmc_x509.specs.Options.{Gives, GivesSome, value_shown};
ghost use Rattle.cmc_x509.specs.PublicKeys.{algorithm_shown};
ghost use Rattle.cmc_x509.specs.KeyFiles.{IsKeyFile};
ghost use Rattle.cmc_x509.specs.ReadKeys.{three_at, six_at, rsa_private_at, agreed, curve_inside_at, agreed_curve, ec_private_at, attributes_at, around_of, private_key_of_at, private_key_info_at, private_key_at, key_file_at};

use crate::keys::{
    Algorithm, algorithm_of, bits, curve_by_name, curve_stated, integer, null, point, positive,
    version,
};
use crate::names::{RequestAttribute, first_in, is};
use crate::oids::{EC_PUBLIC_KEY, RSA_ENCRYPTION};
use crate::taking::{MAX_INPUT, NotForm, end, only, optional, take};
use cmc_der::{KeyKind, Spki};

/// Three INTEGERs, and what comes after them.
#[tactic(auto, unfolding(crate::specs::ReadKeys::three_at))]
fn three_integers<'a>(input: &'a [u8]) -> Result<&'a [u8], NotForm>
    ensures { Gives (λ p. p.now) result (three_at input.now) }
{
    let (_first, rest) = integer(input)?;
    let (_second, rest) = integer(rest)?;
    let (_third, rest) = integer(rest)?;
    Ok(rest)
}

/// Six INTEGERs, and nothing after them.
#[tactic(auto, unfolding(crate::specs::ReadKeys::six_at))]
fn six_integers(input: &[u8]) -> Result<(), NotForm>
    ensures { Gives (λ _. 0) result (six_at input.now) }
{
    let rest = three_integers(input)?;
    let rest = three_integers(rest)?;
    end(rest)
}

/// RSAPrivateKey (RFC 8017, A.1.2).
#[tactic(auto, unfolding(crate::specs::ReadKeys::rsa_private_at))]
fn rsa_private<'a>(input: &'a [u8]) -> Result<Spki<'a>, NotForm>
    ensures { Gives key_shown result (rsa_private_at input.now) }
{
    let body = only(48, input)?;
    let rest = version(0, body)?;
    let (modulus, rest) = positive(rest)?;
    let (exponent, rest) = positive(rest)?;
    six_integers(rest)?;
    Ok(Spki::Rsa { modulus, exponent })
}

/// The curve, where the one that stands around it, if one does, is the same.
fn agree(around: Option<KeyKind>, curve: KeyKind) -> Result<KeyKind, NotForm>
    ensures { Gives (λ c. c) result (agreed around curve) }
{
    match around {
        None => Ok(curve),
        Some(kind) => {
            if kind.same(curve) {
                Ok(curve)
            } else {
                Err(NotForm)
            }
        }
    }
}

#[tactic(auto, unfolding(crate::specs::ReadKeys::curve_inside_at))]
fn curve_inside(around: Option<KeyKind>, inside: &[u8]) -> Result<KeyKind, NotForm>
    ensures { Gives (λ c. c) result (curve_inside_at around inside.now) }
{
    let oid = only(6, inside)?;
    let curve = curve_by_name(oid)?;
    agree(around, curve)
}

/// The curve that is stated around the key or inside it.
fn curve_agreed(around: Option<KeyKind>, inside: Option<&[u8]>) -> Result<KeyKind, NotForm>
    ensures { Gives (λ c. c) result (agreed_curve around (text_shown inside.entry)) }
{
    match inside {
        Some(octets) => curve_inside(around, octets),
        None => match around {
            Some(kind) => Ok(kind),
            None => Err(NotForm),
        },
    }
}

/// ECPrivateKey (RFC 5915, 3), of the curve that stands around it, if one does.
#[tactic(auto, unfolding(crate::specs::ReadKeys::ec_private_at))]
fn ec_private<'a>(around: Option<KeyKind>, input: &'a [u8]) -> Result<Spki<'a>, NotForm>
    ensures { Gives key_shown result (ec_private_at around input.now) }
{
    let body = only(48, input)?;
    let rest = version(1, body)?;
    let (_secret, rest) = take(4, rest)?;
    let (parameters, rest) = optional(160, rest)?;
    let public_key = only(161, rest)?;
    let string = only(3, public_key)?;
    let bits = bits(string)?;
    let curve = curve_agreed(around, parameters)?;
    point(curve, bits)
}

/// Attributes as a request has them, if they are there.
fn attributes(octets: Option<&[u8]>) -> Result<(), NotForm>
    ensures { Gives (λ _. 0) result (attributes_at (text_shown octets.entry)) }
{
    match octets {
        None => Ok(()),
        Some(octets) => {
            first_in::<RequestAttribute>(octets)?;
            Ok(())
        }
    }
}

/// The curve that stands around an ECPrivateKey, if there is one.
fn curve_around<'a>(algorithm: Algorithm<'a>) -> Result<Option<KeyKind>, NotForm>
    ensures { Gives (λ c. c) result (around_of (algorithm_shown algorithm.entry).parameter) }
{
    match algorithm.parameter {
        None => Ok(None),
        Some(value) => {
            let curve = curve_stated(Some(value))?;
            Ok(Some(curve))
        }
    }
}

#[tactic(auto, unfolding(crate::specs::ReadKeys::private_key_of_at))]
fn held_key<'a>(algorithm: Algorithm<'a>, input: &'a [u8]) -> Result<Spki<'a>, NotForm>
    ensures { Gives key_shown result (private_key_of_at (algorithm_shown algorithm.entry) input.now) }
{
    if is(algorithm.oid, &RSA_ENCRYPTION) {
        if null(algorithm.parameter) {
            rsa_private(input)
        } else {
            Err(NotForm)
        }
    } else if is(algorithm.oid, &EC_PUBLIC_KEY) {
        let around = curve_around(algorithm)?;
        ec_private(around, input)
    } else {
        Err(NotForm)
    }
}

/// PrivateKeyInfo (RFC 5208, 5).
#[tactic(auto, unfolding(crate::specs::ReadKeys::private_key_info_at))]
fn private_key_info<'a>(input: &'a [u8]) -> Result<Spki<'a>, NotForm>
    ensures { Gives key_shown result (private_key_info_at input.now) }
{
    let body = only(48, input)?;
    let rest = version(0, body)?;
    let (algorithm, rest) = algorithm_of(rest)?;
    let (held, rest) = take(4, rest)?;
    let (stated, rest) = optional(160, rest)?;
    end(rest)?;
    attributes(stated)?;
    held_key(algorithm, held)
}

#[tactic(auto, unfolding(crate::specs::ReadKeys::private_key_at))]
fn private_key<'a>(input: &'a [u8]) -> Result<Spki<'a>, NotForm>
    ensures { Gives key_shown result (private_key_at input.now) }
{
    match rsa_private(input) {
        Ok(key) => Ok(key),
        Err(_) => match ec_private(None, input) {
            Ok(key) => Ok(key),
            Err(_) => private_key_info(input),
        },
    }
}

#[tactic(auto, unfolding(crate::specs::ReadKeys::key_file_at))]
fn key_file<'a>(input: &'a [u8]) -> Result<Spki<'a>, NotForm>
    ensures { Gives key_shown result (key_file_at input.now) }
{
    if input.len() <= MAX_INPUT {
        private_key(input)
    } else {
        Err(NotForm)
    }
}

/// Reads the public part of a file of a private key: an RSAPrivateKey (RFC 8017, A.1.2), an
/// ECPrivateKey (RFC 5915, 3) with its public key, or a PrivateKeyInfo (RFC 5208, 5) of one of these.
///
/// # Errors
///
/// `NotForm` exactly where the whole input is none of them, or has more octets than `MAX_INPUT`.
pub fn read_key<'a>(input: &'a [u8]) -> Result<Spki<'a>, NotForm>
    ensures found { IfOk result (λ key. IsKeyFile input.now (key_shown key)) }
    ensures only { (key : PublicKey) → IsKeyFile input.now key → Gives key_shown result (Some key) }
    ensures not_form { IsErr result ↔ ((key : PublicKey) → IsKeyFile input.now key → ⊥) }

    // The same as a function of the octets, which the crates above cite.
    ensures exact { Gives key_shown result (key_file_at input.now) }
{
    key_file(input)
}

/// The public part of a file of a private key, and `None` exactly where `read_key` refuses.
pub fn key_public<'a>(input: &'a [u8]) -> Option<Spki<'a>>
    ensures found { IfSome result (λ key. IsKeyFile input.now (key_shown key)) }
    ensures only { (key : PublicKey) → IsKeyFile input.now key → GivesSome key_shown result (Some key) }
    ensures none { IsNone result ↔ ((key : PublicKey) → IsKeyFile input.now key → ⊥) }
    ensures exact { GivesSome key_shown result (key_file_at input.now) }
{
    match read_key(input) {
        Ok(key) => Some(key),
        Err(_) => None,
    }
}
