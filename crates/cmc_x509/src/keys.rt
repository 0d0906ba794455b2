//! Public keys: algorithms, numbers, points, and SubjectPublicKeyInfo.
ghost use Rattle.std.specs.Prelude.{◌≡◌, ◌<◌, ℕ, List};
ghost use Rattle.cmc_der.specs.Integers.{is_integer};
ghost use Rattle.cmc_der.specs.Keys.{key_shown};
ghost use Rattle.cmc_x509.specs.Options.{Gives, Value, value_shown};
ghost use Rattle.cmc_x509.specs.PublicKeys.{algorithm_shown, width};
ghost use Rattle.cmc_x509.specs.ReadKeys.{algorithm_at, integer_at, high_first, magnitude_of, positive_at, version_at, rsa_public_at, curve_named, curve_of, is_point, is_null, point_at, bits_of, public_key_at, spki_of, spki_at};

use crate::names::is;
use crate::oids::{EC_PUBLIC_KEY, RSA_ENCRYPTION, SECP256R1, SECP384R1, SECP521R1};
use crate::taking::{NotForm, at_most_one, end, only, take, whole};
use cmc_der::{KeyKind, Spki, Tlv};

/// AlgorithmIdentifier (RFC 5280, 4.1.1.2).
#[derive(Clone, Copy)]
pub struct Algorithm<'a> {
    pub oid: &'a [u8],
    pub parameter: Option<Tlv<'a>>,
}

/// The AlgorithmIdentifier at the front, and the rest.
#[tactic(auto, unfolding(crate::specs::ReadKeys::algorithm_at))]
pub fn algorithm_of<'a>(input: &'a [u8]) -> Result<(Algorithm<'a>, &'a [u8]), NotForm>
    ensures { Gives (λ p. (algorithm_shown p.0, p.1.now)) result (algorithm_at input.now) }
{
    let (body, rest) = take(48, input)?;
    let (oid, inner) = take(6, body)?;
    let parameter = at_most_one(inner)?;
    Ok((Algorithm { oid, parameter }, rest))
}

/// Whether these are contents octets of an INTEGER in the shortest form.
fn integer_body(body: &[u8]) -> bool
    ensures { result ≡ is_integer body.now }
{
    match body {
        [] => false,
        [_only] => true,
        [first, second, ..] => {
            if *first == 0 {
                128 <= *second
            } else if *first == 255 {
                *second < 128
            } else {
                true
            }
        }
    }
}

/// The contents octets of the INTEGER at the front, and the rest.
#[tactic(auto, unfolding(crate::specs::ReadKeys::integer_at))]
pub fn integer<'a>(input: &'a [u8]) -> Result<(&'a [u8], &'a [u8]), NotForm>
    ensures { Gives (λ p. (p.0.now, p.1.now)) result (integer_at input.now) }
{
    let (body, rest) = take(2, input)?;
    if integer_body(body) {
        Ok((body, rest))
    } else {
        Err(NotForm)
    }
}

fn high_octets<'a>(octets: &'a [u8]) -> Result<&'a [u8], NotForm>
    ensures { Gives (λ p. p.now) result (high_first octets.now) }
{
    match octets {
        [] => Err(NotForm),
        [first, ..] => {
            if 128 <= *first {
                Ok(octets)
            } else {
                Err(NotForm)
            }
        }
    }
}

/// The octets of a positive number without a zero in front, of the contents octets of its INTEGER.
fn magnitude<'a>(body: &'a [u8]) -> Result<&'a [u8], NotForm>
    ensures { Gives (λ p. p.now) result (magnitude_of body.now) }
{
    match body {
        [] => Err(NotForm),
        [first, behind @ ..] => {
            if *first == 0 {
                high_octets(behind)
            } else if *first < 128 {
                Ok(body)
            } else {
                Err(NotForm)
            }
        }
    }
}

/// The octets of the positive INTEGER at the front, and the rest.
#[tactic(auto, unfolding(crate::specs::ReadKeys::positive_at))]
pub fn positive<'a>(input: &'a [u8]) -> Result<(&'a [u8], &'a [u8]), NotForm>
    ensures { Gives (λ p. (p.0.now, p.1.now)) result (positive_at input.now) }
{
    let (body, rest) = take(2, input)?;
    let octets = magnitude(body)?;
    Ok((octets, rest))
}

/// What comes after the INTEGER at the front, which is this small number.
#[tactic(auto, unfolding(crate::specs::ReadKeys::version_at))]
pub fn version<'a>(number: u8, input: &'a [u8]) -> Result<&'a [u8], NotForm>
    ensures { Gives (λ p. p.now) result (version_at number input.now) }
{
    let (body, rest) = take(2, input)?;
    if is(body, &[number]) {
        Ok(rest)
    } else {
        Err(NotForm)
    }
}

#[tactic(auto, unfolding(crate::specs::ReadKeys::rsa_public_at))]
fn rsa_public<'a>(input: &'a [u8]) -> Result<Spki<'a>, NotForm>
    ensures { Gives key_shown result (rsa_public_at input.now) }
{
    let body = only(48, input)?;
    let (modulus, rest) = positive(body)?;
    let (exponent, rest) = positive(rest)?;
    end(rest)?;
    Ok(Spki::Rsa { modulus, exponent })
}

/// The curve that the OID names.
pub fn curve_by_name(oid: &[u8]) -> Result<KeyKind, NotForm>
    ensures { Gives (λ c. c) result (curve_named oid.now) }
{
    if is(oid, &SECP256R1) {
        Ok(KeyKind::P256)
    } else if is(oid, &SECP384R1) {
        Ok(KeyKind::P384)
    } else if is(oid, &SECP521R1) {
        Ok(KeyKind::P521)
    } else {
        Err(NotForm)
    }
}

/// The curve that the parameter of an algorithm states.
pub fn curve_stated<'a>(parameter: Option<Tlv<'a>>) -> Result<KeyKind, NotForm>
    ensures { Gives (λ c. c) result (curve_of (value_shown parameter.entry)) }
{
    match parameter {
        None => Err(NotForm),
        Some(value) => {
            if value.tag == 6 {
                curve_by_name(value.body)
            } else {
                Err(NotForm)
            }
        }
    }
}

/// Whether the parameter of an algorithm is NULL.
pub fn null<'a>(parameter: Option<Tlv<'a>>) -> bool
    ensures { result ≡ is_null (value_shown parameter.entry) }
{
    match parameter {
        None => false,
        Some(value) => value.tag == 5 && value.body.is_empty(),
    }
}

fn width_of(curve: KeyKind) -> usize
    ensures value { result ≡ width curve }
    ensures small { result < 100 }
{
    match curve {
        KeyKind::P256 => 32,
        KeyKind::P384 => 48,
        KeyKind::P521 => 66,
        KeyKind::Rsa { bits: _ } => 0,
    }
}

fn point_of(curve: KeyKind, bits: &[u8]) -> bool
    ensures { result ≡ is_point curve bits.now }
{
    match bits {
        [] => false,
        [first, coordinates @ ..] => *first == 4 && coordinates.len() == 2 * width_of(curve),
    }
}

/// The key that a point of this curve is.
#[tactic(auto, unfolding(crate::specs::ReadKeys::point_at))]
pub fn point<'a>(curve: KeyKind, bits: &'a [u8]) -> Result<Spki<'a>, NotForm>
    ensures { Gives key_shown result (point_at curve bits.now) }
{
    if point_of(curve, bits) {
        Ok(Spki::Ec { curve, point: bits })
    } else {
        Err(NotForm)
    }
}

/// The bits of a BIT STRING with no unused bits, of its contents octets.
#[tactic(auto, unfolding(crate::specs::ReadKeys::bits_of))]
pub fn bits<'a>(contents: &'a [u8]) -> Result<&'a [u8], NotForm>
    ensures { Gives (λ p. p.now) result (bits_of contents.now) }
{
    match contents {
        [] => Err(NotForm),
        [unused, bits @ ..] => { if *unused == 0 { Ok(bits) } else { Err(NotForm) } }
    }
}

#[tactic(auto, unfolding(crate::specs::ReadKeys::public_key_at))]
fn public_key<'a>(
    algorithm: Algorithm<'a>,
    whole: &'a [u8],
    bits: &'a [u8],
) -> Result<Spki<'a>, NotForm>
    ensures { Gives key_shown result (public_key_at (algorithm_shown algorithm.entry) whole.now bits.now) }
{
    if is(algorithm.oid, &RSA_ENCRYPTION) {
        if null(algorithm.parameter) {
            rsa_public(bits)
        } else {
            Err(NotForm)
        }
    } else if is(algorithm.oid, &EC_PUBLIC_KEY) {
        let curve = curve_stated(algorithm.parameter)?;
        point(curve, bits)
    } else {
        Ok(Spki::Other { whole })
    }
}

#[tactic(auto, unfolding(crate::specs::ReadKeys::spki_of))]
fn spki_in<'a>(input: &'a [u8]) -> Result<Spki<'a>, NotForm>
    ensures { Gives key_shown result (spki_of input.now) }
{
    let body = only(48, input)?;
    let (algorithm, rest) = algorithm_of(body)?;
    let string = only(3, rest)?;
    let bits = bits(string)?;
    public_key(algorithm, input, bits)
}

/// The key of the SubjectPublicKeyInfo at the front, and the rest.
#[tactic(auto, unfolding(crate::specs::ReadKeys::spki_at))]
pub fn spki<'a>(input: &'a [u8]) -> Result<(Spki<'a>, &'a [u8]), NotForm>
    ensures { Gives (λ p. (key_shown p.0, p.1.now)) result (spki_at input.now) }
{
    let (whole, rest) = whole(input)?;
    let key = spki_in(whole)?;
    Ok((key, rest))
}
