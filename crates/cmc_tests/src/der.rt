//! What no clause says: values that openssl made and wrote, and the vectors of the refusals.
ghost use Rattle.std.specs.Prelude.{◌≡◌, ◌^◌, ◌<◌, [], OnOk, length};

use crate::checks::{passes, tells};
use crate::made_values::{EC_PUBLIC, RSA_PUBLIC, made};
use crate::values::{column, octets};
use cmc_der::{DerFault, KeyKind, Spki, Tlv, Writer, put_integer, put_value, read_one};
use std::alloc::{AllocError, Global};
use std::process::Abort;
use std::test::Fail;

/// What was read: the tag, the body and the rest, or the fault.
fn told(alloc: Global, input: &str) -> Result<String, AllocError> {
    let input = octets(alloc, input)?;
    match read_one(&input) {
        Ok((Tlv { tag, body }, rest)) => format!(in alloc;
            "{tag:02x} {} {}",
            body.len(),
            rest.len()
        ),
        Err(DerFault::Cut) => String::from_str(alloc, "cut"),
        Err(DerFault::NotDer(place)) => format!(in alloc; "not DER at {place}"),
    }
}

fn push_line(alloc: Global, lines: &mut String, line: &str) -> Result<(), AllocError> {
    if !lines.is_empty() {
        lines.push_str("; ")?;
    }
    lines.push_str(line)
}

/// A value: offset, header length, length and tag.
fn value_told(
    alloc: Global,
    offset: usize,
    header: usize,
    value: &Tlv<'_>,
) -> Result<String, AllocError> {
    let length = value.body.len();
    let tag = value.tag;
    format!(in alloc; "{offset} {header} {length} {tag:02x}")
}

/// Tells the first value of the rest, and gives what comes after it, or in it where it is constructed: the contents
/// of such a value are values, and those of a primitive one are not.
fn walk_on<'a>(
    alloc: Global,
    lines: &mut String,
    whole: usize,
    rest: &'a [u8],
) -> Result<&'a [u8], AllocError> {
    let Ok((value, after)) = read_one(rest) else {
        push_line(alloc, lines, "no value")?;
        return Ok(b"");
    };
    let header = rest
        .len()
        .wrapping_sub(value.body.len())
        .wrapping_sub(after.len());
    let offset = whole.wrapping_sub(rest.len());
    push_line(
        alloc,
        lines,
        value_told(alloc, offset, header, &value)?.as_str(),
    )?;
    if value.tag & 32 == 0 {
        return Ok(after);
    }
    Ok(rest.get(header..).unwrap_or(b""))
}

/// The values of the input from the outside in.
fn walk(alloc: Global, input: &[u8]) -> Result<String, AllocError> {
    let mut lines = String::new(alloc);
    let mut rest = input;
    for _ in 0..1000u32 {
        if rest.is_empty() {
            break;
        }
        rest = walk_on(alloc, &mut lines, input.len(), rest)?;
    }
    Ok(lines)
}

fn walked(alloc: Global, made: &str) -> Result<String, AllocError> {
    walk(alloc, &octets(alloc, made)?)
}

#[test]
fn reads_what_openssl_made(rt: HostRuntime) -> Result<(), Fail> {
    for row in made().lines() {
        let told = walked(rt.alloc(), column(row, 1))?;
        tells(&rt, column(row, 0), told.as_str(), column(row, 2));
    }
    Ok(())
}

fn tells_reading(
    rt: &impl Abort,
    alloc: Global,
    input: &str,
    want: &str,
) -> Result<(), AllocError> {
    let told = told(alloc, input)?;
    tells(rt, input, told.as_str(), want);
    Ok(())
}

static READINGS: [(&str, &str); 12] = [
    ("308103020105", "not DER at 2"),
    ("3080", "not DER at 1"),
    ("3085", "not DER at 1"),
    ("1f", "not DER at 0"),
    ("308100", "not DER at 2"),
    ("30820080", "not DER at 2"),
    ("30030201", "cut"),
    ("02", "cut"),
    ("3084", "cut"),
    ("", "cut"),
    ("020105ff", "02 1 1"),
    ("0500", "05 0 0"),
];

#[test]
fn refuses_at_the_first_octet_that_no_value_has(rt: HostRuntime) -> Result<(), Fail> {
    for (input, want) in &READINGS {
        tells_reading(&rt, rt.alloc(), input, want)?;
    }
    Ok(())
}

/// An INTEGER of the number that these octets spell.
fn integer(alloc: Global, bytes: &[u8]) -> Result<Vec<u8>, AllocError>
    requires { length bytes.now < 2 ^ 20 }
{
    let mut writer = Writer::new(alloc);
    writer.integer(alloc, bytes)?;
    Ok(writer.finish())
}

/// The same, put behind octets that are there.
fn put_behind(alloc: Global, bytes: &[u8]) -> Result<Vec<u8>, AllocError>
    requires { length bytes.now < 2 ^ 20 }
{
    let mut octets = Vec::new(alloc);
    put_value(&mut octets, 5, &[], &[])?;
    put_integer(&mut octets, bytes)?;
    Ok(octets)
}

/// An OCTET STRING of so many zeros.
fn zeros(alloc: Global, count: u32) -> Result<Vec<u8>, AllocError>
    requires { count < 2 ^ 20 }
{
    let mut writer = Writer::new(alloc);
    writer.octets(alloc, 4, &vec![in alloc; 0; count as usize]?)?;
    Ok(writer.finish())
}

/// The octets of a number and its INTEGER.
static NUMBERS: [(&str, &str); 9] = [
    ("80", "02020080"),
    ("00", "020100"),
    ("", "020100"),
    ("0001", "020101"),
    ("7f", "02017f"),
    ("ff", "020200ff"),
    ("0100", "02020100"),
    ("8000", "0203008000"),
    ("7fffffffffffffffff", "02097fffffffffffffffff"),
];

fn is_integer(alloc: Global, number: &str, want: &str) -> Result<bool, AllocError> {
    let number = octets(alloc, number)?;
    if number.len() >= 1000 {
        return Ok(false);
    }
    let want = octets(alloc, want)?;
    let behind = put_behind(alloc, &number)?;
    let is_behind = behind.starts_with(&[5, 0]) && behind.ends_with(&want);
    Ok(is_behind && integer(alloc, &number)?.as_slice() == want.as_slice())
}

/// A count of zeros, and what stands before them.
static LENGTHS: [(u32, &str); 6] = [
    (127, "047f"),
    (128, "048180"),
    (255, "0481ff"),
    (256, "04820100"),
    (65535, "0482ffff"),
    (65536, "0483010000"),
];

fn is_of_length(alloc: Global, count: u32, want: &str) -> Result<bool, AllocError> {
    if count >= 100_000 {
        return Ok(false);
    }
    let written = zeros(alloc, count)?;
    let want = octets(alloc, want)?;
    Ok(written.starts_with(&want) && written.len() == want.len().wrapping_add(count as usize))
}

#[test]
fn writes_numbers_and_lengths_as_openssl_does(rt: HostRuntime) -> Result<(), Fail> {
    let alloc = rt.alloc();
    for (number, want) in &NUMBERS {
        passes(&rt, want, is_integer(alloc, number, want)?);
    }
    for (count, want) in &LENGTHS {
        passes(&rt, want, is_of_length(alloc, *count, want)?);
    }
    Ok(())
}

/// Of a text that is handed on by reference, so that it is not spelt in what is proved.
fn octets_of(alloc: Global, text: &&str) -> Result<Vec<u8>, AllocError> {
    octets(alloc, text)
}

/// Writes the algorithm of a P-256 key.
// Over a reference, so that no `?` lets the writer go.
fn write_algorithm(alloc: Global, writer: &mut Writer) -> Result<(), AllocError>
    requires { writer.old.len < 2 ^ 20 }
    ensures levels { OnOk result (writer.new.outer ≡ writer.old.outer) }
    ensures fits { OnOk result (writer.new.len < 2 ^ 21) }
{
    writer.begin(alloc, 0x30)?;
    writer.oid(alloc, &[42, 134, 72, 206, 61, 2, 1])?;
    writer.oid(alloc, &[42, 134, 72, 206, 61, 3, 1, 7])?;
    writer.end(alloc)
}

/// Writes a SubjectPublicKeyInfo of a P-256 key with this point.
fn write_key(alloc: Global, writer: &mut Writer, point: &[u8]) -> Result<(), AllocError>
    requires start { writer.old.len < 2 ^ 19 }
    requires point { length point.now < 2 ^ 20 }
    ensures { OnOk result (writer.new.outer ≡ writer.old.outer) }
{
    writer.begin(alloc, 0x30)?;
    write_algorithm(alloc, writer)?;
    writer.bits(alloc, point)?;
    writer.end(alloc)
}

/// A SubjectPublicKeyInfo of a P-256 key with this point.
fn ec_public(alloc: Global, point: &[u8]) -> Result<Vec<u8>, AllocError>
    requires { length point.now < 2 ^ 20 }
{
    let mut writer = Writer::new(alloc);
    write_key(alloc, &mut writer, point)?;
    Ok(writer.finish())
}

fn length_of_two(alloc: Global) -> Result<u64, AllocError> {
    let mut writer = Writer::new(alloc);
    writer.begin(alloc, 0x30)?;
    writer.integer(alloc, &[1, 2])?;
    Ok(writer.len())
}

/// The file of 91 octets is what is written of its point.
fn is_written(alloc: Global, made: &[u8]) -> Result<bool, AllocError> {
    if made.len() != 91 {
        return Ok(false);
    }
    Ok(ec_public(alloc, &made[26..])?.as_slice() == made)
}

#[test]
fn writes_a_public_key_as_openssl_does(rt: HostRuntime) -> Result<(), Fail> {
    let made = octets_of(rt.alloc(), &EC_PUBLIC)?;
    passes(&rt, "public key", is_written(rt.alloc(), &made)?);
    Ok(())
}

#[test]
fn counts_what_is_written(rt: HostRuntime) -> Result<(), Fail> {
    passes(&rt, "length", length_of_two(rt.alloc())? == 18);
    Ok(())
}

fn is_kind(key: &Spki<'_>, kind: KeyKind) -> bool {
    match key.kind() {
        Some(found) => found.same(kind),
        None => false,
    }
}

fn are_apart(rt: &impl Abort, key: Spki<'_>, less: Spki<'_>, point: Spki<'_>, other: Spki<'_>) {
    passes(rt, "other", other.kind().is_none());
    let are_same = key.same(&key) && point.same(&point) && other.same(&other);
    passes(rt, "the same", are_same);
    let is_any_same = key.same(&less) || key.same(&point) || point.same(&other);
    passes(rt, "not the same", !is_any_same);
}

// The octets come by reference, so that no assertion has them in hand.
fn tells_kinds(rt: &impl Abort, made: &[u8])
    requires { length made.now ≡ 294 }
{
    // The modulus comes after its zero octet, and its highest bit is set.
    let key = Spki::Rsa {
        modulus: &made[33..289],
        exponent: &made[291..],
    };
    passes(rt, "RSA", is_kind(&key, KeyKind::Rsa { bits: 2048 }));
    let less = Spki::Rsa {
        modulus: &[0, 31, 255],
        exponent: &made[291..],
    };
    passes(rt, "less", is_kind(&less, KeyKind::Rsa { bits: 13 }));
    let point = Spki::Ec {
        curve: KeyKind::P256,
        point: &made[33..],
    };
    passes(rt, "point", is_kind(&point, KeyKind::P256));
    are_apart(rt, key, less, point, Spki::Other { whole: made });
}

#[test]
fn tells_the_kinds_of_keys_apart(rt: HostRuntime) -> Result<(), Fail> {
    let made = octets_of(rt.alloc(), &RSA_PUBLIC)?;
    if made.len() != 294 {
        return Err(Fail::from("another length"));
    }
    tells_kinds(&rt, &made);
    Ok(())
}
