//! What no clause says: that material which openssl made is read with the fields that it prints.
ghost use Rattle.cmc_x509.specs.Lists.{IsValueList};

use crate::checks::{passes, tells};
use crate::values::{column, octets};
use crate::{made_certificates, made_keys, made_requests};
use cmc_x509::{
    CertFields, CsrFields, KeyKind, Names, Spki, key_public, next_name, read_cert, read_csr,
    read_key,
};
use std::alloc::{AllocError, Global};
use std::process::Abort;
use std::test::Fail;

fn digit(number: u8) -> char {
    match number {
        0..=9 => (b'0' + number) as char,
        10..=15 => (b'a' + (number - 10)) as char,
        _ => '?',
    }
}

// All that is told is added to one text by reference, so that no `?` drops more than one.
fn push_hex(told: &mut String, octets: &[u8]) -> Result<(), AllocError> {
    for octet in octets {
        told.push(digit(octet >> 4))?;
        told.push(digit(octet & 15))?;
    }
    Ok(())
}

fn text(octets: &[u8]) -> &str {
    str::from_utf8(octets).unwrap_or("not UTF-8")
}

fn push_size(alloc: Global, told: &mut String, bits: u32) -> Result<(), AllocError> {
    let size = format!(in alloc; "RSA {bits}")?;
    told.push_str(size.as_str())
}

fn push_kind(alloc: Global, told: &mut String, key: &Spki<'_>) -> Result<(), AllocError> {
    match key.kind() {
        Some(KeyKind::Rsa { bits }) => push_size(alloc, told, bits),
        Some(KeyKind::P256) => told.push_str("P-256"),
        Some(KeyKind::P384) => told.push_str("P-384"),
        Some(KeyKind::P521) => told.push_str("P-521"),
        None => told.push_str("other"),
    }
}

fn push_both(told: &mut String, first: &[u8], second: &[u8]) -> Result<(), AllocError> {
    push_hex(told, first)?;
    told.push(' ')?;
    push_hex(told, second)
}

fn push_octets(told: &mut String, key: &Spki<'_>) -> Result<(), AllocError> {
    match key {
        Spki::Rsa { modulus, exponent } => push_both(told, modulus, exponent),
        Spki::Ec { curve: _, point } => push_hex(told, point),
        Spki::Other { whole } => push_hex(told, whole),
    }
}

fn push_key(alloc: Global, told: &mut String, key: &Spki<'_>) -> Result<(), AllocError> {
    push_kind(alloc, told, key)?;
    told.push(' ')?;
    push_octets(told, key)
}

/// How openssl calls a name of this tag that is a text.
fn sort_of(tag: u8) -> Option<&'static str> {
    match tag {
        0x81 => Some("email"),
        0x82 => Some("DNS"),
        0x86 => Some("URI"),
        _ => None,
    }
}

/// Whether a name of this sort is told.
fn is_told(tag: u8, body: &[u8]) -> bool {
    sort_of(tag).is_some() || (tag == 0x87 && body.len() == 4)
}

fn push_text(told: &mut String, sort: &str, text: &str) -> Result<(), AllocError> {
    told.push_str(sort)?;
    told.push(':')?;
    told.push_str(text)
}

fn push_address(alloc: Global, told: &mut String, body: &[u8]) -> Result<(), AllocError> {
    if let [a, b, c, d] = body {
        let address = format!(in alloc; "IP Address:{a}.{b}.{c}.{d}")?;
        told.push_str(address.as_str())?;
    }
    Ok(())
}

/// Adds a name as openssl prints it.
fn push_told(alloc: Global, told: &mut String, tag: u8, body: &[u8]) -> Result<(), AllocError> {
    match sort_of(tag) {
        Some(sort) => push_text(told, sort, text(body)),
        None => push_address(alloc, told, body),
    }
}

/// Adds the name, where it is told, behind a comma unless it is the first; and says whether the next one is the first.
fn push_name(
    alloc: Global,
    told: &mut String,
    tag: u8,
    body: &[u8],
    is_first: bool,
) -> Result<bool, AllocError> {
    if !is_told(tag, body) {
        return Ok(is_first);
    }
    if !is_first {
        told.push_str(", ")?;
    }
    push_told(alloc, told, tag, body)?;
    Ok(false)
}

/// Adds the alternative names.
fn push_alternative(alloc: Global, told: &mut String, names: &Names<'_>) -> Result<(), AllocError>
    requires { IsValueList names.now.alternative.now }
{
    let mut rest = names.alternative;
    let mut is_first = true;
    while let Some((tag, body, behind)) = next_name(rest) {
        rest = behind;
        is_first = push_name(alloc, told, tag, body, is_first)?;
    }
    Ok(())
}

/// Adds the key and the names of a request or of a certificate.
fn push_subject(
    alloc: Global,
    told: &mut String,
    key: &Spki<'_>,
    names: &Names<'_>,
) -> Result<(), AllocError>
    requires { IsValueList names.now.alternative.now }
{
    push_key(alloc, told, key)?;
    told.push_str("; ")?;
    told.push_str(text(names.common.unwrap_or(b"none")))?;
    told.push_str("; ")?;
    push_alternative(alloc, told, names)
}

fn push_file(alloc: Global, told: &mut String, input: &[u8]) -> Result<(), AllocError> {
    match read_key(input) {
        Ok(key) => push_key(alloc, told, &key),
        Err(_) => told.push_str("not of the form"),
    }
}

fn push_request(alloc: Global, told: &mut String, input: &[u8]) -> Result<(), AllocError> {
    match read_csr(input) {
        Ok(CsrFields { key, names }) => push_subject(alloc, told, &key, &names),
        Err(_) => told.push_str("not of the form"),
    }
}

fn push_times(
    alloc: Global,
    told: &mut String,
    not_before: i64,
    not_after: i64,
) -> Result<(), AllocError> {
    let times = format!(in alloc; " {not_before} {not_after}; ")?;
    told.push_str(times.as_str())
}

fn push_certificate(alloc: Global, told: &mut String, input: &[u8]) -> Result<(), AllocError> {
    match read_cert(input) {
        Ok(
            CertFields {
                serial,
                not_before,
                not_after,
                key,
                names,
            },
        ) => {
            push_hex(told, serial)?;
            push_times(alloc, told, not_before, not_after)?;
            push_subject(alloc, told, &key, &names)
        }
        Err(_) => told.push_str("not of the form"),
    }
}

#[derive(Clone, Copy)]
enum Sort {
    Key,
    Request,
    Certificate,
}

fn push(alloc: Global, told: &mut String, sort: Sort, input: &[u8]) -> Result<(), AllocError> {
    match sort {
        Sort::Key => push_file(alloc, told, input),
        Sort::Request => push_request(alloc, told, input),
        Sort::Certificate => push_certificate(alloc, told, input),
    }
}

fn told(alloc: Global, sort: Sort, input: &[u8]) -> Result<String, AllocError> {
    let mut told = String::new(alloc);
    push(alloc, &mut told, sort, input)?;
    Ok(told)
}

fn row_told(alloc: Global, sort: Sort, row: &str) -> Result<String, AllocError> {
    told(alloc, sort, &octets(alloc, column(row, 1))?)
}

/// The rows of a table: a name, the octets, and what is told of them.
fn check_rows(rt: &impl Abort, alloc: Global, table: &str, sort: Sort) -> Result<(), AllocError> {
    for row in table.lines() {
        let told = row_told(alloc, sort, row)?;
        tells(rt, column(row, 0), told.as_str(), column(row, 2));
    }
    Ok(())
}

#[test]
fn reads_keys(rt: HostRuntime) -> Result<(), Fail> {
    let alloc = rt.alloc();
    check_rows(&rt, alloc, made_keys::made(), Sort::Key)?;
    check_rows(&rt, alloc, made_keys::built(), Sort::Key)?;
    check_rows(&rt, alloc, made_keys::other_ec(), Sort::Key)?;
    check_rows(&rt, alloc, made_keys::other_numbers(), Sort::Key)?;
    check_rows(&rt, alloc, made_keys::other_forms(), Sort::Key)?;
    Ok(())
}

#[test]
fn reads_requests(rt: HostRuntime) -> Result<(), Fail> {
    let alloc = rt.alloc();
    check_rows(&rt, alloc, made_requests::made(), Sort::Request)?;
    check_rows(&rt, alloc, made_requests::changed(), Sort::Request)?;
    Ok(())
}

#[test]
fn reads_certificates(rt: HostRuntime) -> Result<(), Fail> {
    let alloc = rt.alloc();
    let sort = Sort::Certificate;
    check_rows(&rt, alloc, made_certificates::made(), sort)?;
    check_rows(&rt, alloc, made_certificates::other_times(), sort)?;
    check_rows(&rt, alloc, made_certificates::other_extensions(), sort)?;
    check_rows(&rt, alloc, made_certificates::other_ends(), sort)?;
    Ok(())
}

/// Each part of a file, and the file with an octet after it, is no file.
fn refuses_parts(
    rt: &impl Abort,
    alloc: Global,
    name: &str,
    whole: &[u8],
) -> Result<(), AllocError> {
    passes(rt, name, key_public(whole).is_some());
    for count in 0..whole.len() {
        passes(rt, name, key_public(&whole[..count]).is_none());
    }
    let mut longer = Vec::from_slice(alloc, whole)?;
    longer.push(0)?;
    passes(rt, name, key_public(&longer).is_none());
    Ok(())
}

#[test]
fn refuses_what_is_cut_and_what_is_longer(rt: HostRuntime) -> Result<(), Fail> {
    let alloc = rt.alloc();
    for row in made_keys::built().lines() {
        let whole = octets(alloc, column(row, 1))?;
        refuses_parts(&rt, alloc, column(row, 0), &whole)?;
    }
    Ok(())
}
