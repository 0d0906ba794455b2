//! The small values that the tests build theirs of.
use cmc_meta::{Bytes, Key, Kind, Name, ObjectMeta, Owners, Pairs, Text, Texts};
use cmc_objects::{CertSpec, IssuerRef, KeySpec};
use cmc_policy_rules::{Pattern, Patterns, Policy};
use std::alloc::{AllocError, Global};
use std::test::Fail;

fn digit(letter: u8) -> u8 {
    match letter {
        b'0'..=b'9' => letter - b'0',
        b'a'..=b'f' => letter - b'a' + 10,
        _ => 0,
    }
}

/// Lets the value go: the drop of a wide enum splits each goal after it, so it stands here.
pub fn let_go<T: Drop>(value: T) {
    let _value = value;
}

/// The octets that a text of two hexadecimal digits each spells.
pub fn octets(alloc: Global, text: &str) -> Result<Vec<u8>, AllocError> {
    let mut octets = Vec::new(alloc);
    let mut high = None;
    for letter in text.bytes() {
        match high {
            None => high = Some(digit(letter)),
            Some(first) => {
                octets.push(first << 4 | digit(letter))?;
                high = None;
            }
        }
    }
    Ok(octets)
}

/// The first row of this name in a table of made files, whose columns are a name and the octets.
fn row_of<'a>(table: &'a str, name: &str) -> Option<&'a str> {
    for row in table.lines() {
        if column(row, 0) == name {
            return Some(row);
        }
    }
    None
}

fn octets_in(alloc: Global, row: &str) -> Result<Bytes, Fail> {
    let file = octets(alloc, column(row, 1))?;
    Ok(Bytes::from_slice(alloc, file.as_slice())?)
}

/// The octets of the first row of this name in tables of made files.
pub fn made(alloc: Global, tables: &[&str], name: &str) -> Result<Bytes, Fail> {
    for table in tables {
        if let Some(row) = row_of(table, name) {
            return octets_in(alloc, row);
        }
    }
    Err(Fail::from("no row"))
}

/// The column of this place, from 0, of a row with bars between its columns; empty where it has none there.
pub fn column(row: &str, place: u32) -> &str {
    let mut columns = row.split('|');
    for _ in 0..place {
        columns.next();
    }
    columns.next().unwrap_or("")
}

/// The number that the word spells, and none for any other word.
pub fn number(word: &str) -> Option<u64> {
    match word.parse::<u64>() {
        Ok(number) => Some(number),
        Err(_) => None,
    }
}

pub fn text(alloc: Global, text: &str) -> Result<Text, Fail> {
    Ok(Text::from_str(alloc, text)?)
}

pub fn push_text(alloc: Global, texts: &mut Texts, word: &str) -> Result<(), Fail> {
    texts.push(text(alloc, word)?)?;
    Ok(())
}

/// A list of one text.
pub fn texts(alloc: Global, word: &str) -> Result<Texts, Fail> {
    let mut texts = Texts::new(alloc);
    push_text(alloc, &mut texts, word)?;
    Ok(texts)
}

pub fn name(alloc: Global, text: &str) -> Result<Name, Fail> {
    match Name::read(alloc, text) {
        Ok(name) => Ok(name),
        Err(_) => Err(Fail::from("no name")),
    }
}

/// A key in the namespace `default`.
pub fn key(alloc: Global, kind: Kind, word: &str) -> Result<Key, Fail> {
    Ok(Key {
        kind,
        namespace: name(alloc, "default")?,
        name: name(alloc, word)?,
    })
}

/// The metadata of an object of that name that was not stored yet.
pub fn new_meta(alloc: Global, word: &str) -> Result<ObjectMeta, Fail> {
    Ok(ObjectMeta {
        namespace: name(alloc, "default")?,
        name: name(alloc, word)?,
        uid: 0,
        version: 0,
        generation: 0,
        created: 0,
        labels: Pairs::new(alloc),
        annotations: Pairs::new(alloc),
        owners: Owners::new(alloc),
    })
}

/// A spec with what every Certificate has, and no more.
pub fn least_spec(alloc: Global, secret: &str, host: &str) -> Result<CertSpec, Fail> {
    let secret_name = name(alloc, secret)?;
    let dns_names = texts(alloc, host)?;
    let issuer = IssuerRef {
        name: text(alloc, "ca")?,
        kind: None,
        group: None,
    };
    Ok(CertSpec {
        secret_name,
        issuer,
        common_name: Text::new(alloc),
        dns_names,
        ip_addresses: Texts::new(alloc),
        uris: Texts::new(alloc),
        emails: Texts::new(alloc),
        is_ca: false,
        usages: Texts::new(alloc),
        duration: None,
        renew_before: None,
        key: KeySpec {
            algorithm: None,
            size: None,
            encoding: None,
            rotation: None,
        },
        renew_percent: None,
        history_limit: None,
    })
}

/// A list of one pattern.
pub fn patterns(alloc: Global, word: &str) -> Result<Patterns, AllocError> {
    let mut patterns = Patterns::new(alloc);
    patterns.push(Pattern::from_slice(alloc, word.as_bytes())?)?;
    Ok(patterns)
}

/// A policy of this name for requests to these issuers, which allows these DNS names and no others, no usage, and each
/// duration and each key.
pub fn policy(alloc: Global, name: &str, issuers: &str, dns: &str) -> Result<Policy, AllocError> {
    let name = Pattern::from_slice(alloc, name.as_bytes())?;
    let issuers = patterns(alloc, issuers)?;
    let dns = patterns(alloc, dns)?;
    Ok(Policy {
        name,
        issuers,
        common: None,
        dns: Some(dns),
        ips: None,
        uris: None,
        emails: None,
        usages: Patterns::new(alloc),
        ca: false,
        min: None,
        max: None,
        algorithm: None,
        min_size: None,
        max_size: None,
    })
}
