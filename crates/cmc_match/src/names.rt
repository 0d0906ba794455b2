//! The names that a Certificate asks for, and those of a certification request.
ghost use Rattle.std.specs.List.{list_any, list_all};
ghost use Rattle.std.specs.Option.{option_map_or};
ghost use Rattle.std.specs.Prelude.{◌≡◌, ◌↔◌, ◌==◌, ◌&&◌, ◌||◌, ◌∷◌, length, map, true, IfSome, IsTrue, if◌then◌else◌};
ghost use Rattle.std.specs.Str.{bytes_eq};
ghost use Rattle.cmc_der.specs.Keys.{text_shown, names_shown};
ghost use Rattle.cmc_x509.specs.Lists.{IsValueList};
ghost use Rattle.cmc_x509_build.specs.Addresses.{address_at, octets_of_address};
ghost use Rattle.cmc_match.specs.Sets.{is_among, is_within, is_same_set};
ghost use Rattle.cmc_match.specs.SubjectNames as words;
ghost use Rattle.cmc_match.specs.SubjectNames.{names_tagged, values_of, addresses, addresses_written, HasSubjectNames};

use crate::sets;
use cmc_meta::Text;
use cmc_objects::CertSpec;
use cmc_x509::{Names, next_name};
use cmc_x509_build::address_at;
use std::net::IpAddr;

// The tags of GeneralNames (RFC 5280, 4.2.1.6).
const EMAIL: u8 = 129;

const DNS_NAME: u8 = 130;

const URI: u8 = 134;

const ADDRESS: u8 = 135;

fn is_name(kind: u8, contents: &[u8], tag: u8, name: &[u8]) -> bool
    ensures { result ≡ ((kind == tag) && bytes_eq contents.now name.now) }
{
    kind == tag && contents == name
}

// Whether a name of this tag and these contents stands among the alternative names.
fn has_name(alternative: &[u8], tag: u8, name: &[u8]) -> bool
    requires { IsValueList alternative.now }
    ensures { result ≡ is_among (names_tagged tag (values_of alternative.now)) name.now }
{
    let mut rest = alternative;
    while let Some((kind, contents, after)) = next_name(rest) {
        if is_name(kind, contents, tag, name) {
            return true;
        }
        rest = after;
    }
    false
}

fn is_asked(kind: u8, contents: &[u8], tag: u8, texts: &[Text]) -> bool
    ensures { result ≡ (if kind == tag then is_among texts.now contents.now else true) }
{
    if kind == tag {
        sets::is_among(texts, contents)
    } else {
        true
    }
}

// Whether each name of this tag among the alternative names is one of the texts.
fn has_no_other(alternative: &[u8], tag: u8, texts: &[Text]) -> bool
    requires { IsValueList alternative.now }
    ensures { result ≡ is_within (names_tagged tag (values_of alternative.now)) texts.now }
{
    let mut rest = alternative;
    while let Some((kind, contents, after)) = next_name(rest) {
        if !is_asked(kind, contents, tag, texts) {
            return false;
        }
        rest = after;
    }
    true
}

fn has_each(alternative: &[u8], tag: u8, texts: &[Text]) -> bool
    requires { IsValueList alternative.now }
    ensures { result ≡ is_within texts.now (names_tagged tag (values_of alternative.now)) }
{
    texts
        .iter()
        .all(|text| has_name(alternative, tag, text.as_slice()))
}

// The texts after the first, where that has these contents.
fn behind<'a>(texts: &'a [Text], contents: &[u8]) -> Option<&'a [Text]>
    ensures { IfSome result (λ others. texts.now ≡ contents.now ∷ others.now) }
{
    match texts.split_first() {
        Some((first, others)) if first.as_slice() == contents => Some(others),
        _ => None,
    }
}

// The texts that are left behind a name, where a name of this tag is the first of them.
fn left_behind<'a>(texts: &'a [Text], tag: u8, kind: u8, contents: &[u8]) -> Option<&'a [Text]>
    ensures { IfSome result (λ others. texts.now ≡ (if kind == tag then contents.now ∷ others.now else others.now)) }
{
    if kind == tag {
        return behind(texts, contents);
    }
    Some(texts)
}

// Whether the names of this tag are these texts, in this order.
fn are_in_order(alternative: &[u8], tag: u8, texts: &[Text]) -> bool
    requires { IsValueList alternative.now }
    ensures { result ≡ true → names_tagged tag (values_of alternative.now) ≡ texts.now }
{
    let mut rest = alternative;
    let mut left = texts;
    while let Some((kind, contents, after)) = next_name(rest) {
        let Some(others) = left_behind(left, tag, kind, contents) else {
            return false;
        };
        left = others;
        rest = after;
    }
    left.is_empty()
}

// Names are mostly asked for in the order of the specification, and compared as sets only where they are not.
fn has_same_names(alternative: &[u8], tag: u8, texts: &[Text]) -> bool
    requires { IsValueList alternative.now }
    ensures { result ≡ words.has_same_names tag texts.now alternative.now }
{
    if are_in_order(alternative, tag, texts) {
        return true;
    }
    has_each(alternative, tag, texts) && has_no_other(alternative, tag, texts)
}

// Whether the names are all of this tag, and are these texts, in this order.
fn are_just(alternative: &[u8], tag: u8, texts: &[Text]) -> bool
    requires { IsValueList alternative.now }
    ensures { result ≡ true → values_of alternative.now ≡ map (λ text. (tag, text)) texts.now }
{
    let mut rest = alternative;
    let mut left = texts;
    while let Some((kind, contents, after)) = next_name(rest) {
        if kind != tag {
            return false;
        }
        let Some(others) = behind(left, contents) else {
            return false;
        };
        left = others;
        rest = after;
    }
    left.is_empty()
}

fn is_address(octets: &[u8]) -> bool
    ensures { result ≡ words.is_address octets.now }
{
    octets.len() == 4 || octets.len() == 16
}

// Whether an address of these octets stands among the alternative names.
#[tactic(auto, using(crate::proofs::NameLaws::among_addresses))]
fn has_address(alternative: &[u8], octets: &[u8]) -> bool
    requires { IsValueList alternative.now }
    ensures { result ≡ is_among (addresses (values_of alternative.now)) octets.now }
{
    is_address(octets) && has_name(alternative, ADDRESS, octets)
}

// Whether the address that the text writes, if it writes one, stands among the alternative names.
fn has_written(alternative: &[u8], text: &str) -> bool
    requires { IsValueList alternative.now }
    ensures { result ≡ option_map_or (is_among (addresses (values_of alternative.now))) (address_at text.now) true }
{
    match address_at(text) {
        None => true,
        Some(IpAddr::V4(address)) => has_address(alternative, &address.octets()),
        Some(IpAddr::V6(address)) => has_address(alternative, &address.octets()),
    }
}

fn all_have(alternative: &[u8], texts: &[Text]) -> bool
    requires { IsValueList alternative.now }
    ensures { result ≡ list_all (λ text. option_map_or (is_among (addresses (values_of alternative.now))) (address_at text) true) texts.now }
{
    texts
        .iter()
        .all(|text| has_written(alternative, text.as_str()))
}

fn has_each_address(alternative: &[u8], texts: &[Text]) -> bool
    requires { IsValueList alternative.now }
    ensures { result ≡ is_within (addresses_written texts.now) (addresses (values_of alternative.now)) }
{
    all_have(alternative, texts)
}

// Whether the text writes the address of these octets.
fn writes(text: &str, octets: &[u8]) -> bool
    ensures { result ≡ words.is_written_by text.now octets.now }
{
    match address_at(text) {
        None => false,
        Some(IpAddr::V4(address)) => address.octets().as_slice() == octets,
        Some(IpAddr::V6(address)) => address.octets().as_slice() == octets,
    }
}

fn one_writes(texts: &[Text], octets: &[u8]) -> bool
    ensures { result ≡ list_any (λ text. words.is_written_by text octets.now) texts.now }
{
    texts.iter().any(|text| writes(text.as_str(), octets))
}

fn is_written(texts: &[Text], octets: &[u8]) -> bool
    ensures { result ≡ is_among (addresses_written texts.now) octets.now }
{
    one_writes(texts, octets)
}

fn is_asked_address(kind: u8, contents: &[u8], texts: &[Text]) -> bool
    ensures { result ≡ (if (kind == 135) && words.is_address contents.now then is_among (addresses_written texts.now) contents.now else true) }
{
    if kind == ADDRESS && is_address(contents) {
        is_written(texts, contents)
    } else {
        true
    }
}

// Whether each address among the alternative names is written by one of the texts.
fn has_no_other_address(alternative: &[u8], texts: &[Text]) -> bool
    requires { IsValueList alternative.now }
    ensures { result ≡ is_within (addresses (values_of alternative.now)) (addresses_written texts.now) }
{
    let mut rest = alternative;
    while let Some((kind, contents, after)) = next_name(rest) {
        if !is_asked_address(kind, contents, texts) {
            return false;
        }
        rest = after;
    }
    true
}

fn has_same_addresses(alternative: &[u8], texts: &[Text]) -> bool
    requires { IsValueList alternative.now }
    ensures { result ≡ words.has_same_addresses texts.now alternative.now }
{
    has_each_address(alternative, texts) && has_no_other_address(alternative, texts)
}

fn common_text<'a>(common: Option<&'a [u8]>) -> &'a [u8]
    ensures { result.now ≡ words.common_text (text_shown common.entry) }
{
    match common {
        None => &[],
        Some(text) => text,
    }
}

fn is_common(common: Option<&[u8]>, text: &Text) -> bool
    ensures { result ≡ bytes_eq (words.common_text (text_shown common.entry)) text.now }
{
    common_text(common) == text.as_slice()
}

fn asks_for_dns_names_alone(spec: &CertSpec) -> bool
    ensures { result ≡ ((length spec.now.ip_addresses == 0) && ((length spec.now.uris == 0) && (length spec.now.emails == 0))) }
{
    spec.ip_addresses.as_slice().is_empty()
        && (spec.uris.as_slice().is_empty() && spec.emails.as_slice().is_empty())
}

// Most specifications ask for DNS names alone, and one walk over the names tells that these are they.
fn has_alternative(spec: &CertSpec, alternative: &[u8]) -> bool
    requires { IsValueList alternative.now }
    ensures { result ≡ words.has_alternative spec.now alternative.now }
{
    if asks_for_dns_names_alone(spec) {
        let just = are_just(alternative, DNS_NAME, spec.dns_names.as_slice());
        if just {
            return true;
        }
    }
    has_same_names(alternative, DNS_NAME, spec.dns_names.as_slice())
        && has_same_addresses(alternative, spec.ip_addresses.as_slice())
        && has_same_names(alternative, URI, spec.uris.as_slice())
        && has_same_names(alternative, EMAIL, spec.emails.as_slice())
}

/// Whether the names of a certification request are those that the specification asks for.
#[tactic(auto, unfolding(crate::specs::SubjectNames::has_names))]
pub fn has_names(spec: &CertSpec, names: &Names<'_>) -> bool
    requires { IsValueList names.now.alternative.now }
    ensures { result ≡ words.has_names spec.now (names_shown names.now) }
{
    is_common(names.common, &spec.common_name) && has_alternative(spec, names.alternative)
}
