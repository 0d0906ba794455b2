//! The times of X.509 certificates.
ghost use Rattle.std.specs.Prelude.{◌≡◌, ◌<◌, ℤ, IfOk, string_bytes};
ghost use Rattle.std.specs.Result.{result_ok};
ghost use Rattle.cmc_time.specs.Asn1.{IsAsn1Time, IsCertificateTime, asn1_tag, asn1_text};
ghost use Rattle.cmc_time.specs.Asn1 as spec;
ghost use Rattle.cmc_time.specs.Moment.{IsMoment};
ghost use Rattle.cmc_time.specs.Texts.{HasTwoDigits};
ghost use Rattle.cmc_time.specs.TimeTexts as reads;

use crate::moment::Moment;
use crate::{BadTime, moment, reading, writing};
use std::alloc::{AllocError, Global};

// The tags of UTCTime and GeneralizedTime.
const UTC_TIME: u8 = 0x17;

const GENERALIZED_TIME: u8 = 0x18;

fn full_year(short: u8) -> u16
    requires { short < 100 }
    ensures { result ≡ reads.full_year short }
{
    if short < 50 {
        2000 + short as u16
    } else {
        1900 + short as u16
    }
}

#[tactic(auto, unfolding(crate::specs::TimeTexts::utc_time_seconds))]
fn utc_time_at(text: &[u8]) -> Option<i64>
    ensures { result ≡ reads.utc_time_seconds text.now }
{
    let (year, rest) = reading::two_digits_at(text)?;
    let moment = reading::moment_at(full_year(year), b"", b"", b"", rest)?;
    moment::second_at(moment)
}

#[tactic(auto, unfolding(crate::specs::TimeTexts::generalized_time_seconds))]
fn generalized_time_at(text: &[u8]) -> Option<i64>
    ensures { result ≡ reads.generalized_time_seconds text.now }
{
    let (year, rest) = reading::four_digits_at(text)?;
    let moment = reading::moment_at(year, b"", b"", b"", rest)?;
    if moment.year < 2050 {
        return None;
    }
    moment::second_at(moment)
}

#[tactic(auto, unfolding(crate::specs::TimeTexts::asn1_seconds))]
fn asn1_time_at(tag: u8, text: &[u8]) -> Option<i64>
    ensures { result ≡ reads.asn1_seconds tag text.now }
{
    match tag {
        UTC_TIME => utc_time_at(text),
        GENERALIZED_TIME => generalized_time_at(text),
        _ => None,
    }
}

/// The seconds from 1970-01-01T00:00:00Z to the moment that the body of a DER value writes, as RFC 5280
/// (4.1.2.5) has times: under the tag 0x17 a UTCTime `YYMMDDHHMMSSZ`, whose years 00 to 49 are 2000 to 2049 and
/// 50 to 99 are 1950 to 1999; under the tag 0x18 a GeneralizedTime `YYYYMMDDHHMMSSZ` of 2050 or later.
///
/// `BadTime` comes exactly where tag and body are no such real moment.
#[tactic(auto, using(crate::proofs::Asn1Laws::asn1_found))]
pub fn asn1_time(tag: u8, text: &[u8]) -> Result<i64, BadTime>
    ensures found { IfOk result (IsAsn1Time tag text.now) }
    ensures only { (at : ℤ) → IsAsn1Time tag text.now at → result_ok result ≡ Some at }
    ensures exact { result_ok result ≡ reads.asn1_seconds tag text.now }
{
    asn1_time_at(tag, text).ok_or(BadTime)
}

fn utc_time(alloc: Global, m: Moment) -> Result<String, AllocError>
    requires { HasTwoDigits m }
    ensures { IfOk result (λ text. string_bytes text ≡ spec.utc_time_text m) }
{
    let mut text = String::with_capacity(alloc, 13)?;
    writing::push_two_digits(&mut text, (m.year % 100) as u8)?;
    writing::push_after_year(&mut text, "", "", "", m)?;
    Ok(text)
}

fn generalized_time(alloc: Global, m: Moment) -> Result<String, AllocError>
    requires year_in { m.year < 10000 }
    requires rest_in { HasTwoDigits m }
    ensures { IfOk result (λ text. string_bytes text ≡ spec.generalized_time_text m) }
{
    let mut text = String::with_capacity(alloc, 15)?;
    writing::push_four_digits(&mut text, m.year)?;
    writing::push_after_year(&mut text, "", "", "", m)?;
    Ok(text)
}

fn tag_of(m: Moment) -> u8
    ensures { result ≡ spec.tag_of m }
{
    if m.year < 2050 {
        UTC_TIME
    } else {
        GENERALIZED_TIME
    }
}

fn body_of(alloc: Global, m: Moment) -> Result<String, AllocError>
    requires { IsMoment m }
    ensures { IfOk result (λ text. string_bytes text ≡ spec.asn1_time_text m) }
{
    if m.year < 2050 {
        utc_time(alloc, m)
    } else {
        generalized_time(alloc, m)
    }
}

/// The tag under which a certificate writes the time: 0x17, of UTCTime, before 2050, and 0x18, of
/// GeneralizedTime, from then on (RFC 5280, 4.1.2.5).
pub fn asn1_time_tag(at: i64) -> u8
    requires { IsCertificateTime at }
    ensures { result ≡ asn1_tag at }
{
    tag_of(moment::moment_at(at))
}

/// The body under the tag of [`asn1_time_tag`]. [`asn1_time`] reads tag and body as this time.
pub fn print_asn1_time(alloc: Global, at: i64) -> Result<String, AllocError>
    requires { IsCertificateTime at }
    ensures text { IfOk result (λ text. string_bytes text ≡ asn1_text at) }
    ensures reads_back { IfOk result (λ text. IsAsn1Time (asn1_tag at) (string_bytes text) at) }
{
    body_of(alloc, moment::moment_at(at))
}
