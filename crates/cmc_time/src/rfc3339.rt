//! Times as RFC 3339 writes them.
ghost use Rattle.std.specs.Prelude.{◌≡◌, ℤ, IfOk, string_bytes};
ghost use Rattle.std.specs.Result.{result_ok};
ghost use Rattle.cmc_time.specs.Rfc3339.{IsRfc3339, rfc3339};
ghost use Rattle.cmc_time.specs.Moment.{IsPrintable};
ghost use Rattle.cmc_time.specs.TimeTexts.{rfc3339_seconds};

use crate::{moment, reading, writing};
use std::alloc::{AllocError, Global};

/// The text, or the bytes, write no moment of the form that was asked for.
#[derive(Clone, Copy)]
pub struct BadTime;

#[tactic(auto, unfolding(crate::specs::TimeTexts::rfc3339_seconds))]
fn seconds_in(text: &str) -> Option<i64>
    ensures { result ≡ rfc3339_seconds text.now }
{
    let (year, rest) = reading::four_digits_at(text.as_bytes())?;
    let moment = reading::moment_at(year, b"-", b"T", b":", rest)?;
    moment::second_at(moment)
}

/// The seconds from 1970-01-01T00:00:00Z to the moment that the text writes in UTC, as RFC 3339 does without
/// a fraction: `2030-01-01T00:00:00Z`. The year is 0001 to 9999, the day one of the proleptic Gregorian
/// calendar, and the time 00:00:00 to 23:59:59, with no leap second.
///
/// `BadTime` comes exactly where the text is no such moment.
#[tactic(auto, using(crate::proofs::Rfc3339Laws::rfc3339_again, crate::proofs::Rfc3339Laws::rfc3339_found))]
pub fn read_rfc3339(text: &str) -> Result<i64, BadTime>
    ensures found { IfOk result (IsRfc3339 text.now) }
    ensures only { (at : ℤ) → IsRfc3339 text.now at → result_ok result ≡ Some at }
    ensures exact { result_ok result ≡ rfc3339_seconds text.now }
{
    seconds_in(text).ok_or(BadTime)
}

/// The text of the moment that many seconds after 1970-01-01T00:00:00Z, as [`read_rfc3339`] reads it.
pub fn print_rfc3339(alloc: Global, at: i64) -> Result<String, AllocError>
    requires { IsPrintable at }
    ensures text { IfOk result (λ text. string_bytes text ≡ rfc3339 at) }
    ensures reads_back { IfOk result (λ text. IsRfc3339 (string_bytes text) at) }
{
    let m = moment::moment_at(at);
    let mut text = String::with_capacity(alloc, 20)?;
    writing::push_four_digits(&mut text, m.year)?;
    writing::push_after_year(&mut text, "-", "T", ":", m)?;
    Ok(text)
}
