//! Durations as texts.
ghost use Rattle.std.specs.Prelude.{◌≡◌, ◌<◌, ◌≤◌, ◌^◌, ℕ, true, length, IfOk, string_bytes};
ghost use Rattle.std.specs.Result.{result_ok};
ghost use Rattle.std.specs.Str.{all_ascii_digits};
ghost use Rattle.std.specs.Str.Parse.{digits_value};
ghost use Rattle.cmc_time.specs.Durations.{IsDuration, go_duration, longest};
ghost use Rattle.cmc_time.specs.DurationTexts as reads;

use std::alloc::{AllocError, Global};

/// The text is no duration.
#[derive(Clone, Copy)]
pub struct BadDuration;

// 999,999,999 hours.
const LONGEST: u64 = 3_599_999_996_400;

fn digits_len(text: &[u8]) -> usize
    ensures value { result ≡ reads.digits_len text.now }
    ensures within { result ≤ length text.now }
{
    text.iter().take_while(|byte| byte.is_ascii_digit()).count()
}

fn number(digits: &[u8]) -> u64
    requires are_digits { all_ascii_digits digits.now ≡ true }
    requires few { length digits.now ≤ 9 }
    ensures value { result ≡ digits_value 10 digits.now }
    ensures bound { result < 10 ^ 9 }
{
    let mut number = 0;
    for digit in digits {
        number = number * 10 + (*digit - b'0') as u64;
    }
    number
}

// The count of a part with this unit, where the digits and then the unit stand at the front of the text.
fn part_from<'a>(unit: u8, text: &'a [u8], digits: &[u8], rest: &'a [u8]) -> (u64, &'a [u8])
    requires { all_ascii_digits digits.now ≡ true }
    ensures value { reads.part_view result ≡ reads.part_from unit text.now digits.now rest.now }
    ensures bound { result.0 < 10 ^ 9 }
{
    let Some((first, after)) = rest.split_first() else {
        return (0, text);
    };
    if *first == unit && 1 <= digits.len() && digits.len() <= 9 {
        (number(digits), after)
    } else {
        (0, text)
    }
}

// The count of a part with this unit, and what follows it; or 0 and the whole text, where it begins with none.
#[tactic(auto, unfolding(crate::specs::DurationTexts::part_at), using(crate::proofs::Digits::are_digits))]
fn part_at(unit: u8, text: &[u8]) -> (u64, &[u8])
    ensures value { reads.part_view result ≡ reads.part_at unit text.now }
    ensures bound { result.0 < 10 ^ 9 }
{
    let (digits, rest) = text.split_at(digits_len(text));
    part_from(unit, text, digits, rest)
}

fn sum_of(text: &[u8], hours: u64, minutes: u64, seconds: u64, rest: &[u8]) -> Option<u64>
    requires hours_in { hours < 10 ^ 9 }
    requires minutes_in { minutes < 10 ^ 9 }
    requires seconds_in { seconds < 10 ^ 9 }
    ensures { result ≡ reads.sum_of text.now hours minutes seconds rest.now }
{
    let total = hours * 3600 + minutes * 60 + seconds;
    if !text.is_empty() && rest.is_empty() && total <= LONGEST {
        Some(total)
    } else {
        None
    }
}

#[tactic(auto, unfolding(crate::specs::DurationTexts::parts_seconds))]
fn parts_seconds(text: &[u8]) -> Option<u64>
    ensures { result ≡ reads.parts_seconds text.now }
{
    let (hours, rest) = part_at(b'h', text);
    let (minutes, rest) = part_at(b'm', rest);
    let (seconds, rest) = part_at(b's', rest);
    sum_of(text, hours, minutes, seconds, rest)
}

#[tactic(auto, unfolding(crate::specs::DurationTexts::duration_seconds))]
fn duration_seconds(text: &str) -> Option<u64>
    ensures { result ≡ reads.duration_seconds text.now }
{
    if text == "0" {
        return Some(0);
    }
    parts_seconds(text.as_bytes())
}

/// The seconds of a duration as Go's time.Duration is written: `0`, or one or more of the parts `<n>h`, `<n>m`
/// and `<n>s` in this order, each with one to nine decimal digits, and 999,999,999 hours at most in all.
///
/// `BadDuration` comes exactly where the text is no such duration.
#[tactic(auto, using(crate::proofs::DurationLaws::duration_found))]
pub fn read_duration(text: &str) -> Result<u64, BadDuration>
    ensures found { IfOk result (IsDuration text.now) }
    ensures only { (seconds : ℕ) → IsDuration text.now seconds → result_ok result ≡ Some seconds }
    ensures exact { result_ok result ≡ reads.duration_seconds text.now }
{
    duration_seconds(text).ok_or(BadDuration)
}

/// The duration in hours, minutes and seconds as Go's time.Duration prints it: `2160h0m0s`, `5m0s`, `30s`, `0s`.
///
/// Up to 999,999,999 hours [`read_duration`] reads that text as these seconds.
pub fn print_duration(alloc: Global, seconds: u64) -> Result<String, AllocError>
    ensures text { IfOk result (λ text. string_bytes text ≡ go_duration seconds) }
    ensures reads_back { seconds ≤ longest
        → IfOk result (λ text. IsDuration (string_bytes text) seconds) }
{
    printed(alloc, seconds)
}

#[tactic(auto, unfolding(crate::specs::Durations::go_duration))]
fn printed(alloc: Global, seconds: u64) -> Result<String, AllocError>
    ensures { IfOk result (λ text. string_bytes text ≡ go_duration seconds) }
{
    let (hours, minutes, rest) = (seconds / 3600, seconds % 3600 / 60, seconds % 60);
    if seconds < 60 {
        return format!(in alloc; "{seconds}s");
    }
    if seconds < 3600 {
        return format!(in alloc; "{minutes}m{rest}s");
    }
    format!(in alloc; "{hours}h{minutes}m{rest}s")
}
