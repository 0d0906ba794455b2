//! The parts of a moment, and the second at which it lies.
ghost use Rattle.std.specs.Prelude.{◌≡◌, ◌<◌, ◌≤◌, pos, neg_ℤ, ◌+ℤ◌, ◌*ℤ◌, ◌≤ℤ◌, ◌↔◌, IsTrue};
ghost use Rattle.jiff_core.specs.Calendar.{IsBetween, IsEpochDay};
ghost use Rattle.jiff_core.specs.Date.{epoch_day};
ghost use Rattle.cmc_time.specs.Moment.{IsMoment, IsPrintable, moment_of, seconds_of};
ghost use Rattle.cmc_time.specs.TimeTexts as reading;

use jiff_core::civil;
use jiff_core::civil::Date;

/// A date and a time of day, whether or not the calendar and the clock have them.
#[derive(Clone, Copy)]
pub struct Moment {
    pub year: u16,
    pub month: u8,
    pub day: u8,
    pub hour: u8,
    pub minute: u8,
    pub second: u8,
}

/// 0001-01-01T00:00:00Z, the first moment that is read and printed.
pub const FIRST_TIME: i64 = -62_135_596_800;

/// 1950-01-01T00:00:00Z, the first that a UTCTime can say.
pub const FIRST_CERTIFICATE_TIME: i64 = -631_152_000;

/// 9999-12-31T23:59:59Z, the last moment that is read and printed.
pub const LAST_TIME: i64 = 253_402_300_799;

/// The moment lies in the years 1 to 9999.
pub fn is_printable(at: i64) -> bool
    ensures { IsTrue result ↔ IsPrintable at }
{
    FIRST_TIME <= at && at <= LAST_TIME
}

const SECONDS_PER_DAY: u64 = 86_400;

// From 0001-01-01T00:00:00Z to 1970-01-01T00:00:00Z.
const SECONDS_BEFORE_EPOCH: i64 = 62_135_596_800;

// From -9999-01-01, the calendar's first date, to 0001-01-01.
const DAYS_BEFORE_YEAR_1: u32 = 3_652_425;

fn is_date(year: u16, month: u8, day: u8) -> bool
    ensures { result ≡ reading.is_date year month day }
{
    let known = 1 <= year && year <= 9999 && 1 <= month && month <= 12;
    known && 1 <= day && day <= civil::days_in_month(year as i16, month)
}

fn is_moment(m: Moment) -> bool
    ensures { result ≡ reading.is_moment m }
{
    is_date(m.year, m.month, m.day) && m.hour < 24 && m.minute < 60 && m.second < 60
}

// The second of a day of the calendar, from the day number and the second of the day.
fn second_from(day: i32, second: u32) -> i64
    requires day_in { IsEpochDay day }
    requires second_in { second < 86_400 }
    ensures value { result ≡ day *ℤ pos 86_400 +ℤ pos second }
    ensures bound { IsBetween (neg_ℤ (pos 377_705_116_800)) (pos 253_402_300_799) result }
{
    day as i64 * SECONDS_PER_DAY as i64 + second as i64
}

/// The second at which the moment lies, if it is a real one of the years 1 to 9999.
pub fn second_at(m: Moment) -> Option<i64>
    ensures { result ≡ reading.second_at m }
{
    if !is_moment(m) {
        return None;
    }
    let date = Date {
        year: m.year as i16,
        month: m.month,
        day: m.day,
    };
    let second = m.hour as u32 * 3600 + m.minute as u32 * 60 + m.second as u32;
    Some(second_from(date.to_unix_epoch_day(), second))
}

fn seconds_since_year_1(at: i64) -> u64
    requires { IsPrintable at }
    ensures value { at +ℤ pos 62_135_596_800 ≡ pos result }
    ensures bound { result < 315_537_897_600 }
{
    (at + SECONDS_BEFORE_EPOCH) as u64
}

fn date_since_year_1(day: u32) -> Date
    requires { day < 3_652_059 }
    ensures { epoch_day result +ℤ pos 719_162 ≡ pos day }
{
    Date::from_days_since_min(day + DAYS_BEFORE_YEAR_1)
}

// The year as an unsigned number.
fn year_of(date: Date) -> u16
    requires { neg_ℤ (pos 719_162) ≤ℤ epoch_day date }
    ensures value { date.year ≡ pos result }
    ensures low { 1 ≤ result }
{
    date.year as u16
}

/// The moment at a second of the years 1 to 9999.
pub fn moment_at(at: i64) -> Moment
    requires { IsPrintable at }
    ensures is_real { IsMoment result }
    ensures lies_at { seconds_of result ≡ at }
    ensures value { result ≡ moment_of at }
{
    moment_since_year_1(seconds_since_year_1(at))
}

fn moment_since_year_1(since: u64) -> Moment
    requires { since < 315_537_897_600 }
    ensures is_real { IsMoment result }
    ensures lies_at { seconds_of result +ℤ pos 62_135_596_800 ≡ pos since }
{
    let second = (since % SECONDS_PER_DAY) as u32;
    let date = date_since_year_1((since / SECONDS_PER_DAY) as u32);
    Moment {
        year: year_of(date),
        month: date.month,
        day: date.day,
        hour: (second / 3600) as u8,
        minute: (second % 3600 / 60) as u8,
        second: (second % 60) as u8,
    }
}
