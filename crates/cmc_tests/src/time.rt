ghost use Rattle.cmc_time.specs.Asn1.{IsCertificateTime};

use crate::checks::passes;
use cmc_time::*;
use std::alloc::{AllocError, Global};
use std::test::Fail;

// The seconds are those of Python's datetime and of `date -u -d .. +%s`.
static TIMES: [(&str, i64); 10] = [
    ("0001-01-01T00:00:00Z", -62_135_596_800),
    ("1900-02-28T23:59:59Z", -2_203_891_201),
    ("1950-01-01T00:00:00Z", -631_152_000),
    ("1969-12-31T23:59:59Z", -1),
    ("1970-01-01T00:00:00Z", 0),
    ("2000-02-29T12:34:56Z", 951_827_696),
    ("2030-01-01T00:00:00Z", 1_893_456_000),
    ("2038-01-19T03:14:08Z", 2_147_483_648),
    ("2050-01-01T00:00:00Z", 2_524_608_000),
    ("9999-12-31T23:59:59Z", 253_402_300_799),
];

static NO_TIMES: [&str; 14] = [
    "",
    "2030-01-01",
    "2030-01-01T24:00:00Z",
    "2030-01-01T23:60:00Z",
    "2016-12-31T23:59:60Z",
    "2023-02-29T00:00:00Z",
    "1900-02-29T00:00:00Z",
    "2030-04-31T00:00:00Z",
    "2030-13-01T00:00:00Z",
    "2030-00-01T00:00:00Z",
    "2030-01-00T00:00:00Z",
    "0000-12-31T23:59:59Z",
    "2030-01-01T00:00:00+00:00",
    "2030-01-01t00:00:00Z",
];

/// The moment is printed as the text, where it has a text.
fn is_printed(alloc: Global, text: &str, at: i64) -> Result<bool, AllocError> {
    if is_printable(at) {
        return Ok(print_rfc3339(alloc, at)?.as_str() == text);
    }
    Ok(true)
}

/// The text is of this moment.
fn is_time(text: &str, at: i64) -> bool {
    match read_rfc3339(text) {
        Ok(read) => read == at,
        Err(_) => false,
    }
}

#[test]
fn rfc_3339(rt: HostRuntime) -> Result<(), Fail> {
    for (text, at) in &TIMES {
        passes(&rt, text, is_time(text, *at));
        passes(&rt, text, is_printed(rt.alloc(), text, *at)?);
    }
    Ok(())
}

#[test]
fn no_rfc_3339(rt: HostRuntime) {
    for text in &NO_TIMES {
        passes(&rt, text, read_rfc3339(text).is_err());
    }
}

/// The tag and the body of a time, and the moment.
static BODIES: [(u8, &str, Option<i64>); 13] = [
    (0x17, "300101000000Z", Some(1_893_456_000)),
    (0x17, "500101000000Z", Some(-631_152_000)),
    (0x17, "491231235959Z", Some(2_524_607_999)),
    (0x17, "991231235959Z", Some(946_684_799)),
    (0x18, "20500101000000Z", Some(2_524_608_000)),
    (0x18, "99991231235959Z", Some(253_402_300_799)),
    (0x18, "20491231235959Z", None),
    (0x18, "300101000000Z", None),
    (0x17, "20500101000000Z", None),
    (0x17, "3001010000Z", None),
    (0x17, "300101000000+0000", None),
    (0x17, "230229000000Z", None),
    (0x16, "300101000000Z", None),
];

#[test]
fn times_of_certificates(rt: HostRuntime) {
    for (tag, body, at) in &BODIES {
        passes(&rt, body, asn1_time(*tag, body.as_bytes()).ok() == *at);
    }
    passes(&rt, "tag before 2050", asn1_time_tag(1_893_456_000) == 0x17);
    passes(&rt, "tag of 2050", asn1_time_tag(2_524_608_000) == 0x18);
}

/// The moment is printed as the text.
fn is_body(alloc: Global, at: i64, text: &str) -> Result<bool, AllocError>
    requires { IsCertificateTime at }
{
    Ok(print_asn1_time(alloc, at)?.as_str() == text)
}

#[test]
fn printed_times_of_certificates(rt: HostRuntime) -> Result<(), Fail> {
    let alloc = rt.alloc();
    let early = is_body(alloc, 1_893_456_000, "300101000000Z")?;
    passes(&rt, "before 2050", early);
    let late = is_body(alloc, 2_524_608_000, "20500101000000Z")?;
    passes(&rt, "in 2050", late);
    Ok(())
}

// As Go's time.Duration prints them, where the second text is one.
static DURATIONS: [(&str, u64, &str); 12] = [
    ("1h30m", 5400, "1h30m0s"),
    ("0", 0, "0s"),
    ("0s", 0, "0s"),
    ("2160h", 7_776_000, "2160h0m0s"),
    ("5m", 300, "5m0s"),
    ("30s", 30, "30s"),
    ("1h0s", 3600, "1h0m0s"),
    ("59m59s", 3599, "59m59s"),
    ("90s", 90, "1m30s"),
    ("000000001h", 3600, "1h0m0s"),
    ("999999999h", 3_599_999_996_400, "999999999h0m0s"),
    ("999999998h60m", 3_599_999_996_400, "999999999h0m0s"),
];

static NO_DURATIONS: [&str; 13] = [
    "",
    "h",
    "00",
    "1",
    "1.5h",
    "-1h",
    "+1h",
    "1m1h",
    "1h1h",
    "1h 1m",
    "1000000000h",
    "999999999h1s",
    "1ms",
];

/// So many seconds are printed so.
fn is_duration_of(alloc: Global, seconds: u64, printed: &str) -> Result<bool, AllocError> {
    Ok(print_duration(alloc, seconds)?.as_str() == printed)
}

/// The text is a duration of so many seconds.
fn is_duration(text: &str, seconds: u64) -> bool {
    match read_duration(text) {
        Ok(read) => read == seconds,
        Err(_) => false,
    }
}

#[test]
fn durations(rt: HostRuntime) -> Result<(), Fail> {
    for (text, seconds, printed) in &DURATIONS {
        passes(&rt, text, is_duration(text, *seconds));
        passes(&rt, text, is_duration_of(rt.alloc(), *seconds, printed)?);
    }
    Ok(())
}

#[test]
fn no_durations(rt: HostRuntime) {
    for text in &NO_DURATIONS {
        passes(&rt, text, read_duration(text).is_err());
    }
}

#[test]
fn the_longest_duration(rt: HostRuntime) -> Result<(), Fail> {
    let longest = is_duration_of(rt.alloc(), u64::MAX, "5124095576030431h0m15s")?;
    passes(&rt, "longest", longest);
    Ok(())
}
