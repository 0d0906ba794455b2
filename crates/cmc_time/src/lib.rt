//! Times of UTC in whole seconds since 1970-01-01T00:00:00Z, and durations in whole seconds, as texts.
#![tactic(auto)]

mod asn1;
mod duration;
mod moment;
mod reading;
mod rfc3339;
mod writing;

pub use asn1::{asn1_time, asn1_time_tag, print_asn1_time};
pub use duration::{BadDuration, print_duration, read_duration};
pub use moment::{FIRST_CERTIFICATE_TIME, FIRST_TIME, LAST_TIME, is_printable};
pub use rfc3339::{BadTime, print_rfc3339, read_rfc3339};
