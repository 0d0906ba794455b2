//! Values in the Distinguished Encoding Rules of ASN.1 (ITU-T X.690): one is read from octets, or
//! written. The fields that certificates, requests and key files are read to stand here as well.
#![tactic(auto)]

mod fields;
mod reading;
mod writing;

pub use fields::{CertFields, CsrFields, KeyKind, Names, Spki, bits_are_fewest};
pub use reading::{DerFault, Tlv, no_proper_prefix, read_one};
pub use writing::{Writer, number_is_shortest, put_integer, put_value, written_is_read};
