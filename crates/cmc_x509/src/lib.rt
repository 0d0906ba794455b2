//! Certificates (RFC 5280), certification requests (RFC 2986) and files of private keys (RFC 8017,
//! RFC 5915 and RFC 5208), read in the Distinguished Encoding Rules. What is read borrows from the
//! input, and no call takes memory.
#![tactic(auto)]

mod certificates;
mod key_files;
mod keys;
mod names;
mod oids;
mod taking;

pub use certificates::{read_cert, read_csr};
pub use cmc_der::{CertFields, CsrFields, KeyKind, Names, Spki};
pub use key_files::{key_public, read_key};
pub use names::next_name;
pub use taking::{MAX_INPUT, NotForm};
