//! Certification requests (RFC 2986) and certificates (RFC 5280), built in the Distinguished Encoding Rules.
#![tactic(auto)]

mod addresses;
mod certificates;
mod keys;
mod names;
mod oids;
mod pieces;
mod requests;
mod serving;
mod signatures;

pub use addresses::address_at;
pub use certificates::{CertPlan, cert_body, cert_whole};
pub use requests::{NameSet, csr_body, csr_whole};
pub use serving::{key_file_serves, request_serves};
