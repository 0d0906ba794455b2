//! The objects of the modelled API store, the calls on it and its replies, the entries of a history
//! and the steps of a script.
//!
//! Fields and defaults follow the cert-manager.io/v1 API reference and the Kubernetes API conventions.
#![tactic(auto)]

mod call;
mod certificate;
mod entry;
mod issuer;
mod kept;
mod key_spec;
mod lookups;
mod material;
mod object;
mod optional;
mod orders;
mod pairing;
mod parts;
mod request;
mod role;
mod rows;
mod secret;
mod shared;
mod signing_request;
mod watching;

pub use call::{Call, Reply};
pub use certificate::{CertSpec, CertStatus, Certificate};
pub use entry::{Cause, Entry, Positions, Step, Who};
pub use issuer::IssuerRef;
pub use kept::{KeptFields, KeptKey, KeptNames};
pub use key_spec::{Algorithm, Encoding, KeySpec, Rotation};
pub use lookups::{part_under, text_under};
pub use material::Material;
pub use object::Object;
pub use orders::{CsrOrder, JudgeOrder, KeyOrder, Order, Rules, SignOrder, Signing};
pub use pairing::{Pairing, is_one_key, public_of};
pub use parts::Parts;
pub use request::{CertificateRequest, RequestSpec, RequestStatus};
pub use role::Role;
pub use rows::{KeyRow, KeyRows, Rows, SignRow, SignRows};
pub use secret::Secret;
pub use shared::Shared;
pub use signing_request::SigningRequest;
pub use watching::{
    has_informer, kind_of_work, looks_at_next, looks_at_requests, looks_at_secret,
    works_on_requests,
};
