//! Making private keys and signing certification requests: what is asked for, what is given back, and the
//! stand-in keys and signatures of a scenario. They are not keys of use.
#![tactic(auto)]

mod files;
mod kinds;
mod made;
mod maker;
mod oids;
mod scripted;
mod synthetic;

pub use kinds::{is_allowed_size, is_key_of, is_public_of};
pub use made::{Made, SignedCsr};
pub use maker::KeyMaker;
pub use scripted::{ScriptedKeys, one_key_value};
pub use synthetic::{synthetic_key, synthetic_keys_fit};
