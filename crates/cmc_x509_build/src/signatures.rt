//! What is signed, and its signature.
ghost use Rattle.std.specs.Prelude.{◌≡◌, ◌++◌, IfOk, OnOk};
ghost use Rattle.cmc_x509_build.specs.Octets as spec;

use crate::oids;
use crate::pieces::{push_bits, push_nested, push_pair};
use cmc_meta::Bytes;
use std::alloc::{AllocError, Global};

// Room for the algorithm and what stands round a signature.
const AROUND: usize = 32;

/// AlgorithmIdentifier of ecdsa-with-SHA256, without a parameter (RFC 5758, 3.2).
pub fn push_algorithm(alloc: Global, octets: &mut Vec<u8>) -> Result<(), AllocError>
    ensures { OnOk result (octets.new.items ≡ octets.old.items ++ spec.signature_algorithm) }
{
    push_nested(alloc, octets, 48, 6, &oids::ECDSA_WITH_SHA256)
}

/// The SEQUENCE of the body, that algorithm and the signature.
#[tactic(auto, unfolding(crate::specs::Octets::signed_octets))]
pub fn signed(alloc: Global, body: &[u8], signature: &[u8]) -> Result<Bytes, AllocError>
    ensures { IfOk result (λ whole. whole ≡ spec.signed_octets body.now signature.now) }
{
    let mut tail = Vec::with_capacity(alloc, signature.len() + AROUND)?;
    push_algorithm(alloc, &mut tail)?;
    push_bits(&mut tail, signature)?;
    let mut whole = Vec::new(alloc);
    push_pair(&mut whole, 48, body, &tail)?;
    Bytes::from_slice(alloc, &whole)
}
