//! Names of subjects and issuers, and alternative names.
ghost use Rattle.std.specs.Prelude.{◌≡◌, ◌≢◌, ◌%◌, ◌++◌, List, ℕ, Option, None, Some, IfOk, OnOk, flat_map};
ghost use Rattle.cmc_der.specs.Keys.{text_shown};
ghost use Rattle.cmc_der.specs.Builders.{value};
ghost use Rattle.cmc_x509_build.specs.Octets as spec;

use crate::addresses::address_at;
use crate::oids;
use crate::pieces::{push_nested, push_value};
use cmc_meta::Text;
use std::alloc::{AllocError, Global};
use std::net::IpAddr;

// Room for an object identifier and what stands round a text: a value that needs more grows.
const AROUND: usize = 32;

#[tactic(auto, unfolding(crate::specs::Octets::name_octets))]
fn push_one_name(alloc: Global, octets: &mut Vec<u8>, text: &[u8]) -> Result<(), AllocError>
    ensures { OnOk result (octets.new.items ≡ octets.old.items ++ spec.name_octets (Some text.now)) }
{
    let mut parts = Vec::with_capacity(alloc, text.len() + AROUND)?;
    push_value(&mut parts, 6, &oids::COMMON_NAME)?;
    push_value(&mut parts, 12, text)?;
    let mut set = Vec::new(alloc);
    push_nested(alloc, &mut set, 49, 48, &parts)?;
    push_value(octets, 48, &set)
}

/// Name (RFC 5280, 4.1.2.4) with this commonName, or with none.
#[tactic(auto, unfolding(crate::specs::Octets::name_octets))]
pub fn push_name(
    alloc: Global,
    octets: &mut Vec<u8>,
    common: Option<&[u8]>,
) -> Result<(), AllocError>
    ensures { OnOk result (octets.new.items
        ≡ octets.old.items ++ spec.name_octets (text_shown common.entry)) }
{
    match common {
        Some(text) => push_one_name(alloc, octets, text),
        None => push_value(octets, 48, &[]),
    }
}

/// GeneralNames of this tag (RFC 5280, 4.2.1.6), one for each text, after those that are there.
pub fn push_names(mut names: Vec<u8>, tag: u8, texts: &[Text]) -> Result<Vec<u8>, AllocError>
    requires { tag % 32 ≢ 31 }
    ensures { IfOk result (λ octets. octets.items
        ≡ names.items ++ flat_map (value tag) texts.now) }
{
    for text in texts {
        push_value(&mut names, tag, text.as_slice())?;
    }
    Ok(names)
}

// GeneralName of the address that the text writes, or nothing.
fn push_address(octets: &mut Vec<u8>, text: &str) -> Result<(), AllocError>
    ensures { OnOk result (octets.new.items ≡ octets.old.items ++ spec.address_octets text.now) }
{
    match address_at(text) {
        Some(IpAddr::V4(address)) => push_value(octets, 135, &address.octets()),
        Some(IpAddr::V6(address)) => push_value(octets, 135, &address.octets()),
        None => Ok(()),
    }
}

/// The same of IP addresses: a text that writes none is left out.
pub fn push_addresses(mut names: Vec<u8>, texts: &[Text]) -> Result<Vec<u8>, AllocError>
    ensures { IfOk result (λ octets. octets.items
        ≡ names.items ++ flat_map spec.address_octets texts.now) }
{
    for text in texts {
        push_address(&mut names, text.as_str())?;
    }
    Ok(names)
}

/// The extension subjectAltName with these GeneralNames, not critical.
pub fn push_alternative_extension(
    alloc: Global,
    octets: &mut Vec<u8>,
    names: &[u8],
) -> Result<(), AllocError>
    ensures { OnOk result (octets.new.items
        ≡ octets.old.items ++ spec.alternative_extension names.now) }
{
    let mut parts = Vec::with_capacity(alloc, names.len() + AROUND)?;
    push_value(&mut parts, 6, &oids::SUBJECT_ALT_NAME)?;
    push_nested(alloc, &mut parts, 4, 48, names)?;
    push_value(octets, 48, &parts)
}
