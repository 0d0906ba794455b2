//! IP addresses as texts.
ghost use Rattle.std.specs.Prelude.{◌≡◌, ℕ, List, IfSome, option_map};
ghost use Rattle.cmc_x509_build.specs.Addresses as spec;

use std::net::{IpAddr, Ipv4Addr, Ipv6Addr};

fn has_dot(text: &[u8]) -> bool
    ensures { result ≡ spec.has_dot text.now }
{
    text.iter().any(|byte| *byte == b'.')
}

fn address_of(text: &str) -> Option<IpAddr>
    ensures { option_map spec.octets_of_address result ≡ spec.address_at text.now }
{
    if let Ok(address) = text.parse::<Ipv4Addr>() {
        return Some(IpAddr::V4(address));
    }
    if has_dot(text.as_bytes()) {
        return None;
    }
    match text.parse::<Ipv6Addr>() {
        Ok(address) => Some(IpAddr::V6(address)),
        Err(_) => None,
    }
}

/// The address that the text writes: four decimal numbers 0 to 255 without leading zeros with dots between them,
/// or the IPv6 form of eight groups of one to four hexadecimal digits, in which one `::` may stand for one or more
/// zero groups, with no embedded IPv4 address and no zone. None exactly where it writes none.
#[tactic(auto, using(crate::proofs::AddressLaws::address_found))]
pub fn address_at(text: &str) -> Option<IpAddr>
    ensures found { IfSome result (λ address. spec.IsAddress text.now (spec.octets_of_address address)) }
    ensures only { (octets : List ℕ) → spec.IsAddress text.now octets
        → option_map spec.octets_of_address result ≡ Some octets }
    ensures exact { option_map spec.octets_of_address result ≡ spec.address_at text.now }
{
    address_of(text)
}
