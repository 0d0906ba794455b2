//! The name that a number gives (Kubernetes API conventions, `generateName`).
ghost use Rattle.std.specs.Prelude.{◌≡◌, ◌++◌, ◌<◌, true, IfOk, slice_index};
ghost use Rattle.cmc_meta.specs.Names.{is_subdomain};
ghost use Rattle.cmc_model.specs.Generated as spec;

use cmc_meta::{BadName, Name};
use std::alloc::{AllocError, Global};

fn digit(number: u128) -> u8
    requires { number < 27 }
    ensures { result ≡ slice_index spec.digits number }
{
    let digits = b"bcdfghjklmnpqrstvwxz2456789";
    digits[number as usize]
}

fn low_digits(
    alloc: Global,
    at_most: u64,
    at_least: u64,
    number: u128,
) -> Result<Vec<u8>, AllocError>
    ensures { IfOk result (λ v. v.items ≡ spec.low_digits at_most at_least number) }
{
    let mut digits = Vec::new(alloc);
    let mut rest = number;
    let mut room = at_most;
    let mut least = at_least;
    while room > 0 {
        if rest == 0 && least == 0 {
            return Ok(digits);
        }
        digits.push(digit(rest % 27))?;
        rest /= 27;
        room -= 1;
        least = least.saturating_sub(1);
    }
    Ok(digits)
}

fn suffix(alloc: Global, number: u128) -> Result<Vec<u8>, AllocError>
    ensures { IfOk result (λ v. v.items ≡ spec.suffix number) }
{
    let mut digits = low_digits(alloc, 14, 5, number)?;
    digits.reverse();
    Ok(digits)
}

fn prefix(alloc: Global, name: &[u8]) -> Result<Vec<u8>, AllocError>
    ensures { IfOk result (λ v. v.items ≡ spec.prefix name.now) }
{
    let mut bytes = name.to_vec(alloc)?;
    bytes.push(b'-')?;
    bytes.truncate(58);
    Ok(bytes)
}

fn joined(mut bytes: Vec<u8>, more: &[u8]) -> Result<Vec<u8>, AllocError>
    ensures { IfOk result (λ v. v.items ≡ bytes.items ++ more.now) }
{
    bytes.extend_from_slice(more)?;
    Ok(bytes)
}

fn name_of_bytes(alloc: Global, bytes: &[u8]) -> Result<Name, AllocError>
    requires { is_subdomain bytes.now ≡ true }
    ensures { IfOk result (λ n. n ≡ bytes.now) }
{
    let Ok(text) = str::from_utf8(bytes) else {
        unreachable!();
    };
    match Name::read(alloc, text) {
        Ok(name) => Ok(name),
        Err(BadName::NoMemory) => Err(AllocError),
        Err(BadName::NotSubdomain) => unreachable!(),
    }
}

/// The name that this number gives, with the name and a dash, cut to 58 bytes, in front. It is a DNS subdomain again.
#[tactic(auto, unfolding(cmc_model::specs::Generated::generated_name))]
pub fn generated_name(alloc: Global, name: &Name, number: u128) -> Result<Name, AllocError>
    ensures { IfOk result (λ n. n ≡ spec.generated_name name.now number) }
{
    let text = name.as_str();
    let bytes = joined(
        prefix(alloc, text.as_bytes())?,
        suffix(alloc, number)?.as_slice(),
    )?;
    name_of_bytes(alloc, bytes.as_slice())
}
