//! The values that requests and certificates are built of, each written after the octets that stand before it.
ghost use Rattle.std.specs.Prelude.{◌≡◌, ◌≢◌, ◌%◌, ◌++◌, ◌∷◌, OnOk};
ghost use Rattle.cmc_der.specs.Builders.{value};
ghost use Rattle.cmc_der.specs.Integers.{integer_of};

use cmc_der::{put_integer, put_value};
use std::alloc::{AllocError, Global};

// No value is built of more octets: a longer one answers as if there were no memory. Certificates and requests
// of that size are read by nobody.
const MOST: usize = 1 << 30;

/// The value with this tag, whose contents octets are those of `front` and of `back` after them.
pub fn push_pair(octets: &mut Vec<u8>, tag: u8, front: &[u8], back: &[u8]) -> Result<(), AllocError>
    requires { tag % 32 ≢ 31 }
    ensures { OnOk result (octets.new.items ≡ octets.old.items ++ value tag (front.now ++ back.now)) }
{
    if front.len() > MOST || back.len() > MOST {
        return Err(AllocError);
    }
    put_value(octets, tag, front, back)
}

/// The value with this tag and these contents octets.
pub fn push_value(octets: &mut Vec<u8>, tag: u8, contents: &[u8]) -> Result<(), AllocError>
    requires { tag % 32 ≢ 31 }
    ensures { OnOk result (octets.new.items ≡ octets.old.items ++ value tag contents.now) }
{
    push_pair(octets, tag, &[], contents)
}

/// The value with the tag `outer` whose contents octets are the value with the tag `inner` and these contents octets.
pub fn push_nested(
    alloc: Global,
    octets: &mut Vec<u8>,
    outer: u8,
    inner: u8,
    contents: &[u8],
) -> Result<(), AllocError>
    requires outer { outer % 32 ≢ 31 }
    requires inner { inner % 32 ≢ 31 }
    ensures { OnOk result (octets.new.items
        ≡ octets.old.items ++ value outer (value inner contents.now)) }
{
    let mut nested = Vec::new(alloc);
    push_value(&mut nested, inner, contents)?;
    push_value(octets, outer, &nested)
}

/// The INTEGER of the number that these octets spell, the highest first.
pub fn push_integer(octets: &mut Vec<u8>, bytes: &[u8]) -> Result<(), AllocError>
    ensures { OnOk result (octets.new.items ≡ octets.old.items ++ value 2 (integer_of bytes.now)) }
{
    if bytes.len() > MOST {
        return Err(AllocError);
    }
    put_integer(octets, bytes)
}

/// The BIT STRING of these octets.
pub fn push_bits(octets: &mut Vec<u8>, bytes: &[u8]) -> Result<(), AllocError>
    ensures { OnOk result (octets.new.items ≡ octets.old.items ++ value 3 (0 ∷ bytes.now)) }
{
    push_pair(octets, 3, &[0], bytes)
}
