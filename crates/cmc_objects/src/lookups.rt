//! Labels and annotations, and the data of Secrets, looked up by `str`.
ghost use Rattle.std.specs.BTreeMap.{is_at};
ghost use Rattle.std.specs.Cmp.Lexicographic.{slice_cmp};
ghost use Rattle.std.specs.Map.{lookup};
ghost use Rattle.std.specs.Option.{option_copied};
ghost use Rattle.std.specs.Ordering.{nat_cmp};
ghost use Rattle.std.specs.Prelude.{◌≡◌};
ghost use Rattle.std.specs.Str.{bytes_eq};
ghost use Rattle.cmc_meta.specs.PairLists.{text_by_key};

use crate::parts::Parts;
use cmc_meta::{Bytes, Pairs, Text};
use std::collections::BTreeMap;

fn is_named(name: &Text, key: &str) -> bool
    ensures { result ≡ bytes_eq key.now name.now }
{
    key == name.as_str()
}

/// The value under the key; `None` exactly where no pair has it.
///
/// It goes over the pairs, since a map by `Text` is not searched by a `str`; such maps have few pairs.
fn value_under<'a, V>(map: &'a BTreeMap<Text, V>, key: &str) -> Option<&'a V>
    ensures { option_copied result ≡ lookup (is_at (slice_cmp nat_cmp key.now)) map.now.entries }
{
    for (name, value) in map.iter() {
        if is_named(name, key) {
            return Some(value);
        }
    }
    None
}

/// The text under the key; `None` exactly where no pair has it.
pub fn text_under<'a>(pairs: &'a Pairs, key: &str) -> Option<&'a Text>
    ensures { option_copied result ≡ text_by_key pairs.now key.now }
{
    value_under(pairs.as_map(), key)
}

/// The bytes under the name; `None` exactly where no pair has it.
pub fn part_under<'a>(parts: &'a Parts, key: &str) -> Option<&'a Bytes>
    ensures { option_copied result ≡ text_by_key parts.now key.now }
{
    value_under(parts.as_map(), key)
}
