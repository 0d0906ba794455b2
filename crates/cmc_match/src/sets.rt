//! Lists of texts as sets.
ghost use Rattle.std.specs.Prelude.{◌≡◌, ◌↔◌, IsTrue};
ghost use Rattle.cmc_match.specs.Sets as spec;
ghost use Rattle.cmc_match.specs.Sets.{IsSameSet};

use cmc_meta::Text;

/// Whether the text is one of these.
pub fn is_among(texts: &[Text], text: &[u8]) -> bool
    ensures { result ≡ spec.is_among texts.now text.now }
{
    texts.iter().any(|other| other.as_slice() == text)
}

fn is_within(texts: &[Text], others: &[Text]) -> bool
    ensures { result ≡ spec.is_within texts.now others.now }
{
    texts.iter().all(|text| is_among(others, text.as_slice()))
}

fn are_within_each_other(left: &[Text], right: &[Text]) -> bool
    ensures { result ≡ spec.is_same_set left.now right.now }
{
    is_within(left, right) && is_within(right, left)
}

/// Whether both have the same texts, whatever their order and however often they are there.
pub fn is_same_set(left: &[Text], right: &[Text]) -> bool
    ensures value { result ≡ spec.is_same_set left.now right.now }
    ensures means { IsTrue result ↔ IsSameSet left.now right.now }
{
    are_within_each_other(left, right)
}
