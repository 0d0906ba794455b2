//! Numbers as texts.
ghost use Rattle.std.specs.Char.{is_ascii_digit};
ghost use Rattle.std.specs.List.{list_all};
ghost use Rattle.std.specs.Prelude.{◌≡◌};
ghost use Rattle.cmc_meta.specs.Decimals as words;

fn are_digits(text: &[u8]) -> bool
    ensures { result ≡ list_all is_ascii_digit text.now }
{
    text.iter().all(|byte| byte.is_ascii_digit())
}

fn is_decimal(text: &[u8]) -> bool
    ensures { result ≡ words.is_decimal text.now }
{
    !text.is_empty() && (are_digits(text) && (text.len() == 1 || text[0] != b'0'))
}

/// The number that the text writes in decimal, without sign or leading zero, as resource versions are written
/// (Kubernetes API conventions): 0 to 2^64 - 1. `None` where it writes no such number.
#[tactic(auto, using(crate::proofs::DecimalLaws::numeral))]
pub fn number_in(text: &str) -> Option<u64>
    ensures { result ≡ words.number_in text.now }
{
    if !is_decimal(text.as_bytes()) {
        return None;
    }
    match text.parse::<u64>() {
        Ok(number) => Some(number),
        Err(_) => None,
    }
}
