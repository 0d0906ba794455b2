// What the texts are that name the subject of a certificate.
ghost use Rattle.std.specs.Char.{is_control};
ghost use Rattle.std.specs.List.{list_all, list_any};
ghost use Rattle.std.specs.Prelude.{◌≡◌};
ghost use Rattle.std.specs.Str.{chars};
ghost use Rattle.cmc_meta.specs.Wordings as spec;

fn are_printable(bytes: &[u8]) -> bool
    ensures { result ≡ list_all spec.is_printable bytes.now }
{
    bytes.iter().all(|byte| (0x20..=0x7E).contains(byte))
}

/// Whether the text has 1 to 253 printable characters of ASCII, the blank included, and no others: what
/// a DNS name, an email address or a URI of a certificate may be.
pub fn is_printable_name(text: &str) -> bool
    ensures { result ≡ spec.is_printable_name text.now }
{
    1 <= text.len() && text.len() <= 253 && are_printable(text.as_bytes())
}

fn has_control(text: &str) -> bool
    ensures { result ≡ list_any is_control (chars text.now) }
{
    text.chars().any(|character| character.is_control())
}

/// Whether the text has no control character: what a common name may be.
pub fn is_clean(text: &str) -> bool
    ensures { result ≡ spec.is_clean text.now }
{
    !has_control(text)
}
