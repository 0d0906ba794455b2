//! What labels and annotations say.
ghost use Rattle.std.specs.Prelude.{◌≡◌, ◌↔◌, IsTrue, Some};
ghost use Rattle.cmc_meta.specs.PairLists.{text_by_key};
ghost use Rattle.cmc_match.specs.Marks as spec;

use cmc_meta::Pairs;
use cmc_objects::{Certificate, Secret, text_under};

/// Whether this text stands under the key.
pub fn has_text(pairs: &Pairs, key: &str, text: &str) -> bool
    ensures value { result ≡ spec.has_text pairs.now key.now text.now }
    ensures means { IsTrue result ↔ (text_by_key pairs.now key.now ≡ Some text.now) }
{
    match text_under(pairs, key) {
        None => false,
        Some(found) => found.as_str() == text,
    }
}

/// Whether the Secret is labelled as one that holds the private key of an issuance in progress.
pub fn is_next_key(secret: &Secret) -> bool
    ensures { result ≡ spec.is_next_key secret.now }
{
    has_text(
        &secret.meta.labels,
        "cert-manager.io/next-private-key",
        "true",
    )
}

/// Whether the Secret is annotated as one that holds a temporary certificate.
pub fn is_temporary(secret: &Secret) -> bool
    ensures { result ≡ spec.is_temporary secret.now }
{
    has_text(
        &secret.meta.annotations,
        "cert-manager.io/temporary-certificate",
        "true",
    )
}

/// Whether the Certificate is annotated to get a temporary certificate while its request waits.
pub fn asks_for_temporary(certificate: &Certificate) -> bool
    ensures { result ≡ spec.asks_for_temporary certificate.now }
{
    has_text(
        &certificate.meta.annotations,
        "cert-manager.io/issue-temporary-certificate",
        "true",
    )
}
