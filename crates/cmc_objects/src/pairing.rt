//! The private key and the certificate of a Secret, read together.
ghost use Rattle.std.specs.Option.{option_copied};
ghost use Rattle.std.specs.Prelude.{◌≡◌, ◌↔◌, IsTrue, option_map};
ghost use Rattle.cmc_der.specs.Keys.{cert_shown, key_shown};
ghost use Rattle.cmc_x509.specs.ReadCertificates.{certificate_fields_at};
ghost use Rattle.cmc_x509.specs.ReadKeys.{key_file_at};
ghost use Rattle.cmc_objects.specs.KeyPairs as spec;

use cmc_meta::Bytes;
use cmc_x509::{CertFields, Spki, read_cert, read_key};

/// Whether the key (`tls.key`) and the certificate (`tls.crt`) of a Secret are readable and have one public key, and
/// the validity of the certificate in seconds since 1970-01-01T00:00:00Z, 0 where they are no pair.
#[derive(Clone, Copy)]
pub struct Pairing {
    pub pair: bool,
    pub not_before: i64,
    pub not_after: i64,
}

/// Whether two public keys have equal parts.
pub fn is_one_key(left: &Spki<'_>, right: &Spki<'_>) -> bool
    ensures means { IsTrue result ↔ (key_shown left.now ≡ key_shown right.now) }
    ensures value { result ≡ spec.is_one_key (key_shown left.now) (key_shown right.now) }
{
    left.same(right)
}

fn certificate_with_key<'a>(
    public: &Option<Spki<'_>>,
    certificate: &'a [u8],
) -> Option<CertFields<'a>>
    ensures { option_map cert_shown result ≡ spec.fields_with_key (option_map key_shown public.now) (certificate_fields_at certificate.now) }
{
    match public {
        None => None,
        Some(public) => match read_cert(certificate) {
            Err(_) => None,
            Ok(fields) => {
                if is_one_key(public, &fields.key) {
                    Some(fields)
                } else {
                    None
                }
            }
        },
    }
}

/// Returns the public key of a file of a private key: `None` exactly if `file` is not readable.
pub fn public_of<'a>(file: &'a [u8]) -> Option<Spki<'a>>
    ensures { option_map key_shown result ≡ key_file_at file.now }
{
    read_key(file).ok()
}

/// Returns the public key of `file`, if there is one and it is readable.
pub fn public_in<'a>(file: Option<&'a Bytes>) -> Option<Spki<'a>>
    ensures { option_map key_shown result ≡ spec.key_read (option_copied file.entry) }
{
    match file {
        None => None,
        Some(file) => public_of(file.as_slice()),
    }
}

/// Returns the fields of `certificate`, if there is one, it is readable and its public key is `public`.
pub fn certificate_of<'a>(
    public: &Option<Spki<'_>>,
    certificate: Option<&'a Bytes>,
) -> Option<CertFields<'a>>
    ensures { option_map cert_shown result ≡ spec.pair_with_key (option_map key_shown public.now) (option_copied certificate.entry) }
{
    match certificate {
        None => None,
        Some(certificate) => certificate_with_key(public, certificate.as_slice()),
    }
}

/// What is known of a pair with these fields.
pub fn pairing_of(pair: Option<CertFields<'_>>) -> Pairing
    ensures pair { result.pair ≡ spec.is_paired (option_map cert_shown pair.entry) }
    ensures begins { result.not_before ≡ spec.begins (option_map cert_shown pair.entry) }
    ensures ends { result.not_after ≡ spec.ends (option_map cert_shown pair.entry) }
{
    match pair {
        None => Pairing {
            pair: false,
            not_before: 0,
            not_after: 0,
        },
        Some(fields) => Pairing {
            pair: true,
            not_before: fields.not_before,
            not_after: fields.not_after,
        },
    }
}
