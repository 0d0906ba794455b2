//! The private key of an issuance in progress.
ghost use Rattle.std.specs.Option.{option_copied};
ghost use Rattle.std.specs.Prelude.{◌≡◌, option_map};
ghost use Rattle.cmc_der.specs.Keys.{key_shown};
ghost use Rattle.cmc_objects.specs.KeyPairs.{key_read};
ghost use Rattle.cmc_match.specs.Facts as facts;
ghost use Rattle.cmc_rules.specs.NextKeys as words;

use cmc_match::{key_fits_as_read, part_under, public_in};
use cmc_meta::{Bytes, Name};
use cmc_objects::{KeySpec, Secret, Shared};
use cmc_x509::Spki;

/// The file of the Secret's private key, in DER (`tls.key`); `None` exactly where the Secret has none.
pub fn key_in(secret: &Secret) -> Option<&Bytes>
    ensures { option_copied result ≡ facts.key_in secret.now }
{
    part_under(&secret.parts, "tls.key")
}

/// Whether the Secret has this name; with no name it has not.
pub fn is_named(name: &Option<Name>, secret: &Secret) -> bool
    ensures { result ≡ words.is_named name.now secret.now }
{
    match name {
        None => false,
        Some(name) => secret.meta.name.as_slice() == name.as_slice(),
    }
}

/// The Secret of this name among those with a next key; `None` exactly where none has it, or no name is given.
pub fn named_key<'a>(name: &Option<Name>, next: &'a [Shared<Secret>]) -> Option<&'a Shared<Secret>>
    ensures { option_copied result ≡ words.named_key name.now next.now }
{
    next.iter().find(|secret| is_named(name, secret))
}

fn is_fitting(spec: &KeySpec, file: Option<&Bytes>, public: &Option<Spki<'_>>) -> bool
    requires { option_map key_shown public.now ≡ key_read (option_copied file) }
    ensures { result ≡ words.is_fitting spec.now (option_copied file.entry) }
{
    match file {
        None => false,
        Some(file) => key_fits_as_read(spec, file.as_slice(), public),
    }
}

/// Whether the Secret has a readable key file, of the algorithm and the size that are asked for.
pub fn has_fitting_key(spec: &KeySpec, secret: &Secret) -> bool
    ensures { result ≡ words.has_fitting_key spec.now secret.now }
{
    is_fitting(spec, key_in(secret), &public_in(secret))
}
