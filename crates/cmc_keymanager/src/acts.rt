//! The act, by the first line of the table that fits.
ghost use Rattle.std.specs.Option.{option_copied};
ghost use Rattle.std.specs.Prelude.{◌≡◌, ◌<◌, ◌^◌, IfOk, find, is_some, not, option_map};
ghost use Rattle.cmc_der.specs.Keys.{key_shown};
ghost use Rattle.cmc_x509.specs.ReadKeys.{key_file_at};
ghost use Rattle.cmc_objects.specs.KeyPairs.{key_read};
ghost use Rattle.cmc_rules.specs.KeyManager as table;
ghost use Rattle.cmc_rules.specs.NextKeys as words;

use crate::calls::{drop_call, make_call, name_call};
use crate::questions::ask_key;
use cmc_match::{key_fits_as_read, public_in};
use cmc_meta::{Bytes, Name};
use cmc_next::{has_fitting_key, is_issuing, is_named, key_in};
use cmc_objects::{Certificate, Rotation, Secret, Shared};
use cmc_pass::{Act, Desk, Views};
use cmc_x509::Spki;
use std::alloc::{AllocError, Global};

fn is_readable(file: &Bytes, public: &Option<Spki<'_>>) -> bool
    requires { option_map key_shown public.now ≡ key_file_at file.now }
    ensures { result ≡ is_some (key_file_at file.now) }
{
    let _file = file;
    public.is_some()
}

fn target_key(target: &Option<Shared<Secret>>) -> Option<&Bytes>
    ensures { option_copied result ≡ table.target_key target.now }
{
    match target {
        None => None,
        Some(secret) => key_in(secret),
    }
}

/// Returns the public key of the target's key file, if it is readable.
fn target_public(target: &Option<Shared<Secret>>) -> Option<Spki<'_>>
    ensures { option_map key_shown result ≡ key_read (table.target_key target.now) }
{
    match target {
        None => None,
        Some(secret) => public_in(secret),
    }
}

fn reused(
    alloc: Global,
    certificate: &Certificate,
    desk: &Desk,
    file: Option<&Bytes>,
    public: &Option<Spki<'_>>,
) -> Result<Act, AllocError>
    requires asked { desk.now.asked < 2 ^ 63 }
    requires public { option_map key_shown public.now ≡ key_read (option_copied file) }
    ensures { IfOk result (λ a. a ≡ table.reused certificate.now desk.now (option_copied file.entry)) }
{
    let Some(file) = file else {
        return ask_key(alloc, certificate, desk);
    };
    if !is_readable(file, public) {
        return ask_key(alloc, certificate, desk);
    }
    if key_fits_as_read(&certificate.spec.key, file.as_slice(), public) {
        Ok(Act::Call(make_call(alloc, certificate, file.copy()?)?))
    } else {
        Ok(Act::Nothing)
    }
}

fn rotated(
    alloc: Global,
    certificate: &Certificate,
    desk: &Desk,
    file: Option<&Bytes>,
    public: &Option<Spki<'_>>,
    rotation: Rotation,
) -> Result<Act, AllocError>
    requires asked { desk.now.asked < 2 ^ 63 }
    requires public { option_map key_shown public.now ≡ key_read (option_copied file) }
    ensures { IfOk result (λ a. a ≡ table.rotated certificate.now desk.now (option_copied file.entry) rotation) }
{
    match rotation {
        Rotation::Always => ask_key(alloc, certificate, desk),
        Rotation::Never => reused(alloc, certificate, desk, file, public),
    }
}

fn only_key(alloc: Global, certificate: &Certificate, secret: &Secret) -> Result<Act, AllocError>
    ensures { IfOk result (λ a. a ≡ table.only_key certificate.now secret.now) }
{
    if !has_fitting_key(&certificate.spec.key, secret) {
        return drop_call(secret);
    }
    if is_named(&certificate.status.next_key, secret) {
        return Ok(Act::Nothing);
    }
    let name = secret.meta.name.copy()?;
    name_call(alloc, Some(name), certificate)
}

fn other_key<'a>(name: &Option<Name>, secrets: &'a [Shared<Secret>]) -> Option<&'a Shared<Secret>>
    ensures { option_copied result ≡ find (λ o. not (words.is_named name.now o)) secrets.now }
{
    secrets.iter().find(|secret| !is_named(name, secret))
}

fn dropped(secret: Option<&Shared<Secret>>) -> Result<Act, AllocError>
    ensures { IfOk result (λ a. a ≡ table.dropped (option_copied secret.entry)) }
{
    match secret {
        None => Ok(Act::Nothing),
        Some(secret) => drop_call(secret),
    }
}

fn spare_key(certificate: &Certificate, next: &[Shared<Secret>]) -> Result<Act, AllocError>
    ensures { IfOk result (λ a. a ≡ table.dropped (find (λ o. not (words.is_named certificate.now.status.next_key o)) next.now)) }
{
    dropped(other_key(&certificate.status.next_key, next))
}

fn while_issuing(
    alloc: Global,
    certificate: &Certificate,
    desk: &Desk,
    target: &Option<Shared<Secret>>,
    next: &[Shared<Secret>],
) -> Result<Act, AllocError>
    requires { desk.now.asked < 2 ^ 63 }
    ensures { IfOk result (λ a. a ≡ table.while_issuing certificate.now desk.now target.now next.now) }
{
    match next {
        [] => rotated(
            alloc,
            certificate,
            desk,
            target_key(target),
            &target_public(target),
            certificate.spec.key.rotation_at_use(),
        ),
        [secret] => only_key(alloc, certificate, secret),
        _ => spare_key(certificate, next),
    }
}

fn unnamed(alloc: Global, certificate: &Certificate) -> Result<Act, AllocError>
    ensures { IfOk result (λ a. a ≡ table.unnamed certificate.now certificate.now.status.next_key) }
{
    match &certificate.status.next_key {
        None => Ok(Act::Nothing),
        Some(_) => name_call(alloc, None, certificate),
    }
}

fn while_idle(
    alloc: Global,
    certificate: &Certificate,
    next: &[Shared<Secret>],
) -> Result<Act, AllocError>
    ensures { IfOk result (λ a. a ≡ table.while_idle certificate.now next.now) }
{
    match next {
        [] => unnamed(alloc, certificate),
        [secret, ..] => drop_call(secret),
    }
}

fn keys_for(
    alloc: Global,
    certificate: &Certificate,
    desk: &Desk,
    target: &Option<Shared<Secret>>,
    next: &[Shared<Secret>],
) -> Result<Act, AllocError>
    requires { desk.now.asked < 2 ^ 63 }
    ensures { IfOk result (λ a. a ≡ table.keys_for certificate.now desk.now target.now next.now) }
{
    if is_issuing(certificate) {
        while_issuing(alloc, certificate, desk, target, next)
    } else {
        while_idle(alloc, certificate, next)
    }
}

/// What the controller does on these views; it does not look at the moment `now`.
///
/// It does nothing where there is no Certificate. Where the condition Issuing is not True it deletes the first of the
/// Secrets with a next key, and once none is left takes the status's `nextPrivateKeySecretName` away.
///
/// While Issuing is True it keeps one such Secret. Of several it deletes the first that the status does not name. One
/// whose key is not readable, or not of the algorithm and size of the specification, it deletes, and of one that fits
/// it writes the name into the status, if that has not got it. Where there is none it asks for a key. With
/// the `rotationPolicy` Never it takes the key of the target Secret (`secretName`) again in place of that, if that
/// fits, and does nothing if that is readable and does not fit.
///
/// Deletions and status updates name the version that is seen.
///
/// Fewer than 2^63 questions were asked before (`desk.asked`): the next one has a number.
#[tactic(auto, unfolding(cmc_rules::specs::KeyManager::key_manager))]
pub fn act(alloc: Global, views: &Views, now: i64, desk: &Desk) -> Result<Act, AllocError>
    requires { desk.now.asked < 2 ^ 63 }
    ensures { IfOk result (λ a. a ≡ table.key_manager views.now desk.now) }
{
    let _now = now;
    match &views.certificate {
        None => Ok(Act::Nothing),
        Some(certificate) => keys_for(
            alloc,
            certificate,
            desk,
            &views.secret,
            views.next.as_slice(),
        ),
    }
}
