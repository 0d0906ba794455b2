//! The act, by the first line of the table that fits.
ghost use Rattle.std.specs.Option.{option_copied};
ghost use Rattle.std.specs.Prelude.{◌≡◌, ◌↔◌, ℕ, ℤ, List, IfOk, IsTrue, Some, true, false, option_map};
ghost use Rattle.std.specs.declared.option.Option.{Option as OptionValue};
ghost use Rattle.cmc_objects.specs.declared.secret.Secret.{Secret as SecretValue};
ghost use Rattle.cmc_der.specs.Keys.{key_shown};
ghost use Rattle.cmc_x509.specs.ReadKeys.{key_file_at};
ghost use Rattle.cmc_objects.specs.KeyPairs.{key_read};
ghost use Rattle.cmc_objects.specs.Requests.{is_run_time};
ghost use Rattle.cmc_pass.specs.declared.pass.Act.TheVariants.{Nothing};
ghost use Rattle.cmc_issuing.specs.Choices.{issuing_act_of};
ghost use Rattle.cmc_rules.specs.Issuance as table;
ghost use Rattle.cmc_rules.specs.NextRequests.{HasNextRevision};

use crate::choices::{Choice, build, is_nothing};
use crate::deciding::{
    fails_now, is_certified, is_granted, is_kept_for_keys, lacks_certificate, refusal,
};
use cmc_answers::temporary;
use cmc_match::{asks_for_temporary, key_fits_as_read, next_request, public_in};
use cmc_meta::Bytes;
use cmc_next::{is_denied, is_issuing, is_refused, is_wanted, key_in, named_key};
use cmc_objects::{Certificate, CertificateRequest, Secret, Shared};
use cmc_pass::{Act, Desk, Views};
use cmc_x509::Spki;
use std::alloc::{AllocError, Global};

/// The largest certificate that is read, in octets.
const MAX_CERTIFICATE: usize = 16_777_216;

fn stand_in_with<'a>(
    certificate: &Certificate,
    file: &'a Bytes,
    target: &Option<Shared<Secret>>,
    stand_in: Option<Bytes>,
) -> Choice<'a>
    ensures { (moment : ℤ) → issuing_act_of moment certificate.now target.now result ≡ table.temporary_with certificate.now file.now target.now stand_in }
{
    match stand_in {
        Some(stand_in) if stand_in.as_slice().len() <= MAX_CERTIFICATE => {
            Choice::Temporary { file, stand_in }
        }
        _ => Choice::Nothing,
    }
}

fn while_waiting<'a>(
    alloc: Global,
    moment: i64,
    certificate: &Certificate,
    file: &'a Bytes,
    public: &Option<Spki<'_>>,
    target: &Option<Shared<Secret>>,
    request: &CertificateRequest,
) -> Result<Choice<'a>, AllocError>
    requires time { is_run_time moment ≡ true }
    requires public { option_map key_shown public.now ≡ key_file_at file.now }
    ensures { IfOk result (λ choice. issuing_act_of moment certificate.now target.now choice ≡ table.while_waiting moment certificate.now file.now target.now request.now) }
{
    let stands_in = asks_for_temporary(certificate)
        && !is_denied(request)
        && !is_kept_for_keys(target)
        && lacks_certificate(file.as_slice(), public, target);
    if !stands_in {
        return Ok(Choice::Nothing);
    }
    let stand_in = temporary(
        alloc,
        request.spec.request.as_slice(),
        file.as_slice(),
        moment,
    )?;
    Ok(stand_in_with(certificate, file, target, stand_in))
}

/// A certificate that is not readable, or whose public key is not that of the next key, ends the issuance with a failure.
fn with_granted<'a>(
    certificate: &Certificate,
    file: &'a Bytes,
    public: &Option<Spki<'_>>,
    target: &Option<Shared<Secret>>,
    request: &'a CertificateRequest,
) -> Choice<'a>
    requires { option_map key_shown public.now ≡ key_file_at file.now }
    ensures { (moment : ℤ) → issuing_act_of moment certificate.now target.now result ≡ table.with_granted moment certificate.now file.now target.now request.now }
{
    if !is_certified(
        file.as_slice(),
        public,
        request.status.certificate.as_slice(),
    ) {
        return Choice::Fail {
            reason: "InvalidCertificate",
        };
    }
    if is_kept_for_keys(target) {
        return Choice::Nothing;
    }
    Choice::Issue { file, request }
}

fn with_wanted<'a>(
    alloc: Global,
    moment: i64,
    certificate: &Certificate,
    file: &'a Bytes,
    public: &Option<Spki<'_>>,
    target: &Option<Shared<Secret>>,
    request: &'a CertificateRequest,
) -> Result<Choice<'a>, AllocError>
    requires time { is_run_time moment ≡ true }
    requires public { option_map key_shown public.now ≡ key_file_at file.now }
    ensures { IfOk result (λ choice. issuing_act_of moment certificate.now target.now choice ≡ table.with_wanted moment certificate.now file.now target.now request.now) }
{
    if is_refused(request) {
        if fails_now(certificate, request) {
            return Ok(Choice::Fail {
                reason: refusal(request),
            });
        }
        return Ok(Choice::Nothing);
    }
    if is_granted(request) {
        return Ok(with_granted(certificate, file, public, target, request));
    }
    while_waiting(alloc, moment, certificate, file, public, target, request)
}

fn with_request<'a>(
    alloc: Global,
    moment: i64,
    certificate: &Certificate,
    file: &'a Bytes,
    public: &Option<Spki<'_>>,
    target: &Option<Shared<Secret>>,
    request: Option<&'a Shared<CertificateRequest>>,
) -> Result<Choice<'a>, AllocError>
    requires time { is_run_time moment ≡ true }
    requires public { option_map key_shown public.now ≡ key_file_at file.now }
    ensures { IfOk result (λ choice. issuing_act_of moment certificate.now target.now choice ≡ table.with_request moment certificate.now file.now target.now (option_copied request.entry)) }
{
    match request {
        None => Ok(Choice::Nothing),
        Some(request) => {
            if is_wanted(certificate, file.as_slice(), public, request) {
                with_wanted(alloc, moment, certificate, file, public, target, request)
            } else {
                Ok(Choice::Nothing)
            }
        }
    }
}

/// Whether the controller may have something to do for the request, as far as its conditions tell: an issuer has decided on
/// it, or the Certificate asks for a certificate that stands in.
fn is_worth_reading(certificate: &Certificate, request: Option<&Shared<CertificateRequest>>) -> bool
    ensures { result ≡ false → (moment : ℤ) (file : List ℕ) (target : OptionValue SecretValue) →
        table.with_request moment certificate.now file target (option_copied request.entry) ≡ Nothing }
{
    match request {
        None => false,
        Some(request) => {
            is_refused(request) || is_granted(request) || asks_for_temporary(certificate)
        }
    }
}

fn with_file<'a>(
    alloc: Global,
    moment: i64,
    certificate: &Certificate,
    target: &Option<Shared<Secret>>,
    requests: &'a [Shared<CertificateRequest>],
    file: Option<&'a Bytes>,
    public: &Option<Spki<'_>>,
) -> Result<Choice<'a>, AllocError>
    requires time { is_run_time moment ≡ true }
    requires public { option_map key_shown public.now ≡ key_read (option_copied file) }
    ensures { IfOk result (λ choice. issuing_act_of moment certificate.now target.now choice ≡ table.with_file moment certificate.now target.now requests.now (option_copied file.entry)) }
{
    match file {
        None => Ok(Choice::Nothing),
        Some(file) => {
            // Most looks find a request that waits.
            let request = next_request(certificate.status.revision, requests);
            if !is_worth_reading(certificate, request) {
                return Ok(Choice::Nothing);
            }
            if key_fits_as_read(&certificate.spec.key, file.as_slice(), public) {
                with_request(alloc, moment, certificate, file, public, target, request)
            } else {
                Ok(Choice::Nothing)
            }
        }
    }
}

fn with_key_of<'a>(
    alloc: Global,
    moment: i64,
    certificate: &Certificate,
    target: &Option<Shared<Secret>>,
    requests: &'a [Shared<CertificateRequest>],
    key: Option<&'a Shared<Secret>>,
) -> Result<Choice<'a>, AllocError>
    requires { is_run_time moment ≡ true }
    ensures { IfOk result (λ choice. issuing_act_of moment certificate.now target.now choice ≡ table.with_key_of moment certificate.now target.now requests.now (option_copied key.entry)) }
{
    match key {
        None => Ok(Choice::Nothing),
        Some(key) => with_file(
            alloc,
            moment,
            certificate,
            target,
            requests,
            key_in(key),
            &public_in(key),
        ),
    }
}

/// What the controller chooses to do for the Certificate of the views.
fn choose<'a>(
    alloc: Global,
    moment: i64,
    certificate: &Certificate,
    views: &'a Views,
) -> Result<Choice<'a>, AllocError>
    requires { is_run_time moment ≡ true }
    ensures { IfOk result (λ choice. issuing_act_of moment certificate.now views.now.secret choice ≡ table.issuing_of moment views.now.next views.now.secret views.now.requests (Some certificate.now)) }
{
    if !is_issuing(certificate) {
        return Ok(Choice::Nothing);
    }
    let key = named_key(&certificate.status.next_key, views.next.as_slice());
    with_key_of(
        alloc,
        moment,
        certificate,
        &views.secret,
        views.requests.as_slice(),
        key,
    )
}

/// What the controller does for the Certificate that it sees (the issuing controller of cert-manager): nothing where
/// none is being issued, or where no fitting key, or no one request of the next revision that asks for what the
/// Certificate asks for with that key, stands. A request that came to nothing in this issuance ends it with a failure,
/// and so does a certificate with another public key. A certificate that an issuer signed for a request that is
/// approved and not denied is written into the Certificate's Secret, behind a live read of the Certificate and before
/// its status gets the next revision. While the request waits, a Certificate that asks for it gets a certificate that
/// stands in. A Secret that holds a next key itself is never written.
///
/// `now` is the moment of the pass, in seconds since 1970-01-01T00:00:00Z. The desk is not looked at.
#[tactic(auto, unfolding(cmc_rules::specs::Issuance::issuing))]
pub fn act(alloc: Global, views: &Views, now: i64, _desk: &Desk) -> Result<Act, AllocError>
    requires time { is_run_time now ≡ true }
    requires revision { HasNextRevision views.now.certificate }
    ensures { IfOk result (λ a. a ≡ table.issuing views.now now) }
{
    let Some(certificate) = &views.certificate else {
        return Ok(Act::Nothing);
    };
    let choice = choose(alloc, now, certificate, views)?;
    build(alloc, now, certificate, &views.secret, &choice)
}

/// Whether the controller has nothing to do on these views at the moment `now`: whether its act is none. It builds
/// nothing of the act but a certificate that stands in.
#[tactic(auto, unfolding(cmc_rules::specs::Issuance::issuing))]
pub fn is_idle(alloc: Global, views: &Views, now: i64) -> Result<bool, AllocError>
    requires time { is_run_time now ≡ true }
    requires revision { HasNextRevision views.now.certificate }
    ensures { IfOk result (λ idle. IsTrue idle ↔ (table.issuing views.now now ≡ Nothing)) }
{
    let Some(certificate) = &views.certificate else {
        return Ok(true);
    };
    let choice = choose(alloc, now, certificate, views)?;
    Ok(is_nothing(&choice))
}
